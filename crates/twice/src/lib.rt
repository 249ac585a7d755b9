//! Each call twice, with stores of its own the second time: where the stores are equal as they are lent, the answers with
//! their sessions are equal, and so is every written store as it is left. The calls' contracts alone show it, so each of
//! them determines its result. All NaNs are one float here.
#![tactic(auto)]

ghost use Rattle.std.specs.Prelude.{◌≡◌};

use bank::Kind;
use control::{PerformanceMetrics, PerformanceSnapshot};
use counts::{Handle, SongFrame};
use pump::Pumped;
use remains::Salvaged;
use ring::{Drained, SampleRing};
use session::{Answered, Session};
use stage::Settings;
use submission::Report;
use timeline::Submission;
use tourfile::{Fault, TourError};
use transport::At;

// ---- what both calls answered

#[derive(Clone, Copy)]
pub struct Twice<T>(pub T, pub T);

// ---- the calls that change the bank

pub fn open(
    settings: Settings,
    queue: &[u64],
    capture: &[u64],
    pool: &mut [f32],
    samples: &[f32],
    rate: u32,
    extent: SongFrame,
    queue2: &[u64],
    capture2: &[u64],
    pool2: &mut [f32],
    samples2: &[f32],
) -> Twice<Answered<Handle>>
    requires { (queue.now ≡ queue2.now) × (capture.now ≡ capture2.now) × (pool.old ≡ pool2.old) × (samples.now ≡ samples2.now) }
    ensures { (result.0 ≡ result.1) × (pool.new ≡ pool2.new) }
{
    let one = clips::open(settings, queue, capture, pool, samples, rate, extent);
    let other = clips::open(settings, queue2, capture2, pool2, samples2, rate, extent);
    Twice(one, other)
}

pub fn load(
    s: Session,
    queue: &[u64],
    capture: &[u64],
    pool: &mut [f32],
    samples: &[f32],
    kind: Kind,
    rate: u32,
    queue2: &[u64],
    capture2: &[u64],
    pool2: &mut [f32],
    samples2: &[f32],
) -> Twice<Answered<Handle>>
    requires { (queue.now ≡ queue2.now) × (capture.now ≡ capture2.now) × (pool.old ≡ pool2.old) × (samples.now ≡ samples2.now) }
    ensures { (result.0 ≡ result.1) × (pool.new ≡ pool2.new) }
{
    let one = clips::load(s, queue, capture, pool, samples, kind, rate);
    let other = clips::load(s, queue2, capture2, pool2, samples2, kind, rate);
    Twice(one, other)
}

pub fn retire(
    s: Session,
    queue: &[u64],
    capture: &[u64],
    h: Handle,
    queue2: &[u64],
    capture2: &[u64],
) -> Twice<Answered<()>>
    requires { (queue.now ≡ queue2.now) × (capture.now ≡ capture2.now) }
    ensures { result.0 ≡ result.1 }
{
    let one = clips::retire(s, queue, capture, h);
    let other = clips::retire(s, queue2, capture2, h);
    Twice(one, other)
}

// ---- the calls that queue

pub fn submit(
    s: Session,
    queue: &mut [u64],
    capture: &mut [u64],
    x: Submission,
    at: At,
    queue2: &mut [u64],
    capture2: &mut [u64],
) -> Twice<Answered<u64>>
    requires { (queue.old ≡ queue2.old) × (capture.old ≡ capture2.old) }
    ensures { (result.0 ≡ result.1) × (queue.new ≡ queue2.new) × (capture.new ≡ capture2.new) }
{
    let one = submission::submit(s, queue, capture, x, at);
    let other = submission::submit(s, queue2, capture2, x, at);
    Twice(one, other)
}

pub fn transition(
    s: Session,
    queue: &mut [u64],
    capture: &mut [u64],
    f: SongFrame,
    at: At,
    queue2: &mut [u64],
    capture2: &mut [u64],
) -> Twice<Answered<u64>>
    requires { (queue.old ≡ queue2.old) × (capture.old ≡ capture2.old) }
    ensures { (result.0 ≡ result.1) × (queue.new ≡ queue2.new) × (capture.new ≡ capture2.new) }
{
    let one = submission::transition(s, queue, capture, f, at);
    let other = submission::transition(s, queue2, capture2, f, at);
    Twice(one, other)
}

pub fn replay(
    s: Session,
    queue: &mut [u64],
    capture: &[u64],
    list: &[u64],
    queue2: &mut [u64],
    capture2: &[u64],
    list2: &[u64],
) -> Twice<Answered<Report>>
    requires { (queue.old ≡ queue2.old) × (capture.now ≡ capture2.now) × (list.now ≡ list2.now) }
    ensures { (result.0 ≡ result.1) × (queue.new ≡ queue2.new) }
{
    let one = submission::replay(s, queue, capture, list);
    let other = submission::replay(s, queue2, capture2, list2);
    Twice(one, other)
}

// ---- the block

pub fn block(
    s: Session,
    queue: &[u64],
    capture: &[u64],
    pool: &[f32],
    out: &mut [f32],
    queue2: &[u64],
    capture2: &[u64],
    pool2: &[f32],
    out2: &mut [f32],
) -> Twice<Answered<u64>>
    requires { (queue.now ≡ queue2.now) × (capture.now ≡ capture2.now) × (pool.now ≡ pool2.now) × (out.old ≡ out2.old) }
    ensures { (result.0 ≡ result.1) × (out.new ≡ out2.new) }
{
    let one = block::block(s, queue, capture, pool, out);
    let other = block::block(s, queue2, capture2, pool2, out2);
    Twice(one, other)
}

// ---- the ring

pub fn pump(
    s: Session,
    queue: &[u64],
    capture: &[u64],
    pool: &[f32],
    r: SampleRing,
    store: &mut [f32],
    frames: usize,
    queue2: &[u64],
    capture2: &[u64],
    pool2: &[f32],
    store2: &mut [f32],
) -> Twice<Pumped>
    requires { (queue.now ≡ queue2.now) × (capture.now ≡ capture2.now) × (pool.now ≡ pool2.now) × (store.old ≡ store2.old) }
    ensures { (result.0 ≡ result.1) × (store.new ≡ store2.new) }
{
    let one = pump::pump(s, queue, capture, pool, r, store, frames);
    let other = pump::pump(s, queue2, capture2, pool2, r, store2, frames);
    Twice(one, other)
}

pub fn drain(
    r: SampleRing,
    store: &[f32],
    out: &mut [f32],
    store2: &[f32],
    out2: &mut [f32],
) -> Twice<Drained>
    requires { (store.now ≡ store2.now) × (out.old ≡ out2.old) }
    ensures { (result.0 ≡ result.1) × (out.new ≡ out2.new) }
{
    let one = ring::drain(r, store, out);
    let other = ring::drain(r, store2, out2);
    Twice(one, other)
}

// ---- the calls around the performance

pub fn start_capture(
    s: Session,
    queue: &[u64],
    capture: &[u64],
    queue2: &[u64],
    capture2: &[u64],
) -> Twice<Answered<()>>
    requires { (queue.now ≡ queue2.now) × (capture.now ≡ capture2.now) }
    ensures { result.0 ≡ result.1 }
{
    let one = control::start_capture(s, queue, capture);
    let other = control::start_capture(s, queue2, capture2);
    Twice(one, other)
}

pub fn stop_capture(
    s: Session,
    queue: &[u64],
    capture: &[u64],
    list: &mut [u64],
    queue2: &[u64],
    capture2: &[u64],
    list2: &mut [u64],
) -> Twice<Answered<usize>>
    requires { (queue.now ≡ queue2.now) × (capture.now ≡ capture2.now) × (list.old ≡ list2.old) }
    ensures { (result.0 ≡ result.1) × (list.new ≡ list2.new) }
{
    let one = control::stop_capture(s, queue, capture, list);
    let other = control::stop_capture(s, queue2, capture2, list2);
    Twice(one, other)
}

pub fn snapshot(
    s: Session,
    queue: &[u64],
    capture: &[u64],
    queue2: &[u64],
    capture2: &[u64],
) -> Twice<Answered<PerformanceSnapshot>>
    requires { (queue.now ≡ queue2.now) × (capture.now ≡ capture2.now) }
    ensures { result.0 ≡ result.1 }
{
    let one = control::snapshot(s, queue, capture);
    let other = control::snapshot(s, queue2, capture2);
    Twice(one, other)
}

pub fn apply_snapshot(
    s: Session,
    queue: &[u64],
    capture: &[u64],
    x: PerformanceSnapshot,
    queue2: &[u64],
    capture2: &[u64],
) -> Twice<Answered<()>>
    requires { (queue.now ≡ queue2.now) × (capture.now ≡ capture2.now) }
    ensures { result.0 ≡ result.1 }
{
    let one = control::apply_snapshot(s, queue, capture, x);
    let other = control::apply_snapshot(s, queue2, capture2, x);
    Twice(one, other)
}

pub fn metrics(
    s: Session,
    queue: &[u64],
    capture: &[u64],
    queue2: &[u64],
    capture2: &[u64],
) -> Twice<Answered<PerformanceMetrics>>
    requires { (queue.now ≡ queue2.now) × (capture.now ≡ capture2.now) }
    ensures { result.0 ≡ result.1 }
{
    let one = control::metrics(s, queue, capture);
    let other = control::metrics(s, queue2, capture2);
    Twice(one, other)
}

// ---- a tour's file

pub fn read_tour(
    clips: &[u64; 32],
    file: &[u8],
    list: &mut [u64],
    clips2: &[u64; 32],
    file2: &[u8],
    list2: &mut [u64],
) -> Twice<Result<usize, TourError>>
    requires { (clips.now ≡ clips2.now) × (file.now ≡ file2.now) × (list.old ≡ list2.old) }
    ensures { (result.0 ≡ result.1) × (list.new ≡ list2.new) }
{
    let one = tourfile::read_tour(clips, file, list);
    let other = tourfile::read_tour(clips2, file2, list2);
    Twice(one, other)
}

pub fn write_tour(
    clips: &[u64; 32],
    records: &[u64],
    out: &mut [u8],
    clips2: &[u64; 32],
    records2: &[u64],
    out2: &mut [u8],
) -> Twice<Result<usize, TourError>>
    requires { (clips.now ≡ clips2.now) × (records.now ≡ records2.now) × (out.old ≡ out2.old) }
    ensures { (result.0 ≡ result.1) × (out.new ≡ out2.new) }
{
    let one = tourfile::write_tour(clips, records, out);
    let other = tourfile::write_tour(clips2, records2, out2);
    Twice(one, other)
}

pub fn salvage(
    file: &[u8],
    out: &mut [u8],
    list: &mut [u64],
    file2: &[u8],
    out2: &mut [u8],
    list2: &mut [u64],
) -> Twice<Result<Salvaged, Fault>>
    requires { (file.now ≡ file2.now) × (out.old ≡ out2.old) × (list.old ≡ list2.old) }
    ensures { (result.0 ≡ result.1) × (out.new ≡ out2.new) × (list.new ≡ list2.new) }
{
    let one = remains::salvage(file, out, list);
    let other = remains::salvage(file2, out2, list2);
    Twice(one, other)
}
