//! The pump: a block of a session made straight into the ring that the audio callback drains.
#![tactic(auto)]

ghost use Rattle.std.specs.Prelude.{◌≡◌, List, ◌+◌, ◌*◌, ◌^◌, ◌<◌, ◌≤◌, length, Float};
ghost use Rattle.pump.specs.declared.Pumped.{Pumped};
ghost use Rattle.block.specs.Block.{reported};
ghost use Rattle.ring.specs.Ring.{Within};
ghost use Rattle.pump.specs.Pump.{frames_made, weigh_pump, pump_of};
ghost use Rattle.pump.specs.Into.{Pumpable, MadeInto, made_after};

use bank::Bank;
use block::Made;
use ring::SampleRing;
use session::{CLOCK_END, Refusal, Session};
use stage::{Settings, Stage};

/// What a pump gives: how many frames were made, and how many times the playhead passed from a loop's end to its start in
/// them.
#[derive(Clone, Copy)]
pub struct Pushed {
    pub frames: usize,
    pub passes: u64,
}

/// The answer of a pump, and the session and the ring that it leaves.
#[derive(Clone, Copy)]
pub struct Pumped {
    pub answer: Result<Pushed, Refusal>,
    pub session: Session,
    pub ring: SampleRing,
}

/// The frames asked for, held to half the free samples of a store.
fn frames_made(r: SampleRing, size: usize, frames: usize) -> usize
    requires { Within size r }
    ensures { result ≡ frames_made size r frames }
{
    let free = r.free(size);
    frames.min(free / 2)
}

/// 1, the ring, 2, then 4 for the frames made.
#[tactic(auto, using(session::proofs::Parts::clock_most, crate::proofs::Weighing::made_small, ring::proofs::Places::within), unfolding(crate::specs::Pump::weigh_pump, session::specs::Refusal::first))]
pub fn weigh_pump(
    s: Session,
    queue: &[u64],
    capture: &[u64],
    pool: &[f32],
    r: SampleRing,
    size: usize,
    frames: usize,
) -> Result<(), Refusal>
    ensures { result ≡ weigh_pump s queue.now capture.now pool.now r size frames }
{
    if !session::well_formed(s, queue, capture) {
        return Err(Refusal::NotWellFormed);
    }
    if !r.is_within(size) {
        return Err(Refusal::BadRing);
    }
    if !bank::is_pool(pool, s.settings.pool) {
        return Err(Refusal::PoolLength);
    }
    let made = frames_made(r, size, frames);
    if s.stage.clock.0 + made as u64 > CLOCK_END {
        return Err(Refusal::ClockSpent);
    }
    Ok(())
}

/// So many frames into a part of the store that does not reach round its end.
fn straight(
    settings: Settings,
    bank: Bank,
    stage: Stage,
    queued: usize,
    queue: &[u64],
    pool: &[f32],
    store: &mut [f32],
    at: usize,
    frames: usize,
) -> Made
    requires { Pumpable settings bank stage queued queue.now pool.now frames × (at + frames * 2 ≤ length store.old) }
    ensures { MadeInto settings bank stage queued queue.now pool.now store.old at frames result store.new }
{
    let end = at + frames * 2;
    block::fill(
        settings,
        bank,
        stage,
        queued,
        queue,
        pool,
        &mut store[at..end],
    )
}

/// One frame over the store's end: its left sample in the last place, its right one in the first.
fn across(
    settings: Settings,
    bank: Bank,
    stage: Stage,
    queued: usize,
    queue: &[u64],
    pool: &[f32],
    store: &mut [f32],
    at: usize,
) -> Made
    requires { Pumpable settings bank stage queued queue.now pool.now 1 × (at + 1 ≡ length store.old) }
    ensures { MadeInto settings bank stage queued queue.now pool.now store.old at 1 result store.new }
{
    let mut pair: [f32; 2] = [0.0; 2];
    let made = block::fill(settings, bank, stage, queued, queue, pool, &mut pair);
    store[at] = pair[0];
    store[0] = pair[1];
    made
}

/// What frames make after others: the passes of all.
fn joined(before: Result<u64, Refusal>, last: Made) -> Made
    requires { reported before + reported last.answer < 2 ^ 64 }
    ensures { result ≡ made_after before last }
{
    let passes = block::reported_by(before) + block::reported_by(last.answer);
    Made {
        answer: Ok(passes),
        ..last
    }
}

/// So many frames from the store's end, or its last place, on: in that case one frame over the end, and the rest from its
/// start.
fn over(
    settings: Settings,
    bank: Bank,
    stage: Stage,
    queued: usize,
    queue: &[u64],
    pool: &[f32],
    store: &mut [f32],
    at: usize,
    frames: usize,
) -> Made
    requires { Pumpable settings bank stage queued queue.now pool.now frames × (0 < frames) × (frames * 2 < length store.old) × (length store.old ≤ at + 1) × (at ≤ length store.old) × (length store.old ≤ 65536) }
    ensures { MadeInto settings bank stage queued queue.now pool.now store.old at frames result store.new }
{
    if at == store.len() {
        return straight(
            settings,
            bank,
            stage,
            queued,
            queue,
            pool,
            &mut store[..],
            0,
            frames,
        );
    }
    let one = across(
        settings,
        bank,
        stage,
        queued,
        queue,
        pool,
        &mut store[..],
        at,
    );
    let rest = straight(
        settings,
        bank,
        one.stage,
        one.queued,
        queue,
        pool,
        &mut store[..],
        1,
        frames - 1,
    );
    joined(one.answer, rest)
}

/// So many frames round the store from a place on: up to its end, and the rest from there.
fn round(
    settings: Settings,
    bank: Bank,
    stage: Stage,
    queued: usize,
    queue: &[u64],
    pool: &[f32],
    store: &mut [f32],
    at: usize,
    frames: usize,
) -> Made
    requires { Pumpable settings bank stage queued queue.now pool.now frames × (at < length store.old) × (frames * 2 < length store.old) × (length store.old ≤ 65536) }
    ensures { MadeInto settings bank stage queued queue.now pool.now store.old at frames result store.new }
{
    let size = store.len();
    let before = frames.min((size - at) / 2);
    let first = straight(
        settings,
        bank,
        stage,
        queued,
        queue,
        pool,
        &mut store[..],
        at,
        before,
    );
    let left = frames - before;
    if left == 0 {
        return first;
    }
    let rest = over(
        settings,
        bank,
        first.stage,
        first.queued,
        queue,
        pool,
        &mut store[..],
        at + before * 2,
        left,
    );
    joined(first.answer, rest)
}

/// Makes the frames asked for, held to half the free samples, and pushes all of them. Refused, it leaves session, ring and
/// store as they were.
#[tactic(auto, using(crate::proofs::Weighing::accepted, crate::proofs::Weighing::made_fits, crate::proofs::Weighing::pumpable), unfolding(crate::specs::Pump::pump_of, session::specs::Refusal::unless))]
pub fn pump(
    s: Session,
    queue: &[u64],
    capture: &[u64],
    pool: &[f32],
    r: SampleRing,
    store: &mut [f32],
    frames: usize,
) -> Pumped
    ensures { ◌≡◌ {A = Pumped × List Float} (result, store.new) (pump_of s queue.now capture.now pool.now r store.old frames) }
{
    let size = store.len();
    let weighed = weigh_pump(s, queue, capture, pool, r, size, frames);
    match weighed {
        Ok(()) => {
            let made = frames_made(r, size, frames);
            let pushed = round(
                s.settings,
                s.bank,
                s.stage,
                s.queued,
                queue,
                pool,
                &mut store[..],
                r.tail,
                made,
            );
            Pumped {
                answer: Ok(Pushed {
                    frames: made,
                    passes: block::reported_by(pushed.answer),
                }),
                session: Session {
                    stage: pushed.stage,
                    queued: pushed.queued,
                    ..s
                },
                ring: SampleRing {
                    tail: ring::place(size, r.tail, made * 2),
                    ..r
                },
            }
        }
        Err(k) => Pumped {
            answer: Err(k),
            session: s,
            ring: r,
        },
    }
}
