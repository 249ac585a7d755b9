//! Sweeps over an output: the loops of a run, in which nothing is decided anew.
#![tactic(auto)]

ghost use Rattle.std.specs.Prelude.{◌≡◌, true, ◌+◌, ◌-◌, ◌*◌, ◌≤◌, ◌<◌, min, length};
ghost use Rattle.ramp.specs.Ramp.{tick_of};
ghost use Rattle.sweeps.specs.Over.{over};
ghost use Rattle.sweeps.specs.Adds.{share_of, ticks_of, still_adds, stream_adds, four_adds, adds, under_of, both_adds, still_both, cleared, Reads};

use ramp::Ramp;

/// The sample of a part at a place of the run, as heard. A part is where in the pool a run's samples stand; without one it is
/// silent.
fn share(pool: &[f32], part: Option<usize>, k: usize) -> f32
    requires { Reads (length pool.now) part (k + 1) }
    ensures { result ≡ share_of pool.now part k }
{
    match part {
        Some(at) => oneshot::heard(pool[at + k]),
        None => 0.0,
    }
}

/// The places below `to` become +0.0.
pub fn clear(out: &mut [f32], to: usize)
    requires { to ≤ length out.old }
    ensures { out.new ≡ over cleared 0 to out.old }
{
    out[..to].fill(0.0);
}

/// A part × a gain that stands still is added, from a place to a place.
fn add_still(pool: &[f32], part: Option<usize>, out: &mut [f32], from: usize, to: usize, gain: f32)
    requires { (from ≤ to) × (to ≤ length out.old) × Reads (length pool.now) part to }
    ensures { out.new ≡ over (still_adds pool.now part gain) from (to - from) out.old }
{
    for k in from..to {
        let x = share(pool, part, k);
        out[k] += x * gain;
    }
}

/// Samples of the pool from a place on, × a gain that stands still.
#[derive(Clone, Copy)]
pub struct Stream {
    pub at: usize,
    pub gain: f32,
}

/// What stands at a place, plus a stream's share.
fn add_stream(pool: &[f32], s: Stream, k: usize, x: f32) -> f32
    requires { s.at + k < length pool.now }
    ensures { result ≡ stream_adds pool.now s k x }
{
    let y = share(pool, Some(s.at), k);
    x + y * s.gain
}

/// Four streams are added in turn, to the places below `to`: in one sweep, so that they wait for memory together.
pub fn add_four(
    pool: &[f32],
    a: Stream,
    b: Stream,
    c: Stream,
    d: Stream,
    out: &mut [f32],
    to: usize,
)
    requires { (to ≤ length out.old) × (a.at + to ≤ length pool.now) × (b.at + to ≤ length pool.now) × (c.at + to ≤ length pool.now) × (d.at + to ≤ length pool.now) }
    ensures { out.new ≡ over (four_adds pool.now a b c d) 0 to out.old }
{
    for k in 0..to {
        let x = add_stream(pool, a, k, out[k]);
        let y = add_stream(pool, b, k, x);
        let z = add_stream(pool, c, k, y);
        let w = add_stream(pool, d, k, z);
        out[k] = w;
    }
}

/// A ramp that does not land, a frame on.
fn rise(mut r: Ramp) -> Ramp
    requires { 1 < r.remaining }
    ensures { result ≡ (tick_of r).ramp }
{
    r.value += r.step;
    r.remaining -= 1;
    r
}

/// A part × a ramp that does not land is added to so many frames. The ramp that they leave.
fn add_rising(pool: &[f32], part: Option<usize>, out: &mut [f32], frames: usize, ramp: Ramp) -> Ramp
    requires { (frames * 2 ≤ length out.old) × Reads (length pool.now) part (frames * 2) × (frames ≤ ramp.remaining - 1) }
    ensures { (result ≡ ticks_of frames ramp) × (out.new ≡ over (adds pool.now part ramp) 0 (frames * 2) out.old) }
{
    let mut r = ramp;
    for j in 0..frames {
        let next = rise(r);
        let g = next.value;
        let k = j * 2;
        let n = k + 1;
        let x = share(pool, part, k);
        let y = share(pool, part, n);
        out[k] += x * g;
        out[n] += y * g;
        r = next;
    }
    r
}

/// Of so many frames those in which a ramp moves and does not land.
fn rises(ramp: Ramp, frames: usize) -> usize
    ensures { result ≡ min (ramp.remaining - 1) frames }
{
    let left = ramp.remaining.saturating_sub(1) as usize;
    left.min(frames)
}

/// A part × a ramp is added to so many frames: first where it moves and does not land, then where its value stays. The ramp that they leave.
pub fn add_part(
    pool: &[f32],
    part: Option<usize>,
    out: &mut [f32],
    frames: usize,
    ramp: Ramp,
) -> Ramp
    requires { (frames * 2 ≤ length out.old) × Reads (length pool.now) part (frames * 2) }
    ensures { (result ≡ ticks_of frames ramp) × (out.new ≡ over (adds pool.now part ramp) 0 (frames * 2) out.old) }
{
    let rising = rises(ramp, frames);
    let risen = add_rising(pool, part, &mut out[..], rising, ramp);
    if rising == frames {
        return risen;
    }
    // In the next frame it lands, or nothing remains: from there on the value stays.
    let r = risen.tick().ramp;
    add_still(pool, part, out, rising * 2, frames * 2, r.value);
    r
}

/// What a tail's weight is multiplied with: in house mode the tail × the master's gain, else the tail.
fn under(house: bool, gain: f32, tail: f32) -> f32
    ensures { result ≡ under_of house gain tail }
{
    if house {
        return tail * gain;
    }
    tail
}

/// From a frame to a frame the song × a gain that stands still, plus the tail, in house mode × that gain, × a weight that does not land, and that before what stands there. The weight that they leave.
fn add_both_still(
    house: bool,
    pool: &[f32],
    song: Option<usize>,
    tail: Option<usize>,
    out: &mut [f32],
    from: usize,
    to: usize,
    gain: f32,
    weight: Ramp,
) -> Ramp
    requires { (from ≤ to) × (to * 2 ≤ length out.old) × Reads (length pool.now) song (to * 2) × Reads (length pool.now) tail (to * 2) × (to - from < weight.remaining) }
    ensures { (result ≡ ticks_of (to - from) weight) × (out.new ≡ over (still_both house pool.now song tail from gain weight) (from * 2) (to * 2 - from * 2) out.old) }
{
    let mut w = weight;
    for j in from..to {
        let next = rise(w);
        let b = next.value;
        let k = j * 2;
        let n = k + 1;
        let x = share(pool, song, k);
        let y = under(house, gain, share(pool, tail, k));
        let z = share(pool, song, n);
        let v = under(house, gain, share(pool, tail, n));
        out[k] = (x * gain + y * b) + out[k];
        out[n] = (z * gain + v * b) + out[n];
        w = next;
    }
    w
}

/// Up to which of so many frames a ramp's value in frame `j` stays: to the end if nothing remains, else for that frame alone.
fn stays_to(ramp: Ramp, j: usize, frames: usize) -> usize
    requires { j < frames }
    ensures { (j < result) × (result ≤ frames) × (j + 1 < result → ramp.remaining ≡ 0) }
{
    if ramp.remaining == 0 { frames } else { j + 1 }
}

/// The master and the tail's weight.
#[derive(Clone, Copy)]
pub struct Gains {
    pub master: Ramp,
    pub weight: Ramp,
}

/// In so many frames the song × the master, plus the tail, in house mode × the master, × a weight that does not land, and that before what stands there. The ramps that they leave.
pub fn add_both(
    house: bool,
    pool: &[f32],
    song: Option<usize>,
    tail: Option<usize>,
    out: &mut [f32],
    frames: usize,
    master: Ramp,
    weight: Ramp,
) -> Gains
    requires { (frames * 2 ≤ length out.old) × Reads (length pool.now) song (frames * 2) × Reads (length pool.now) tail (frames * 2) × (frames < weight.remaining) }
    ensures { (result.master ≡ ticks_of frames master) × (result.weight ≡ ticks_of frames weight) × (out.new ≡ over (both_adds house pool.now song tail master weight) 0 (frames * 2) out.old) }
{
    let mut g = master;
    let mut w = weight;
    let mut j: usize = 0;
    while j < frames {
        let t = g.tick();
        g = t.ramp;
        let to = stays_to(g, j, frames);
        w = add_both_still(house, pool, song, tail, &mut out[..], j, to, g.value, w);
        j = to;
    }
    Gains {
        master: g,
        weight: w,
    }
}
