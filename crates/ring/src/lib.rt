//! The ring that the audio callback pulls from: where it stands in its lent store, and what the callback takes.
#![tactic(auto)]

ghost use Rattle.std.specs.Prelude.{◌≡◌, List, ◌++◌, ◌-◌, ◌<◌, ◌≤◌, length, replicate, Float};
ghost use Rattle.ramp.specs.Number.{zero32};
ghost use Rattle.ring.specs.declared.Drained.{Drained};
ghost use Rattle.ring.specs.Ring.{empty_ring, ring_ok, Within, held_of, free_of, place_at, from};
ghost use Rattle.ring.specs.Drain.{drain_of};

use session::Refusal;

/// The smallest store: one frame, and the place that stays empty.
pub const LEAST: usize = 3;

/// The largest store, in samples.
pub const MOST: usize = 65536;

/// Where a ring stands in its store: the next place that is read, and the next that is written.
#[repr(C)]
#[derive(Clone, Copy)]
pub struct SampleRing {
    pub head: usize,
    pub tail: usize,
}

/// The answer of a drain, how many frames it took or why it is refused, and the ring that it leaves.
#[derive(Clone, Copy)]
pub struct Drained {
    pub answer: Result<usize, Refusal>,
    pub ring: SampleRing,
}

impl SampleRing {
    /// A ring that holds nothing.
    pub fn empty() -> SampleRing
        ensures { result ≡ empty_ring }
    {
        SampleRing { head: 0, tail: 0 }
    }

    /// The store has 3 to 65,536 samples, and head and tail lie in it.
    pub fn is_within(self, size: usize) -> bool
        ensures { result ≡ ring_ok size self }
    {
        (LEAST <= size) & (size <= MOST) & (self.head < size) & (self.tail < size)
    }

    /// How many samples wait.
    #[tactic(auto, unfolding(crate::specs::Ring::held_of))]
    pub fn held(self, size: usize) -> usize
        requires { Within size self }
        ensures { result ≡ held_of size self }
    {
        (self.tail + size - self.head) % size
    }

    /// How many more fit: one place stays empty.
    #[tactic(auto, using(crate::proofs::Places::held_lt), unfolding(crate::specs::Ring::free_of))]
    pub fn free(self, size: usize) -> usize
        requires { Within size self }
        ensures { result ≡ free_of size self }
    {
        size - 1 - self.held(size)
    }
}

/// The place so many samples on, round the store's end.
#[tactic(auto, unfolding(crate::specs::Ring::place_at))]
pub fn place(size: usize, at: usize, on: usize) -> usize
    requires { (at < size) × (on ≤ size) × (size ≤ 65536) }
    ensures { result ≡ place_at size at on }
{
    (at + on) % size
}

/// The next place.
#[tactic(auto, using(crate::proofs::Places::place_next, crate::proofs::Places::place_straight))]
fn next(size: usize, at: usize) -> usize
    requires { at < size }
    ensures { result ≡ place_at size at 1 }
{
    let after = at + 1;
    if after == size { 0 } else { after }
}

/// Fills a block with so many samples from a place on, and with silence after them.
fn pour(store: &[f32], head: usize, taken: usize, out: &mut [f32])
    requires { (head < length store.now) × (taken ≤ length out.old) }
    ensures { out.new ≡ from store.now head taken ++ replicate (length out.old - taken) zero32 }
{
    let size = store.len();
    let mut at = head;
    for i in 0..taken {
        out[i] = store[at];
        at = next(size, at);
    }
    out[taken..].fill(0.0);
}

/// The callback's block: whole frames that wait, and silence for the rest. Refused, it leaves ring and block as they were.
pub fn drain(r: SampleRing, store: &[f32], out: &mut [f32]) -> Drained
    ensures { ◌≡◌ {A = Drained × List Float} (result, out.new) (drain_of r store.now out.old) }
{
    let size = store.len();
    if !r.is_within(size) {
        return Drained {
            answer: Err(Refusal::BadRing),
            ring: r,
        };
    }
    let whole = (out.len() / 2).min(r.held(size) / 2);
    let taken = whole * 2;
    pour(store, r.head, taken, out);
    Drained {
        answer: Ok(whole),
        ring: SampleRing {
            head: place(size, r.head, taken),
            ..r
        },
    }
}
