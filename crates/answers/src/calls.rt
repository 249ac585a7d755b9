//! The calls: each does what its line asks.
ghost use Rattle.std.specs.Prelude.{◌≤◌};

use crate::asked::Call;
use crate::lines::Line;
use crate::told::{Seat, Told};
use crate::{marks, told};
use bank::Kind;
use counts::{Handle, SongFrame};
use session::Refusal;
use stage::{AS_TONO, Settings};
use timeline::Submission;
use transport::At;

const RATE: u32 = 48000;

/// Every session of the list has these.
const SETTINGS: Settings = Settings {
    rate: RATE,
    mode: AS_TONO,
    queue: 4096,
    capture: 4096,
    pool: 32768,
};

/// The words of a queue, of a capture and of a list of captured records.
const WORDS: usize = 20480;

/// The pool's samples.
const SAMPLES: usize = 65536;

/// The samples of the longest block.
const OUT: usize = 8192;

/// No session yet: every call but an opening is refused.
pub fn nobody() -> Seat {
    let none = [0; 0];
    let mut pool = [0.0; 0];
    let samples = [0.0; 0];
    let r = clips::open(
        SETTINGS,
        &none,
        &none,
        &mut pool,
        &samples,
        RATE,
        SongFrame(0),
    );
    Seat::of(r.session)
}

/// So many places as frames need, of those that there are.
fn places(frames: u64, most: usize) -> usize
    ensures { result ≤ most }
{
    if frames > 32768 {
        return most;
    }
    ((frames * 2) as usize).min(most)
}

/// What a session is lent, and the list of records that its last stop gave.
#[derive(Clone, Copy)]
pub struct Stores {
    pub queue: [u64; WORDS],
    capture: [u64; WORDS],
    pool: [f32; SAMPLES],
    list: [u64; WORDS],
}

impl Stores {
    pub fn empty() -> Stores {
        Stores {
            queue: [0; WORDS],
            capture: [0; WORDS],
            pool: [0.0; SAMPLES],
            list: [0; WORDS],
        }
    }

    /// Does what a call asks. Its line's numbers that ask are given beside it.
    pub fn call(&mut self, seat: Seat, call: Call, asks: Line) -> Told {
        match call {
            Call::Open {
                frames,
                extent,
                seed,
            } => self.open(asks, frames, extent, seed),
            Call::Load { kind, frames, seed } => self.load(seat, asks, kind, frames, seed),
            Call::Retire(h) => self.retire(seat, asks, h),
            Call::Submit(x, at) => self.submit(seat, asks, x, at),
            Call::Transition(frame, at) => self.transition(seat, asks, frame, at),
            Call::Block(frames) => self.block(seat, asks, frames),
            Call::StartCapture => self.start_capture(seat, asks),
            Call::StopCapture => self.stop_capture(seat, asks),
            Call::Replay => self.replay(seat, asks),
            Call::Snapshot => self.snapshot(seat, asks),
            Call::Apply => self.apply(seat, asks),
        }
    }

    // ---- clips

    /// An opening on the first samples of those that a seed makes.
    fn open(&mut self, asks: Line, frames: u64, extent: SongFrame, seed: u64) -> Told {
        let made = marks::made(seed);
        let n = places(frames, SAMPLES);
        let r = clips::open(
            SETTINGS,
            &self.queue,
            &self.capture,
            &mut self.pool,
            &made[..n],
            RATE,
            extent,
        );
        Seat::of(r.session).told(asks, r, told::handle)
    }

    /// A load of the first samples of those that a seed makes.
    fn load(&mut self, seat: Seat, asks: Line, kind: Kind, frames: u64, seed: u64) -> Told {
        let made = marks::made(seed);
        let n = places(frames, SAMPLES);
        let r = clips::load(
            seat.session,
            &self.queue,
            &self.capture,
            &mut self.pool,
            &made[..n],
            kind,
            RATE,
        );
        seat.told(asks, r, told::handle)
    }

    fn retire(&self, seat: Seat, asks: Line, h: Handle) -> Told {
        let r = clips::retire(seat.session, &self.queue, &self.capture, h);
        seat.told(asks, r, told::done)
    }

    // ---- commands

    fn submit(&mut self, seat: Seat, asks: Line, x: Submission, at: At) -> Told {
        let r = submission::submit(seat.session, &mut self.queue, &mut self.capture, x, at);
        seat.told(asks, r, told::number)
    }

    fn transition(&mut self, seat: Seat, asks: Line, frame: SongFrame, at: At) -> Told {
        let r = submission::transition(seat.session, &mut self.queue, &mut self.capture, frame, at);
        seat.told(asks, r, told::number)
    }

    /// A replay of the records that the last stop gave.
    fn replay(&mut self, seat: Seat, asks: Line) -> Told {
        let n = seat.listed.min(WORDS);
        let r = submission::replay(
            seat.session,
            &mut self.queue,
            &self.capture,
            &self.list[..n],
        );
        seat.told(asks, r, told::report)
    }

    // ---- block

    fn block(&self, seat: Seat, asks: Line, frames: u64) -> Told {
        let mut out = [0.0; OUT];
        let n = places(frames, OUT);
        let r = block::block(
            seat.session,
            &self.queue,
            &self.capture,
            &self.pool,
            &mut out[..n],
        );
        let digest = marks::of_samples(&out[..n]);
        seat.told(asks, r, |l, a| told::passes(l.push(digest)?, a))
    }

    // ---- control

    fn start_capture(&self, seat: Seat, asks: Line) -> Told {
        let r = control::start_capture(seat.session, &self.queue, &self.capture);
        seat.told(asks, r, told::done)
    }

    fn stop_capture(&mut self, mut seat: Seat, asks: Line) -> Told {
        let r = control::stop_capture(seat.session, &self.queue, &self.capture, &mut self.list);
        let listed = words_of(r.answer);
        let digest = marks::of_words(&self.list[..listed]);
        seat.listed = listed;
        seat.told(asks, r, |l, a| told::copied(l, a, digest))
    }

    fn snapshot(&self, mut seat: Seat, asks: Line) -> Told {
        let r = control::snapshot(seat.session, &self.queue, &self.capture);
        seat.snapshot = r.answer.unwrap_or(seat.snapshot);
        seat.told(asks, r, told::snapshot)
    }

    fn apply(&self, seat: Seat, asks: Line) -> Told {
        let r = control::apply_snapshot(seat.session, &self.queue, &self.capture, seat.snapshot);
        seat.told(asks, r, told::done)
    }
}

/// How many words a stop gave: five for a record.
fn words_of(a: Result<usize, Refusal>) -> usize
    ensures { result ≤ 20480 }
{
    a.unwrap_or(0).min(4096) * 5
}
