//! Our answer to a call and our session after it, as the numbers of its line. A refusal where the list has no place for one is a number too many.
use crate::lines::Line;
use control::PerformanceSnapshot;
use counts::{Handle, SongFrame};
use print::bits;
use session::{Answered, Refusal, Session};
use submission::Report;
use transport::{LoopRange, TransportState};

/// A session, the snapshot that it took last, and how many words its last stop gave.
#[derive(Clone, Copy)]
pub struct Seat {
    pub session: Session,
    pub snapshot: PerformanceSnapshot,
    pub listed: usize,
}

impl Seat {
    /// A session as it opens: no snapshot taken, nothing captured.
    pub fn of(session: Session) -> Seat {
        Seat {
            session,
            snapshot: PerformanceSnapshot {
                position: SongFrame(0),
                state: TransportState::Stopped,
                gain: 0.0,
                looped: None,
            },
            listed: 0,
        }
    }

    /// What a call did whose line's numbers that ask are these. A closure puts the answer's numbers behind them.
    pub fn told<T, F: FnOnce(Line, Result<T, Refusal>) -> Option<Line>>(
        mut self,
        asks: Line,
        r: Answered<T>,
        put: F,
    ) -> Told
        requires { F.IsAlwaysCallable put }
    {
        let Answered { answer, session } = r;
        self.session = session;
        let ours = match put(asks, answer) {
            Some(line) => state(line, session),
            None => None,
        };
        Told { seat: self, ours }
    }
}

/// What a call did, and its line with our numbers, if they are no more than a line has.
#[derive(Clone, Copy)]
pub struct Told {
    pub seat: Seat,
    pub ours: Option<Line>,
}

/// A loop: set or not, its start, its end.
fn looped(x: Option<LoopRange>) -> [u64; 3] {
    match x {
        Some(r) => [1, r.start.0, r.end.0],
        None => [0; 3],
    }
}

/// How a session stands: position, state, loop, master target, clock, depth and metrics.
fn state(l: Line, s: Session) -> Option<Line> {
    let [set, start, end] = looped(s.loop_range());
    let k = s.stage.counters;
    l.with(&[
        s.position().0,
        s.state() as u64,
        set,
        start,
        end,
        bits(s.master_gain()),
        s.clock().0,
        s.queued as u64,
        k.executed,
        s.desk.dropped,
        s.desk.deepest as u64,
        k.swaps,
        k.fired,
    ])
}

fn refused(l: Line, k: Refusal) -> Option<Line> {
    l.push(u64::from(k.number()))
}

pub fn done(l: Line, a: Result<(), Refusal>) -> Option<Line> {
    match a {
        Ok(()) => Some(l),
        Err(k) => refused(l, k),
    }
}

/// Behind a digest. A refused block tells a number too many, so that no passes are taken for it.
pub fn passes(l: Line, a: Result<u64, Refusal>) -> Option<Line> {
    match a {
        Ok(passes) => l.push(passes),
        Err(k) => refused(l.push(0)?, k),
    }
}

pub fn handle(l: Line, a: Result<Handle, Refusal>) -> Option<Line> {
    match a {
        Ok(h) => l.with(&[u64::from(h.slot), u64::from(h.serial)]),
        Err(k) => refused(l, k),
    }
}

pub fn number(l: Line, a: Result<u64, Refusal>) -> Option<Line> {
    match a {
        Ok(n) => l.with(&[0, n]),
        Err(k) => refused(l, k)?.push(0),
    }
}

pub fn report(l: Line, a: Result<Report, Refusal>) -> Option<Line> {
    match a {
        Ok(r) => l.with(&[r.taken as u64, r.full as u64, r.skipped as u64]),
        Err(k) => refused(l, k),
    }
}

/// How many records were copied, and the digest of their words.
pub fn copied(l: Line, a: Result<usize, Refusal>, digest: u64) -> Option<Line> {
    match a {
        Ok(n) => l.with(&[n as u64, digest]),
        Err(k) => refused(l, k),
    }
}

pub fn snapshot(l: Line, a: Result<PerformanceSnapshot, Refusal>) -> Option<Line> {
    match a {
        Ok(x) => {
            let [set, start, end] = looped(x.looped);
            l.with(&[x.position.0, x.state as u64, bits(x.gain), set, start, end])
        }
        Err(k) => refused(l, k),
    }
}
