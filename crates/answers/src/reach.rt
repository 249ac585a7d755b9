//! What the list reaches, read off our session before and after a call.
use crate::asked::{Call, MOST_FRAMES};
use crate::lines::Line;
use counts::Handle;
use session::Session;
use std::fmt;
use transport::TransportState;

/// A session beside its queue.
#[derive(Clone, Copy)]
pub struct Moment {
    session: Session,
    /// The first queued record's frame, if one is queued.
    first: Option<u64>,
}

impl Moment {
    /// The first queued record stands last.
    pub fn of(session: Session, queue: &[u64]) -> Moment {
        let first = match session.queued.checked_sub(1) {
            Some(n) => queue.get(n.saturating_mul(5)).copied(),
            None => None,
        };
        Moment { session, first }
    }

    fn is_paused(self) -> bool {
        self.session.state() == TransportState::Paused
    }

    /// A tail sounds.
    fn sounds(self) -> bool {
        self.session.stage.sound.fade.tail.is_some()
    }

    /// A loop is set, and the position is its end or past it.
    fn past_loop(self) -> bool {
        let position = self.session.position();
        self.session
            .loop_range()
            .is_some_and(|l| position.0 >= l.end.0)
    }

    /// A queued record's frame is the clock or before it.
    fn is_due(self) -> bool {
        let clock = self.session.clock();
        self.first.is_some_and(|frame| frame <= clock.0)
    }

    fn swaps(self) -> u64 {
        self.session.stage.counters.swaps
    }

    /// Where the clip of a handle lies.
    fn start_of(self, h: Handle) -> u64 {
        if h.slot < 32 {
            return bank::clip_of(self.session.bank, h).start;
        }
        0
    }

    /// The master rides, and has another target after.
    fn is_cut_short(self, after: Moment) -> bool {
        let master = self.session.stage.sound.master;
        (master.remaining > 0) & (master.target != after.session.master_gain())
    }
}

/// Where a session retired clips: a bit for each frame of the pool.
#[derive(Clone, Copy)]
struct Left {
    words: [u64; 512],
}

impl Left {
    const NONE: Left = Left { words: [0; 512] };

    fn has(&self, start: u64) -> bool {
        start < 32768 && (self.words[(start / 64) as usize] >> (start % 64)) % 2 == 1
    }

    fn add(&mut self, start: u64) {
        if start < 32768 {
            self.words[(start / 64) as usize] |= 1 << (start % 64);
        }
    }
}

/// How often each was reached, and where this session retired clips.
#[derive(Clone, Copy)]
pub struct Reached {
    pub sessions: u64,
    calls: u64,
    blocks: u64,
    frames: u64,
    voices: u64,
    due: u64,
    swap: u64,
    paused: u64,
    tail: u64,
    seek: u64,
    rule: u64,
    over: u64,
    full: u64,
    ride: u64,
    none: u64,
    one: u64,
    most: u64,
    room: u64,
    left: Left,
}

/// One more, if so.
fn count(n: &mut u64, so: bool) {
    *n = n.wrapping_add(u64::from(so));
}

impl Reached {
    pub const NONE: Reached = Reached {
        sessions: 0,
        calls: 0,
        blocks: 0,
        frames: 0,
        voices: 0,
        due: 0,
        swap: 0,
        paused: 0,
        tail: 0,
        seek: 0,
        rule: 0,
        over: 0,
        full: 0,
        ride: 0,
        none: 0,
        one: 0,
        most: 0,
        room: 0,
        left: Left::NONE,
    };

    /// By a call: its line with our numbers, and our side before it and after it.
    pub fn by(&mut self, call: Call, ours: Line, before: Moment, after: Moment) {
        count(&mut self.calls, true);
        count(
            &mut self.voices,
            after.session.stage.sound.voices.count == 16,
        );
        match call {
            Call::Open { .. } => {
                count(&mut self.sessions, true);
                self.left = Left::NONE;
            }
            Call::Load { .. } => self.loaded(after, ours),
            Call::Retire(h) => self.retired(before, after, h),
            Call::Transition(..) => self.moved(before, after, ours.words[4]),
            Call::Block(frames) => self.block(frames, before, after),
            Call::Replay => count(&mut self.full, ours.words[2] > 0),
            _ => {}
        }
    }

    /// By a load: its clip lies where a retired one lay. Behind its five numbers stands the clip's handle.
    fn loaded(&mut self, after: Moment, ours: Line) {
        let h = Handle {
            slot: (ours.words[5] % 4294967296) as u32,
            serial: (ours.words[6] % 4294967296) as u32,
        };
        let again = self.left.has(after.start_of(h));
        count(&mut self.room, again & after.session.is_live(h));
    }

    /// By a retirement that is not refused.
    fn retired(&mut self, before: Moment, after: Moment, h: Handle) {
        if before.session.is_live(h) & !after.session.is_live(h) {
            self.left.add(before.start_of(h));
        }
    }

    /// By a transition: it is accepted and does not raise the depth.
    fn moved(&mut self, before: Moment, after: Moment, refusal: u64) {
        let over = after.session.queued <= before.session.queued;
        count(&mut self.over, (refusal == 0) & over);
    }

    /// By a block.
    fn block(&mut self, frames: u64, before: Moment, after: Moment) {
        count(&mut self.blocks, true);
        self.frames = self.frames.wrapping_add(frames);
        count(&mut self.none, frames == 0);
        count(&mut self.one, frames == 1);
        count(&mut self.most, frames == MOST_FRAMES);
        count(&mut self.ride, before.is_cut_short(after));
        count(&mut self.seek, after.past_loop());
        self.tails(before, after);
        if frames > 0 {
            self.rendered(before, after);
        }
    }

    /// By a block: what its tail does.
    fn tails(&mut self, before: Moment, after: Moment) {
        let raised = before.swaps() < after.swaps();
        let sounded = before.sounds();
        count(&mut self.swap, sounded & raised);
        count(&mut self.tail, sounded & !after.sounds() & !raised);
    }

    /// By a block of more than 0 frames.
    fn rendered(&mut self, before: Moment, after: Moment) {
        let playing = before.session.state().is_playing();
        let wraps = before.past_loop();
        count(&mut self.due, after.is_due());
        count(&mut self.paused, after.is_paused() & after.sounds());
        count(&mut self.rule, playing & wraps & !before.is_due());
    }
}

impl fmt::Display for Reached {
    fn fmt<W: fmt::Write>(&self, f: &mut fmt::Formatter<W>) -> fmt::Result {
        let rows = [
            ("sessions", self.sessions),
            ("calls", self.calls),
            ("blocks", self.blocks),
            ("frames", self.frames),
            ("16 voices", self.voices),
            ("two due at a block's end", self.due),
            ("a swap in a swap", self.swap),
            ("a tail while paused", self.paused),
            ("a tail that ends inside a block", self.tail),
            ("a seek past a loop's end", self.seek),
            ("rule a", self.rule),
            ("a transition over a transition", self.over),
            ("a replay into a full queue", self.full),
            ("a gain ride cut short", self.ride),
            ("blocks of 0 frames", self.none),
            ("blocks of 1 frame", self.one),
            ("blocks of 4,096 frames", self.most),
            ("room used again", self.room),
        ];
        for (name, n) in rows {
            writeln!(f, "{name}: {n}")?;
        }
        Ok(())
    }
}
