//! A session with the stores that its host keeps, and the calls on it.
use crate::same;
use bank::Kind;
use control::PerformanceSnapshot;
use counts::{Handle, SongFrame};
use session::{Answered, Refusal, Session};
use stage::{AS_TONO, Settings};
use timeline::Submission;
use transport::{At, LoopRange, TransportState};

pub const RATE: u32 = 48000;

/// A queue of 2, a capture of 1, a pool of 8 frames.
pub const SMALL: Settings = Settings {
    rate: RATE,
    mode: AS_TONO,
    queue: 2,
    capture: 1,
    pool: 8,
};

/// A session with its stores: a queue of so many words, a capture of one record, a pool of so many samples.
#[derive(Clone, Copy)]
pub struct Host<const QUEUE: usize, const POOL: usize> {
    pub session: Session,
    pub queue: [u64; QUEUE],
    pub capture: [u64; 5],
    pub pool: [f32; POOL],
}

/// The host of the small settings.
pub type Small = Host<10, 16>;

impl<const QUEUE: usize, const POOL: usize> Host<QUEUE, POOL> {
    /// A session that opens with a song, in slot 0, whose length is so many frames.
    pub fn open(settings: Settings, song: &[f32], length: u64) -> Self {
        let queue = [0; QUEUE];
        let capture = [0; 5];
        let mut pool = [0.0; POOL];
        let lasts = SongFrame(length);
        let r = clips::open(settings, &queue, &capture, &mut pool, song, RATE, lasts);
        Host {
            session: r.session,
            queue,
            capture,
            pool,
        }
    }

    /// What a call answered; the session is what it left.
    fn after<T>(&mut self, r: Answered<T>) -> Result<T, Refusal> {
        self.session = r.session;
        r.answer
    }

    pub fn load(&mut self, clip: &[f32], kind: Kind, rate: u32) -> Result<Handle, Refusal> {
        let r = clips::load(
            self.session,
            &self.queue,
            &self.capture,
            &mut self.pool,
            clip,
            kind,
            rate,
        );
        self.after(r)
    }

    pub fn retire(&mut self, h: Handle) -> Result<(), Refusal> {
        let r = clips::retire(self.session, &self.queue, &self.capture, h);
        self.after(r)
    }

    pub fn submit(&mut self, x: Submission, at: At) -> Result<u64, Refusal> {
        let r = submission::submit(self.session, &mut self.queue, &mut self.capture, x, at);
        self.after(r)
    }

    /// A submission at once whose answer is not told.
    pub fn queue_one(&mut self, x: Submission) {
        let _ = self.submit(x, At::Immediate);
    }

    pub fn block(&mut self, out: &mut [f32]) -> Result<u64, Refusal> {
        let r = block::block(self.session, &self.queue, &self.capture, &self.pool, out);
        self.after(r)
    }

    pub fn start_capture(&mut self) -> Result<(), Refusal> {
        let r = control::start_capture(self.session, &self.queue, &self.capture);
        self.after(r)
    }

    pub fn apply(&mut self, x: PerformanceSnapshot) -> Result<(), Refusal> {
        let r = control::apply_snapshot(self.session, &self.queue, &self.capture, x);
        self.after(r)
    }

    /// Whether all is as it was: session and stores.
    pub fn is_as(&self, was: &Self) -> bool {
        same::session(self.session, was.session) && self.lends_as(was)
    }

    /// Whether all but the dropped count is.
    pub fn is_as_but_dropped(&self, was: &Self) -> bool {
        same::session_but_dropped(was.session, self.session) && self.lends_as(was)
    }

    fn lends_as(&self, was: &Self) -> bool {
        self.queue == was.queue
            && self.capture == was.capture
            && same::samples(&self.pool, &was.pool)
    }
}

/// A session of the small settings that opens with a song of two frames.
pub fn small() -> Small {
    Host::open(SMALL, &SONG, 2)
}

/// A song of two frames.
pub const SONG: [f32; 4] = [0.5, -0.5, 0.25, 0.25];

/// A clip of one frame.
pub const CLICK: [f32; 2] = [0.25, 0.25];

/// The handle that a load gave.
pub fn handle_of(a: Result<Handle, Refusal>) -> Handle {
    a.unwrap_or(Handle { slot: 0, serial: 0 })
}

pub fn looped(start: u64, end: u64) -> Submission {
    Submission::Loop(SongFrame(start), SongFrame(end))
}

/// A snapshot that plays: 'gain at once', so that the master is at rest.
pub fn playing(position: u64, gain: f32, looped: Option<LoopRange>) -> PerformanceSnapshot {
    PerformanceSnapshot {
        position: SongFrame(position),
        state: TransportState::Playing,
        gain,
        looped,
    }
}
