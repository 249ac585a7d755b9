//! A visit: each call on a session, over the stores that its host keeps, with its answer told on the sheet.
use crate::rooms::{BELL, HALL, NAVE};
use crate::score::Cue;
use crate::sheet;
use bank::Kind;
use control::PerformanceSnapshot;
use counts::{Handle, SongFrame};
use session::{Answered, Refusal, Session};
use stage::{AS_TONO, Settings};
use std::io;
use timeline::Submission;
use transport::{At, TransportState};

const RATE: u32 = 8000;

fn settings(mode: u32) -> Settings {
    Settings {
        rate: RATE,
        mode,
        queue: 8,
        capture: 8,
        pool: 8000,
    }
}

/// A session, and the stores that its host keeps: the pool is too large to be handed on, and lent.
#[derive(Drop)]
pub struct Visit<'a> {
    session: Session,
    queue: [u64; 40],
    capture: [u64; 40],
    pool: &'a mut [f32; 16000],
}

impl<'a> Visit<'a> {
    // ---- opening and loading

    /// A visit begins in the hall, with the nave and the bell at hand.
    pub fn enter(rt: &impl Print, pool: &'a mut [f32; 16000]) -> io::Result<Visit<'a>> {
        let mut hall = [0.0; 8000];
        let mut nave = [0.0; 6000];
        let mut bell = [0.0; 1200];
        HALL.sound(&mut hall);
        NAVE.sound(&mut nave);
        BELL.sound(&mut bell);
        let mut visit = Visit::open(rt, pool, AS_TONO, &hall, SongFrame(4000))?;
        visit.load(rt, &nave, Kind::Song(SongFrame(3000)))?;
        visit.load(rt, &bell, Kind::Stinger)?;
        Ok(visit)
    }

    /// A visit to the hall's first two bars and the nave's first, in a mode.
    pub fn enter_briefly(
        rt: &impl Print,
        pool: &'a mut [f32; 16000],
        mode: u32,
    ) -> io::Result<Visit<'a>> {
        let mut hall = [0.0; 4000];
        let mut nave = [0.0; 2000];
        HALL.sound(&mut hall);
        NAVE.sound(&mut nave);
        let mut visit = Visit::open(rt, pool, mode, &hall, SongFrame(2000))?;
        visit.load(rt, &nave, Kind::Song(SongFrame(1000)))?;
        Ok(visit)
    }

    fn open(
        rt: &impl Print,
        pool: &'a mut [f32; 16000],
        mode: u32,
        hall: &[f32],
        lasts: SongFrame,
    ) -> io::Result<Visit<'a>> {
        let queue = [0; 40];
        let capture = [0; 40];
        let r = clips::open(settings(mode), &queue, &capture, pool, hall, RATE, lasts);
        sheet::loaded(rt, r.answer)?;
        Ok(Visit {
            session: r.session,
            queue,
            capture,
            pool,
        })
    }

    fn load(&mut self, rt: &impl Print, clip: &[f32], kind: Kind) -> io::Result<()> {
        // Lent first: the check has no rule for it beside the stores that are lent already.
        let pool = &mut *self.pool;
        let r = clips::load(
            self.session,
            &self.queue,
            &self.capture,
            pool,
            clip,
            kind,
            RATE,
        );
        sheet::loaded(rt, self.after(r))
    }

    /// What a call answered; the session is what it left.
    fn after<T>(&mut self, r: Answered<T>) -> Result<T, Refusal> {
        self.session = r.session;
        r.answer
    }

    // ---- the other calls

    /// One block.
    fn block(&mut self, rt: &impl Print) -> io::Result<()> {
        let mut out = [0.0; 512];
        let r = block::block(
            self.session,
            &self.queue,
            &self.capture,
            self.pool,
            &mut out,
        );
        self.session = r.session;
        sheet::line(rt, self.session, &out)
    }

    pub fn blocks(&mut self, rt: &impl Print, times: u32) -> io::Result<()> {
        for _ in 0..times {
            self.block(rt)?;
        }
        Ok(())
    }

    fn submit(&mut self, rt: &impl Print, x: Submission, at: At) -> io::Result<()> {
        sheet::due(rt, self.session, at)?;
        let r = submission::submit(self.session, &mut self.queue, &mut self.capture, x, at);
        print::submit_answer(rt, self.after(r))
    }

    fn retire(&mut self, rt: &impl Print, h: Handle) -> io::Result<()> {
        let r = clips::retire(self.session, &self.queue, &self.capture, h);
        print::answer(rt, self.after(r))
    }

    pub fn start_capture(&mut self, rt: &impl Print) -> io::Result<()> {
        let r = control::start_capture(self.session, &self.queue, &self.capture);
        sheet::started(rt, self.after(r))
    }

    pub fn stop_capture(&mut self, rt: &impl Print, list: &mut [u64; 25]) -> io::Result<()> {
        let r = control::stop_capture(self.session, &self.queue, &self.capture, list);
        sheet::stopped(rt, self.after(r))
    }

    pub fn replay(&mut self, rt: &impl Print, list: &[u64; 25]) -> io::Result<()> {
        let r = submission::replay(self.session, &mut self.queue, &self.capture, list);
        sheet::replayed(rt, self.after(r))
    }

    /// The snapshot that was taken; an opened session's where none was.
    pub fn snapshot(&mut self, rt: &impl Print) -> io::Result<PerformanceSnapshot> {
        let r = control::snapshot(self.session, &self.queue, &self.capture);
        let a = self.after(r);
        sheet::snapshot(rt, a)?;
        Ok(a.unwrap_or(PerformanceSnapshot {
            position: SongFrame(0),
            state: TransportState::Stopped,
            gain: 1.0,
            looped: None,
        }))
    }

    pub fn apply(&mut self, rt: &impl Print, x: PerformanceSnapshot) -> io::Result<()> {
        let r = control::apply_snapshot(self.session, &self.queue, &self.capture, x);
        sheet::applied(rt, self.after(r))
    }

    /// Does what a cue says.
    pub fn perform(&mut self, rt: &impl Print, cue: Cue) -> io::Result<()> {
        match cue {
            Cue::Blocks(n) => self.blocks(rt, n),
            Cue::Now(x) => self.submit(rt, x, At::Immediate),
            Cue::Submit(x, at) => self.submit(rt, x, at),
            Cue::Retire(h) => self.retire(rt, h),
        }
    }
}
