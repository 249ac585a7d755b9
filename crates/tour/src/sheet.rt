//! The sheet: a line for each block and one for each thing that the guide does.
ghost use Rattle.std.specs.Prelude.{◌≤◌};

use crate::score::Cue;
use control::PerformanceSnapshot;
use counts::Handle;
use print::Sample;
use session::{Refusal, Session};
use stage::HOUSE;
use std::{fmt, io};
use submission::Report;
use timeline::Submission;
use transport::{At, TransportState};

/// A clip's name, four letters long.
fn name(h: Handle) -> &'static str {
    match h.serial {
        1 => "hall",
        2 => "nave",
        _ => "bell",
    }
}

// ---- what the guide does, each on a line that it begins

/// The mode of a visit.
pub fn mode(rt: &impl Print, m: u32) -> io::Result<()> {
    if m == HOUSE {
        return print!(rt; "\n> enter in house mode");
    }
    print!(rt; "\n> enter as tono")
}

pub fn loaded(rt: &impl Print, a: Result<Handle, Refusal>) -> io::Result<()> {
    print::answered(rt, a, |h| {
        print!(rt; "\n> load the {}: ", name(h))?;
        print::handle(rt, h)
    })
}

pub fn started(rt: &impl Print, a: Result<(), Refusal>) -> io::Result<()> {
    print!(rt; "\n> start the capture: ")?;
    print::answer(rt, a)
}

pub fn stopped(rt: &impl Print, a: Result<usize, Refusal>) -> io::Result<()> {
    print!(rt; "\n> stop the capture: ")?;
    print::stop_answer(rt, a)
}

pub fn replayed(rt: &impl Print, a: Result<Report, Refusal>) -> io::Result<()> {
    print!(rt; "\n> replay what was captured: ")?;
    print::replay_answer(rt, a)
}

pub fn snapshot(rt: &impl Print, a: Result<PerformanceSnapshot, Refusal>) -> io::Result<()> {
    print!(rt; "\n> take a snapshot: ")?;
    print::snapshot_answer(rt, a)
}

pub fn applied(rt: &impl Print, a: Result<(), Refusal>) -> io::Result<()> {
    print!(rt; "\n> apply the snapshot: ")?;
    print::answer(rt, a)
}

/// What a cue asks for.
impl fmt::Display for Cue {
    fn fmt<W: fmt::Write>(&self, f: &mut fmt::Formatter<W>) -> fmt::Result {
        match *self {
            Cue::Blocks(_) => Ok(()),
            Cue::Now(x) => write!(f, "\n> {} at once", Asked(x)),
            Cue::Submit(x, at) => write!(f, "\n> {} {}", Asked(x), When(at)),
            Cue::Retire(h) => write!(f, "\n> retire the {}: ", name(h)),
        }
    }
}

#[derive(Clone, Copy)]
struct Asked(Submission);

impl fmt::Display for Asked {
    fn fmt<W: fmt::Write>(&self, f: &mut fmt::Formatter<W>) -> fmt::Result {
        match self.0 {
            Submission::Play => write!(f, "play"),
            Submission::Pause => write!(f, "pause"),
            Submission::Stop => write!(f, "stop"),
            Submission::Seek(to) => write!(f, "seek {}", to.0),
            Submission::Loop(start, end) => write!(f, "loop {}..{}", start.0, end.0),
            Submission::ClearLoop => write!(f, "clear the loop"),
            Submission::Gain(g) => write!(f, "gain {}", Sample(g)),
            Submission::Swap(h) => write!(f, "swap to the {}", name(h)),
            Submission::Stinger(h, g) => write!(f, "ring the {} at gain {}", name(h), Sample(g)),
        }
    }
}

#[derive(Clone, Copy)]
struct When(At);

impl fmt::Display for When {
    fn fmt<W: fmt::Write>(&self, f: &mut fmt::Formatter<W>) -> fmt::Result {
        match self.0 {
            At::Immediate => write!(f, "at once"),
            At::Frame(clock) => write!(f, "at clock {}", clock.0),
            At::Song(frame) => write!(f, "at song frame {}", frame.0),
        }
    }
}

/// The clock frame that a time comes to.
pub fn due(rt: &impl Print, s: Session, at: At) -> io::Result<()> {
    let clock = s.stage.playhead.transport.deadline(s.stage.clock, at);
    print!(rt; ", due at {}: ", clock.0)
}

// ---- a line for each block

fn state(s: TransportState) -> &'static str {
    match s {
        TransportState::Stopped => "stopped",
        TransportState::Playing => "playing",
        TransportState::Paused => "paused",
    }
}

/// Clock, position, laps and state.
fn stands(rt: &impl Print, s: Session) -> io::Result<()> {
    print!(rt; "\n")?;
    for n in [s.clock().0, s.position().0, s.laps()] {
        print::column(rt, n, 6)?;
    }
    print!(rt; "  {:<9}", state(s.state()))
}

/// The song, the tail and the voices.
fn sounding(rt: &impl Print, s: Session) -> io::Result<()> {
    let sound = s.stage.sound;
    let tail = match sound.fade.tail {
        None => "none",
        Some(t) => name(t.song),
    };
    print!(rt; "{}  {tail}{:>6}", name(s.song()), sound.voices.count)
}

/// The loudest sample of a side, 0 for the left and 1 for the right, in thousandths.
fn peak(out: &[f32; 512], side: usize) -> u64 {
    let side = out.iter().skip(side).step_by(2);
    print::whole(side.fold(0.0f32, |most, x| most.max(x.abs())) * 1000.0)
}

/// How long the bar of a peak is: a mark for each started tenth, at most 12.
fn bar(peak: u64) -> usize
    ensures { result ≤ 12 }
{
    peak.div_ceil(100).min(12) as usize
}

/// The peaks of both sides, and their bars, which meet.
fn meter(rt: &impl Print, out: &[f32; 512]) -> io::Result<()> {
    let left = peak(out, 0);
    let right = peak(out, 1);
    let marks = bar(left);
    print!(rt; "{left:>6}{right:>6}{:1$}", "", 12 - marks)?;
    print!(rt; "{:#>1$}|", "", marks)?;
    print!(rt; "{:#>1$}", "", bar(right))
}

/// The names of the columns.
pub fn heading(rt: &impl Print) -> io::Result<()> {
    print!(rt; "a tour of two rooms at 8,000 frames a second, peaks in thousandths\n")?;
    print!(rt; " clock  song  laps  state    room  tail voices  left right")
}

/// Where a session stands after a block, and what it gave.
pub fn line(rt: &impl Print, s: Session, out: &[f32; 512]) -> io::Result<()> {
    stands(rt, s)?;
    sounding(rt, s)?;
    meter(rt, out)
}
