//! What a line asks: the call, if it is one of the list's, with its arguments.
ghost use Rattle.std.specs.Prelude.{◌≤◌};

use crate::lines::Line;
use bank::Kind;
use counts::{ClockFrame, Handle, SongFrame};
use timeline::Submission;
use transport::At;

/// The longest block.
pub const MOST_FRAMES: u64 = 4096;

/// The longest clip: the pool's frames.
const MOST_CLIP: u64 = 32768;

/// How many numbers tell how the Rust stood.
const STATE: usize = 13;

/// A call. Clips are the first frames of those that a seed makes.
#[derive(Clone, Copy)]
pub enum Call {
    Open {
        frames: u64,
        extent: SongFrame,
        seed: u64,
    },
    Load {
        kind: Kind,
        frames: u64,
        seed: u64,
    },
    Retire(Handle),
    Submit(Submission, At),
    Transition(SongFrame, At),
    Block(u64),
    StartCapture,
    StopCapture,
    Replay,
    Snapshot,
    Apply,
}

impl Call {
    /// The call of a line that has as many numbers as it takes, and arguments such as it takes.
    pub fn of(l: Line) -> Option<Call> {
        let call = Call::asked(l)?;
        if l.count != call.asks() + call.answers() + STATE {
            return None;
        }
        Some(call)
    }

    /// The call that a line's first numbers ask for.
    fn asked(l: Line) -> Option<Call> {
        let [call, first, second, third, fourth, ..] = l.words;
        match call {
            1 => Some(Call::Open {
                frames: at_most(MOST_CLIP, first)?,
                extent: SongFrame(second),
                seed: third,
            }),
            2 => Some(Call::Load {
                kind: kind(first, third)?,
                frames: at_most(MOST_CLIP, second)?,
                seed: fourth,
            }),
            3 => Some(Call::Retire(handle(first, second)?)),
            4 => Some(Call::Submit(submission(l)?, due(l.words[7], l.words[8])?)),
            5 => Some(Call::Transition(SongFrame(first), due(second, third)?)),
            6 => Some(Call::Block(at_most(MOST_FRAMES, first)?)),
            7 => Some(Call::StartCapture),
            8 => Some(Call::StopCapture),
            9 => Some(Call::Replay),
            10 => Some(Call::Snapshot),
            11 => Some(Call::Apply),
            _ => None,
        }
    }

    /// How many numbers ask: the call's own and its arguments.
    pub fn asks(self) -> usize
        ensures { result ≤ 9 }
    {
        match self {
            Call::Open { .. } => 4,
            Call::Load { .. } => 5,
            Call::Retire(_) => 3,
            Call::Submit(..) => 9,
            Call::Transition(..) => 4,
            Call::Block(_) => 2,
            _ => 1,
        }
    }

    /// How many numbers answer.
    fn answers(self) -> usize
        ensures { result ≤ 6 }
    {
        match self {
            Call::Retire(_) | Call::StartCapture | Call::Apply => 0,
            Call::Replay => 3,
            Call::Snapshot => 6,
            _ => 2,
        }
    }
}

/// A number, if it is not above the largest that may be.
fn at_most(most: u64, n: u64) -> Option<u64> {
    if n > most {
        return None;
    }
    Some(n)
}

fn handle(slot: u64, serial: u64) -> Option<Handle> {
    let slot = u32::try_from(slot).ok()?;
    let serial = u32::try_from(serial).ok()?;
    Some(Handle { slot, serial })
}

/// The gain of its bits, if it is finite.
fn finite(bits: u32) -> Option<f32> {
    if bits % 2147483648 < 2139095040 {
        return Some(f32::from_bits(bits));
    }
    None
}

fn gain(bits: u64) -> Option<f32> {
    finite(u32::try_from(bits).ok()?)
}

/// The kind of a clip: 1 a song, which lasts so long, 2 a stinger.
fn kind(n: u64, extent: u64) -> Option<Kind> {
    match n {
        1 => Some(Kind::Song(SongFrame(extent))),
        2 => Some(Kind::Stinger),
        _ => None,
    }
}

/// When a command is due: 1 at once, 2 at a clock frame, 3 at a song frame.
fn due(n: u64, frame: u64) -> Option<At> {
    match n {
        1 => Some(At::Immediate),
        2 => Some(At::Frame(ClockFrame(frame))),
        3 => Some(At::Song(SongFrame(frame))),
        _ => None,
    }
}

/// The command of a submission's line: one of the nine kinds that the ordinary submission takes.
fn submission(l: Line) -> Option<Submission> {
    let gain = gain(l.words[2])?;
    let clip = handle(l.words[3], l.words[4])?;
    let frame = SongFrame(l.words[5]);
    let end = SongFrame(l.words[6]);
    match l.words[1] {
        1 => Some(Submission::Play),
        2 => Some(Submission::Pause),
        3 => Some(Submission::Stop),
        4 => Some(Submission::Seek(frame)),
        6 => Some(Submission::Loop(frame, end)),
        7 => Some(Submission::ClearLoop),
        8 => Some(Submission::Gain(gain)),
        9 => Some(Submission::Swap(clip)),
        10 => Some(Submission::Stinger(clip, gain)),
        _ => None,
    }
}
