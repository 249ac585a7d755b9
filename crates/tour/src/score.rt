//! The score: what the guide does, cue by cue. A bar has 1,000 frames, a block 256.
use counts::{ClockFrame, Handle, SongFrame};
use timeline::Submission;
use transport::At;

/// The first room, a song of four bars.
pub const HALL: Handle = Handle { slot: 0, serial: 1 };

/// The second room, a song of three bars.
pub const NAVE: Handle = Handle { slot: 1, serial: 2 };

/// A stinger of 600 frames.
pub const BELL: Handle = Handle { slot: 2, serial: 3 };

/// One thing that the guide does.
#[derive(Clone, Copy)]
pub enum Cue {
    Blocks(u32),
    /// A submission at once.
    Now(Submission),
    Submit(Submission, At),
    Retire(Handle),
}

/// The hall is entered, its second bar goes round, and the bell rings over it.
pub const ROUND_THE_HALL: [Cue; 5] = [
    Cue::Now(Submission::Play),
    Cue::Now(Submission::Loop(SongFrame(1000), SongFrame(2000))),
    Cue::Blocks(9),
    Cue::Submit(Submission::Stinger(BELL, 0.75), At::Frame(ClockFrame(2500))),
    Cue::Blocks(4),
];

/// At the end of a bar the nave takes over, and the hall fades.
pub const INTO_THE_NAVE: [Cue; 5] = [
    Cue::Submit(Submission::Swap(NAVE), At::Song(SongFrame(2000))),
    Cue::Now(Submission::ClearLoop),
    Cue::Blocks(4),
    Cue::Retire(HALL),
    Cue::Blocks(3),
];

/// Now that the hall has faded it is retired, and nobody comes back to it. A halt, and a walk on.
pub const HALT: [Cue; 6] = [
    Cue::Retire(HALL),
    Cue::Now(Submission::Swap(HALL)),
    Cue::Now(Submission::Pause),
    Cue::Blocks(2),
    Cue::Now(Submission::Play),
    Cue::Blocks(1),
];

/// The music is turned down for a word from the guide, and up again.
pub const WORD: [Cue; 4] = [
    Cue::Now(Submission::Gain(0.25)),
    Cue::Blocks(3),
    Cue::Now(Submission::Gain(1.0)),
    Cue::Blocks(1),
];

/// On to the last bar, and out.
pub const LEAVE: [Cue; 5] = [
    Cue::Blocks(1),
    Cue::Now(Submission::Seek(SongFrame(2000))),
    Cue::Blocks(2),
    Cue::Now(Submission::Stop),
    Cue::Blocks(1),
];

/// The music is turned down in the hall, and still is when the nave takes over.
pub const LOW: [Cue; 5] = [
    Cue::Now(Submission::Play),
    Cue::Now(Submission::Gain(0.25)),
    Cue::Blocks(2),
    Cue::Now(Submission::Swap(NAVE)),
    Cue::Blocks(3),
];
