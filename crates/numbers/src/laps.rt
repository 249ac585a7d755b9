//! 'Say when a loop has come round': the passes that a block reports, and the laps that a session keeps.
use crate::host::{Host, SMALL, looped, playing};
use crate::told::{block_answer, position, range};
use counts::{ClockFrame, SongFrame};
use session::Session;
use stage::Settings;
use std::io;
use timeline::Submission;
use transport::{At, LoopRange};

/// A queue of 2, a capture of 1, a pool of 20 frames.
type Twenty = Host<10, 40>;

const SETTINGS: Settings = Settings { pool: 20, ..SMALL };

fn round(start: u64, end: u64) -> Option<LoopRange> {
    Some(LoopRange {
        start: SongFrame(start),
        end: SongFrame(end),
    })
}

// ---- what a call is told by

/// The loop, its laps and the position.
fn laps(rt: &impl Print, s: Session) -> io::Result<()> {
    print!(rt; ", ")?;
    range(rt, s.loop_range())?;
    print!(rt; ", laps {}", s.laps())?;
    position(rt, s)?;
    println!(rt)
}

fn block(rt: &impl Print, host: &mut Twenty, out: &mut [f32]) -> io::Result<()> {
    block_answer(rt, host.block(out))?;
    laps(rt, host.session)
}

/// A snapshot that plays from a position on, applied.
fn apply(
    rt: &impl Print,
    host: &mut Twenty,
    position: u64,
    l: Option<LoopRange>,
) -> io::Result<()> {
    print::answer(rt, host.apply(playing(position, 1.0, l)))?;
    laps(rt, host.session)
}

/// A command at once, and a block of 1.
fn command(rt: &impl Print, mut host: Twenty, x: Submission) -> io::Result<()> {
    host.queue_one(x);
    block(rt, &mut host, &mut [0.0; 2])
}

// ---- the passes

/// 'Rule a of 01 counting as one': it takes the position from 17 to 13, and rule b in the same frame to 10.
fn two_in_a_frame(rt: &impl Print, mut host: Twenty) -> io::Result<()> {
    print!(rt; "  a snapshot at 17 with loop 10..14: ")?;
    apply(rt, &mut host, 17, round(10, 14))?;
    print!(rt; "    a block of 1: ")?;
    block(rt, &mut host, &mut [0.0; 2])
}

/// A loop of one frame: a pass in each frame, and two in the one after a seek past it.
fn one_frame(rt: &impl Print, mut host: Twenty) -> io::Result<()> {
    print!(rt; "  a snapshot at 5 with loop 5..6: ")?;
    apply(rt, &mut host, 5, round(5, 6))?;
    print!(rt; "    a block of 4: ")?;
    block(rt, &mut host, &mut [0.0; 8])?;
    print!(rt; "    a seek to 9, a block of 1: ")?;
    command(rt, host, Submission::Seek(SongFrame(9)))
}

/// 'After the third pass': the first comes after 5 frames, each other after 3 more.
fn third_pass(rt: &impl Print, mut host: Twenty) -> io::Result<Twenty> {
    print!(rt; "  a snapshot at 0 with loop 2..5: ")?;
    apply(rt, &mut host, 0, round(2, 5))?;
    print!(rt; "    a block of 8: ")?;
    block(rt, &mut host, &mut [0.0; 16])?;
    print!(rt; "    then of 3: ")?;
    block(rt, &mut host, &mut [0.0; 6])?;
    Ok(host)
}

// ---- the laps, after the third pass

/// A snapshot at 4, from which nothing goes on.
fn at_4(rt: &impl Print, mut host: Twenty, l: Option<LoopRange>) -> io::Result<()> {
    apply(rt, &mut host, 4, l)
}

/// 'Setting or clearing a loop, by command or snapshot, and a swap make it 0.'
fn set_back(rt: &impl Print, host: Twenty) -> io::Result<()> {
    print!(rt; "    then a loop from 2 to 5, a block of 1: ")?;
    command(rt, host, looped(2, 5))?;
    print!(rt; "    or the loop cleared: ")?;
    command(rt, host, Submission::ClearLoop)?;
    print!(rt; "    or a swap to the same song: ")?;
    command(rt, host, Submission::Swap(host.session.song()))?;
    print!(rt; "    or a snapshot at 4 with loop 3..8: ")?;
    at_4(rt, host, round(3, 8))?;
    print!(rt; "    or a snapshot at 4 with no loop: ")?;
    at_4(rt, host, None)
}

/// 'A loop that isn't taken leaves it': its end is past the length. So do the commands that set no loop.
fn left(rt: &impl Print, host: Twenty) -> io::Result<()> {
    print!(rt; "    or a loop from 2 to 21, a block of 1: ")?;
    command(rt, host, looped(2, 21))?;
    print!(rt; "    or a snapshot at 4 with loop 2..21: ")?;
    at_4(rt, host, round(2, 21))?;
    print!(rt; "    or a pause: ")?;
    command(rt, host, Submission::Pause)?;
    print!(rt; "    or a stop: ")?;
    command(rt, host, Submission::Stop)
}

/// 'It stops at 2^64 - 1.' A block reports its passes all the same.
fn at_the_end(rt: &impl Print, mut host: Twenty) -> io::Result<()> {
    host.session.stage.playhead.transport.laps = 18446744073709551614;
    print!(rt; "  laps of 2^64 - 2, set by hand, a block of 8: ")?;
    block(rt, &mut host, &mut [0.0; 16])?;
    print!(rt; "    then of 3: ")?;
    block(rt, &mut host, &mut [0.0; 6])
}

// ---- a block with a command in it

/// A block of 11 with a command at 9, and the same block cut after 6.
fn cut(rt: &impl Print, mut host: Twenty, x: Submission) -> io::Result<()> {
    let _ = host.submit(x, At::Frame(ClockFrame(9)));
    let mut whole = host;
    print!(rt; "a block of 11: ")?;
    block(rt, &mut whole, &mut [0.0; 22])?;
    print!(rt; "      or one of 6: ")?;
    block(rt, &mut host, &mut [0.0; 12])?;
    print!(rt; "      and one of 5: ")?;
    block(rt, &mut host, &mut [0.0; 10])
}

/// 'A block reports the passes made in it, resets aside.' 'A cut block's reported laps add up.'
fn cut_in_two(rt: &impl Print, mut host: Twenty) -> io::Result<()> {
    print!(rt; "  a snapshot at 0 with loop 2..5: ")?;
    apply(rt, &mut host, 0, round(2, 5))?;
    print!(rt; "    with a play at clock 9, ")?;
    cut(rt, host, Submission::Play)?;
    print!(rt; "    with a loop from 2 to 5 at clock 9, ")?;
    cut(rt, host, looped(2, 5))?;
    print!(rt; "    with the loop cleared at clock 9, ")?;
    cut(rt, host, Submission::ClearLoop)?;
    print!(rt; "    with a swap at clock 9, ")?;
    cut(rt, host, Submission::Swap(host.session.song()))
}

pub fn all(rt: &impl Print) -> io::Result<()> {
    let opened = Host::open(SETTINGS, &[0.25; 40], 20);
    println!(rt; "the passes of a block, and the laps since the loop was set")?;
    two_in_a_frame(rt, opened)?;
    one_frame(rt, opened)?;
    let third = third_pass(rt, opened)?;
    set_back(rt, third)?;
    left(rt, third)?;
    at_the_end(rt, third)?;
    cut_in_two(rt, opened)
}
