//! A clip is dropped and replaced while a queued swap names it.
use crate::host::{RATE, Small, handle_of, small};
use crate::told::{samples, stands};
use bank::Kind;
use counts::{ClockFrame, Handle, SongFrame};
use std::io;
use timeline::Submission;
use transport::At;

/// A load of a song of 3 frames, and where in the pool it then lies.
fn load(rt: &impl Print, host: &mut Small, samples: &[f32; 6]) -> io::Result<Handle> {
    let a = host.load(samples, Kind::Song(SongFrame(3)), RATE);
    print::load_answer(rt, a)?;
    let h = handle_of(a);
    if h.slot < 32 {
        let c = bank::clip_of(host.session.bank, h);
        print!(rt;
            ", from frame {} of the pool, {} frames\n",
            c.start, c.frames
        )?;
    }
    Ok(h)
}

fn swap(rt: &impl Print, host: &mut Small, h: Handle, at: At) -> io::Result<()> {
    print::submit_answer(rt, host.submit(Submission::Swap(h), at))?;
    println!(rt)
}

fn retire(rt: &impl Print, host: &mut Small, h: Handle) -> io::Result<()> {
    print::answer(rt, host.retire(h))?;
    println!(rt)
}

fn block(rt: &impl Print, host: &mut Small, out: &mut [f32]) -> io::Result<()> {
    stands(rt, host.block(out), host.session)
}

fn live(rt: &impl Print, host: &Small, h: Handle) -> io::Result<()> {
    if host.session.is_live(h) {
        return println!(rt; "live");
    }
    println!(rt; "not live")
}

/// '19: clip held by song, tail, voice, queue or running capture.' B is held by a queued swap, and then plays.
fn until_played(rt: &impl Print, host: &mut Small, b: Handle) -> io::Result<()> {
    let mut six = [0.0; 12];
    print!(rt; "  a swap to B at clock 4: ")?;
    swap(rt, host, b, At::Frame(ClockFrame(4)))?;
    print!(rt; "  retire B, which the queue holds: ")?;
    retire(rt, host, b)?;
    print!(rt; "  a block of 6: ")?;
    block(rt, host, &mut six)?;
    print!(rt; "   ")?;
    samples(rt, &six)?;
    print!(rt; "\n  retire B, which plays: ")?;
    retire(rt, host, b)
}

/// B becomes the tail, which 'leaves after the frame in which its weight lands on 0'.
fn until_gone(rt: &impl Print, host: &mut Small, a: Handle, b: Handle) -> io::Result<()> {
    print!(rt; "  a swap to A at once: ")?;
    swap(rt, host, a, At::Immediate)?;
    print!(rt; "  a block of 1,023: ")?;
    block(rt, host, &mut [0.0; 2046])?;
    print!(rt; "  retire B, which is the tail: ")?;
    retire(rt, host, b)?;
    print!(rt; "  a block of 1, the tail's last: ")?;
    block(rt, host, &mut [0.0; 2])?;
    print!(rt; "  retire B, which nothing holds: ")?;
    retire(rt, host, b)
}

/// 'Retired room is used again.' Serials 'never repeat in a session', so the handle of B never stands for C.
fn again(rt: &impl Print, host: &mut Small, b: Handle) -> io::Result<()> {
    let mut four = [0.0; 8];
    print!(rt; "  load C, a song of 3 frames: ")?;
    let c = load(rt, host, &[0.125; 6])?;
    print!(rt; "  a swap to B at once: ")?;
    swap(rt, host, b, At::Immediate)?;
    print!(rt; "  retire B: ")?;
    retire(rt, host, b)?;
    print!(rt; "  a swap to C at once: ")?;
    swap(rt, host, c, At::Immediate)?;
    print!(rt; "  a block of 4: ")?;
    block(rt, host, &mut four)?;
    print!(rt; "   ")?;
    samples(rt, &four)?;
    print!(rt; "\n  C is ")?;
    live(rt, host, c)?;
    print!(rt; "  B is ")?;
    live(rt, host, b)
}

/// The trap: 'Checking a handle only when it is scheduled and letting it be retired later.'
pub fn replaced(rt: &impl Print) -> io::Result<()> {
    print!(rt;
        "a song is replaced while a queued swap names it\n  open with A, a song of 2 frames: "
    )?;
    let mut host = small();
    let a = host.session.song();
    print::handle(rt, a)?;
    print!(rt; "\n  load B, a song of 3 frames: ")?;
    let b = load(rt, &mut host, &[0.0625; 6])?;
    until_played(rt, &mut host, b)?;
    until_gone(rt, &mut host, a, b)?;
    again(rt, &mut host, b)
}
