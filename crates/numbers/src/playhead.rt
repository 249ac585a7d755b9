//! 'Playhead and sound agree after a wrap': where the playhead stands and which sample sounds, in each mode.
use crate::host::{Host, SMALL, looped, playing};
use crate::told::{position, samples};
use counts::SongFrame;
use print::whole;
use stage::{AS_TONO, HOUSE, Settings};
use std::io;
use timeline::Submission;

// ---- the songs

/// A session that plays a song from its start, with a pool of 32 frames.
fn plays(mode: u32, song: &[f32], length: u64) -> Host<10, 64> {
    let settings = Settings {
        mode,
        pool: 32,
        ..SMALL
    };
    let mut host = Host::open(settings, song, length);
    let _ = host.apply(playing(0, 1.0, None));
    host
}

/// A song of 32 frames: frame k of the loop 10..14 is k/64, so that a sample tells its frame; each other is 32/64.
fn numbered() -> [f32; 64] {
    let mut song = [0.5; 64];
    song[20..28].copy_from_slice(&[
        0.15625, 0.15625, 0.171875, 0.171875, 0.1875, 0.1875, 0.203125, 0.203125,
    ]);
    song
}

// ---- the numbers

/// A block of 1: the frame of the song that sounds, then the position.
fn frame(rt: &impl Print, host: &mut Host<10, 64>) -> io::Result<()> {
    let mut out = [0.0; 2];
    let _ = host.block(&mut out);
    print!(rt;
        " {} then {}",
        whole(out[0] * 64.0),
        host.session.position().0
    )
}

/// Rule a takes 27 to 11, and 40, held at the length of 32, to 12: as tono frame 10 sounds there, in house mode 11 or 12.
fn wrapped(rt: &impl Print, mode: u32, to: u64) -> io::Result<()> {
    let mut host = plays(mode, &numbered(), 32);
    host.queue_one(looped(10, 14));
    host.queue_one(Submission::Seek(SongFrame(to)));
    frame(rt, &mut host)?;
    for _ in 1..5 {
        print!(rt; ",")?;
        frame(rt, &mut host)?;
    }
    println!(rt)
}

/// Where the clip has ended the playhead goes on, in silence.
fn short(rt: &impl Print, mode: u32) -> io::Result<()> {
    let mut host = plays(mode, &[0.25; 8], 10);
    let mut out = [0.0; 12];
    let _ = host.block(&mut out);
    samples(rt, &out[6..])?;
    position(rt, host.session)?;
    println!(rt)
}

pub fn all(rt: &impl Print) -> io::Result<()> {
    println!(rt; "the playhead and the sound after a wrap, in each mode")?;
    print!(rt;
        "  a song of 32 frames, loop 10..14, a seek to 27, five blocks of 1: the frame that sounds, then the position\n    as tono:"
    )?;
    wrapped(rt, AS_TONO, 27)?;
    print!(rt; "    in house mode:")?;
    wrapped(rt, HOUSE, 27)?;
    print!(rt; "  the same with a seek to 40, past the length\n    as tono:")?;
    wrapped(rt, AS_TONO, 40)?;
    print!(rt; "    in house mode:")?;
    wrapped(rt, HOUSE, 40)?;
    print!(rt;
        "  a clip of 4 frames of 0.25, its length 10, a block of 6: its frames 4 to 6, and the position\n    as tono:"
    )?;
    short(rt, AS_TONO)?;
    print!(rt; "    in house mode:")?;
    short(rt, HOUSE)
}
