//! 'Tail under the master': what a swap's tail gives in each mode.
use crate::host::{Host, RATE, SMALL, Small, playing};
use crate::told::samples;
use bank::Kind;
use counts::{Handle, SongFrame};
use print::bits;
use stage::{AS_TONO, HOUSE, Settings};
use std::io;
use timeline::Submission;

/// The song that the swap goes to: 2 frames, so that it ends under the tail.
const SILENCE: Handle = Handle { slot: 1, serial: 2 };

/// The tail's weight in its first frame: 1023/1024.
const FIRST: f32 = 0.9990234375;

/// In its second: 1022/1024.
const SECOND: f32 = 0.998046875;

// ---- the swap

/// A session that plays a song of 4 frames of one sample, the master at rest, with silence loaded and a swap to it queued.
fn swapped(mode: u32, sample: f32, gain: f32) -> Small {
    let mut host: Small = Host::open(Settings { mode, ..SMALL }, &[sample; 8], 4);
    let _ = host.load(&[0.0; 4], Kind::Song(SongFrame(2)), RATE);
    let _ = host.apply(playing(0, gain, None));
    host.queue_one(Submission::Swap(SILENCE));
    host
}

/// The left samples of a block of 3: of the tail alone.
fn tail(mut host: Small) -> [f32; 3] {
    let mut out = [0.0; 6];
    let _ = host.block(&mut out);
    [out[0], out[2], out[4]]
}

// ---- the numbers

/// As tono 1023, 1022 and 1021 1024ths; in house mode a quarter of each.
fn low(rt: &impl Print, mode: u32) -> io::Result<()> {
    samples(rt, &tail(swapped(mode, 1.0, 0.25)))?;
    println!(rt)
}

/// A gain of 0.0 beside the swap, from 1.0 down in 256 frames: the same as tono; in house mode 255, 254 and 253 256ths of each.
fn falling(rt: &impl Print, mode: u32) -> io::Result<()> {
    let mut host = swapped(mode, 1.0, 1.0);
    host.queue_one(Submission::Gain(0.0));
    samples(rt, &tail(host))?;
    println!(rt)
}

/// Two samples, to the bit.
fn to_the_bit(rt: &impl Print, a: f32, b: f32) -> io::Result<()> {
    println!(rt; "{} {}", bits(a), bits(b))
}

/// The left samples of a tail's first 2 frames. The second is made by itself, since the song of silence ends in it.
fn two(rt: &impl Print, mode: u32, sample: f32, gain: f32) -> io::Result<()> {
    let [first, second, _] = tail(swapped(mode, sample, gain));
    to_the_bit(rt, first, second)
}

/// 'House multiplies the tail by g before w': at 0.88 and 0.3 the other order rounds to other numbers.
fn order(rt: &impl Print) -> io::Result<()> {
    print!(rt;
        "  a tail of 0.88, the master at rest at 0.3, frames 1 and 2 as bits\n    as tono: "
    )?;
    two(rt, AS_TONO, 0.88, 0.3)?;
    print!(rt; "    in house mode: ")?;
    two(rt, HOUSE, 0.88, 0.3)?;
    print!(rt; "    0.88 by 0.3, then by the weight: ")?;
    to_the_bit(rt, (0.88 * 0.3) * FIRST, (0.88 * 0.3) * SECOND)?;
    print!(rt; "    0.88 by the weight, then by 0.3: ")?;
    to_the_bit(rt, (0.88 * FIRST) * 0.3, (0.88 * SECOND) * 0.3)
}

pub fn all(rt: &impl Print) -> io::Result<()> {
    println!(rt; "the tail of a swap to silence, in each mode")?;
    print!(rt; "  a tail of 1.0, the master at rest at 0.25, frames 1 to 3\n    as tono:")?;
    low(rt, AS_TONO)?;
    print!(rt; "    in house mode:")?;
    low(rt, HOUSE)?;
    print!(rt;
        "  a tail of 1.0, the master at 1.0, with the swap a gain of 0.0, frames 1 to 3\n    as tono:"
    )?;
    falling(rt, AS_TONO)?;
    print!(rt; "    in house mode:")?;
    falling(rt, HOUSE)?;
    order(rt)
}
