//! The reader: each fault once, on which side of its bounds a field is, and the two faults that are of no field.
ghost use Rattle.std.specs.Prelude.{◌≤◌};

use crate::given::{Entry, LAST, LATER, NONE, THREE, at, listed, pair};
use crate::table::{File, table};
use crate::told::{Answer, case};
use std::io;

/// A version and a count of no commands.
const EMPTY: &[u8; 10] = b"\x01\x02\0\x01\0\
                           \x03\x02\0\0\0";

/// A version, a Play 5 and a Play 6, and their count.
const TWO: &[u8; 50] = b"\x01\x02\0\x01\0\
                         \x02\x11\0\0\0\0\0\0\0\0\0\x05\0\0\0\0\0\0\0\x01\
                         \x02\x11\0\0\0\0\0\0\0\0\0\x06\0\0\0\0\0\0\0\x01\
                         \x03\x02\0\x02\0";

/// Reads a file where the handles of the cases are listed.
pub fn read_listed(file: &[u8], list: &mut [u64]) -> Answer {
    let clips = listed();
    Answer::read(tourfile::read_tour(&clips, file, list))
}

/// Reads a file into a list for four records.
pub fn read(rt: &impl Print, hex: &str) -> io::Result<()> {
    let mut list = [0; 20];
    let answer = read_listed(File::of(hex).bytes(), &mut list);
    print!(rt; "{answer}")
}

/// Reads the file of no commands with two handles.
fn two_listed(rt: &impl Print, one: Entry, other: Entry) -> io::Result<()> {
    let clips = pair(one, other);
    let mut list = [0; 0];
    let answer = Answer::read(tourfile::read_tour(&clips, EMPTY, &mut list));
    println!(rt; "  version, count 0, {one}, {other}: {answer}")
}

/// Reads the file of two Plays into a list of so many words.
fn room(rt: &impl Print, n: usize) -> io::Result<()>
    requires { n ≤ 14 }
{
    let mut list = [0; 14];
    let answer = read_listed(TWO, &mut list[..n]);
    println!(rt; "  version, Play 5, Play 6, count 2, into a list of {n} words: {answer}")
}

fn each(rt: &impl Print) -> io::Result<()> {
    println!(rt; "the reader, each fault once")?;
    two_listed(rt, at(3, THREE), at(31, THREE))?;
    table(
        rt,
        "version: 0102000100\n\
          tag 9 of 2 bytes, count 0: 0902000100 0302000000\n\
          version, tag 9 of 2 bytes, count 0: 0102000100 0902000100 0302000000\n\
          version, Play 5 of 18 bytes, count 1: 0102000100 021200z05y0100 0302000100\n\
          version 2, count 0: 0102000200 0302000000\n\
          version, kind 11, count 1: 0102000100 021100z05y0b 0302000100\n\
          version, Swap 5 to clip 2, count 1: 0102000100 021200z05y0902 0302000100\n\
          version, Play 5, Play 5, count 2: 0102000100 021100z05y01 021100z05y01 0302000200\n",
        |given| read(rt, given),
    )?;
    crate::many::one_too_many(rt)?;
    table(
        rt,
        "version, count 1: 0102000100 0302000100\n\
          version, count 0, a byte: 0102000100 0302000000 00\n",
        |given| read(rt, given),
    )?;
    room(rt, 9)
}

/// 'Cut short': a field whose bytes run past the end, or a last one that is not there.
fn ends(rt: &impl Print) -> io::Result<()> {
    table(
        rt,
        "the reader, where a file ends\n\
          an empty file:\n\
          the byte 9: 09\n\
          version up to its length's first byte: 0102\n\
          version up to its length: 010200\n\
          version without its last byte: 01020001\n\
          version: 0102000100\n\
          version, count 0 without its last byte: 0102000100 03020000\n\
          version, count 0: 0102000100 0302000000\n\
          version, Play 5 without its last byte: 0102000100 021100z05y\n\
          version, Play 5: 0102000100 021100z05y01\n\
          version, Play 5, count 1: 0102000100 021100z05y01 0302000100\n\
          version, tag 128 of 0 bytes: 0102000100 800000\n\
          version, tag 128 of 256 bytes, which count 0 does not fill: 0102000100 800001 0302000000\n",
        |given| read(rt, given),
    )
}

/// 'Tag 1 is the version (two bytes, value 1) and comes first', 'tag 3 is the count of commands (two bytes) and comes last', 'tags
/// 128 to 255 are skipped between first and last; others, a second tag 1 too, are unknown'.
fn tags(rt: &impl Print) -> io::Result<()> {
    table(
        rt,
        "the reader, first tags\n\
          tag 9 of 0 bytes: 090000\n\
          tag 128 of 0 bytes: 800000\n\
          count 0: 0302000000\n\
          Play 5, count 1: 021100z05y01 0302000100\n\
          tag 128 of 20 bytes, which are Play 5, count 1: 801400 021100z05y01 0302000100\n\
          tag 128 of 0 bytes, version, count 0: 800000 0102000100 0302000000\n\
          the reader, later tags\n\
          version, version: 0102000100 0102000100\n\
          version, tag 0 of 0 bytes, count 0: 0102000100 000000 0302000000\n\
          version, tag 4 of 0 bytes, count 0: 0102000100 040000 0302000000\n\
          version, tag 127 of 0 bytes, count 0: 0102000100 7f0000 0302000000\n\
          version, tag 128 of 0 bytes, count 0: 0102000100 800000 0302000000\n\
          version, tag 255 of 0 bytes, count 0: 0102000100 ff0000 0302000000\n\
          version, tag 128 of 5 bytes, which are count 7, count 0: 0102000100 800500 0302000700 0302000000\n\
          version, Play 5, tag 255 of 1 byte, Play 6, tag 128 of 0 bytes, count 2: \
              0102000100 021100z05y01 ff010009 021100z06y01 800000 0302000200\n\
          the reader, versions\n\
          version 0, count 0: 0102000000 0302000000\n\
          version 2: 0102000200\n\
          version 257, count 0: 0102000101 0302000000\n\
          the reader, counts\n\
          version, Play 5, count 0: 0102000100 021100z05y01 0302000000\n\
          version, Play 5, count 2: 0102000100 021100z05y01 0302000200\n\
          version, Play 5, count 257: 0102000100 021100z05y01 0302000101\n\
          version, tag 128 of 0 bytes, count 1: 0102000100 800000 0302000100\n\
          the reader, behind the last field\n\
          version, count 0, a byte: 0102000100 0302000000 00\n\
          version, count 0, tag 128 of 0 bytes: 0102000100 0302000000 800000\n\
          version, count 0, count 0: 0102000100 0302000000 0302000000\n\
          version, Play 5, count 1, Play 6, count 2: 0102000100 021100z05y01 0302000100 021100z06y01 0302000200\n\
          version, count 1, Play 5, count 1 (111, 112): 0102000100 0302000100 021100z05y01 0302000100\n",
        |given| read(rt, given),
    )
}

/// 'Wrong length (a command's: at least 17, by its kind if known)', 'kind (one byte, 1 to 10 in 01's order from Play)', 'a clip as
/// one byte 0 to 31', 'serial 0 is none', 'numbers rise (the first is free) and frames need not'.
fn commands(rt: &impl Print) -> io::Result<()> {
    table(
        rt,
        "the reader, lengths\n\
          version of 1 byte, count 0: 01010001 0302000000\n\
          version of 3 bytes: 010300010000\n\
          version, count 0 of 1 byte: 0102000100 03010000\n\
          version, count 0 of 3 bytes: 0102000100 030300000000\n\
          version, a command of 0 bytes, count 1: 0102000100 020000 0302000100\n\
          version, a command of 16 bytes, count 1: 0102000100 021000z05y 0302000100\n\
          version, Play 5 of 17 bytes, count 1: 0102000100 021100z05y01 0302000100\n\
          version, Play 5 of 18 bytes, count 1: 0102000100 021200z05y0100 0302000100\n\
          version, Swap 5 of 17 bytes, count 1: 0102000100 021100z05y09 0302000100\n\
          version, Swap 5 of 19 bytes, count 1: 0102000100 021300z05y090300 0302000100\n\
          the reader, kinds\n\
          version, kind 0 of 17 bytes, count 1: 0102000100 021100z05y00 0302000100\n\
          version, kind 0 of 18 bytes, count 1: 0102000100 021200z05y0000 0302000100\n\
          version, kind 10, a Stinger 5 of clip 3, count 1: 0102000100 021600z05y0a030000803f 0302000100\n\
          version, kind 11 of 17 bytes, count 1: 0102000100 021100z05y0b 0302000100\n\
          version, kind 255 of 22 bytes, count 1: 0102000100 021600z05yff030000803f 0302000100\n\
          the reader, clips\n\
          version, Swap 5 to clip 3, count 1: 0102000100 021200z05y0903 0302000100\n\
          version, Swap 5 to clip 4, a slot with serial 0, count 1: 0102000100 021200z05y0904 0302000100\n\
          version, Swap 5 to clip 31, count 1: 0102000100 021200z05y091f 0302000100\n\
          version, Swap 5 to clip 32, count 1: 0102000100 021200z05y0920 0302000100\n\
          version, Swap 5 to clip 255, count 1: 0102000100 021200z05y09ff 0302000100\n\
          version, Stinger 5 of clip 31, count 1: 0102000100 021600z05y0a1f0000803f 0302000100\n\
          version, Stinger 5 of clip 32, count 1: 0102000100 021600z05y0a200000803f 0302000100\n\
          version, Seek 5 to 32, count 1: 0102000100 021900z05y0420y 0302000100\n\
          the reader, numbers\n\
          version, Play 0, count 1: 0102000100 021100zz01 0302000100\n\
          version, Play 0, Play 0, count 2: 0102000100 021100zz01 021100zz01 0302000200\n\
          version, Play 5, Play 4, count 2: 0102000100 021100z05y01 021100z04y01 0302000200\n\
          version, Play 5 at frame 9, Play 6 at frame 8, count 2: 0102000100 02110009y05y01 02110008y06y01 0302000200\n\
          version, Play 255, Play 256, count 2: 0102000100 021100zffy01 021100z000100000000000001 0302000200\n\
          version, Play 2^64 - 1, Play 0, count 2: 0102000100 021100zffffffffffffffff01 021100zz01 0302000200\n\
          version, Play 5, Play 9, Play 7, count 3: 0102000100 021100z05y01 021100z09y01 021100z07y01 0302000300\n\
          version, Play 5, tag 128 of 0 bytes, Play 5, count 2: 0102000100 021100z05y01 800000 021100z05y01 0302000200\n",
        |given| read(rt, given),
    )
}

/// 'Both sides first: a handle listed twice.' Slot and serial are the handle, and serial 0 is none.
fn twice(rt: &impl Print) -> io::Result<()> {
    println!(rt; "the reader, a handle listed twice")?;
    two_listed(rt, at(0, THREE), at(1, THREE))?;
    two_listed(rt, at(0, THREE), at(31, THREE))?;
    two_listed(rt, at(30, THREE), at(31, THREE))?;
    two_listed(rt, at(0, THREE), at(31, LATER))?;
    two_listed(rt, at(0, THREE), at(31, LAST))?;
    two_listed(rt, at(0, NONE), at(31, NONE))
}

/// 'Last, the list for records too short.' Five words are a record, and a remainder is not looked at.
fn rooms(rt: &impl Print) -> io::Result<()> {
    println!(rt; "the reader, lists")?;
    room(rt, 0)?;
    room(rt, 9)?;
    room(rt, 10)?;
    room(rt, 14)
}

/// Reads a file into a list of no words.
fn read_none(rt: &impl Print, what: &str, clips: &[u64; 32], file: &[u8]) -> io::Result<()> {
    let mut list = [0; 0];
    case(
        rt,
        what,
        Answer::read(tourfile::read_tour(clips, file, &mut list)),
    )
}

fn first_and_last(rt: &impl Print) -> io::Result<()> {
    println!(rt; "the reader, a handle listed twice before all else, the list for records last")?;
    let clips = listed();
    let twice = pair(at(3, THREE), at(31, THREE));
    read_none(
        rt,
        "an empty file, a handle listed twice (101, 102)",
        &twice,
        b"",
    )?;
    read_none(
        rt,
        "version, Play 5, count 1, a handle listed twice, no list (101, 113)",
        &twice,
        b"\x01\x02\0\x01\0\
          \x02\x11\0\0\0\0\0\0\0\0\0\x05\0\0\0\0\0\0\0\x01\
          \x03\x02\0\x01\0",
    )?;
    read_none(
        rt,
        "version, Play 5, count 1, a byte, no list (112, 113)",
        &clips,
        b"\x01\x02\0\x01\0\
          \x02\x11\0\0\0\0\0\0\0\0\0\x05\0\0\0\0\0\0\0\x01\
          \x03\x02\0\x01\0\
          \0",
    )?;
    read_none(rt, "version, count 0, no list", &clips, EMPTY)
}

pub fn all(rt: &impl Print) -> io::Result<()> {
    each(rt)?;
    ends(rt)?;
    tags(rt)?;
    commands(rt)?;
    twice(rt)?;
    rooms(rt)?;
    first_and_last(rt)
}
