//! The writer: each fault once, on which side of its bounds a record is, and the order. A record is its frame, number, kind and
//! two words.
ghost use Rattle.std.specs.Prelude.{◌≤◌};

use crate::given::{THREE, at, listed, pair};
use crate::table::{List, table};
use crate::told::{Answer, case};
use std::io;

/// The record of a Play with number 5.
const PLAY: [u64; 5] = [0, 5, 1, 0, 0];

/// Writes records where the handles of the cases are listed.
pub fn write_listed(records: &[u64], out: &mut [u8]) -> Answer {
    let clips = listed();
    Answer::written(tourfile::write_tour(&clips, records, out))
}

/// Writes records to an output of 80 bytes.
fn write(rt: &impl Print, given: &str) -> io::Result<()> {
    let mut out = [0; 80];
    let answer = write_listed(List::of(given).words(), &mut out);
    print!(rt; "{answer}")
}

/// Writes records to an output of so many bytes.
fn room(rt: &impl Print, what: &str, records: &[u64], n: usize) -> io::Result<()>
    requires { n ≤ 31 }
{
    let mut out = [0; 31];
    let answer = write_listed(records, &mut out[..n]);
    println!(rt; "  {what}, to an output of {n} bytes: {answer}")
}

/// The faults in the writer's order: 101, 114, 108, 109, 110, 115.
fn each(rt: &impl Print) -> io::Result<()> {
    println!(rt; "the writer, each fault once")?;
    let clips = pair(at(3, THREE), at(31, THREE));
    let mut out = [0; 30];
    case(
        rt,
        "Play 5, a handle listed twice",
        Answer::written(tourfile::write_tour(&clips, &PLAY, &mut out)),
    )?;
    table(
        rt,
        "kind 11: 0 5 b 0 0\n\
          Swap 5 to slot 3 serial 8: 0 5 9 300000008 0\n\
          Play 5, Play 5: 0 5 1 0 0, 0 5 1 0 0\n",
        |given| write(rt, given),
    )?;
    crate::many::one_too_many_written(rt)?;
    room(rt, "Play 5", &PLAY, 29)
}

/// 'Unreadable record, clip not listed, number not rising.'
fn records(rt: &impl Print) -> io::Result<()> {
    table(
        rt,
        "the writer, kinds and gains\n\
          kind 0: 0 5 0 0 0\n\
          kind 1, a Play 5: 0 5 1 0 0\n\
          kind 10, a Stinger 5 of slot 3 serial 7: 0 5 a 300000007 0\n\
          kind 11: 0 5 b 0 0\n\
          kind 257: 0 5 101 0 0\n\
          Gain 5 of 2^32 - 1: 0 5 8 ffffffff 0\n\
          Gain 5 of 2^32: 0 5 8 100000000 0\n\
          Stinger 5 of slot 3 serial 7, gain 2^32: 0 5 a 300000007 100000000\n\
          Play 5, its unused words 2^32: 0 5 1 100000000 100000000\n\
          the writer, clips\n\
          Swap 5 to slot 3 serial 7: 0 5 9 300000007 0\n\
          Swap 5 to slot 31 serial 7: 0 5 9 1f00000007 0\n\
          Swap 5 to slot 4 serial 0, which stands at 4: 0 5 9 400000000 0\n\
          Swap 5 to slot 0 serial 0, which stands at 0: 0 5 9 0 0\n\
          Stinger 5 of slot 31 serial 7: 0 5 a 1f00000007 0\n\
          Stinger 5 of slot 3 serial 8: 0 5 a 300000008 0\n\
          the writer, numbers\n\
          Play 0: 0 0 1 0 0\n\
          Play 0, Play 0: 0 0 1 0 0, 0 0 1 0 0\n\
          Play 5, Play 4: 0 5 1 0 0, 0 4 1 0 0\n\
          Play 5 at frame 9, Play 6 at frame 8: 9 5 1 0 0, 8 6 1 0 0\n\
          Play 2^64 - 1, Play 0: 0 ffffffffffffffff 1 0 0, 0 0 1 0 0\n\
          Play 5, Play 9, Play 7: 0 5 1 0 0, 0 9 1 0 0, 0 7 1 0 0\n\
          the writer, lists\n\
          no words:\n\
          4 words, no record: 0 5 b 0\n\
          9 words, Play 5 in front: 0 5 1 0 0, 0 5 b 0\n",
        |given| write(rt, given),
    )
}

/// 'Output too short.'
fn rooms(rt: &impl Print) -> io::Result<()> {
    println!(rt; "the writer, outputs")?;
    room(rt, "no records", &[], 9)?;
    room(rt, "no records", &[], 10)?;
    room(rt, "Play 5", &PLAY, 29)?;
    room(rt, "Play 5", &PLAY, 30)?;
    room(rt, "Play 5", &PLAY, 31)
}

/// 'By first record, then this order.'
fn order(rt: &impl Print) -> io::Result<()> {
    table(
        rt,
        "the writer, two faults in one list, the first record wins\n\
          Swap 5 to slot 3 serial 8, kind 11 (108 at 0, 114 at 1): 0 5 9 300000008 0, 0 6 b 0 0\n\
          Play 5, Play 5, kind 11 (109 at 1, 114 at 2): 0 5 1 0 0, 0 5 1 0 0, 0 6 b 0 0\n\
          Play 5, Play 5, Swap 6 to slot 3 serial 8 (109 at 1, 108 at 2): 0 5 1 0 0, 0 5 1 0 0, 0 6 9 300000008 0\n\
          the writer, two faults in one record, the earlier in the order wins\n\
          Stinger 5 of slot 3 serial 8, gain 2^32 (114, 108): 0 5 a 300000008 100000000\n\
          Play 5, kind 11 with number 5 (114, 109): 0 5 1 0 0, 0 5 b 0 0\n\
          Play 5, Swap 5 to slot 3 serial 8 (108, 109): 0 5 1 0 0, 0 5 9 300000008 0\n",
        |given| write(rt, given),
    )
}

/// Writes records to an output of no bytes.
fn write_none(rt: &impl Print, what: &str, clips: &[u64; 32], records: &[u64]) -> io::Result<()> {
    let mut out = [0; 0];
    case(
        rt,
        what,
        Answer::written(tourfile::write_tour(clips, records, &mut out)),
    )
}

fn first_and_last(rt: &impl Print) -> io::Result<()> {
    println!(rt; "the writer, a handle listed twice before all else, the output last")?;
    let clips = listed();
    let twice = pair(at(3, THREE), at(31, THREE));
    write_none(
        rt,
        "kind 11, a handle listed twice (101, 114)",
        &twice,
        &[0, 5, 11, 0, 0],
    )?;
    write_none(
        rt,
        "Play 5, a handle listed twice, no output (101, 115)",
        &twice,
        &[0, 5, 1, 0, 0],
    )?;
    write_none(
        rt,
        "kind 11, no output (114, 115)",
        &clips,
        &[0, 5, 11, 0, 0],
    )?;
    write_none(
        rt,
        "Play 5, Play 5, no output (109, 115)",
        &clips,
        &[0, 5, 1, 0, 0, 0, 5, 1, 0, 0],
    )
}

pub fn all(rt: &impl Print) -> io::Result<()> {
    each(rt)?;
    records(rt)?;
    rooms(rt)?;
    order(rt)?;
    first_and_last(rt)
}
