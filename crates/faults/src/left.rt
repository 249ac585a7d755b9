//! What a call leaves: a refused one everything as it was, an accepted one what stands behind its records or bytes.
use crate::reader::read_listed;
use crate::table::{File, List, table};
use crate::told::Numbers;
use crate::writer::write_listed;
use std::io;

/// Reads a file into a list of twelve 9s.
fn read(rt: &impl Print, hex: &str) -> io::Result<()> {
    let mut list = [9; 12];
    let answer = read_listed(File::of(hex).bytes(), &mut list);
    let left = Numbers(&list);
    print!(rt; "{answer}, then{left}")
}

/// Writes records to an output of 32 9s.
fn write(rt: &impl Print, given: &str) -> io::Result<()> {
    let mut out = [9; 32];
    let answer = write_listed(List::of(given).words(), &mut out);
    let left = Numbers(&out);
    print!(rt; "{answer}, then{left}")
}

pub fn all(rt: &impl Print) -> io::Result<()> {
    table(
        rt,
        "what the reader leaves in a list of twelve 9s\n\
          version, Play 5 at frame 7, count 1: 0102000100 02110007y05y01 0302000100\n\
          version, count 0: 0102000100 0302000000\n\
          version, Play 5, Play 5, count 2: 0102000100 021100z05y01 021100z05y01 0302000200\n\
          version, Play 5, count 1, a byte: 0102000100 021100z05y01 0302000100 00\n\
          version, Play 5, Play 6, Play 7, count 3: 0102000100 021100z05y01 021100z06y01 021100z07y01 0302000300\n",
        |given| read(rt, given),
    )?;
    table(
        rt,
        "what the writer leaves in an output of 32 9s\n\
          Play 5 at frame 7: 7 5 1 0 0\n\
          no records:\n\
          Play 5, Play 5: 0 5 1 0 0, 0 5 1 0 0\n\
          Play 5, Play 6: 0 5 1 0 0, 0 6 1 0 0\n",
        |given| write(rt, given),
    )
}
