//! 'Reading what was written with the same list returns the same records, and writing what was read gives the same file if it
//! had no skipped tags.'
use crate::reader::read_listed;
use crate::table::{File, List, table};
use crate::told::{Numbers, case, first};
use crate::writer::write_listed;
use std::io;

/// One record, written and read again: the command's field, which stands between version and count, and the words.
fn write(rt: &impl Print, given: &str) -> io::Result<()> {
    let mut out = [0; 46];
    let mut second = [9; 5];
    let n = write_listed(List::of(given).words(), &mut out).count();
    let _ = read_listed(first(&out, n), &mut second);
    let field = Numbers(out.get(5..n.saturating_sub(5)).unwrap_or(&[]));
    let record = Numbers(&second);
    print!(rt; "field{field}, record{record}")
}

/// A file, read, written, and what was written read again.
fn read(rt: &impl Print, hex: &str) -> io::Result<()> {
    let mut list = [0; 55];
    let mut out = [0; 300];
    let mut second = [0; 55];
    let file = File::of(hex);
    let once = read_listed(file.bytes(), &mut list);
    let written = write_listed(first(&list, once.count().saturating_mul(5)), &mut out);
    let fresh = first(&out, written.count());
    let again = read_listed(fresh, &mut second);
    let files = if fresh == file.bytes() {
        "the same file"
    } else {
        "another file"
    };
    let words = if list == second {
        "the same words"
    } else {
        "OTHER WORDS"
    };
    print!(rt; "{once}, written {written}, {files}, read again {again}, {words}")
}

/// 'Frames eight bytes, gains as their four binary32 bits, a clip as one byte 0 to 31.' Words that a kind does not use are not
/// looked at, and read as 0.
fn kinds(rt: &impl Print) -> io::Result<()> {
    table(
        rt,
        "each kind written and read again, at frame 7 with number 5\n\
          Play: 7 5 1 0 0\n\
          Pause: 7 5 2 0 0\n\
          Stop: 7 5 3 0 0\n\
          Seek to 2^64 - 1: 7 5 4 ffffffffffffffff 0\n\
          Transition to 0x0102030405060708: 7 5 5 0102030405060708 0\n\
          Loop from 10 to 14: 7 5 6 a e\n\
          ClearLoop: 7 5 7 0 0\n\
          Gain -0.0: 7 5 8 80000000 0\n\
          Gain infinity: 7 5 8 7f800000 0\n\
          Gain NaN 0x7fc12345: 7 5 8 7fc12345 0\n\
          Swap to slot 3 serial 7: 7 5 9 300000007 0\n\
          Stinger of slot 31 serial 7, NaN 0xffa12345: 7 5 a 1f00000007 ffa12345\n\
          the same with unused words of 2^64 - 1\n\
          Play: 7 5 1 ffffffffffffffff ffffffffffffffff\n\
          Seek to 10: 7 5 4 a ffffffffffffffff\n\
          Gain -0.0: 7 5 8 80000000 ffffffffffffffff\n\
          Swap to slot 3 serial 7: 7 5 9 300000007 ffffffffffffffff\n",
        |given| write(rt, given),
    )
}

fn files(rt: &impl Print) -> io::Result<()> {
    table(
        rt,
        "files read, written and read again\n\
          all ten kinds, frames falling, gains -0.0, infinity and NaN 0x7fc12345: 0102000100 \
              0211005ay01y01 02110050y02y02 02110046y03y03 0219003cy04y04ffffffffffffffff 02190032y05y050807060504030201 \
              02210028y06y060ay0ey 0211001ey07y07 02150014y08y0800000080 0215000ay09y080000807f \
              02120005y0ay0903 021600zffffffffffffffff0a1f4523c17f 0302000b00\n\
          version, count 0: 0102000100 0302000000\n\
          version, tag 128 of 0 bytes, Play 5, tag 255 of 1 byte, count 1: \
              0102000100 800000 021100z05y01 ff010009 0302000100\n",
        |given| read(rt, given),
    )
}

/// A file is as many bytes as the writer answers: a longer output is none.
fn longer(rt: &impl Print) -> io::Result<()> {
    let mut out = [0; 31];
    let mut list = [0; 5];
    let _ = write_listed(&[0, 5, 1, 0, 0], &mut out);
    case(
        rt,
        "Play 5 written to 31 bytes, all 31 read",
        read_listed(&out, &mut list),
    )
}

pub fn all(rt: &impl Print) -> io::Result<()> {
    kinds(rt)?;
    files(rt)?;
    longer(rt)
}
