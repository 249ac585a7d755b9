//! The reader where two faults stand in one file: 'by lowest first byte of a faulty field, then this order'.
use crate::reader::read;
use crate::table::table;
use std::io;

/// The lower place wins, also over a fault that comes earlier in the order.
fn places(rt: &impl Print) -> io::Result<()> {
    table(
        rt,
        "the reader, two faults in one file, the lower place wins\n\
          tag 9 of 2 bytes, count 0 without its last byte (103 at 0, 102 at 5): 0902000100 03020000\n\
          version of 3 bytes, tag 9 of 0 bytes, count 0 (105 at 0, 104 at 6): 010300010000 090000 0302000000\n\
          version 2, Play 5 of 18 bytes, count 1 (106 at 0, 105 at 5): 0102000200 021200z05y0100 0302000100\n\
          version, tag 9 of 0 bytes, count 0 without its last byte (104 at 5, 102 at 8): 0102000100 090000 03020000\n\
          version, kind 11, Play 6 of 18 bytes, count 2 (107 at 5, 105 at 25): \
              0102000100 021100z05y0b 021200z06y0100 0302000200\n\
          version, Swap 5 to clip 2, kind 11, count 2 (108 at 5, 107 at 26): \
              0102000100 021200z05y0902 021100z06y0b 0302000200\n\
          version, Play 5, Play 5, Swap 6 to clip 2, count 3 (109 at 25, 108 at 45): \
              0102000100 021100z05y01 021100z05y01 021200z06y0902 0302000300\n\
          version, Play 5, Play 5, count 2 without its last byte (109 at 25, 102 at 45): \
              0102000100 021100z05y01 021100z05y01 03020002\n",
        |given| read(rt, given),
    )
}

/// In one field the earlier in the order wins. 103 stands at byte 0 and 104 behind it; a version, a command and a count differ
/// in their tags, and an unknown kind has no clip: so 103 and 104, 106 and 107, 107 and 108, 110 and 111 never meet.
fn one_field(rt: &impl Print) -> io::Result<()> {
    table(
        rt,
        "the reader, two faults in one field, the earlier in the order wins\n\
          tag 9 of 2 bytes without the last (102, 103): 09020001\n\
          version, tag 9 of 2 bytes without the last (102, 104): 0102000100 09020001\n\
          version of 258 bytes, of which 7 are there (102, 105): 0102010100 0302000000\n\
          version 2 without its last byte (102, 106): 01020002\n\
          version, kind 11 of 18 bytes without the last (102, 107): 0102000100 021200z05y0b\n\
          version, Stinger 5 of clip 2 without its last byte (102, 108): 0102000100 021600z05y0a02000080\n\
          version, Play 5, Swap 5 without its last byte (102, 109): 0102000100 021100z05y01 021200z05y09\n\
          version, count 1 without its last byte (102, 111): 0102000100 03020001\n\
          count 0 of 3 bytes (103, 105): 030300000000\n\
          kind 11, count 1 (103, 107): 021100z05y0b 0302000100\n\
          Swap 5 to clip 2, count 1 (103, 108): 021200z05y0902 0302000100\n\
          count 1 (103, 111): 0302000100\n\
          count 0, a byte (103, 112): 0302000000 00\n\
          version, version of 3 bytes, count 0 (104, 105): 0102000100 010300010000 0302000000\n\
          version, version 2, count 0 (104, 106): 0102000100 0102000200 0302000000\n\
          version 2 of 3 bytes, count 0 (105, 106): 010300020000 0302000000\n\
          version, Swap 5 to clip 2 of 19 bytes, count 1 (105, 108): 0102000100 021300z05y090200 0302000100\n\
          version, Play 5, Play 5 of 18 bytes, count 2 (105, 109): 0102000100 021100z05y01 021200z05y0100 0302000200\n\
          version, count 1 of 3 bytes (105, 111): 0102000100 030300010000\n\
          version, count 0 of 3 bytes, a byte (105, 112): 0102000100 030300000000 00\n\
          version, Play 5, kind 11 with number 5, count 2 (107, 109): 0102000100 021100z05y01 021100z05y0b 0302000200\n\
          version, Play 5, Swap 5 to clip 2, count 2 (108, 109): 0102000100 021100z05y01 021200z05y0902 0302000200\n\
          version, count 1, a byte (111, 112): 0102000100 0302000100 00\n",
        |given| read(rt, given),
    )
}

pub fn all(rt: &impl Print) -> io::Result<()> {
    places(rt)?;
    one_field(rt)
}
