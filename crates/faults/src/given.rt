//! What the cases are given: handles, and lists of 32 of them.
ghost use Rattle.std.specs.Prelude.{◌<◌};

use std::{fmt, io};

/// Slot 3, serial 7.
pub const THREE: u64 = 0x3_0000_0007;

/// Slot 3, serial 8.
pub const LATER: u64 = 0x3_0000_0008;

/// Slot 31, serial 7.
pub const LAST: u64 = 0x1f_0000_0007;

/// Slot 4, serial 0: no handle.
pub const NONE: u64 = 0x4_0000_0000;

/// A handle at 3 and one at 31. Serial 0 stands everywhere else, at 4 with a slot.
pub fn listed() -> [u64; 32] {
    let mut clips = [0; 32];
    clips[3] = THREE;
    clips[4] = NONE;
    clips[31] = LAST;
    clips
}

/// A handle at its place in a list.
#[derive(Clone, Copy)]
pub struct Entry {
    place: usize,
    handle: u64,
    ghost inside: { place < 32 },
}

impl fmt::Display for Entry {
    fn fmt<W: fmt::Write>(&self, f: &mut fmt::Formatter<W>) -> fmt::Result {
        let slot = self.handle / 0x1_0000_0000;
        let serial = self.handle % 0x1_0000_0000;
        let place = self.place;
        write!(f, "slot {slot} serial {serial} at {place}")
    }
}

/// A handle at a place.
pub fn at(place: usize, handle: u64) -> Entry
    requires { place < 32 }
{
    Entry { place, handle }
}

/// The list of two handles.
pub fn pair(one: Entry, other: Entry) -> [u64; 32] {
    let mut clips = [0; 32];
    clips[one.place] = one.handle;
    clips[other.place] = other.handle;
    clips
}

/// What the words of the cases stand for.
pub fn legend(rt: &impl Print) -> io::Result<()> {
    print!(rt;
        "a file is told by its fields, a list by its records: version is version 1, Play 5 a Play with number 5\n\
         handles are listed at 3 (slot 3 serial 7) and at 31 (slot 31 serial 7), everywhere else is serial 0\n\
         a place is a field's first byte, or a record's in its list, or 0 for a fault of neither\n\
         in brackets are the faults that meet\n"
    )
}
