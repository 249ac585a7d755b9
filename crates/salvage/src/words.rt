//! What a field says.
ghost use Rattle.std.specs.Prelude.{◌+◌, ◌^◌, ◌<◌};

use fields::Part;
use std::fmt;

// ---- gains

/// A magnitude in thousandths, the nearest, read off its bits; 0 from 1,024 on.
fn thousandths(magnitude: u32) -> u64 {
    let exponent = magnitude / 8388608;
    if exponent < 115 {
        return 0;
    }
    if exponent > 136 {
        return 0;
    }
    let digits = u64::from(8388608 + magnitude % 8388608);
    let halves = (digits * 2000) >> (150 - exponent);
    halves.div_ceil(2)
}

/// What a gain is about where its magnitude is below 1,024, and its bits.
#[derive(Clone, Copy)]
struct Gain(u32);

impl fmt::Display for Gain {
    fn fmt<W: fmt::Write>(&self, f: &mut fmt::Formatter<W>) -> fmt::Result {
        let bits = self.0;
        let magnitude = bits % 0x8000_0000;
        if magnitude < 0x4480_0000 {
            let sign = if bits == magnitude { "" } else { "-" };
            let n = thousandths(magnitude);
            write!(f, "{sign}{}.{:03} ", n / 1000, n % 1000)?;
        }
        write!(f, "(0x{bits:08x})")
    }
}

// ---- commands

/// A kind's name, and what leads to its first part.
fn name(kind: u64) -> &'static str {
    match kind {
        1 => "Play",
        2 => "Pause",
        3 => "Stop",
        4 => "Seek to ",
        5 => "Transition to ",
        6 => "Loop from ",
        7 => "ClearLoop",
        8 => "Gain ",
        9 => "Swap to clip ",
        _ => "Stinger of clip ",
    }
}

/// What leads to a kind's second part.
fn between(kind: u64) -> &'static str {
    match kind {
        6 => " to ",
        10 => ", gain ",
        _ => "",
    }
}

/// What stands at a place of a field.
#[derive(Clone, Copy)]
struct Placed<'a> {
    part: Part,
    field: &'a [u8],
    place: u8,
}

impl fmt::Display for Placed<'_> {
    fn fmt<W: fmt::Write>(&self, f: &mut fmt::Formatter<W>) -> fmt::Result {
        let at = usize::from(self.place);
        match self.part {
            Part::Nothing => Ok(()),
            Part::Frame => write!(f, "{}", fields::eight(self.field, at)),
            Part::Gain => write!(f, "{}", Gain(fields::four(self.field, at))),
            Part::Clip => write!(f, "{}", fields::byte(self.field, at)),
        }
    }
}

/// A command's number, its frame, its kind and what it carries.
#[derive(Clone, Copy)]
pub struct Command<'a>(pub &'a [u8]);

impl fmt::Display for Command<'_> {
    fn fmt<W: fmt::Write>(&self, f: &mut fmt::Formatter<W>) -> fmt::Result {
        let field = self.0;
        let number = fields::eight(field, 11);
        let frame = fields::eight(field, 3);
        let kind = u64::from(fields::byte(field, 19));
        let part = fields::first_part(kind);
        let first = Placed {
            part,
            field,
            place: 20,
        };
        let second = Placed {
            part: fields::second_part(kind),
            field,
            place: 20 + part.size(),
        };
        let name = name(kind);
        let between = between(kind);
        write!(
            f,
            "{number:>8}  {frame:>12}  {name}{first}{between}{second}"
        )
    }
}

/// Which field it is that is passed over.
#[derive(Clone, Copy)]
pub struct Passed<'a>(pub &'a [u8]);

impl fmt::Display for Passed<'_> {
    fn fmt<W: fmt::Write>(&self, f: &mut fmt::Formatter<W>) -> fmt::Result {
        match fields::byte(self.0, 0) {
            1 => write!(f, "first field"),
            3 => write!(f, "last field, count {}", fields::two(self.0, 3)),
            tag => write!(f, "skipped field, tag {tag}"),
        }
    }
}
