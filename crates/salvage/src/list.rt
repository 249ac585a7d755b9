//! The list of a file's ranges, and the totals.
ghost use Rattle.std.specs.Prelude.{◌<◌, ◌≤◌};

use crate::words::{Command, Passed};
use remains::{Fate, Range, Salvaged};
use std::{fmt, io};

/// The words of the most ranges that are listed, 65,536.
pub const WORDS: usize = 196608;

/// What a word of the list says.
fn fate(word: u64) -> Fate {
    match word {
        1 => Fate::Kept,
        2 => Fate::Passed,
        _ => Fate::Dropped,
    }
}

/// The i-th range of the list.
fn range(list: &[u64; WORDS], i: usize) -> Range
    requires { i < 65536 }
{
    Range {
        what: fate(list[i * 3]),
        from: list[i * 3 + 1],
        to: list[i * 3 + 2],
    }
}

/// How many bytes a range has.
fn size(r: Range) -> u64 {
    r.to.wrapping_sub(r.from)
}

/// The line of a range: its place, its size and what was done with it.
#[derive(Clone, Copy)]
struct Row<'a> {
    file: &'a [u8],
    range: Range,
}

impl fmt::Display for Row<'_> {
    fn fmt<W: fmt::Write>(&self, f: &mut fmt::Formatter<W>) -> fmt::Result {
        let from = self.range.from;
        let size = size(self.range);
        let field = self.file.get(from as usize..).unwrap_or(&[]);
        write!(f, "{from:>7}  {size:>7}")?;
        match self.range.what {
            Fate::Kept => write!(f, "  kept         {}", Command(field)),
            Fate::Passed => write!(
                f,
                "  passed over                          {}",
                Passed(field)
            ),
            Fate::Dropped => write!(f, "  dropped"),
        }
    }
}

/// Fields that were passed over, and dropped bytes.
#[derive(Clone, Copy)]
struct Totals {
    passed: u64,
    dropped: u64,
}

impl Totals {
    /// One range more.
    fn add(&mut self, r: Range) {
        match r.what {
            Fate::Kept => {}
            Fate::Passed => self.passed = self.passed.wrapping_add(1),
            Fate::Dropped => self.dropped = self.dropped.wrapping_add(size(r)),
        }
    }
}

/// A line for each of the first n ranges.
fn ranges(rt: &impl Print, file: &[u8], list: &[u64; WORDS], n: usize) -> io::Result<Totals>
    requires { n ≤ 65536 }
{
    let mut totals = Totals {
        passed: 0,
        dropped: 0,
    };
    for i in 0..n {
        let range = range(list, i);
        rt.println(Row { file, range })?;
        totals.add(range);
    }
    Ok(totals)
}

/// The list, and behind it the totals.
pub fn all(rt: &impl Print, file: &[u8], list: &[u64; WORDS], s: Salvaged) -> io::Result<()>
    requires { s.ranges ≤ 65536 }
{
    println!(rt; "  place    bytes  what           number         frame  field")?;
    let totals = ranges(rt, file, list, s.ranges)?;
    let rows = [
        ("bytes of the damaged file", file.len() as u64),
        ("commands kept", s.kept as u64),
        ("fields passed over", totals.passed),
        ("bytes dropped", totals.dropped),
        ("bytes of the fresh file", s.bytes as u64),
    ];
    println!(rt;)?;
    for (thing, n) in rows {
        println!(rt; "{thing:<26}{n:>7}")?;
    }
    if s.kept == 0 {
        println!(rt; "no command was found in it")?;
    }
    Ok(())
}
