//! Lines of the list: decimal numbers, between which every byte that is no digit is skipped.
ghost use Rattle.std.specs.Prelude.{◌≡◌, ◌<◌, ◌≤◌};

use std::fmt;

/// The most numbers of a line.
const MOST: usize = 24;

/// The numbers of a line.
#[derive(Clone, Copy)]
pub struct Line {
    pub words: [u64; MOST],
    pub count: usize,
    ghost inside: { count ≤ 24 },
}

impl Line {
    ghost use Rattle.counts.specs.Below.{all_below};
    ghost use Rattle.answers.specs.Lines.{agrees_at, same_numbers};

    pub fn none() -> Line {
        Line {
            words: [0; MOST],
            count: 0,
        }
    }

    /// One more number, if there is a place for it.
    pub fn push(mut self, n: u64) -> Option<Line> {
        if self.count == MOST {
            return None;
        }
        self.words[self.count] = n;
        self.count += 1;
        Some(self)
    }

    /// Some more numbers, if there are places for them.
    pub fn with(self, numbers: &[u64]) -> Option<Line> {
        let mut line = self;
        for n in numbers {
            line = line.push(*n)?;
        }
        Some(line)
    }

    /// Its first numbers alone.
    pub fn first(mut self, n: usize) -> Line
        requires { n ≤ 24 }
    {
        self.count = n;
        self
    }

    /// Its numbers from a place on.
    pub fn from(&self, place: usize) -> Numbers<'_> {
        Numbers(self.words[..self.count].get(place..).unwrap_or(&[]))
    }

    /// It has one number, which is this one.
    pub fn is_only(self, n: u64) -> bool {
        self.count == 1 && self.words[0] == n
    }

    /// It ends before a place, or another has the same number there.
    fn agrees_at(self, other: Line, i: usize) -> bool
        requires { i < 24 }
        ensures { result ≡ agrees_at self other i }
    {
        self.count <= i || self.words[i] == other.words[i]
    }

    /// As far as it goes, another has the same numbers.
    fn agrees(self, other: Line) -> bool
        ensures { result ≡ all_below 24 (agrees_at self other) }
    {
        (0..MOST).all(|i| self.agrees_at(other, i))
    }

    /// Another has the same numbers.
    #[tactic(auto, unfolding(crate::specs::Lines::same_numbers))]
    pub fn same(self, other: Option<Line>) -> bool
        ensures { result ≡ same_numbers self other }
    {
        match other {
            Some(line) => self.agrees(line) & (self.count == line.count),
            None => false,
        }
    }
}

/// Numbers, each behind a space.
#[derive(Clone, Copy)]
pub struct Numbers<'a>(&'a [u64]);

impl fmt::Display for Numbers<'_> {
    fn fmt<W: fmt::Write>(&self, f: &mut fmt::Formatter<W>) -> fmt::Result {
        for n in self.0 {
            write!(f, " {n}")?;
        }
        Ok(())
    }
}

/// A line being read: the numbers before, and the one whose digits are read, if one is.
#[derive(Clone, Copy)]
struct Partly {
    line: Line,
    number: Option<u64>,
}

impl Partly {
    /// With one byte more, if the number that it then has is one of 64 bits.
    fn with(self, b: u8) -> Option<Partly> {
        if !b.is_ascii_digit() {
            return self.ended();
        }
        let tenfold = self.number.unwrap_or(0).checked_mul(10)?;
        let number = tenfold.checked_add(u64::from(b - b'0'))?;
        Some(Partly {
            line: self.line,
            number: Some(number),
        })
    }

    /// The number's last digit is read.
    fn ended(self) -> Option<Partly> {
        match self.number {
            Some(n) => Some(Partly {
                line: self.line.push(n)?,
                number: None,
            }),
            None => Some(self),
        }
    }
}

/// The line of these bytes. One of more than 24 numbers, or with one of more than 64 bits, cannot be read.
fn read(bytes: &[u8]) -> Option<Line> {
    let mut partly = Partly {
        line: Line::none(),
        number: None,
    };
    for b in bytes {
        partly = partly.with(*b)?;
    }
    Some(partly.ended()?.line)
}

/// The first line of a text, if it can be read, and what stands behind it. Past the text's end it has no number.
pub fn first(text: &[u8]) -> (Option<Line>, &[u8]) {
    match text.iter().position(|&b| b == b'\n') {
        Some(n) => (read(&text[..n]), &text[n + 1..]),
        None => (read(text), &text[text.len()..]),
    }
}
