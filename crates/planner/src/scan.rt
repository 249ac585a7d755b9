//! A text's lines and words. Blanks stand between words, and from `#` on a line is a comment.
use crate::words::Grouped;
use std::fmt;

/// What a line or a word of it may lack; of a word its place, from 1.
#[derive(Clone, Copy)]
pub enum Flaw {
    NoHead,
    Version,
    Mode,
    Kind,
    NotNumber(u64),
    Large(u64),
    TooFew,
    TooMany,
}

impl fmt::Display for Flaw {
    fn fmt<W: fmt::Write>(&self, f: &mut fmt::Formatter<W>) -> fmt::Result {
        match *self {
            Flaw::NoHead => f.write_str("no head: `clips 1 as-tono` or `clips 1 house`"),
            Flaw::Version => f.write_str("a head of another version than 1"),
            Flaw::Mode => f.write_str("a mode that is neither as-tono nor house"),
            Flaw::Kind => f.write_str("a clip that is neither song nor stinger"),
            Flaw::NotNumber(place) => write!(f, "word {} is not a number", Grouped(place)),
            Flaw::Large(place) => write!(f, "word {} is above 2^64 - 1", Grouped(place)),
            Flaw::TooFew => f.write_str("too few words"),
            Flaw::TooMany => f.write_str("too many words"),
        }
    }
}

/// What is wrong with a line, from 1.
#[derive(Clone, Copy)]
pub struct Wrong {
    pub line: u64,
    pub flaw: Flaw,
}

/// What ends a line.
pub fn is_end(b: &u8) -> bool {
    *b == b'\n'
}

/// What stands between two words.
pub fn is_blank(b: &u8) -> bool {
    matches!(*b, b' ' | b'\t' | b'\r')
}

/// A line without its comment.
pub fn stripped(line: &[u8]) -> &[u8] {
    line.split(|b| *b == b'#').next().unwrap_or(line)
}

/// The digits of a word.
pub fn digits(word: &[u8], place: u64) -> Result<&str, Flaw> {
    if word.is_empty() || !word.iter().all(|b| b.is_ascii_digit()) {
        return Err(Flaw::NotNumber(place));
    }
    str::from_utf8(word).map_err(|_| Flaw::NotNumber(place))
}

/// The number that digits are.
pub fn value(digits: &str, place: u64) -> Result<u64, Flaw> {
    digits.parse::<u64>().map_err(|_| Flaw::Large(place))
}

/// The number that a word is.
pub fn number(word: &[u8], place: u64) -> Result<u64, Flaw> {
    value(digits(word, place)?, place)
}
