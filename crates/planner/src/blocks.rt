//! The block lengths: numbers, or `675000x512` for many of one length.
use crate::scan;
use crate::scan::{Flaw, Wrong};

/// The words of so many pairs as 65,536 bytes have at most.
pub const PAIRS: usize = 65536;

/// How many blocks of one length a word says.
fn pair(word: &[u8], place: u64) -> Result<[u64; 2], Flaw> {
    let Some(x) = word.iter().position(|b| *b == b'x') else {
        return Ok([1, scan::number(word, place)?]);
    };
    let times = scan::digits(&word[..x], place)?;
    let long = scan::digits(&word[x + 1..], place)?;
    Ok([scan::value(times, place)?, scan::value(long, place)?])
}

/// Writes a line's pairs behind so many words of pairs, and answers how many there are then.
fn line(text: &[u8], pairs: &mut [u64; PAIRS], before: usize) -> Result<usize, Flaw> {
    let mut words = before;
    let each = scan::stripped(text).split(scan::is_blank);
    for (place, word) in (1u64..).zip(each.filter(|word| !word.is_empty())) {
        let pair = pair(word, place)?;
        if words < PAIRS - 1 {
            pairs[words..words + 2].copy_from_slice(&pair);
            words += 2;
        }
    }
    Ok(words)
}

/// Reads the block lengths of a text, and answers how many words of pairs they are.
pub fn read(text: &[u8], pairs: &mut [u64; PAIRS]) -> Result<usize, Wrong> {
    let mut words = 0;
    for (number, text) in (1u64..).zip(text.split(scan::is_end)) {
        words = match line(text, pairs, words) {
            Ok(words) => words,
            Err(flaw) => return Err(Wrong { line: number, flaw }),
        };
    }
    Ok(words)
}
