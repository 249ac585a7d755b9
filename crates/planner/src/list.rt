//! The clip list: `clips 1 as-tono` or `clips 1 house`, then a line for each clip, `SLOT SERIAL song RATE FRAMES LENGTH` or
//! `SLOT SERIAL stinger RATE FRAMES`. A sixth word of a stinger's line is a number too, and means nothing.
ghost use Rattle.std.specs.Prelude.{◌≤◌};

use crate::scan;
use crate::scan::{Flaw, Wrong};
use stage::{AS_TONO, HOUSE};

/// The clips that are kept, one more than there are slots: among so many a slot is named twice, or is none.
pub const CLIPS: usize = 33;

/// A clip's words: slot, serial, kind, rate, frames and length.
pub type Clip = [u64; 6];

/// The kind of a song.
pub const SONG: u64 = 1;

/// The kind of a stinger.
const STINGER: u64 = 2;

/// A list: the mode, and its clips, each with its line. The clips' words are lent as one slice, so the lines stand beside them.
#[derive(Drop)]
pub struct List {
    pub mode: u32,
    pub clips: [Clip; CLIPS],
    pub lines: [u64; CLIPS],
    pub count: usize,
    ghost counted: { count ≤ 33 },
}

impl List {
    /// The clips.
    pub fn clips(&self) -> &[Clip] {
        &self.clips[..self.count]
    }

    /// Adds a clip, if it is kept.
    fn push(&mut self, clip: &Clip, line: u64) {
        if self.count < CLIPS {
            self.clips[self.count] = *clip;
            self.lines[self.count] = line;
            self.count += 1;
        }
    }
}

/// The mode that the head's words say.
fn head(text: &[u8]) -> Result<u32, Flaw> {
    let each = scan::stripped(text).split(scan::is_blank);
    let mut mode = None;
    for (place, word) in (1u64..).zip(each.filter(|word| !word.is_empty())) {
        match (place, word) {
            (1, b"clips") => {}
            (1, _) => return Err(Flaw::NoHead),
            (2, _) if matches!(scan::number(word, place), Ok(1)) => {}
            (2, _) => return Err(Flaw::Version),
            (3, b"as-tono") => mode = Some(AS_TONO),
            (3, b"house") => mode = Some(HOUSE),
            (3, _) => return Err(Flaw::Mode),
            _ => return Err(Flaw::TooMany),
        }
    }
    mode.ok_or(Flaw::TooFew)
}

/// The kind that a word says.
fn kind(word: &[u8]) -> Result<u64, Flaw> {
    match word {
        b"song" => Ok(SONG),
        b"stinger" => Ok(STINGER),
        _ => Err(Flaw::Kind),
    }
}

/// The clip that a line's words say.
fn clip(text: &[u8]) -> Result<Clip, Flaw> {
    let each = scan::stripped(text).split(scan::is_blank);
    let mut clip = [0; 6];
    let mut words = 0;
    for (place, word) in (1u64..).zip(each.filter(|word| !word.is_empty())) {
        if words > 5 {
            return Err(Flaw::TooMany);
        }
        clip[words] = if place == 3 {
            kind(word)?
        } else {
            scan::number(word, place)?
        };
        words += 1;
    }
    if words < 5 || words == 5 && clip[2] == SONG {
        return Err(Flaw::TooFew);
    }
    Ok(clip)
}

/// A line has no word.
fn is_empty(text: &[u8]) -> bool {
    scan::stripped(text).iter().all(scan::is_blank)
}

/// What is wrong with a line of a text of which so much is read.
fn line(list: &mut Option<List>, text: &[u8], line: u64) -> Result<(), Flaw> {
    match list {
        Some(list) => list.push(&clip(text)?, line),
        None => {
            *list = Some(List {
                mode: head(text)?,
                clips: [[0; 6]; CLIPS],
                lines: [0; CLIPS],
                count: 0,
            });
        }
    }
    Ok(())
}

/// Reads a text as a list.
pub fn read(text: &[u8]) -> Result<List, Wrong> {
    let mut list = None;
    let mut last = 1;
    for (number, text) in (1u64..).zip(text.split(scan::is_end)) {
        last = number;
        if !is_empty(text) {
            if let Err(flaw) = line(&mut list, text, number) {
                return Err(Wrong { line: number, flaw });
            }
        }
    }
    list.ok_or(Wrong {
        line: last,
        flaw: Flaw::NoHead,
    })
}
