//! Why no session has a list: what is wrong with the first line at fault.
use crate::list::{Clip, List, SONG};
use crate::refusal::Refusal;
use crate::words::Grouped;
use std::fmt;

/// The frames that clips have together at most.
const MOST: u64 = 33554432;

/// What is wrong with a clip's line.
#[derive(Clone, Copy)]
pub enum Why {
    Slot(u64),
    SlotTwice(u64),
    Serial(u64),
    SerialTwice(u64),
    Rate(u64),
    NoFrames,
    Short { long: u64, frames: u64 },
    Long(u64),
    Stinger,
    Together,
}

impl fmt::Display for Why {
    fn fmt<W: fmt::Write>(&self, f: &mut fmt::Formatter<W>) -> fmt::Result {
        match *self {
            Why::Slot(x) => write!(f, "slot {} is not below 32", Grouped(x)),
            Why::SlotTwice(x) => write!(f, "slot {} twice", Grouped(x)),
            Why::Serial(x) => write!(f, "serial {} is not from 1 to 4,294,967,295", Grouped(x)),
            Why::SerialTwice(x) => write!(f, "serial {} twice", Grouped(x)),
            Why::Rate(x) => write!(f, "rate {} is not from 8,000 to 192,000", Grouped(x)),
            Why::NoFrames => f.write_str("no frames"),
            Why::Short { long, frames } => write!(
                f,
                "a song of length {}, shorter than its {} frames",
                Grouped(long),
                Grouped(frames)
            ),
            Why::Long(x) => write!(f, "a song of length {}, longer than 2^40", Grouped(x)),
            Why::Stinger => f.write_str("the first clip is not a song"),
            Why::Together => f.write_str("together more than 33,554,432 frames"),
        }
    }
}

/// What is wrong with a clip behind these clips, which have so many frames.
fn judge(clip: &Clip, earlier: &[Clip], before: u64) -> Result<(), Why> {
    let [slot, serial, kind, rate, frames, long] = *clip;
    if slot > 31 {
        return Err(Why::Slot(slot));
    }
    if earlier.iter().any(|other| other[0] == slot) {
        return Err(Why::SlotTwice(slot));
    }
    if serial == 0 || serial > 4294967295 {
        return Err(Why::Serial(serial));
    }
    if earlier.iter().any(|other| other[1] == serial) {
        return Err(Why::SerialTwice(serial));
    }
    if kind == SONG {
        if long < frames {
            return Err(Why::Short { long, frames });
        }
        if long > 1099511627776 {
            return Err(Why::Long(long));
        }
    } else if earlier.is_empty() {
        return Err(Why::Stinger);
    }
    if rate < 8000 || rate > 192000 {
        return Err(Why::Rate(rate));
    }
    if frames == 0 {
        return Err(Why::NoFrames);
    }
    if frames > MOST.saturating_sub(before) {
        return Err(Why::Together);
    }
    Ok(())
}

/// Why no session has a list.
pub fn refused(list: &List) -> Refusal {
    let mut before: u64 = 0;
    for i in 0..list.count {
        let clip = &list.clips[i];
        if let Err(why) = judge(clip, &list.clips[..i], before) {
            let line = list.lines[i];
            return Refusal::Clip { line, why };
        }
        before = before.saturating_add(clip[4]);
    }
    if list.count == 0 {
        return Refusal::NoClip;
    }
    Refusal::NoSession
}
