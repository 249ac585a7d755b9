//! Why there is no sheet.
use crate::scan::Wrong;
use crate::why::Why;
use crate::words::Grouped;
use std::fmt;
use tourfile::Fault;

/// Why there is no sheet.
#[derive(Clone, Copy)]
pub enum Refusal {
    List(Wrong),
    Clip { line: u64, why: Why },
    NoClip,
    NoSession,
    Tour { fault: Fault, place: usize },
    Commands,
    Clock,
    Lengths(Wrong),
}

impl fmt::Display for Refusal {
    fn fmt<W: fmt::Write>(&self, f: &mut fmt::Formatter<W>) -> fmt::Result {
        match *self {
            Refusal::List(Wrong { line, flaw }) => {
                write!(f, "clip list, line {}: {flaw}", Grouped(line))
            }
            Refusal::Clip { line, why } => write!(f, "clip list, line {}: {why}", Grouped(line)),
            Refusal::NoClip => f.write_str("clip list: no clip"),
            Refusal::NoSession => f.write_str("clip list: no session has it"),
            Refusal::Tour { fault, place } => {
                let words = fault_words(fault);
                write!(f, "tour file, byte {}: {words}", Grouped(place as u64))
            }
            Refusal::Commands => f.write_str("more than 256 commands"),
            Refusal::Clock => f.write_str("4, the blocks pass 2^62"),
            Refusal::Lengths(Wrong { line, flaw }) => {
                write!(f, "block lengths, line {}: {flaw}", Grouped(line))
            }
        }
    }
}

/// A fault of a tour's file; the reader finds none of the last three.
fn fault_words(fault: Fault) -> &'static str {
    match fault {
        Fault::ListedTwice => "handle listed twice",
        Fault::CutShort => "file cut short",
        Fault::WrongFirstTag => "wrong first tag",
        Fault::UnknownTag => "unknown tag",
        Fault::WrongLength => "field of a wrong length",
        Fault::OtherVersion => "file of another version",
        Fault::UnknownKind => "unknown kind of command",
        Fault::ClipNotListed => "clip not listed",
        Fault::NotRising => "number not rising",
        Fault::TooMany => "more than 4,096 commands",
        Fault::WrongCount => "wrong count of commands",
        Fault::BytesAfter => "bytes after the end",
        Fault::ListTooShort | Fault::Unreadable | Fault::OutputTooShort => "",
    }
}
