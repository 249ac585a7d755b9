//! What the cases are told by: their words, an answer, and the numbers of a list or an output.
use std::{fmt, io};
use tourfile::TourError;

/// What the reader or the writer answered: how many of a thing there are, or a fault by its number, and its place.
#[derive(Clone, Copy)]
pub struct Answer {
    given: Result<usize, TourError>,
    thing: &'static str,
}

impl Answer {
    pub fn read(given: Result<usize, TourError>) -> Answer {
        Answer {
            given,
            thing: "record",
        }
    }

    pub fn written(given: Result<usize, TourError>) -> Answer {
        Answer {
            given,
            thing: "byte",
        }
    }

    /// How many records or bytes there are; none where the call was refused.
    pub fn count(self) -> usize {
        self.given.unwrap_or(0)
    }
}

impl fmt::Display for Answer {
    fn fmt<W: fmt::Write>(&self, f: &mut fmt::Formatter<W>) -> fmt::Result {
        let thing = self.thing;
        match self.given {
            Ok(1) => write!(f, "1 {thing}"),
            Ok(n) => write!(f, "{n} {thing}s"),
            Err(e) => {
                let number = e.fault.number();
                let place = e.place;
                write!(f, "refused {number} at {place}")
            }
        }
    }
}

/// Numbers, each behind a space.
#[derive(Clone, Copy)]
pub struct Numbers<'a, T>(pub &'a [T]);

impl<T: fmt::Display> fmt::Display for Numbers<'_, T> {
    fn fmt<W: fmt::Write>(&self, f: &mut fmt::Formatter<W>) -> fmt::Result {
        for n in self.0 {
            write!(f, " {n}")?;
        }
        Ok(())
    }
}

/// The line of a case.
pub fn case(rt: &impl Print, what: &str, answer: Answer) -> io::Result<()> {
    println!(rt; "  {what}: {answer}")
}

/// The first n of a store, which has as many.
pub fn first<T>(store: &[T], n: usize) -> &[T] {
    &store[..n.min(store.len())]
}
