//! The walk through a list, and what it tells.
ghost use Rattle.std.specs.Prelude.{◌≡◌};
ghost use Rattle.answers.specs.Lines.{one_more, counted};

use crate::asked::Call;
use crate::calls::Stores;
use crate::lines::Line;
use crate::reach::{Moment, Reached};
use crate::told::{Seat, Told};
use crate::{calls, lines};
use std::{fmt, io};

/// The most bytes that a list has.
const MOST: usize = 500000;

/// One byte more: a longer list fills it.
pub const ROOM: usize = 500001;

/// So many differences are told; the others are counted.
const TOLD: u64 = 16;

/// Where the walk stands: our side, what was reached, the line that was read, its number and what stands behind it, how many
/// sessions the first line names, and the differences.
#[derive(Clone, Copy)]
struct Walk<'a> {
    seat: Seat,
    reached: Reached,
    asks: Line,
    line: u64,
    rest: &'a [u8],
    named: u64,
    differences: u64,
}

impl Walk<'_> {
    /// One difference more.
    fn differs(&mut self)
        ensures { self.new.differences ≡ one_more self.old.differences }
    {
        self.differences = self.differences.wrapping_add(1);
    }

    /// Says something of the line that was read.
    fn say(&self, rt: &impl Print, what: impl fmt::Display + Drop) -> io::Result<()> {
        let session = self.reached.sessions;
        let line = self.line;
        println!(rt; "session {session}, line {line}: {what}")
    }

    /// A line that is none of the list's ends the walk.
    fn unreadable(&mut self, rt: &impl Print) -> io::Result<()> {
        self.differs();
        self.say(rt, "no line of the list")
    }

    /// The last line: as many sessions as the first line names, and nothing behind it.
    fn ended(&mut self, rt: &impl Print) -> io::Result<()> {
        if self.reached.sessions == self.named && self.rest.is_empty() {
            return Ok(());
        }
        self.differs();
        self.say(rt, "not the end that the first line names")
    }

    /// The call of the next line; none where the walk is over.
    fn read(&mut self, rt: &impl Print) -> io::Result<Option<Call>> {
        let (line, rest) = lines::first(self.rest);
        self.rest = rest;
        self.line = self.line.wrapping_add(1);
        let Some(l) = line else {
            self.unreadable(rt)?;
            return Ok(None);
        };
        if l.is_only(0) {
            self.ended(rt)?;
            return Ok(None);
        }
        self.asks = l;
        let call = Call::of(l);
        if call.is_none() {
            self.unreadable(rt)?;
        }
        Ok(call)
    }

    /// A call is over: our numbers are the Rust's, or they differ, and our side stands as the call left it.
    fn called(&mut self, told: Told)
        ensures { self.new.differences ≡ counted self.old.asks told.ours self.old.differences }
    {
        let ours = told.ours;
        self.seat = told.seat;
        if !self.asks.same(ours) {
            self.differs();
        }
    }

    /// Does what a call asks, and tells the difference that it makes, as long as they are told.
    fn turn(&mut self, rt: &impl Print, call: Call, stores: &mut Stores) -> io::Result<()> {
        let already = self.differences;
        let before = Moment::of(self.seat.session, &stores.queue);
        let told = stores.call(self.seat, call, self.asks.first(call.asks()));
        let after = Moment::of(told.seat.session, &stores.queue);
        let ours = told.ours.unwrap_or(Line::none());
        self.reached.by(call, ours, before, after);
        self.called(told);
        if self.differences == already || already >= TOLD {
            return Ok(());
        }
        let asks = call.asks();
        let theirs = self.asks;
        let rust = theirs.from(asks);
        let we = ours.from(asks);
        self.say(rt, format_args!("the Rust{rust}; we{we}"))
    }

    /// Every line after the first.
    fn all(&mut self, rt: &impl Print) -> io::Result<()> {
        let mut stores = Stores::empty();
        for _ in 0..MOST {
            match self.read(rt)? {
                Some(call) => self.turn(rt, call, &mut stores)?,
                None => return Ok(()),
            }
        }
        self.unreadable(rt)
    }
}

/// Walks through a list. Its first line has the number of sessions.
pub fn list(rt: &impl Print, text: &[u8]) -> io::Result<()> {
    if text.len() > MOST {
        return print!(rt; "the list is too long\ndifferences: 1\n");
    }
    let (line, rest) = lines::first(text);
    let asks = line.unwrap_or(Line::none());
    let named = asks.words[0];
    let mut walk = Walk {
        seat: calls::nobody(),
        reached: Reached::NONE,
        asks,
        line: 1,
        rest,
        named,
        differences: 0,
    };
    if asks.is_only(named) {
        walk.all(rt)?;
    } else {
        walk.unreadable(rt)?;
    }
    let reached = walk.reached;
    let differences = walk.differences;
    println!(rt; "{reached}differences: {differences}")
}
