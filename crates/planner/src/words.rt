//! Numbers, gains, times and commands in words.
use std::fmt;
use std::fmt::{Display, InlineText, Write};

/// The most bytes of what is made before it is written: a loop and its laps have 94 with the largest numbers.
const ROOM: usize = 96;

/// What is made before it is written, as what stands in a column.
pub type Text = InlineText<ROOM>;

/// How many places a thing takes.
pub fn width<D: Display + Drop>(x: D) -> usize {
    Text::of(x).as_str().len()
}

// ---- numbers

/// A number in groups of three.
#[derive(Clone, Copy)]
pub struct Grouped(pub u64);

impl fmt::Display for Grouped {
    fn fmt<W: fmt::Write>(&self, f: &mut fmt::Formatter<W>) -> fmt::Result {
        let digits = Text::of(self.0);
        let digits = digits.as_str();
        let mut text = Text::new();
        for (d, behind) in digits.chars().zip((0..digits.len()).rev()) {
            text.write_char(d)?;
            if behind > 0 && behind % 3 == 0 {
                text.write_char(',')?;
            }
        }
        f.pad(text.as_str())
    }
}

// ---- gains

/// A magnitude below 2^24 in millionths, the nearest, read off its bits.
fn millionths(magnitude: u64) -> u64 {
    let exponent = magnitude / 8388608;
    if exponent < 100 {
        return 0;
    }
    if exponent > 150 {
        return 0;
    }
    let digits = 8388608 + magnitude % 8388608;
    let halves = (digits * 2000000) >> (150 - exponent);
    halves.wrapping_add(1) / 2
}

/// A gain of these bits. Below 2^24 it is a decimal, the nearest with six digits behind the point, zeros at the end left out:
/// 0.75, 20.0, 0.333333, -0.25. From there on `2^31 or beyond`, and what is no number in words.
#[derive(Clone, Copy)]
pub struct Gain(pub u64);

impl fmt::Display for Gain {
    fn fmt<W: fmt::Write>(&self, f: &mut fmt::Formatter<W>) -> fmt::Result {
        let magnitude = self.0 % 0x8000_0000;
        if magnitude > 0x7f80_0000 {
            return f.write_str("not a number");
        }
        if self.0 != magnitude {
            f.write_str("-")?;
        }
        if magnitude == 0x7f80_0000 {
            return f.write_str("infinite");
        }
        if magnitude >= 0x4b80_0000 {
            let exponent = (magnitude / 8388608).saturating_sub(127);
            return write!(f, "2^{exponent} or beyond");
        }
        let parts = millionths(magnitude);
        let whole = Grouped(parts / 1000000);
        let rest = parts % 1000000;
        let six = Text::of(format_args!("{rest:06}"));
        match six.as_str().trim_end_matches('0') {
            "" => write!(f, "{whole}.0"),
            digits => write!(f, "{whole}.{digits}"),
        }
    }
}

// ---- times

/// A clock frame as minutes, seconds and frames, the frames in as many digits as the last of a second has.
#[derive(Clone, Copy)]
pub struct Time {
    pub frame: u64,
    pub rate: u64,
}

impl fmt::Display for Time {
    fn fmt<W: fmt::Write>(&self, f: &mut fmt::Formatter<W>) -> fmt::Result {
        let Time { frame, rate } = *self;
        if rate == 0 {
            return Ok(());
        }
        let minutes = frame / rate / 60;
        let seconds = frame / rate % 60;
        let frames = frame % rate;
        let places = width(rate - 1);
        write!(f, "{minutes}:{seconds:02}.{frames:0places$}")
    }
}

// ---- commands

/// The slot of a handle's word.
pub fn slot(handle: u64) -> u64 {
    handle / 0x1_0000_0000
}

/// A command as a record's words say it: its kind from 1 to 10, and its two words.
#[derive(Clone, Copy)]
pub struct Command {
    pub kind: u64,
    pub first: u64,
    pub second: u64,
}

impl fmt::Display for Command {
    fn fmt<W: fmt::Write>(&self, f: &mut fmt::Formatter<W>) -> fmt::Result {
        let first = Grouped(self.first);
        let second = Grouped(self.second);
        let slot = Grouped(slot(self.first));
        match self.kind {
            1 => f.write_str("play"),
            2 => f.write_str("pause"),
            3 => f.write_str("stop"),
            4 => write!(f, "seek to {first}"),
            5 => write!(f, "transition to {first}"),
            6 => write!(f, "loop {first} to {second}"),
            7 => f.write_str("clear loop"),
            8 => write!(f, "gain {}", Gain(self.first)),
            9 => write!(f, "swap to slot {slot}"),
            10 => write!(f, "stinger slot {slot} at {}", Gain(self.second)),
            _ => Ok(()),
        }
    }
}
