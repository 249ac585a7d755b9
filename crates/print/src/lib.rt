//! Writes answers and samples, and gives the bits of a float, for the programs. What cannot be written is an error.
#![tactic(auto)]

use control::{PerformanceMetrics, PerformanceSnapshot};
use counts::Handle;
use session::Refusal;
use std::{fmt, io};
use submission::Report;
use transport::TransportState;

pub fn text(rt: &impl Print, s: &[u8]) -> io::Result<()> {
    rt.write_all(s)
}

pub fn number(rt: &impl Print, n: u64) -> io::Result<()> {
    rt.print(n)
}

/// A number, right-aligned in so many places, at most 12; a longer one takes more.
pub fn column(rt: &impl Print, n: u64, places: usize) -> io::Result<()> {
    if places > 12 {
        return number(rt, n);
    }
    print!(rt; "{n:>places$}")
}

/// The bits of a number; every NaN has the same.
pub fn bits(x: f32) -> u64 {
    if x.is_nan() {
        return 2143289344;
    }
    u64::from(x.to_bits())
}

/// The whole part of a number's magnitude, read off its bits; 0 from 2^29 on.
pub fn whole(x: f32) -> u64 {
    let magnitude = bits(x) % 2147483648;
    let exponent = magnitude / 8388608;
    if exponent < 127 || 155 < exponent {
        return 0;
    }
    let digits = 8388608 + magnitude % 8388608;
    (digits * 32) >> (155 - exponent)
}

/// A sample, which prints in full to the 2^24th if its magnitude is at most 16, and else as a word.
#[derive(Clone, Copy)]
pub struct Sample(pub f32);

impl fmt::Display for Sample {
    fn fmt<W: fmt::Write>(&self, f: &mut fmt::Formatter<W>) -> fmt::Result {
        let x = self.0;
        if !ramp::is_between(-16.0, 16.0, x) {
            return write!(f, "loud");
        }
        if x < 0.0 {
            write!(f, "-")?;
        }
        let parts = whole(x * 16777216.0);
        write!(f, "{}.", parts / 16777216)?;
        let mut rest = parts % 16777216;
        for _ in 0..24 {
            let tenfold = rest * 10;
            write!(f, "{}", tenfold / 16777216)?;
            rest = tenfold % 16777216;
            if rest == 0 {
                return Ok(());
            }
        }
        Ok(())
    }
}

pub fn state(rt: &impl Print, s: TransportState) -> io::Result<()> {
    rt.print(match s {
        TransportState::Stopped => "Stopped",
        TransportState::Playing => "Playing",
        TransportState::Paused => "Paused",
    })
}

pub fn handle(rt: &impl Print, h: Handle) -> io::Result<()> {
    print!(rt; "slot {} serial {}", h.slot, h.serial)
}

/// What a call gave, told as is asked, or its refusal.
pub fn answered<T, F: FnOnce(T) -> io::Result<()>>(
    rt: &impl Print,
    a: Result<T, Refusal>,
    told: F,
) -> io::Result<()>
    requires { F.IsAlwaysCallable told }
{
    match a {
        Ok(x) => told(x),
        Err(k) => print!(rt; "refused {}", k.number()),
    }
}

pub fn answer(rt: &impl Print, a: Result<(), Refusal>) -> io::Result<()> {
    answered(rt, a, |_| print!(rt; "done"))
}

pub fn load_answer(rt: &impl Print, a: Result<Handle, Refusal>) -> io::Result<()> {
    answered(rt, a, |h| handle(rt, h))
}

pub fn submit_answer(rt: &impl Print, a: Result<u64, Refusal>) -> io::Result<()> {
    answered(rt, a, |n| print!(rt; "number {n}"))
}

pub fn replay_answer(rt: &impl Print, a: Result<Report, Refusal>) -> io::Result<()> {
    answered(rt, a, |r| {
        print!(rt;
            "taken {}, queue-full {}, otherwise skipped {}",
            r.taken, r.full, r.skipped
        )
    })
}

pub fn stop_answer(rt: &impl Print, a: Result<usize, Refusal>) -> io::Result<()> {
    answered(rt, a, |n| print!(rt; "copied {n}"))
}

pub fn snapshot_answer(rt: &impl Print, a: Result<PerformanceSnapshot, Refusal>) -> io::Result<()> {
    answered(rt, a, |x| {
        print!(rt; "position {}, ", x.position.0)?;
        state(rt, x.state)?;
        print!(rt; ", gain {}", Sample(x.gain))
    })
}

pub fn metrics_answer(rt: &impl Print, a: Result<PerformanceMetrics, Refusal>) -> io::Result<()> {
    answered(rt, a, |m| {
        print!(rt;
            "rendered {}, executed {}, dropped {}",
            m.rendered, m.executed, m.dropped
        )?;
        print!(rt;
            ", deepest {}, swaps {}, fired {}",
            m.deepest, m.swaps, m.fired
        )
    })
}
