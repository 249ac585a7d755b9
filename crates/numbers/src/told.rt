//! What the numbers are told by: samples, a block's answer, where a session stands, and whether all is as it was.
use print::{Sample, answered};
use session::{Refusal, Session};
use std::io;
use transport::LoopRange;

/// Samples of a block's output.
pub fn samples(rt: &impl Print, out: &[f32]) -> io::Result<()> {
    for x in out {
        print!(rt; " {}", Sample(*x))?;
    }
    Ok(())
}

/// A block's answer: the passes made in it.
pub fn block_answer(rt: &impl Print, a: Result<u64, Refusal>) -> io::Result<()> {
    answered(rt, a, |n| print!(rt; "done, passes {n}"))
}

/// The position that a host reads.
pub fn position(rt: &impl Print, s: Session) -> io::Result<()> {
    print!(rt; ", position {}", s.position().0)
}

/// Where a session stands.
pub fn place(rt: &impl Print, s: Session) -> io::Result<()> {
    print!(rt; ", clock {}", s.clock().0)?;
    position(rt, s)?;
    print!(rt; ", ")?;
    print::state(rt, s.state())?;
    let executed = s.stage.counters.executed;
    println!(rt; ", executed {executed}, queued {}", s.queue_depth())
}

pub fn range(rt: &impl Print, l: Option<LoopRange>) -> io::Result<()> {
    match l {
        None => print!(rt; "no loop"),
        Some(r) => print!(rt; "loop {}..{}", r.start.0, r.end.0),
    }
}

/// What a block answered, and where the session then stands.
pub fn stands(rt: &impl Print, a: Result<u64, Refusal>, s: Session) -> io::Result<()> {
    block_answer(rt, a)?;
    place(rt, s)
}

/// Whether a refused call left all as it was.
pub fn kept(rt: &impl Print, same: bool) -> io::Result<()> {
    if same {
        return println!(rt; ", all as it was");
    }
    println!(rt; ", CHANGED")
}
