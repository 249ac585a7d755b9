//! Replays the fixed list of the Rust's answers on our own calls, and compares answer and state after every call; then a list with mistakes in it, which must be found.
#![tactic(auto)]

mod asked;
mod calls;
mod lines;
mod marks;
mod reach;
mod told;
mod walk;

use std::io;
use walk::ROOM;

/// Reads a list to the front of a store.
fn read(rt: &HostRuntime, bytes: &mut [u8; ROOM], name: &[u8]) -> io::Result<usize> {
    let mut file = files::open(rt, name)?;
    files::fill(&mut file, bytes)
}

/// Replays a list; what cannot be read is a list without a line.
fn replay(rt: &HostRuntime, bytes: &mut [u8; ROOM], name: &[u8]) -> io::Result<()> {
    let count = read(rt, bytes, name).unwrap_or(0);
    walk::list(rt, bytes.get(..count).unwrap_or(&[]))
}

/// The Rust's answers, and then a list that is wrong: what finds nothing in the first must find that.
fn main(rt: HostRuntime) -> io::Result<()> {
    let mut bytes = [0; ROOM];
    replay(&rt, &mut bytes, b"answers")?;
    println!(rt; "\na list in which one number is wrong for each kind of call")?;
    replay(&rt, &mut bytes, b"mistaken")
}
