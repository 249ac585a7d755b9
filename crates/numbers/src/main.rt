//! Runs the documents' numbers on the compiled code, over real stores, and prints them.
#![tactic(auto)]

mod blocks;
mod host;
mod laps;
mod loops;
mod many;
mod modes;
mod playhead;
mod refusals;
mod same;
mod story;
mod told;

use std::io;

fn main(rt: HostRuntime) -> io::Result<()> {
    blocks::all(&rt)?;
    refusals::all(&rt)?;
    loops::past_the_length(&rt)?;
    laps::all(&rt)?;
    modes::all(&rt)?;
    playhead::all(&rt)?;
    story::replaced(&rt)?;
    many::queue_full(&rt)
}
