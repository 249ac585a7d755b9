//! Meets every refusal of a tour's reader and writer by its number and its place, and reads again what was written.
#![tactic(auto)]

mod again;
mod given;
mod left;
mod many;
mod order;
mod reader;
mod table;
mod told;
mod writer;

use std::io;

fn main(rt: HostRuntime) -> io::Result<()> {
    given::legend(&rt)?;
    reader::all(&rt)?;
    order::all(&rt)?;
    writer::all(&rt)?;
    left::all(&rt)?;
    again::all(&rt)?;
    many::read_all(&rt)?;
    many::write_all(&rt)
}
