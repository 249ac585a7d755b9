//! A tour of two rooms, heard block by block: a sheet of what sounded when, and of what the guide did.
#![tactic(auto)]

mod rooms;
mod score;
mod sheet;
mod visit;

use score::Cue;
use stage::{AS_TONO, HOUSE};
use std::io;
use visit::Visit;

/// A scene of the tour, cue by cue.
fn play(rt: &impl Print, visit: &mut Visit, scene: &[Cue]) -> io::Result<()> {
    for cue in scene {
        rt.print(*cue)?;
        visit.perform(rt, *cue)?;
    }
    Ok(())
}

/// From the hall into the nave, captured.
fn way_in<'a>(
    rt: &impl Print,
    pool: &'a mut [f32; 16000],
    list: &mut [u64; 25],
) -> io::Result<Visit<'a>> {
    let mut visit = Visit::enter(rt, pool)?;
    visit.start_capture(rt)?;
    play(rt, &mut visit, &score::ROUND_THE_HALL)?;
    play(rt, &mut visit, &score::INTO_THE_NAVE)?;
    visit.stop_capture(rt, list)?;
    Ok(visit)
}

/// From the nave out. What is done under the guide's word, the snapshot undoes.
fn way_out(rt: &impl Print, visit: &mut Visit) -> io::Result<()> {
    play(rt, visit, &score::HALT)?;
    let x = visit.snapshot(rt)?;
    play(rt, visit, &score::WORD)?;
    visit.apply(rt, x)?;
    play(rt, visit, &score::LEAVE)
}

/// The whole tour. The list is then what its way in captured.
fn first_visit(rt: &impl Print, list: &mut [u64; 25]) -> io::Result<()> {
    let mut pool = [0.0; 16000];
    let mut visit = way_in(rt, &mut pool, list)?;
    way_out(rt, &mut visit)
}

/// What was captured, heard again.
fn second_visit(rt: &impl Print, list: &[u64; 25]) -> io::Result<()> {
    let mut pool = [0.0; 16000];
    let mut visit = Visit::enter(rt, &mut pool)?;
    visit.replay(rt, list)?;
    visit.blocks(rt, 20)
}

/// A brief one with the music turned down, in a mode.
fn low_visit(rt: &impl Print, mode: u32) -> io::Result<()> {
    sheet::mode(rt, mode)?;
    let mut pool = [0.0; 16000];
    let mut visit = Visit::enter_briefly(rt, &mut pool, mode)?;
    play(rt, &mut visit, &score::LOW)
}

fn main(rt: HostRuntime) -> io::Result<()> {
    let mut list = [0; 25];
    sheet::heading(&rt)?;
    first_visit(&rt, &mut list)?;
    println!(rt)?;
    second_visit(&rt, &list)?;
    println!(rt)?;
    low_visit(&rt, AS_TONO)?;
    println!(rt)?;
    low_visit(&rt, HOUSE)?;
    println!(rt)
}
