//! A tour's dry run. `planner CLIPS TOUR BLOCKS` reads a clip list, a tour's file and a list of block lengths, and writes the
//! sheet of what the tour does: each executed command with its clock frame, the position before and after it, and the laps.
//! What is wrong is said in one line on standard error, and then nothing is written.
//!
//! It is run on `data/`: 12 records over two minutes, three of which a replay does not take, and one that is not yet due.
#![tactic(auto)]

mod blocks;
mod list;
mod refusal;
mod scan;
mod sheet;
mod why;
mod words;

use blocks::PAIRS;
use dryrun::{DryDone, DryError, DryRefusal};
use list::List;
use refusal::Refusal;
use sheet::{REASONS, RECORDS, ROWS};
use std::io;

/// The most bytes of a clip list.
const LIST: usize = 16384;

/// The most bytes of a tour's file. One of 256 commands has at most 9,226, skipped fields aside.
const TOUR: usize = 1048576;

/// The most bytes of the block lengths.
const BLOCKS: usize = 65536;

/// How the program is called.
fn how(rt: &HostRuntime) {
    files::text(
        rt,
        b"planner: call it as `planner CLIPS TOUR BLOCKS`, with the names of a clip list, a tour's file and a list of block lengths\n",
    );
}

/// Why a list's dry run is refused.
fn refused(list: &List, e: DryError) -> Refusal {
    match e.refusal {
        DryRefusal::Clips => why::refused(list),
        DryRefusal::Tour(fault) => Refusal::Tour {
            fault,
            place: e.place,
        },
        DryRefusal::Commands => Refusal::Commands,
        DryRefusal::Clock => Refusal::Clock,
    }
}

/// The dry run of three files that were read. What is wrong with list or tour goes before what is wrong with the block lengths,
/// of which there are then none.
fn run(
    text: &[u8],
    tour: &[u8],
    lengths: &[u8],
    records: &mut [u64; RECORDS],
    reasons: &mut [u64; REASONS],
    rows: &mut [u64; ROWS],
) -> Result<(List, DryDone), Refusal> {
    let list = list::read(text).map_err(Refusal::List)?;
    let mut pairs = [0; PAIRS];
    let kept = blocks::read(lengths, &mut pairs);
    let lent = pairs.get(..kept.unwrap_or(0)).unwrap_or(&pairs);
    let mut queue = [0; RECORDS];
    let clips = list.clips().as_flattened();
    match dryrun::dry_run(
        list.mode, clips, tour, lent, records, reasons, &mut queue, rows,
    ) {
        Err(e) => Err(refused(&list, e)),
        Ok(done) => match kept {
            Err(wrong) => Err(Refusal::Lengths(wrong)),
            Ok(_) => Ok((list, done)),
        },
    }
}

/// Writes the sheet of three files that were read, or says why there is none; where that fails, there is nowhere left to say so.
fn plan(rt: &HostRuntime, text: &[u8], tour: &[u8], lengths: &[u8]) -> io::Result<()> {
    let mut records = [0; RECORDS];
    let mut reasons = [0; REASONS];
    let mut rows = [0; ROWS];
    match run(text, tour, lengths, &mut records, &mut reasons, &mut rows) {
        Ok((list, done)) => sheet::all(rt, &list, &records, &reasons, &rows, done),
        Err(refusal) => {
            let _ = eprintln!(rt; "refused: {refusal}");
            Ok(())
        }
    }
}

/// The most bytes of a name.
const NAME: usize = 4096;

/// The bytes of the file that an argument names, if it is read.
fn file<'a>(rt: &HostRuntime, i: usize, bytes: &'a mut [u8], long: &[u8]) -> Option<&'a [u8]> {
    let mut name = [0; NAME];
    let n = files::argument(rt, i, &mut name);
    if n == 0 {
        how(rt);
        return None;
    }
    let count = files::read(rt, b"planner", &name[..n], bytes, long)?;
    Some(&bytes[..count])
}

/// The dry run of the three files that the arguments name.
fn over(
    rt: &HostRuntime,
    list: &mut [u8; LIST],
    tour: &mut [u8; TOUR],
    lengths: &mut [u8; BLOCKS],
) -> io::Result<()> {
    let Some(list) = file(rt, 1, list, b" has more than 16,384 bytes") else {
        return Ok(());
    };
    let Some(tour) = file(rt, 2, tour, b" has more than 1,048,576 bytes") else {
        return Ok(());
    };
    let Some(lengths) = file(rt, 3, lengths, b" has more than 65,536 bytes") else {
        return Ok(());
    };
    plan(rt, list, tour, lengths)
}

fn main(rt: HostRuntime) -> io::Result<()> {
    if !files::is_given(&rt, 3) || files::is_given(&rt, 4) {
        how(&rt);
        return Ok(());
    }
    let mut list = [0; LIST];
    let mut tour = [0; TOUR];
    let mut lengths = [0; BLOCKS];
    over(&rt, &mut list, &mut tour, &mut lengths)
}
