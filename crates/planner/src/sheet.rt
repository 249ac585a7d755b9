//! The sheet: the clips, the records that are not taken and why, each executed command, and where the song then stands. A
//! column is as wide as its longest number.
ghost use Rattle.std.specs.Prelude.{◌<◌};

use crate::list::{Clip, List, SONG};
use crate::words;
use crate::words::{Command, Grouped, Text, Time, width};
use dryrun::DryDone;
use leaps::Dry;
use stage::HOUSE;
use std::{fmt, io};
use transport::TransportState;

/// The words of 256 records, five each.
pub const RECORDS: usize = 1280;

/// For each record 0, or the number of the refusal by which it is not taken.
pub const REASONS: usize = 256;

/// The words of 256 rows: a record's five, its number the place among those taken, then clock, position before and after,
/// laps before and after.
pub const ROWS: usize = 2560;

/// A record's words: frame, number, kind, and the command's two.
type Record = [u64; 5];

/// A row's words.
type Row = [u64; 10];

/// The widest of a word of some lines, at least so wide.
fn widest<const N: usize>(lines: &[[u64; N]], word: usize, least: usize) -> usize
    requires { word < N }
{
    let mut most = least;
    for line in lines {
        most = most.max(width(Grouped(line[word])));
    }
    most
}

// ---- the head

/// Mode, rate and how long the dry run is.
fn head(rt: &impl Print, mode: u32, rate: u64, frames: u64) -> io::Result<()> {
    let mode = if mode == HOUSE { "house" } else { "as tono" };
    let time = Time {
        frame: frames,
        rate,
    };
    let rate = Grouped(rate);
    let frames = Grouped(frames);
    println!(rt; "dry run, {mode}, {rate} frames a second, {frames} frames = {time}")
}

// ---- the clips

/// A line for each clip.
fn all_clips(rt: &impl Print, clips: &[Clip]) -> io::Result<()> {
    let serials = widest(clips, 1, 6);
    let frames = widest(clips, 4, 9);
    let lengths = widest(clips, 5, 10);
    println!(rt;
        "\nslot {:>serials$} kind     rate {:>frames$} {:>lengths$}",
        "serial", "frames", "length"
    )?;
    for clip in clips {
        let [slot, serial, kind, rate, count, long] = *clip;
        let slot = Grouped(slot);
        let serial = Grouped(serial);
        let count = Grouped(count);
        let long = Text::of(Grouped(long));
        let (kind, long) = if kind == SONG {
            ("song", long.as_str())
        } else {
            ("stinger", "-")
        };
        println!(rt;
            "{slot:>4} {serial:>serials$} {kind:<8}{rate:>6} {count:>frames$} {long:>lengths$}"
        )?;
    }
    Ok(())
}

// ---- the records that are not taken

/// The rate of the clip in a slot.
fn rate_of(clips: &[Clip], slot: u64) -> u64 {
    clips
        .iter()
        .find(|clip| clip[0] == slot)
        .map_or(0, |clip| clip[3])
}

/// A gain that is refused is finite: it is a stinger's, and above 16.
fn is_above(kind: u64, second: u64) -> bool {
    kind == 10 && second % 0x8000_0000 < 0x7f80_0000
}

/// Why a record is not taken: the refusal's number, the record's command, and the rate of the clip that it names.
#[derive(Clone, Copy)]
struct Reason {
    number: u64,
    command: Command,
    rate: u64,
}

impl fmt::Display for Reason {
    fn fmt<W: fmt::Write>(&self, f: &mut fmt::Formatter<W>) -> fmt::Result {
        let Command { kind, second, .. } = self.command;
        write!(f, "{}, ", Grouped(self.number))?;
        match self.number {
            12 if kind == 9 => f.write_str("a stinger, not a song"),
            12 => f.write_str("a song, not a stinger"),
            13 => write!(f, "recorded at {}", Grouped(self.rate)),
            14 if is_above(kind, second) => f.write_str("stinger gain above 16"),
            14 => f.write_str("gain not finite"),
            17 => f.write_str("16 stingers already: a replay at clock 0 holds no more"),
            22 => f.write_str("start not below end"),
            _ => f.write_str("not taken"),
        }
    }
}

/// How many records there are and how many are taken, and a line for each that is not.
fn all_skipped(
    rt: &impl Print,
    clips: &[Clip],
    records: &[Record],
    reasons: &[u64],
    d: DryDone,
) -> io::Result<()> {
    let all = Grouped(d.commands as u64);
    let taken = Grouped(d.report.taken as u64);
    let left = Grouped(d.commands.wrapping_sub(d.report.taken) as u64);
    println!(rt; "\nrecords {all}, taken {taken}, skipped {left}")?;
    let each = (1u64..).zip(records.iter().zip(reasons.iter()));
    for (place, (record, number)) in each.take(d.commands) {
        if *number != 0 {
            let [frame, _, kind, first, second] = *record;
            let place = Grouped(place);
            let frame = Grouped(frame);
            let command = Command {
                kind,
                first,
                second,
            };
            let reason = Reason {
                number: *number,
                command,
                rate: rate_of(clips, words::slot(first)),
            };
            println!(rt; "  record {place} for frame {frame}: {command}: {reason}")?;
        }
    }
    Ok(())
}

// ---- the executed commands

/// The place in the file, from 1, of the record that is the k-th taken.
fn place_of(reasons: &[u64], k: u64) -> Option<u64> {
    let taken = (1u64..)
        .zip(reasons.iter())
        .filter(|(_, reason)| **reason == 0);
    let (place, _) = taken.skip(k.checked_sub(1)? as usize).next()?;
    Some(place)
}

/// The widest command of the rows.
fn widest_command(rows: &[Row]) -> usize {
    let mut most = 28;
    for row in rows {
        let [_, _, kind, first, second, ..] = *row;
        most = most.max(width(Command {
            kind,
            first,
            second,
        }));
    }
    most
}

/// The rows under their head, up to a clock.
fn table(rt: &impl Print, rows: &[Row], reasons: &[u64], end: u64, rate: u64) -> io::Result<()> {
    let clocks = width(Grouped(end)).max(13);
    let times = width(Time { frame: end, rate });
    let commands = widest_command(rows);
    let froms = widest(rows, 6, 11);
    let tos = widest(rows, 7, 11);
    let laps = widest(rows, 8, 5);
    let thens = widest(rows, 9, 5);
    println!(rt;
        "\n{:>clocks$} {:>times$} record {:<commands$} {:>froms$} {:>tos$} {:>laps$} {:>thens$}",
        "clock", "time", "command", "from", "to", "laps", "then"
    )?;
    for row in rows {
        let [_, number, kind, first, second, clock, from, to, lap, then] = *row;
        let time = Text::of(Time { frame: clock, rate });
        let time = time.as_str();
        let clock = Grouped(clock);
        let place = Grouped(place_of(reasons, number).unwrap_or(0));
        let command = Text::of(Command {
            kind,
            first,
            second,
        });
        let command = command.as_str();
        let from = Grouped(from);
        let to = Grouped(to);
        let lap = Grouped(lap);
        let then = Grouped(then);
        println!(rt;
            "{clock:>clocks$} {time:>times$} {place:>6} {command:<commands$} {from:>froms$} {to:>tos$} {lap:>laps$} {then:>thens$}"
        )?;
    }
    Ok(())
}

// ---- the end

/// The clock, and where the song stands.
fn last(rt: &impl Print, d: Dry) -> io::Result<()> {
    let clock = Grouped(d.clock.0);
    let slot = Grouped(d.playhead.song.slot as u64);
    let t = d.playhead.transport;
    let state = match t.state {
        TransportState::Stopped => "stopped",
        TransportState::Playing => "playing",
        TransportState::Paused => "paused",
    };
    let position = Grouped(t.position.0);
    let looped = match t.looped {
        None => Text::of("no loop"),
        Some(l) => {
            let start = Grouped(l.start.0);
            let end = Grouped(l.end.0);
            let laps = Grouped(t.laps);
            Text::of(format_args!("loop {start} to {end}, laps {laps}"))
        }
    };
    let looped = looped.as_str();
    println!(rt; "\nat {clock}: slot {slot}, {state} at {position}, {looped}")
}

// ---- the whole

/// The first of some lines.
fn first<const N: usize>(lines: &[[u64; N]], count: usize) -> &[[u64; N]] {
    lines.get(..count).unwrap_or(lines)
}

/// Writes the sheet of a dry run over a list.
pub fn all(
    rt: &impl Print,
    list: &List,
    records: &[u64; RECORDS],
    reasons: &[u64; REASONS],
    rows: &[u64; ROWS],
    d: DryDone,
) -> io::Result<()> {
    let clips = list.clips();
    let (records, _) = records.as_chunks::<5>();
    let (rows, _) = rows.as_chunks::<10>();
    let end = d.run.dry.clock.0;
    let rate = clips.first().map_or(0, |clip| clip[3]);
    head(rt, list.mode, rate, end)?;
    all_clips(rt, clips)?;
    all_skipped(rt, clips, records, reasons, d)?;
    table(rt, first(rows, d.run.rows), reasons, end, rate)?;
    last(rt, d.run.dry)?;
    let executed = Grouped(d.run.rows as u64);
    let queued = Grouped(d.run.queued as u64);
    println!(rt; "executed {executed}, still queued {queued}")
}
