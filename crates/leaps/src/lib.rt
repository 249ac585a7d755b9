//! A block without its sound: what its commands do to the playhead, frame for frame as in the session, and no sample.
#![tactic(auto)]

ghost use Rattle.std.specs.Prelude.{◌≡◌, List, ℕ, ◌+◌, ◌*◌, ◌≤◌, length};
ghost use Rattle.timeline.specs.Record.{row};
ghost use Rattle.timeline.specs.Store.{put_row};
ghost use Rattle.leaps.specs.declared.Run.{Run};
ghost use Rattle.leaps.specs.Dry.{blind, lengths_in};
ghost use Rattle.leaps.specs.Run.{Executable, Stretchable, Runnable, put_told, first_run, first_told, leap_run, ran_from, run_done};

use bank::Bank;
use counts::{ClockFrame, Handle, SongFrame};
use stage::Playhead;
use timeline::Row;
use transport::Transport;

/// Where a dry run stands: the clock and the playhead. Nothing reads its cursor, which stays 0.
#[derive(Clone, Copy)]
pub struct Dry {
    pub clock: ClockFrame,
    pub playhead: Playhead,
}

/// A dry run with so many commands queued and so many rows on its sheet.
#[derive(Clone, Copy)]
pub struct Run {
    pub dry: Dry,
    pub queued: usize,
    pub rows: usize,
}

/// The playhead without its cursor.
pub fn blind(p: Playhead) -> Playhead
    ensures { result ≡ blind p }
{
    Playhead {
        transport: p.transport.blindly(),
        ..p
    }
}

/// How long the song of a handle is.
pub fn length_in(b: Bank, h: Handle) -> SongFrame
    ensures { result.0 ≡ lengths_in b h }
{
    if h.slot < 32 {
        return bank::extent_of(bank::clip_of(b, h).kind);
    }
    SongFrame(0)
}

/// What a command did, in five words: the clock, the position before and after, the laps before and after.
fn did(clock: ClockFrame, before: Transport, after: Transport) -> Row
    ensures { result ≡ row clock.0 before.position.0 after.position.0 before.laps after.laps }
{
    Row {
        at: clock.0,
        number: before.position.0,
        kind: after.position.0,
        first: before.laps,
        second: after.laps,
    }
}

/// Writes row i of the sheet: the command's five words x, and the five of what it did, y.
fn tell(sheet: &mut [u64], i: usize, x: Row, y: Row)
    requires { i * 10 + 10 ≤ length sheet.old }
    ensures { sheet.new ≡ put_row (put_row sheet.old (i * 2) x) (i * 2 + 1) y }
{
    timeline::put_row(sheet, i * 2, x);
    timeline::put_row(sheet, i * 2 + 1, y);
}

/// Executes the first queued command, which leaves the queue and goes onto the sheet.
#[tactic(auto, unfolding(crate::specs::Dry::dry_exec))]
fn execute_first(run: Run, bank: Bank, queue: &[u64], sheet: &mut [u64]) -> Run
    requires { Executable run queue.now (length sheet.old) }
    ensures { (result ≡ first_run bank queue.now run) × (sheet.new ≡ put_told sheet.old run.rows (first_told bank queue.now run)) }
{
    let Dry { clock, playhead } = run.dry;
    let first = timeline::first(queue, run.queued);
    let next = playhead.execute(length_in(bank, playhead.song), first.command);
    let done = did(clock, playhead.transport, next.transport);
    tell(sheet, run.rows, timeline::row_of(first), done);
    Run {
        dry: Dry {
            clock,
            playhead: blind(next),
        },
        queued: run.queued - 1,
        rows: run.rows + 1,
    }
}

/// So many frames at once, at which nothing is due.
#[tactic(auto, unfolding(crate::specs::Run::dry_leap))]
fn stretch(run: Run, bank: Bank, frames: usize) -> Run
    requires { Stretchable run bank frames }
    ensures { result ≡ leap_run bank frames run }
{
    let Dry { clock, playhead } = run.dry;
    let extent = length_in(bank, playhead.song);
    Run {
        dry: Dry {
            clock: ClockFrame(clock.0 + frames as u64),
            playhead: Playhead {
                transport: playhead.transport.leap(extent, frames as u64),
                ..playhead
            },
        },
        ..run
    }
}

/// While frames remain, the first queued command is executed if it is due, else the run leaps up to the next one; after the
/// last frame one command, if it is due. No frames: nothing.
pub fn dry_block(run: Run, bank: Bank, queue: &[u64], sheet: &mut [u64], frames: usize) -> Run
    requires { Runnable bank queue.now run frames (length sheet.old) }
    ensures { ◌≡◌ {A = Run × List ℕ} (result, sheet.new) (run_done run sheet.old (ran_from bank queue.now run frames)) }
{
    if frames == 0 {
        return run;
    }
    let mut run = run;
    let mut done = 0;
    'block: loop {
        if block::is_due(run.dry.clock, queue, run.queued) {
            run = execute_first(run, bank, queue, &mut sheet[..]);
            if done == frames {
                break 'block;
            }
        } else if done == frames {
            break 'block;
        } else {
            let ahead = block::lead(run.dry.clock, queue, run.queued, frames - done);
            run = stretch(run, bank, ahead);
            done = done + ahead;
        }
    }
    run
}
