//! The dry run for C and Rust: its answer without enums.
#![tactic(auto)]

ghost use Rattle.std.specs.Prelude.{◌≡◌};
ghost use Rattle.dryrun.specs.Call.{Lent, lent};
ghost use Rattle.host_dry.specs.Answers.{dry_run_refused, dry_run_done, dry_run_by};
ghost use Rattle.host_dry.specs.Calls.{dry_run_host};

use counts::{ClockFrame, Handle, SongFrame};
use dryrun::{DryDone, DryError};
use host::HostLoop;

/// What a dry run gives: how many commands the tour has, how many the replay took, how many were executed and how many are still
/// queued, and where the playhead is then; or a refusal's number and its place.
#[repr(C)]
#[derive(Clone, Copy)]
pub struct HostDryRun {
    pub refusal: u32,
    pub place: usize,
    pub commands: usize,
    pub taken: usize,
    pub executed: usize,
    pub queued: usize,
    pub clock: ClockFrame,
    pub song: Handle,
    pub state: u32,
    pub position: SongFrame,
    pub looped: HostLoop,
    pub laps: u64,
}

fn dry_run_refused(number: u32, place: usize) -> HostDryRun
    ensures { result ≡ dry_run_refused number place }
{
    HostDryRun {
        refusal: number,
        place,
        commands: 0,
        taken: 0,
        executed: 0,
        queued: 0,
        clock: ClockFrame(0),
        song: Handle { slot: 0, serial: 0 },
        state: 0,
        position: SongFrame(0),
        looped: None.into(),
        laps: 0,
    }
}

fn dry_run_done(d: DryDone) -> HostDryRun
    ensures { result ≡ dry_run_done d }
{
    let run = d.run;
    let dry = run.dry;
    let clock = dry.clock;
    let playhead = dry.playhead;
    let song = playhead.song;
    let t = playhead.transport;
    let state = t.state;
    let position = t.position;
    let looped = t.looped;
    HostDryRun {
        refusal: 0,
        place: 0,
        commands: d.commands,
        taken: d.report.taken,
        executed: run.rows,
        queued: run.queued,
        clock,
        song,
        state: host::state_number(state),
        position,
        looped: looped.into(),
        laps: t.laps,
    }
}

fn dry_run_answered(a: Result<DryDone, DryError>) -> HostDryRun
    ensures { result ≡ dry_run_by a }
{
    match a {
        Ok(d) => dry_run_done(d),
        Err(e) => dry_run_refused(e.refusal.number(), e.place),
    }
}

/// Runs a recorded tour without its sound: its records and why each is skipped, what is still queued, and the sheet of what
/// was executed.
pub fn threshreed_dry_run(
    mode: u32,
    clips: &[u64],
    file: &[u8],
    blocks: &[u64],
    records: &mut [u64; 1280],
    reasons: &mut [u64; 256],
    queue: &mut [u64; 1280],
    sheet: &mut [u64; 2560],
) -> HostDryRun
    ensures { ◌≡◌ {A = HostDryRun × Lent} (result, lent records.new reasons.new queue.new sheet.new) (dry_run_host mode clips.now file.now blocks.now (lent records.old reasons.old queue.old sheet.old)) }
{
    let a = dryrun::dry_run(mode, clips, file, blocks, records, reasons, queue, sheet);
    dry_run_answered(a)
}
