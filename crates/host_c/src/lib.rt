//! The functions that C calls: each is the one of `host` under its name, with the same contract.
#![tactic(auto)]

ghost use Rattle.std.specs.Prelude.{◌≡◌, ℕ, List, Float};
ghost use Rattle.dryrun.specs.Call.{Lent, lent};
ghost use Rattle.host.specs.Calls.{open_host, load_host, retire_host, submit_host, transition_host, replay_host, block_host, pump_host, drain_host, read_tour_host, write_tour_host, salvage_host, start_capture_host, stop_capture_host, snapshot_host, apply_host, metrics_host};
ghost use Rattle.host_dry.specs.Calls.{dry_run_host};

use counts::{Handle, SongFrame};
use host::{
    HostAnswered, HostAt, HostBlocked, HostCommand, HostDrained, HostLoaded, HostMetrics,
    HostPumped, HostReplayed, HostSalvage, HostSession, HostSnapped, HostSnapshot, HostStopped,
    HostSubmitted, HostTour,
};
use host_dry::HostDryRun;
use ring::SampleRing;
use stage::Settings;

/// Opens a session on its first song.
#[unsafe(no_mangle)]
pub extern "C" fn threshreed_open(
    settings: Settings,
    queue: &[u64],
    capture: &[u64],
    pool: &mut [f32],
    samples: &[f32],
    rate: u32,
    extent: SongFrame,
) -> HostLoaded
    ensures { ◌≡◌ {A = HostLoaded × List Float} (result, pool.new) (open_host settings queue.now capture.now pool.old samples.now rate extent) }
{
    host::threshreed_open(settings, queue, capture, pool, samples, rate, extent)
}

/// Loads a clip: kind 1 a song of a length, 2 a stinger.
#[unsafe(no_mangle)]
pub extern "C" fn threshreed_load(
    h: HostSession,
    queue: &[u64],
    capture: &[u64],
    pool: &mut [f32],
    samples: &[f32],
    kind: u32,
    extent: SongFrame,
    rate: u32,
) -> HostLoaded
    ensures { ◌≡◌ {A = HostLoaded × List Float} (result, pool.new) (load_host h queue.now capture.now pool.old samples.now kind extent rate) }
{
    host::threshreed_load(h, queue, capture, pool, samples, kind, extent, rate)
}

/// Retires a clip that nothing holds.
#[unsafe(no_mangle)]
pub extern "C" fn threshreed_retire(
    h: HostSession,
    queue: &[u64],
    capture: &[u64],
    clip: Handle,
) -> HostAnswered
    ensures { result ≡ retire_host h queue.now capture.now clip }
{
    host::threshreed_retire(h, queue, capture, clip)
}

/// Submits a command of one of nine kinds.
#[unsafe(no_mangle)]
pub extern "C" fn threshreed_submit(
    h: HostSession,
    queue: &mut [u64],
    capture: &mut [u64],
    command: HostCommand,
    at: HostAt,
) -> HostSubmitted
    ensures { ◌≡◌ {A = HostSubmitted × List ℕ × List ℕ} (result, queue.new, capture.new) (submit_host h queue.old capture.old command at) }
{
    host::threshreed_submit(h, queue, capture, command, at)
}

/// Submits a transition in place of every queued one.
#[unsafe(no_mangle)]
pub extern "C" fn threshreed_transition(
    h: HostSession,
    queue: &mut [u64],
    capture: &mut [u64],
    frame: SongFrame,
    at: HostAt,
) -> HostSubmitted
    ensures { ◌≡◌ {A = HostSubmitted × List ℕ × List ℕ} (result, queue.new, capture.new) (transition_host h queue.old capture.old frame at) }
{
    host::threshreed_transition(h, queue, capture, frame, at)
}

/// Queues the records of a list at their frames.
#[unsafe(no_mangle)]
pub extern "C" fn threshreed_replay(
    h: HostSession,
    queue: &mut [u64],
    capture: &[u64],
    list: &[u64],
) -> HostReplayed
    ensures { ◌≡◌ {A = HostReplayed × List ℕ} (result, queue.new) (replay_host h queue.old capture.now list.now) }
{
    host::threshreed_replay(h, queue, capture, list)
}

/// Makes a block: half as many frames as the output has samples.
#[unsafe(no_mangle)]
pub extern "C" fn threshreed_block(
    h: HostSession,
    queue: &[u64],
    capture: &[u64],
    pool: &[f32],
    out: &mut [f32],
) -> HostBlocked
    ensures { ◌≡◌ {A = HostBlocked × List Float} (result, out.new) (block_host h queue.now capture.now pool.now out.old) }
{
    host::threshreed_block(h, queue, capture, pool, out)
}

/// Makes frames into a ring's store: those asked for, held to half the free samples.
#[unsafe(no_mangle)]
pub extern "C" fn threshreed_pump(
    h: HostSession,
    queue: &[u64],
    capture: &[u64],
    pool: &[f32],
    r: SampleRing,
    store: &mut [f32],
    frames: usize,
) -> HostPumped
    ensures { ◌≡◌ {A = HostPumped × List Float} (result, store.new) (pump_host h queue.now capture.now pool.now r store.old frames) }
{
    host::threshreed_pump(h, queue, capture, pool, r, store, frames)
}

/// Fills the callback's block from a ring's store: whole frames while there are any, and silence.
#[unsafe(no_mangle)]
pub extern "C" fn threshreed_drain(r: SampleRing, store: &[f32], out: &mut [f32]) -> HostDrained
    ensures { ◌≡◌ {A = HostDrained × List Float} (result, out.new) (drain_host r store.now out.old) }
{
    host::threshreed_drain(r, store, out)
}

/// Reads a tour's file: the records of its commands at the list's front.
#[unsafe(no_mangle)]
pub extern "C" fn threshreed_read_tour(clips: &[u64; 32], file: &[u8], list: &mut [u64]) -> HostTour
    ensures { ◌≡◌ {A = HostTour × List ℕ} (result, list.new) (read_tour_host clips.now file.now list.old) }
{
    host::threshreed_read_tour(clips, file, list)
}

/// Writes a list's records to a tour's file, at the output's front.
#[unsafe(no_mangle)]
pub extern "C" fn threshreed_write_tour(
    clips: &[u64; 32],
    records: &[u64],
    out: &mut [u8],
) -> HostTour
    ensures { ◌≡◌ {A = HostTour × List ℕ} (result, out.new) (write_tour_host clips.now records.now out.old) }
{
    host::threshreed_write_tour(clips, records, out)
}

/// Salvages a damaged tour's file: the fresh one at the output's front, the ranges at the list's.
#[unsafe(no_mangle)]
pub extern "C" fn threshreed_salvage(file: &[u8], out: &mut [u8], list: &mut [u64]) -> HostSalvage
    ensures { ◌≡◌ {A = HostSalvage × List ℕ × List ℕ} (result, out.new, list.new) (salvage_host file.now out.old list.old) }
{
    host::threshreed_salvage(file, out, list)
}

/// Runs a recorded tour without its sound: its records and why each is skipped, what is still queued, and the sheet of what
/// was executed.
#[unsafe(no_mangle)]
pub extern "C" fn threshreed_dry_run(
    mode: u32,
    clips: &[u64],
    file: &[u8],
    blocks: &[u64],
    records: &mut [u64; 1280],
    reasons: &mut [u64; 256],
    queue: &mut [u64; 1280],
    sheet: &mut [u64; 2560],
) -> HostDryRun
    ensures { ◌≡◌ {A = HostDryRun × Lent} (result, lent records.new reasons.new queue.new sheet.new) (dry_run_host mode clips.now file.now blocks.now (lent records.old reasons.old queue.old sheet.old)) }
{
    host_dry::threshreed_dry_run(mode, clips, file, blocks, records, reasons, queue, sheet)
}

/// Starts capture, empty.
#[unsafe(no_mangle)]
pub extern "C" fn threshreed_start_capture(
    h: HostSession,
    queue: &[u64],
    capture: &[u64],
) -> HostAnswered
    ensures { result ≡ start_capture_host h queue.now capture.now }
{
    host::threshreed_start_capture(h, queue, capture)
}

/// Stops capture and copies its records to the list's front.
#[unsafe(no_mangle)]
pub extern "C" fn threshreed_stop_capture(
    h: HostSession,
    queue: &[u64],
    capture: &[u64],
    list: &mut [u64],
) -> HostStopped
    ensures { ◌≡◌ {A = HostStopped × List ℕ} (result, list.new) (stop_capture_host h queue.now capture.now list.old) }
{
    host::threshreed_stop_capture(h, queue, capture, list)
}

/// Takes a control snapshot.
#[unsafe(no_mangle)]
pub extern "C" fn threshreed_snapshot(h: HostSession, queue: &[u64], capture: &[u64]) -> HostSnapped
    ensures { result ≡ snapshot_host h queue.now capture.now }
{
    host::threshreed_snapshot(h, queue, capture)
}

/// Applies a control snapshot.
#[unsafe(no_mangle)]
pub extern "C" fn threshreed_apply_snapshot(
    h: HostSession,
    queue: &[u64],
    capture: &[u64],
    snapshot: HostSnapshot,
) -> HostAnswered
    ensures { result ≡ apply_host h queue.now capture.now snapshot }
{
    host::threshreed_apply_snapshot(h, queue, capture, snapshot)
}

/// Reads the metrics.
#[unsafe(no_mangle)]
pub extern "C" fn threshreed_metrics(h: HostSession, queue: &[u64], capture: &[u64]) -> HostMetrics
    ensures { result ≡ metrics_host h queue.now capture.now }
{
    host::threshreed_metrics(h, queue, capture)
}
