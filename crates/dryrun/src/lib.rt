//! The dry run of a recorded tour: what its commands do, without the sound.
#![tactic(auto)]

ghost use Rattle.std.specs.Prelude.{Result, ◌≡◌, true, List, [], ℕ, ◌+◌, ◌*◌, ◌^◌, ◌≤◌, length};
ghost use Rattle.timeline.specs.Queue.{stingers};
ghost use Rattle.session.specs.WellFormed.{well_formed};
ghost use Rattle.submission.specs.Replay.{standing, weigh_replayed, replayed};
ghost use Rattle.tourfile.specs.Reader.{read_of};
ghost use Rattle.clips.specs.Own.{clips_of};
ghost use Rattle.leaps.specs.declared.Run.{Run};
ghost use Rattle.leaps.specs.Dry.{dry_of};
ghost use Rattle.leaps.specs.Run.{run_of, ran_from, run_done, Runnable};
ghost use Rattle.dryrun.specs.declared.DryDone.{DryDone};
ghost use Rattle.dryrun.specs.declared.DryError.{DryError};
ghost use Rattle.dryrun.specs.Replay.{reason_in, reasons_into};
ghost use Rattle.dryrun.specs.Blocks.{frames_in, sum_to};
ghost use Rattle.dryrun.specs.Call.{dry_number, Lent, lent, records_ran, refused_at, tour_ran, dry_run_of};
ghost use Rattle.dryrun.specs.Ready.{Fresh};

use leaps::{Dry, Run};
use session::{CLOCK_END, Session};
use stage::Stage;
use submission::{ReplayState, Report};
use timeline::Row;
use tourfile::{Fault, TourError};

/// What a dry run gives: how many commands the tour has, what the replay did with them, and where the run came to.
#[derive(Clone, Copy)]
pub struct DryDone {
    pub commands: usize,
    pub report: Report,
    pub run: Run,
}

/// Why a dry run is refused: a clip list that no well formed session could have, a fault of the tour's file, more than 256
/// commands, or blocks past the clock's end.
#[derive(Clone, Copy)]
pub enum DryRefusal {
    Clips,
    Tour(Fault),
    Commands,
    Clock,
}

impl DryRefusal {
    /// Its number: 116, that of the fault, 117 or 4.
    pub fn number(self) -> u32
        ensures { result ≡ dry_number self }
    {
        match self {
            DryRefusal::Clips => 116,
            DryRefusal::Tour(x) => x.number(),
            DryRefusal::Commands => 117,
            DryRefusal::Clock => 4,
        }
    }
}

/// A refusal of a dry run, and its place: the first byte of the field at fault, else 0.
#[derive(Clone, Copy)]
pub struct DryError {
    pub refusal: DryRefusal,
    pub place: usize,
}

impl DryError {
    /// A refusal that has no place.
    fn nowhere(refusal: DryRefusal) -> DryError
        ensures { result ≡ refused_at refusal 0 }
    {
        DryError { refusal, place: 0 }
    }
}

impl From<TourError> for DryError {
    ghost use Rattle.dryrun.specs.Call.{by_reader};

    ghost from_gives = { λ e r. r ≡ by_reader e };

    /// What the reader refuses. A list of 256 records that is too short is more than 256 commands.
    fn from(e: TourError) -> DryError {
        if e.fault.number() == 113 {
            return DryError::nowhere(DryRefusal::Commands);
        }
        DryError {
            refusal: DryRefusal::Tour(e.fault),
            place: e.place,
        }
    }
}

// ---- the records

/// Why a record is skipped: the number of its refusal, 0 if it is taken.
fn reason(s: Session, queue: &[u64], x: Row) -> u64
    requires { (s.queued * 5 ≤ length queue.now) × (stingers queue.now s.queued + s.stage.sound.voices.count ≤ 16) }
    ensures { result ≡ reason_in (weigh_replayed s queue.now x) }
{
    let weighed = submission::weigh_replayed(s, queue, x);
    match weighed {
        Ok(()) => 0,
        Err(k) => k.number() as u64,
    }
}

/// Replays the first n records in order, and notes of each why it is skipped.
pub fn rehearse(
    s: Session,
    queue: &mut [u64],
    records: &[u64; 1280],
    reasons: &mut [u64; 256],
    n: usize,
) -> ReplayState
    requires { (n ≤ 256) × (well_formed s queue.old [] ≡ true) }
    ensures queue_after { standing result queue.new ≡ replayed s queue.old records.now n }
    ensures reasons_after { reasons.new ≡ reasons_into reasons.old s queue.old records.now n }
{
    let report = Report {
        taken: 0,
        full: 0,
        skipped: 0,
    };
    let mut z = ReplayState { session: s, report };
    for i in 0..n {
        let x = timeline::row_at(records, i);
        let session = z.session;
        let why = reason(session, queue, x);
        reasons[i] = why;
        z = submission::replay_row(z, queue, x);
    }
    z
}

// ---- the blocks

/// So many times so many frames more, if they end by clock frame 2^62.
fn add_block(sum: u64, times: u64, frames: u64) -> Option<u64>
    requires { sum ≤ 2 ^ 62 }
    ensures { result ≡ sum_to (sum + times * frames) }
{
    if times == 0 {
        return Some(sum);
    }
    let left = CLOCK_END - sum;
    let most = left / times;
    if most < frames {
        return None;
    }
    Some(sum + times * frames)
}

/// The frames of all blocks together, as pairs of words, how many times, and how many frames; if they end by clock frame
/// 2^62.
pub fn frames_in(blocks: &[u64]) -> Option<u64>
    ensures { result ≡ sum_to (frames_in blocks.now) }
{
    let mut sum: u64 = 0;
    for k in 0..blocks.len() / 2 {
        let p = k * 2;
        sum = add_block(sum, blocks[p], blocks[p + 1])?;
    }
    Some(sum)
}

// ---- the run

/// Where a session stands, without its sound.
fn dry_of(s: Stage) -> Dry
    ensures { result ≡ dry_of s }
{
    let clock = s.clock;
    let playhead = s.playhead;
    Dry {
        clock,
        playhead: leaps::blind(playhead),
    }
}

/// Goes on for so many frames from where a session stands.
fn run_on(s: Session, queue: &[u64], sheet: &mut [u64; 2560], frames: usize) -> Run
    requires { Runnable s.bank queue.now (run_of s) frames 2560 }
    ensures { ◌≡◌ {A = Run × List ℕ} (result, sheet.new) (run_done (run_of s) sheet.old (ran_from s.bank queue.now (run_of s) frames)) }
{
    let stage = s.stage;
    let bank = s.bank;
    let run = Run {
        dry: dry_of(stage),
        queued: s.queued,
        rows: 0,
    };
    leaps::dry_block(run, bank, queue, sheet, frames)
}

/// Replays so many records at clock 0, and goes on for so many frames.
fn run_records(
    s: Session,
    n: usize,
    frames: usize,
    records: &[u64; 1280],
    reasons: &mut [u64; 256],
    queue: &mut [u64],
    sheet: &mut [u64; 2560],
) -> DryDone
    requires { (n ≤ 256) × (frames ≤ 2 ^ 62) × Fresh s queue.old }
    ensures { ◌≡◌ {A = DryDone × Lent} (result, lent records.now reasons.new queue.new sheet.new) (records_ran s n frames (lent records.now reasons.old queue.old sheet.old)) }
{
    let z = rehearse(s, queue, records, reasons, n);
    let report = z.report;
    let session = z.session;
    let run = run_on(session, queue, sheet, frames);
    DryDone {
        commands: n,
        report,
        run,
    }
}

/// Reads a tour with the session's own list of handles and runs it.
fn run_tour(
    s: Session,
    file: &[u8],
    blocks: &[u64],
    records: &mut [u64; 1280],
    reasons: &mut [u64; 256],
    queue: &mut [u64],
    sheet: &mut [u64; 2560],
) -> Result<DryDone, DryError>
    requires { Fresh s queue.old }
    ensures { ◌≡◌ {A = Result DryDone DryError × Lent} (result, lent records.new reasons.new queue.new sheet.new) (tour_ran s file.now blocks.now (lent records.old reasons.old queue.old sheet.old) (read_of (clips_of s.bank) file.now 1280)) }
{
    let bank = s.bank;
    let words = clips::own_list(bank);
    let n = tourfile::weigh_read(&words, file, 1280)?;
    let Some(frames) = frames_in(blocks) else {
        return Err(DryError::nowhere(DryRefusal::Clock));
    };
    tourfile::fill(&words, file, records);
    Ok(run_records(s, n, frames as usize, records, reasons, queue, sheet))
}

/// Runs a recorded tour without its sound. `clips` has six words for each clip, the first the opening song, `blocks` two for
/// each length: how many times, and how many frames. A refused run leaves every store.
pub fn dry_run(
    mode: u32,
    clips: &[u64],
    file: &[u8],
    blocks: &[u64],
    records: &mut [u64; 1280],
    reasons: &mut [u64; 256],
    queue: &mut [u64; 1280],
    sheet: &mut [u64; 2560],
) -> Result<DryDone, DryError>
    ensures { ◌≡◌ {A = Result DryDone DryError × Lent} (result, lent records.new reasons.new queue.new sheet.new) (dry_run_of mode clips.now file.now blocks.now (lent records.old reasons.old queue.old sheet.old)) }
{
    let Some(session) = cliplist::start(mode, clips) else {
        return Err(DryError::nowhere(DryRefusal::Clips));
    };
    run_tour(session, file, blocks, records, reasons, queue, sheet)
}
