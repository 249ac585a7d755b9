//! The calls that queue commands: submit, transition and replay.
#![tactic(auto)]

ghost use Rattle.std.specs.Prelude.{◌≡◌, true, cond, List, ℕ, ◌+◌, ◌-◌, ◌*◌, ◌^◌, ◌≤◌, ◌<◌, max, length, Ok, Err};
ghost use Rattle.timeline.specs.Command.{gain_ok};
ghost use Rattle.timeline.specs.Record.{readable, read_of, record_of};
ghost use Rattle.timeline.specs.Store.{put_row};
ghost use Rattle.timeline.specs.Queue.{stingers};
ghost use Rattle.session.specs.declared.Session.{Session};
ghost use Rattle.session.specs.Session.{desk_of, with_queue, captured_now, turned_away};
ghost use Rattle.session.specs.declared.Refusal.{Refusal};
ghost use Rattle.session.specs.Refusal.{unless};
ghost use Rattle.session.specs.WellFormed.{well_formed};
ghost use Rattle.session.specs.declared.Answered.{Answered};
ghost use Rattle.session.specs.Answer.{answered};
ghost use Rattle.submission.specs.Weigh.{weigh_command, capture_room, scales_of, stands_now};
ghost use Rattle.submission.specs.Submit.{weigh_submit, taken, submit_of};
ghost use Rattle.submission.specs.Transition.{cleared_queue, cleared_capture, cleared, weigh_transition, transition_of};
ghost use Rattle.submission.specs.Replay.{standing, weigh_replayed, taken_by, skipped_by, replay_row, replay_of};
ghost use Rattle.submission.specs.Ready.{Countable, RowReady};
ghost use Rattle.submission.specs.declared.Report.{Report};

use bank::Stands;
use counts::SongFrame;
use session::{Answered, Desk, Refusal, Session};
use timeline::{Command, Misread, QueueRecord, Row, Submission};
use transport::At;

/// What a command is weighed against: the session's rate, the queue's depth and capacity, whether a running capture has
/// room, queued stingers + sounding voices, and the last submission number given.
#[derive(Clone, Copy)]
pub struct Scales {
    pub rate: u32,
    pub depth: usize,
    pub capacity: usize,
    pub room: bool,
    pub stingers: usize,
    pub number: u64,
}

/// What a replay did with its records: taken, queue-full, otherwise skipped.
#[repr(C)]
#[derive(Clone, Copy)]
pub struct Report {
    pub taken: usize,
    pub full: usize,
    pub skipped: usize,
}

/// Where a replay stands: the session, and what was done with the records so far.
#[derive(Clone, Copy)]
pub struct ReplayState {
    pub session: Session,
    pub report: Report,
}

// ---- weighing a command

/// 14, 22, 11, 12, 13, 15, 16, 17, 18: a command, against what its handle stands for and the scales.
#[tactic(auto, unfolding(crate::specs::Weigh::weigh_command, session::specs::Refusal::first))]
fn weigh_command(w: Scales, stands: Stands, x: Command) -> Result<(), Refusal>
    ensures { result ≡ weigh_command w stands x }
{
    if !x.gain_ok() {
        return Err(Refusal::BadGain);
    }
    if x.is_senseless() {
        return Err(Refusal::SenselessLoop);
    }
    if bank::is_stale(stands) {
        return Err(Refusal::Stale);
    }
    let claim = x.claim();
    if bank::wrong_kind(claim, stands) {
        return Err(Refusal::WrongKind);
    }
    if bank::wrong_rate(w.rate, stands) {
        return Err(Refusal::WrongRate);
    }
    if w.capacity <= w.depth {
        return Err(Refusal::QueueFull);
    }
    if !w.room {
        return Err(Refusal::CaptureFull);
    }
    if timeline::takes_voice(claim) && w.stingers == 16 {
        return Err(Refusal::VoicesTaken);
    }
    if w.number == u64::MAX {
        return Err(Refusal::NumbersSpent);
    }
    Ok(())
}

/// Capture on and full: no room.
fn capture_room(s: Session) -> bool
    ensures { result ≡ capture_room s }
{
    !(s.desk.capturing && s.settings.capture <= s.desk.captured)
}

/// The scales of a session with its queue.
fn scales_of(s: Session, queue: &[u64], room: bool) -> Scales
    requires { (s.queued * 5 ≤ length queue.now) × (stingers queue.now s.queued + s.stage.sound.voices.count ≤ 16) }
    ensures { result ≡ scales_of s queue.now room }
{
    Scales {
        rate: s.settings.rate,
        depth: s.queued,
        capacity: s.settings.queue,
        room,
        stingers: timeline::count_stingers(queue, s.queued) + s.stage.sound.voices.count,
        number: s.desk.number,
    }
}

/// What the handle of a command stands for in a session.
fn stands_now(s: Session, x: Command) -> Stands
    ensures { result ≡ stands_now s x }
{
    bank::stands_in(s.bank, x.claim())
}

// ---- the ordinary submission

/// 1, then the command.
#[tactic(auto, using(crate::proofs::Ready::scales_ready), unfolding(crate::specs::Submit::weigh_submit, session::specs::Refusal::first))]
fn weigh_submit(s: Session, queue: &[u64], capture: &[u64], x: Submission) -> Result<(), Refusal>
    ensures { result ≡ weigh_submit s queue.now capture.now x }
{
    if !session::well_formed(s, queue, capture) {
        return Err(Refusal::NotWellFormed);
    }
    let command = Command::from(x);
    let scales = scales_of(s, queue, capture_room(s));
    weigh_command(scales, stands_now(s, command), command)
}

/// A capture that is on takes a record more; gives how many it then has.
fn append(capture: &mut [u64], d: Desk, x: Row) -> usize
    requires { d.capturing ≡ true → d.captured * 5 + 5 ≤ length capture.old }
    ensures { (capture.new ≡ cond d.capturing (put_row capture.old d.captured x) capture.old) × (result ≡ cond d.capturing (d.captured + 1) d.captured) }
{
    if d.capturing {
        timeline::put_row(capture, d.captured, x);
        return d.captured + 1;
    }
    d.captured
}

/// A submission takes the next number and raises the deepest depth; a capture that is on records it.
#[tactic(auto, using(crate::proofs::Ready::take_gain, crate::proofs::Ready::take_number, crate::proofs::Ready::take_queue, crate::proofs::Ready::take_capture), unfolding(crate::specs::Submit::taken))]
fn take(s: Session, queue: &mut [u64], capture: &mut [u64], x: Command, at: At) -> Answered<u64>
    requires { (well_formed s queue.old capture.old ≡ true) × (weigh_command (scales_of s queue.old (capture_room s)) (stands_now s x) x ≡ Ok tt) }
    ensures { ◌≡◌ {A = Answered ℕ × List ℕ × List ℕ} (result, queue.new, capture.new) (taken s queue.old capture.old x at) }
{
    let number = s.desk.number + 1;
    let row = timeline::row_of(QueueRecord {
        at: s.stage.playhead.transport.deadline(s.clock(), at),
        number,
        command: x,
    });
    timeline::insert(queue, s.queued, row);
    let queued = s.queued + 1;
    let desk = Desk {
        number,
        deepest: s.desk.deepest.max(queued),
        captured: append(capture, s.desk, row),
        ..s.desk
    };
    Answered {
        answer: Ok(number),
        session: Session { queued, desk, ..s },
    }
}

/// Refused, it leaves all but the dropped count.
fn refuse(s: Session, k: Refusal) -> Answered<u64>
    ensures { result ≡ answered (Err k) (turned_away k s) }
{
    Answered {
        answer: Err(k),
        session: session::turned_away(k, s),
    }
}

/// The ordinary submission takes the nine kinds that are no Transition. A refused one takes no number.
#[tactic(auto, unfolding(crate::specs::Submit::submit_of, crate::specs::Submit::weigh_submit, session::specs::Refusal::first, session::specs::Refusal::unless))]
pub fn submit(
    s: Session,
    queue: &mut [u64],
    capture: &mut [u64],
    x: Submission,
    at: At,
) -> Answered<u64>
    ensures { ◌≡◌ {A = Answered ℕ × List ℕ × List ℕ} (result, queue.new, capture.new) (submit_of s queue.old capture.old x at) }
{
    match weigh_submit(s, &queue[..], &capture[..], x) {
        Ok(()) => take(s, queue, capture, Command::from(x), at),
        Err(k) => refuse(s, k),
    }
}

// ---- the transition call

/// A session with so many queued and so many captured.
fn with_counts(s: Session, queued: usize, captured: usize) -> Session
    ensures { result ≡ with_queue s queued (desk_of s.desk.number s.desk.deepest s.desk.dropped s.desk.capturing captured) }
{
    Session {
        queued,
        desk: Desk { captured, ..s.desk },
        ..s
    }
}

/// The session as if every queued Transition and its capture record had gone.
#[tactic(auto, using(timeline::proofs::Queue::dropped_and_left, timeline::proofs::Queue::gone_and_left))]
fn cleared(s: Session, queue: &[u64], capture: &[u64]) -> Session
    requires { (s.queued * 5 ≤ length queue.now) × (captured_now s.desk * 5 ≤ length capture.now) }
    ensures { result ≡ cleared s queue.now capture.now }
{
    let captured = session::captured_now(s.desk);
    let older = timeline::count_transitions(queue, s.queued);
    let recorded = timeline::count_would_go(capture, captured, queue, s.queued);
    with_counts(s, s.queued - older, captured - recorded)
}

/// Takes out every queued Transition and its capture record.
fn clear(s: Session, queue: &mut [u64], capture: &mut [u64]) -> Session
    requires { (s.queued * 5 ≤ length queue.old) × (captured_now s.desk * 5 ≤ length capture.old) }
    ensures { ◌≡◌ {A = Session × List ℕ × List ℕ} (result, queue.new, capture.new) (cleared s queue.old capture.old, (cleared_queue s queue.old).words, (cleared_capture s queue.old capture.old).words) }
{
    let captured = session::captured_now(s.desk);
    let left = timeline::drop_captured(capture, captured, &queue[..], s.queued);
    let queued = timeline::drop_transitions(queue, s.queued);
    with_counts(s, queued, left)
}

/// 1, then the command, with 15 and 16 weighed as if the older ones had gone.
#[tactic(auto, using(timeline::proofs::Queue::stingers_dropped, crate::proofs::Ready::scales_ready, crate::proofs::Ready::clear_ready), unfolding(crate::specs::Transition::weigh_transition, session::specs::Refusal::first))]
fn weigh_transition(s: Session, queue: &[u64], capture: &[u64], f: SongFrame) -> Result<(), Refusal>
    ensures { result ≡ weigh_transition s queue.now capture.now f }
{
    if !session::well_formed(s, queue, capture) {
        return Err(Refusal::NotWellFormed);
    }
    let z = cleared(s, queue, capture);
    let scales = Scales {
        depth: z.queued,
        ..scales_of(s, queue, capture_room(z))
    };
    weigh_command(scales, Stands::Nothing, Command::Transition(f))
}

/// The transition call first takes out every queued Transition and its capture record; refused, it drops none.
#[tactic(auto, using(crate::proofs::Ready::clear_ready), unfolding(crate::specs::Transition::transition_of, crate::specs::Transition::weigh_transition, session::specs::Refusal::first, session::specs::Refusal::unless))]
pub fn transition(
    s: Session,
    queue: &mut [u64],
    capture: &mut [u64],
    f: SongFrame,
    at: At,
) -> Answered<u64>
    ensures { ◌≡◌ {A = Answered ℕ × List ℕ × List ℕ} (result, queue.new, capture.new) (transition_of s queue.old capture.old f at) }
{
    match weigh_transition(s, &queue[..], &capture[..], f) {
        Ok(()) => {
            let z = clear(s, &mut queue[..], &mut capture[..]);
            take(z, queue, capture, Command::Transition(f), at)
        }
        Err(k) => refuse(s, k),
    }
}

// ---- replay

/// The record of a row: 21 where it is unreadable, 14 where its gain is refused.
fn read_row(x: Row) -> Result<QueueRecord, Refusal>
    ensures { result ≡ cond (readable x) (cond (gain_ok (read_of x)) (Ok (record_of x)) (Err Refusal.BadGain)) (Err Refusal.Unreadable) }
{
    match timeline::read(x) {
        Ok(r) => Ok(r),
        Err(Misread::Unreadable) => Err(Refusal::Unreadable),
        Err(Misread::GainRefused) => Err(Refusal::BadGain),
    }
}

/// 21, then as a submission without 16: there is always room.
#[tactic(auto, using(crate::proofs::Weigh::bad_gain), unfolding(crate::specs::Replay::weigh_replayed, session::specs::Refusal::first))]
pub fn weigh_replayed(s: Session, queue: &[u64], x: Row) -> Result<(), Refusal>
    requires { (s.queued * 5 ≤ length queue.now) × (stingers queue.now s.queued + s.stage.sound.voices.count ≤ 16) }
    ensures { result ≡ weigh_replayed s queue.now x }
{
    let command = read_row(x)?.command;
    weigh_command(scales_of(s, queue, true), stands_now(s, command), command)
}

/// A refused record is skipped: counted as queue-full, or otherwise.
fn skip(z: ReplayState, k: Refusal) -> ReplayState
    requires { Countable z.report }
    ensures { (q : List ℕ) → standing result q ≡ skipped_by (standing z q) k }
{
    let session = session::turned_away(k, z.session);
    let report = if k.number() == 15 {
        Report {
            full: z.report.full + 1,
            ..z.report
        }
    } else {
        Report {
            skipped: z.report.skipped + 1,
            ..z.report
        }
    };
    ReplayState { session, report }
}

/// A record is taken at its frame under the next number, without capture and without raising the deepest depth.
fn take_recorded(z: ReplayState, queue: &mut [u64], r: QueueRecord) -> ReplayState
    requires { Countable z.report × (z.session.queued * 5 + 5 ≤ length queue.old) × (z.session.desk.number < 2 ^ 64 - 1) × (gain_ok r.command ≡ true) }
    ensures { standing result queue.new ≡ taken_by (standing z queue.old) r }
{
    let s = z.session;
    let number = s.desk.number + 1;
    let row = timeline::row_of(QueueRecord { number, ..r });
    timeline::insert(queue, s.queued, row);
    ReplayState {
        session: Session {
            queued: s.queued + 1,
            desk: Desk { number, ..s.desk },
            ..s
        },
        report: Report {
            taken: z.report.taken + 1,
            ..z.report
        },
    }
}

/// A recorded command, weighed as a submission without 16: skipped if it is refused, else taken.
#[tactic(auto, using(crate::proofs::Weigh::fine_fits, crate::proofs::Weigh::number_left, crate::proofs::Ready::record_room), unfolding(session::specs::Refusal::unless))]
fn replay_record(z: ReplayState, queue: &mut [u64], r: QueueRecord) -> ReplayState
    requires { RowReady (standing z queue.old) × (gain_ok r.command ≡ true) }
    ensures { standing result queue.new ≡ unless (weigh_command (scales_of z.session queue.old true) (stands_now z.session r.command) r.command) (skipped_by (standing z queue.old)) (taken_by (standing z queue.old) r) }
{
    let scales = scales_of(z.session, &queue[..], true);
    match weigh_command(scales, stands_now(z.session, r.command), r.command) {
        Ok(()) => take_recorded(z, queue, r),
        Err(k) => skip(z, k),
    }
}

/// One record: 21, then as a submission without 16.
#[tactic(auto, using(crate::proofs::Weigh::bad_gain), unfolding(crate::specs::Replay::replay_row, crate::specs::Replay::weigh_replayed, session::specs::Refusal::first, session::specs::Refusal::unless))]
pub fn replay_row(z: ReplayState, queue: &mut [u64], x: Row) -> ReplayState
    requires { RowReady (standing z queue.old) }
    ensures { standing result queue.new ≡ replay_row (standing z queue.old) x }
{
    match read_row(x) {
        Ok(r) => replay_record(z, queue, r),
        Err(k) => skip(z, k),
    }
}

/// Replay takes records in order at their frames; refused ones are skipped.
#[tactic(auto, using(crate::proofs::Ready::row_ready, crate::proofs::Ready::replayed_more), unfolding(crate::specs::Replay::replay_of, crate::specs::Replay::replayed, session::specs::WellFormed::weigh_only, session::specs::Refusal::first, session::specs::Refusal::unless))]
pub fn replay(s: Session, queue: &mut [u64], capture: &[u64], list: &[u64]) -> Answered<Report>
    ensures { ◌≡◌ {A = Answered Report × List ℕ} (result, queue.new) (replay_of s queue.old capture.now list.now) }
{
    if let Err(k) = session::weigh_only(s, &queue[..], capture) {
        return Answered {
            answer: Err(k),
            session: s,
        };
    }
    let report = Report {
        taken: 0,
        full: 0,
        skipped: 0,
    };
    let mut z = ReplayState { session: s, report };
    let n = list.len() / 5;
    for i in 0..n {
        z = replay_row(z, &mut queue[..], timeline::row_at(list, i));
    }
    Answered {
        answer: Ok(z.report),
        session: z.session,
    }
}
