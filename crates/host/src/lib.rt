//! The calls for C and Rust: a session without enums, by value in and out, and a function for each call, which `host_c` exports.
#![tactic(auto)]

ghost use Rattle.std.specs.Prelude.{◌≡◌, ◌&&◌, true, List, map, ℕ, ◌<◌, Float, Ok, Err, MatchResult};
ghost use Rattle.bank.specs.declared.Clip.{Clip};
ghost use Rattle.host.specs.Kept.{named, is_kind, kind_of, kind_number, clip_of, clip_numbers, is_state, state_of, state_number, is_flag, flag_of, loop_of, loop_numbers, tail_of, tail_numbers, slot_named, kinds_ok, is_session, stage_of, session_of, host_of};
ghost use Rattle.host.specs.Arguments.{is_submission, submission_of, is_at, at_of, is_snapshot, snapshot_of, snapshot_numbers};
ghost use Rattle.host.specs.Answers.{turned, admit_host, refused, answered_by, load_refused, loaded_by, opened_by, submit_refused, submitted_by, block_refused, pump_refused, pumped_by, drained_by, toured_by, salvaged_by, replay_refused, replayed_by, stop_refused, stopped_by, no_snapshot, snapshot_refused, snapped_by, no_metrics, metrics_refused, metered_by};
ghost use Rattle.host.specs.Calls.{open_host, load_host, retire_host, submit_host, transition_host, replay_host, block_host, pump_host, drain_host, read_tour_host, write_tour_host, salvage_host, start_capture_host, stop_capture_host, snapshot_host, apply_host, metrics_host};

use bank::{Bank, Clip, Kind};
use control::{PerformanceMetrics, PerformanceSnapshot};
use counts::{ClockFrame, Handle, SongFrame};
use oneshot::Voices;
use pump::Pumped;
use ramp::Ramp;
use remains::Salvaged;
use ring::{Drained, SampleRing};
use session::{Answered, Desk, Session};
use stage::{Counters, Fade, Playhead, Settings, Sound, Stage, Tail};
use submission::Report;
use timeline::Submission;
use tourfile::{Fault, TourError};
use transport::{At, LoopRange, Transport, TransportState};

/// A clip that is a song. A song has a length.
pub const SONG: u32 = 1;

/// A clip that is a stinger. A stinger has none.
pub const STINGER: u32 = 2;

/// The refusal of an argument that names no case, above the numbers of the documents.
pub const NO_SUCH_CASE: u32 = 255;

/// Numbers that name no case.
#[derive(Clone, Copy)]
pub struct NoSuchCase;

/// A clip: `extent` is a song's length, and is not used of a stinger. Nothing is used of a slot that holds none.
#[repr(C)]
#[derive(Clone, Copy)]
pub struct HostClip {
    pub serial: u32,
    pub kind: u32,
    pub extent: SongFrame,
    pub start: u64,
    pub frames: u64,
    pub rate: u32,
}

/// A loop, set (1) or not (0): if not, its ends are not used.
#[repr(C)]
#[derive(Clone, Copy)]
pub struct HostLoop {
    pub set: u32,
    pub start: SongFrame,
    pub end: SongFrame,
}

/// The tail, sounding (1) or not (0): if not, the rest is not used.
#[repr(C)]
#[derive(Clone, Copy)]
pub struct HostTail {
    pub sounding: u32,
    pub song: Handle,
    pub cursor: SongFrame,
    pub weight: Ramp,
}

/// A session as a host keeps it. State: 0 stopped, 1 playing, 2 paused; capturing: 0 or 1.
#[repr(C)]
#[derive(Clone, Copy)]
pub struct HostSession {
    pub settings: Settings,
    pub used: u32,
    pub last: u32,
    pub clips: [HostClip; 32],
    pub clock: ClockFrame,
    pub state: u32,
    pub position: SongFrame,
    pub cursor: SongFrame,
    pub looped: HostLoop,
    pub laps: u64,
    pub song: Handle,
    pub master: Ramp,
    pub tail: HostTail,
    pub voices: Voices,
    pub counters: Counters,
    pub queued: usize,
    pub number: u64,
    pub deepest: usize,
    pub dropped: u64,
    pub capturing: u32,
    pub captured: usize,
}

/// A command to submit, its kind as in a record; a kind uses the fields that it needs.
#[repr(C)]
#[derive(Clone, Copy)]
pub struct HostCommand {
    pub kind: u32,
    pub gain: f32,
    pub clip: Handle,
    pub frame: SongFrame,
    pub end: SongFrame,
}

/// When a command is due: 1 at once, 2 at a clock frame, 3 at a song frame.
#[repr(C)]
#[derive(Clone, Copy)]
pub struct HostAt {
    pub kind: u32,
    pub frame: u64,
}

#[repr(C)]
#[derive(Clone, Copy)]
pub struct HostSnapshot {
    pub position: SongFrame,
    pub state: u32,
    pub gain: f32,
    pub looped: HostLoop,
}

/// The answers: 0 or the number of the refusal, what the call gives, and the session.
#[repr(C)]
#[derive(Clone, Copy)]
pub struct HostAnswered {
    pub refusal: u32,
    pub session: HostSession,
}

#[repr(C)]
#[derive(Clone, Copy)]
pub struct HostLoaded {
    pub refusal: u32,
    pub handle: Handle,
    pub session: HostSession,
}

#[repr(C)]
#[derive(Clone, Copy)]
pub struct HostSubmitted {
    pub refusal: u32,
    pub number: u64,
    pub session: HostSession,
}

#[repr(C)]
#[derive(Clone, Copy)]
pub struct HostBlocked {
    pub refusal: u32,
    pub passes: u64,
    pub session: HostSession,
}

#[repr(C)]
#[derive(Clone, Copy)]
pub struct HostPumped {
    pub refusal: u32,
    pub frames: usize,
    pub passes: u64,
    pub ring: SampleRing,
    pub session: HostSession,
}

/// A drain is lent no session.
#[repr(C)]
#[derive(Clone, Copy)]
pub struct HostDrained {
    pub refusal: u32,
    pub frames: usize,
    pub ring: SampleRing,
}

/// What a tour's file gives: how many records were read or bytes written, or a fault's number and its place.
#[repr(C)]
#[derive(Clone, Copy)]
pub struct HostTour {
    pub refusal: u32,
    pub count: usize,
    pub place: usize,
}

/// What a salvage gives: commands kept, the fresh file's bytes and ranges, or a fault's number.
#[repr(C)]
#[derive(Clone, Copy)]
pub struct HostSalvage {
    pub refusal: u32,
    pub kept: usize,
    pub bytes: usize,
    pub ranges: usize,
}

#[repr(C)]
#[derive(Clone, Copy)]
pub struct HostReplayed {
    pub refusal: u32,
    pub report: Report,
    pub session: HostSession,
}

#[repr(C)]
#[derive(Clone, Copy)]
pub struct HostStopped {
    pub refusal: u32,
    pub copied: usize,
    pub session: HostSession,
}

#[repr(C)]
#[derive(Clone, Copy)]
pub struct HostSnapped {
    pub refusal: u32,
    pub snapshot: HostSnapshot,
    pub session: HostSession,
}

#[repr(C)]
#[derive(Clone, Copy)]
pub struct HostMetrics {
    pub refusal: u32,
    pub metrics: PerformanceMetrics,
    pub session: HostSession,
}

// ---- a host's numbers and what they name

/// 1 a song of this length, 2 a stinger.
fn kind_of(kind: u32, extent: SongFrame) -> Result<Kind, NoSuchCase>
    ensures { result ≡ named (is_kind kind) (kind_of kind extent) }
{
    match kind {
        SONG => Ok(Kind::Song(extent)),
        STINGER => Ok(Kind::Stinger),
        _ => Err(NoSuchCase),
    }
}

fn kind_number(kind: Kind) -> u32
    ensures { result ≡ kind_number kind }
{
    match kind {
        Kind::Song(_) => SONG,
        Kind::Stinger => STINGER,
    }
}

/// The clip of a slot that holds a song or a stinger; if it is not used, any number but a song's stands for a stinger.
fn slot_of(used: u32, i: usize, c: HostClip) -> Result<Clip, NoSuchCase>
    requires { i < 32 }
    ensures { result ≡ named (slot_named used i c.kind) (clip_of c) }
{
    let kind = match kind_of(c.kind, c.extent) {
        Ok(kind) => kind,
        Err(e) => {
            if bank::is_used(used, i) {
                return Err(e);
            }
            Kind::Stinger
        }
    };
    Ok(Clip {
        serial: c.serial,
        kind,
        start: c.start,
        frames: c.frames,
        rate: c.rate,
    })
}

impl From<Clip> for HostClip {
    ghost from_gives = { λ c r. r ≡ clip_numbers c };

    /// A stinger's length is not used, and 0.
    fn from(c: Clip) -> HostClip {
        let kind = c.kind;
        HostClip {
            serial: c.serial,
            kind: kind_number(kind),
            extent: bank::extent_of(kind),
            start: c.start,
            frames: c.frames,
            rate: c.rate,
        }
    }
}

/// 0 stopped, 1 playing, 2 paused.
fn state_of(n: u32) -> Result<TransportState, NoSuchCase>
    ensures { result ≡ named (is_state n) (state_of n) }
{
    match n {
        0 => Ok(TransportState::Stopped),
        1 => Ok(TransportState::Playing),
        2 => Ok(TransportState::Paused),
        _ => Err(NoSuchCase),
    }
}

pub fn state_number(state: TransportState) -> u32
    ensures { result ≡ state_number state }
{
    match state {
        TransportState::Stopped => 0,
        TransportState::Playing => 1,
        TransportState::Paused => 2,
    }
}

/// 0 no, 1 yes.
fn flag_of(n: u32) -> Result<bool, NoSuchCase>
    ensures { result ≡ named (is_flag n) (flag_of n) }
{
    match n {
        0 => Ok(false),
        1 => Ok(true),
        _ => Err(NoSuchCase),
    }
}

impl TryFrom<HostLoop> for Option<LoopRange> {
    type Error = NoSuchCase;

    ghost try_from_gives = { λ x r. r ≡ named (is_flag x.set) (loop_of x) };

    fn try_from(x: HostLoop) -> Result<Self, NoSuchCase> {
        if flag_of(x.set)? {
            return Ok(Some(LoopRange {
                start: x.start,
                end: x.end,
            }));
        }
        Ok(None)
    }
}

impl From<Option<LoopRange>> for HostLoop {
    ghost from_gives = { λ x r. r ≡ loop_numbers x };

    fn from(x: Option<LoopRange>) -> HostLoop {
        match x {
            None => HostLoop {
                set: 0,
                start: SongFrame(0),
                end: SongFrame(0),
            },
            Some(l) => HostLoop {
                set: 1,
                start: l.start,
                end: l.end,
            },
        }
    }
}

impl TryFrom<HostTail> for Option<Tail> {
    type Error = NoSuchCase;

    ghost try_from_gives = { λ x r. r ≡ named (is_flag x.sounding) (tail_of x) };

    fn try_from(x: HostTail) -> Result<Self, NoSuchCase> {
        if flag_of(x.sounding)? {
            return Ok(Some(Tail {
                song: x.song,
                cursor: x.cursor,
                weight: x.weight,
            }));
        }
        Ok(None)
    }
}

impl From<Option<Tail>> for HostTail {
    ghost from_gives = { λ x r. r ≡ tail_numbers x };

    fn from(x: Option<Tail>) -> HostTail {
        match x {
            None => HostTail {
                sounding: 0,
                song: Handle { slot: 0, serial: 0 },
                cursor: SongFrame(0),
                weight: Ramp::new(0.0),
            },
            Some(t) => HostTail {
                sounding: 1,
                song: t.song,
                cursor: t.cursor,
                weight: t.weight,
            },
        }
    }
}

// ---- the session

/// Puts the clips that its slots hold in their places, if every used one holds a song or a stinger.
fn clips_of(h: &HostSession, clips: &mut [Clip; 32]) -> Result<(), NoSuchCase>
    ensures kinds { result ≡ named (kinds_ok h.now) tt }
    ensures clips { kinds_ok h.now ≡ true → clips.new ≡ map clip_of h.now.clips }
{
    for i in 0..32 {
        let c = h.clips[i];
        clips[i] = slot_of(h.used, i, c)?;
    }
    Ok(())
}

fn clips_numbers(b: Bank) -> [HostClip; 32]
    ensures { result ≡ map clip_numbers b.clips }
{
    let c = b.clips[0];
    let first = HostClip::from(c);
    let mut clips = [first; 32];
    for i in 0..32 {
        let c = b.clips[i];
        clips[i] = HostClip::from(c);
    }
    clips
}

/// The stage that it matches.
fn stage_of(h: HostSession) -> Result<Stage, NoSuchCase>
    ensures { result ≡ named (is_state h.state && is_flag h.looped.set && is_flag h.tail.sounding) (stage_of h) }
{
    let position = h.position;
    let cursor = h.cursor;
    let looped = h.looped;
    let transport = Transport {
        state: state_of(h.state)?,
        position,
        cursor,
        looped: looped.try_into()?,
        laps: h.laps,
    };
    let song = h.song;
    let playhead = Playhead { transport, song };
    let master = h.master;
    let tail = h.tail;
    let fade = Fade {
        tail: tail.try_into()?,
    };
    let voices = h.voices;
    let sound = Sound {
        master,
        fade,
        voices,
    };
    let clock = h.clock;
    let counters = h.counters;
    Ok(Stage {
        clock,
        playhead,
        sound,
        counters,
    })
}

/// The desk that it matches.
fn desk_of(h: HostSession) -> Result<Desk, NoSuchCase>
    ensures { result ≡ named (is_flag h.capturing) (session_of h).desk }
{
    Ok(Desk {
        number: h.number,
        deepest: h.deepest,
        dropped: h.dropped,
        capturing: flag_of(h.capturing)?,
        captured: h.captured,
    })
}

/// The stage and the desk that it matches.
fn stage_and_desk(h: HostSession) -> Result<(Stage, Desk), NoSuchCase>
    ensures { result ≡ named (is_state h.state && is_flag h.looped.set && is_flag h.tail.sounding && is_flag h.capturing) (stage_of h, (session_of h).desk) }
{
    let stage = stage_of(h)?;
    let desk = desk_of(h)?;
    Ok((stage, desk))
}

impl TryFrom<HostSession> for Session {
    type Error = NoSuchCase;

    ghost try_from_gives = { λ h r. r ≡ named (is_session h) (session_of h) };

    /// The session that it matches, if each of its numbers names a case.
    fn try_from(h: HostSession) -> Result<Self, NoSuchCase> {
        let mut bank = Bank::empty();
        bank.used = h.used;
        bank.last = h.last;
        clips_of(&h, &mut bank.clips)?;
        let (stage, desk) = stage_and_desk(h)?;
        let settings = h.settings;
        Ok(Session {
            settings,
            bank,
            stage,
            queued: h.queued,
            desk,
        })
    }
}

/// A session in its parts, with its clips as numbers, as a host keeps it.
fn kept(
    settings: Settings,
    used: u32,
    last: u32,
    clips: [HostClip; 32],
    stage: Stage,
    queued: usize,
    desk: Desk,
) -> HostSession
    ensures { (slots : List Clip) → clips ≡ map clip_numbers slots → result ≡ host_of (record { settings = settings; bank = record { used = used; last = last; clips = slots }; stage = stage; queued = queued; desk = desk }) }
{
    let clock = stage.clock;
    let playhead = stage.playhead;
    let transport = playhead.transport;
    let state = transport.state;
    let position = transport.position;
    let cursor = transport.cursor;
    let looped = transport.looped;
    let song = playhead.song;
    let sound = stage.sound;
    let master = sound.master;
    let fade = sound.fade;
    let tail = fade.tail;
    let voices = sound.voices;
    let counters = stage.counters;
    HostSession {
        settings,
        used,
        last,
        clips,
        clock,
        state: state_number(state),
        position,
        cursor,
        looped: looped.into(),
        laps: transport.laps,
        song,
        master,
        tail: tail.into(),
        voices,
        counters,
        queued,
        number: desk.number,
        deepest: desk.deepest,
        dropped: desk.dropped,
        capturing: u32::from(desk.capturing),
        captured: desk.captured,
    }
}

impl From<Session> for HostSession {
    ghost from_gives = { λ s r. r ≡ host_of s };

    /// A session as a host keeps it.
    fn from(s: Session) -> HostSession {
        let settings = s.settings;
        let bank = s.bank;
        let clips = clips_numbers(bank);
        let stage = s.stage;
        let desk = s.desk;
        kept(settings, bank.used, bank.last, clips, stage, s.queued, desk)
    }
}

// ---- arguments

impl TryFrom<HostCommand> for Submission {
    type Error = NoSuchCase;

    ghost try_from_gives = { λ x r. r ≡ named (is_submission x) (submission_of x) };

    /// One of the nine kinds that the ordinary submission takes: all but 5, a transition.
    fn try_from(x: HostCommand) -> Result<Self, NoSuchCase> {
        let kind = x.kind;
        let gain = x.gain;
        let clip = x.clip;
        let frame = x.frame;
        let end = x.end;
        match kind {
            1 => Ok(Submission::Play),
            2 => Ok(Submission::Pause),
            3 => Ok(Submission::Stop),
            4 => Ok(Submission::Seek(frame)),
            6 => Ok(Submission::Loop(frame, end)),
            7 => Ok(Submission::ClearLoop),
            8 => Ok(Submission::Gain(gain)),
            9 => Ok(Submission::Swap(clip)),
            10 => Ok(Submission::Stinger(clip, gain)),
            _ => Err(NoSuchCase),
        }
    }
}

impl TryFrom<HostAt> for At {
    type Error = NoSuchCase;

    ghost try_from_gives = { λ x r. r ≡ named (is_at x) (at_of x) };

    /// At once, at a clock frame or at a song frame.
    fn try_from(x: HostAt) -> Result<Self, NoSuchCase> {
        let kind = x.kind;
        match kind {
            1 => Ok(At::Immediate),
            2 => Ok(At::Frame(ClockFrame(x.frame))),
            3 => Ok(At::Song(SongFrame(x.frame))),
            _ => Err(NoSuchCase),
        }
    }
}

/// A command with when it is due.
fn due(command: HostCommand, at: HostAt) -> Result<(Submission, At), NoSuchCase>
    ensures { result ≡ named (is_submission command && is_at at) (submission_of command, at_of at) }
{
    let x = Submission::try_from(command)?;
    let due = At::try_from(at)?;
    Ok((x, due))
}

impl TryFrom<HostSnapshot> for PerformanceSnapshot {
    type Error = NoSuchCase;

    ghost try_from_gives = { λ x r. r ≡ named (is_snapshot x) (snapshot_of x) };

    /// Its state and its loop name cases.
    fn try_from(x: HostSnapshot) -> Result<Self, NoSuchCase> {
        let position = x.position;
        let looped = x.looped;
        Ok(PerformanceSnapshot {
            position,
            state: state_of(x.state)?,
            gain: x.gain,
            looped: looped.try_into()?,
        })
    }
}

impl From<PerformanceSnapshot> for HostSnapshot {
    ghost from_gives = { λ x r. r ≡ snapshot_numbers x };

    fn from(x: PerformanceSnapshot) -> HostSnapshot {
        let position = x.position;
        let state = x.state;
        let looped = x.looped;
        HostSnapshot {
            position,
            state: state_number(state),
            gain: x.gain,
            looped: looped.into(),
        }
    }
}

// ---- answers

/// A refused call hands back the very session that came; 15 alone raises its dropped count.
#[tactic(auto, unfolding(crate::specs::Answers::turned))]
fn turned(number: u32, h: HostSession) -> HostSession
    ensures { result ≡ turned number h }
{
    if number == 15 {
        let mut t = h;
        let dropped = session::one_more(h.dropped);
        t.dropped = dropped;
        return t;
    }
    h
}

/// What else a call needs, beside the session that matches, or the number of its refusal: of an argument that names no case 1
/// if the session is not well formed, else the host's own number.
fn admit<A: Copy>(
    s: Session,
    queue: &[u64],
    capture: &[u64],
    argument: Result<A, NoSuchCase>,
) -> Result<A, u32>
    ensures { (h : HostSession) → is_session h ≡ true → s ≡ session_of h → MatchResult result (λ x. admit_host h queue.now capture.now argument ≡ Ok (s, x)) (λ n. admit_host h queue.now capture.now argument ≡ Err n) }
{
    match argument {
        Ok(x) => Ok(x),
        Err(_) => {
            if session::well_formed(s, queue, capture) {
                return Err(NO_SUCH_CASE);
            }
            Err(1)
        }
    }
}

fn refused(number: u32, h: HostSession) -> HostAnswered
    ensures { result ≡ refused h number }
{
    HostAnswered {
        refusal: number,
        session: turned(number, h),
    }
}

fn answered(h: HostSession, r: Answered<()>) -> HostAnswered
    ensures { result ≡ answered_by h r }
{
    let answer = r.answer;
    let s = r.session;
    match answer {
        Ok(()) => HostAnswered {
            refusal: 0,
            session: HostSession::from(s),
        },
        Err(k) => refused(k.number(), h),
    }
}

fn load_refused(number: u32, h: HostSession) -> HostLoaded
    ensures { result ≡ load_refused h number }
{
    HostLoaded {
        refusal: number,
        handle: Handle { slot: 0, serial: 0 },
        session: turned(number, h),
    }
}

fn loaded(h: HostSession, r: Answered<Handle>) -> HostLoaded
    ensures { result ≡ loaded_by h r }
{
    let answer = r.answer;
    let s = r.session;
    match answer {
        Ok(handle) => HostLoaded {
            refusal: 0,
            handle,
            session: HostSession::from(s),
        },
        Err(k) => load_refused(k.number(), h),
    }
}

/// A refused opening has no session to hand back but the one that every call refuses.
fn opened(r: Answered<Handle>) -> HostLoaded
    ensures { result ≡ opened_by r }
{
    let s = r.session;
    loaded(HostSession::from(s), r)
}

fn submit_refused(number: u32, h: HostSession) -> HostSubmitted
    ensures { result ≡ submit_refused h number }
{
    HostSubmitted {
        refusal: number,
        number: 0,
        session: turned(number, h),
    }
}

fn submitted(h: HostSession, r: Answered<u64>) -> HostSubmitted
    ensures { result ≡ submitted_by h r }
{
    let answer = r.answer;
    let s = r.session;
    match answer {
        Ok(number) => HostSubmitted {
            refusal: 0,
            number,
            session: HostSession::from(s),
        },
        Err(k) => submit_refused(k.number(), h),
    }
}

fn block_refused(number: u32, h: HostSession) -> HostBlocked
    ensures { result ≡ block_refused h number }
{
    HostBlocked {
        refusal: number,
        passes: 0,
        session: turned(number, h),
    }
}

fn pump_refused(number: u32, h: HostSession, r: SampleRing) -> HostPumped
    ensures { result ≡ pump_refused h r number }
{
    HostPumped {
        refusal: number,
        frames: 0,
        passes: 0,
        ring: r,
        session: turned(number, h),
    }
}

fn pumped(h: HostSession, x: Pumped) -> HostPumped
    ensures { result ≡ pumped_by h x }
{
    let answer = x.answer;
    let r = x.ring;
    let s = x.session;
    match answer {
        Ok(made) => HostPumped {
            refusal: 0,
            frames: made.frames,
            passes: made.passes,
            ring: r,
            session: HostSession::from(s),
        },
        Err(k) => pump_refused(k.number(), h, r),
    }
}

fn drained(x: Drained) -> HostDrained
    ensures { result ≡ drained_by x }
{
    let answer = x.answer;
    let r = x.ring;
    match answer {
        Ok(frames) => HostDrained {
            refusal: 0,
            frames,
            ring: r,
        },
        Err(k) => HostDrained {
            refusal: k.number(),
            frames: 0,
            ring: r,
        },
    }
}

fn toured(a: Result<usize, TourError>) -> HostTour
    ensures { result ≡ toured_by a }
{
    match a {
        Ok(count) => HostTour {
            refusal: 0,
            count,
            place: 0,
        },
        Err(e) => HostTour {
            refusal: e.fault.number(),
            count: 0,
            place: e.place,
        },
    }
}

fn salvaged(a: Result<Salvaged, Fault>) -> HostSalvage
    ensures { result ≡ salvaged_by a }
{
    match a {
        Ok(t) => HostSalvage {
            refusal: 0,
            kept: t.kept,
            bytes: t.bytes,
            ranges: t.ranges,
        },
        Err(x) => HostSalvage {
            refusal: x.number(),
            kept: 0,
            bytes: 0,
            ranges: 0,
        },
    }
}

fn replay_refused(number: u32, h: HostSession) -> HostReplayed
    ensures { result ≡ replay_refused h number }
{
    HostReplayed {
        refusal: number,
        report: Report {
            taken: 0,
            full: 0,
            skipped: 0,
        },
        session: turned(number, h),
    }
}

fn replayed(h: HostSession, r: Answered<Report>) -> HostReplayed
    ensures { result ≡ replayed_by h r }
{
    let answer = r.answer;
    let s = r.session;
    match answer {
        Ok(report) => HostReplayed {
            refusal: 0,
            report,
            session: HostSession::from(s),
        },
        Err(k) => replay_refused(k.number(), h),
    }
}

fn stop_refused(number: u32, h: HostSession) -> HostStopped
    ensures { result ≡ stop_refused h number }
{
    HostStopped {
        refusal: number,
        copied: 0,
        session: turned(number, h),
    }
}

fn stopped(h: HostSession, r: Answered<usize>) -> HostStopped
    ensures { result ≡ stopped_by h r }
{
    let answer = r.answer;
    let s = r.session;
    match answer {
        Ok(copied) => HostStopped {
            refusal: 0,
            copied,
            session: HostSession::from(s),
        },
        Err(k) => stop_refused(k.number(), h),
    }
}

/// Position 0, stopped, gain 0, no loop.
fn no_snapshot() -> HostSnapshot
    ensures { result ≡ no_snapshot }
{
    HostSnapshot {
        position: SongFrame(0),
        state: 0,
        gain: 0.0,
        looped: None.into(),
    }
}

fn snapshot_refused(number: u32, h: HostSession) -> HostSnapped
    ensures { result ≡ snapshot_refused h number }
{
    HostSnapped {
        refusal: number,
        snapshot: no_snapshot(),
        session: turned(number, h),
    }
}

fn snapped(h: HostSession, r: Answered<PerformanceSnapshot>) -> HostSnapped
    ensures { result ≡ snapped_by h r }
{
    let answer = r.answer;
    let s = r.session;
    match answer {
        Ok(x) => HostSnapped {
            refusal: 0,
            snapshot: x.into(),
            session: HostSession::from(s),
        },
        Err(k) => snapshot_refused(k.number(), h),
    }
}

/// Every count 0.
fn no_metrics() -> PerformanceMetrics
    ensures { result ≡ no_metrics }
{
    PerformanceMetrics {
        rendered: 0,
        executed: 0,
        dropped: 0,
        deepest: 0,
        swaps: 0,
        fired: 0,
    }
}

fn metrics_refused(number: u32, h: HostSession) -> HostMetrics
    ensures { result ≡ metrics_refused h number }
{
    HostMetrics {
        refusal: number,
        metrics: no_metrics(),
        session: turned(number, h),
    }
}

fn metered(h: HostSession, r: Answered<PerformanceMetrics>) -> HostMetrics
    ensures { result ≡ metered_by h r }
{
    let answer = r.answer;
    let s = r.session;
    match answer {
        Ok(metrics) => HostMetrics {
            refusal: 0,
            metrics,
            session: HostSession::from(s),
        },
        Err(k) => metrics_refused(k.number(), h),
    }
}

// ---- the calls

/// Opens a session on its first song.
pub fn threshreed_open(
    settings: Settings,
    queue: &[u64],
    capture: &[u64],
    pool: &mut [f32],
    samples: &[f32],
    rate: u32,
    extent: SongFrame,
) -> HostLoaded
    ensures { ◌≡◌ {A = HostLoaded × List Float} (result, pool.new) (open_host settings queue.now capture.now pool.old samples.now rate extent) }
{
    let r = clips::open(settings, queue, capture, pool, samples, rate, extent);
    opened(r)
}

/// Loads a clip: kind 1 a song of a length, 2 a stinger.
pub fn threshreed_load(
    h: HostSession,
    queue: &[u64],
    capture: &[u64],
    pool: &mut [f32],
    samples: &[f32],
    kind: u32,
    extent: SongFrame,
    rate: u32,
) -> HostLoaded
    ensures { ◌≡◌ {A = HostLoaded × List Float} (result, pool.new) (load_host h queue.now capture.now pool.old samples.now kind extent rate) }
{
    let Ok(s) = Session::try_from(h) else {
        return load_refused(1, h);
    };
    match admit(s, queue, capture, kind_of(kind, extent)) {
        Err(number) => load_refused(number, h),
        Ok(kind) => {
            let r = clips::load(s, queue, capture, pool, samples, kind, rate);
            loaded(h, r)
        }
    }
}

/// Retires a clip that nothing holds.
pub fn threshreed_retire(
    h: HostSession,
    queue: &[u64],
    capture: &[u64],
    clip: Handle,
) -> HostAnswered
    ensures { result ≡ retire_host h queue.now capture.now clip }
{
    let Ok(s) = Session::try_from(h) else {
        return refused(1, h);
    };
    let r = clips::retire(s, queue, capture, clip);
    answered(h, r)
}

/// Submits a command of one of nine kinds.
pub fn threshreed_submit(
    h: HostSession,
    queue: &mut [u64],
    capture: &mut [u64],
    command: HostCommand,
    at: HostAt,
) -> HostSubmitted
    ensures { ◌≡◌ {A = HostSubmitted × List ℕ × List ℕ} (result, queue.new, capture.new) (submit_host h queue.old capture.old command at) }
{
    let Ok(s) = Session::try_from(h) else {
        return submit_refused(1, h);
    };
    match admit(s, &queue[..], &capture[..], due(command, at)) {
        Err(number) => submit_refused(number, h),
        Ok((x, due)) => {
            let r = submission::submit(s, queue, capture, x, due);
            submitted(h, r)
        }
    }
}

/// Submits a transition in place of every queued one.
pub fn threshreed_transition(
    h: HostSession,
    queue: &mut [u64],
    capture: &mut [u64],
    frame: SongFrame,
    at: HostAt,
) -> HostSubmitted
    ensures { ◌≡◌ {A = HostSubmitted × List ℕ × List ℕ} (result, queue.new, capture.new) (transition_host h queue.old capture.old frame at) }
{
    let Ok(s) = Session::try_from(h) else {
        return submit_refused(1, h);
    };
    match admit(s, &queue[..], &capture[..], at.try_into()) {
        Err(number) => submit_refused(number, h),
        Ok(due) => {
            let r = submission::transition(s, queue, capture, frame, due);
            submitted(h, r)
        }
    }
}

/// Queues the records of a list at their frames.
pub fn threshreed_replay(
    h: HostSession,
    queue: &mut [u64],
    capture: &[u64],
    list: &[u64],
) -> HostReplayed
    ensures { ◌≡◌ {A = HostReplayed × List ℕ} (result, queue.new) (replay_host h queue.old capture.now list.now) }
{
    let Ok(s) = Session::try_from(h) else {
        return replay_refused(1, h);
    };
    let r = submission::replay(s, queue, capture, list);
    replayed(h, r)
}

/// Makes a block: half as many frames as the output has samples.
pub fn threshreed_block(
    h: HostSession,
    queue: &[u64],
    capture: &[u64],
    pool: &[f32],
    out: &mut [f32],
) -> HostBlocked
    ensures { ◌≡◌ {A = HostBlocked × List Float} (result, out.new) (block_host h queue.now capture.now pool.now out.old) }
{
    let blank = Bank::empty();
    let slots = blank.clips;
    let mut bank = Bank {
        used: h.used,
        last: h.last,
        clips: slots,
    };
    let mut clips = h.clips;
    for i in 0..32 {
        let c = h.clips[i];
        let Ok(clip) = slot_of(h.used, i, c) else {
            return block_refused(1, h);
        };
        bank.clips[i] = clip;
        clips[i] = HostClip::from(clip);
    }
    let Ok((stage, desk)) = stage_and_desk(h) else {
        return block_refused(1, h);
    };
    let settings = h.settings;
    let made = block::make(
        settings, bank, stage, h.queued, desk, queue, capture, pool, out,
    );
    let answer = made.answer;
    let next = made.stage;
    match answer {
        Ok(passes) => HostBlocked {
            refusal: 0,
            passes,
            session: kept(
                settings,
                bank.used,
                bank.last,
                clips,
                next,
                made.queued,
                desk,
            ),
        },
        Err(k) => block_refused(k.number(), h),
    }
}

/// Makes frames into a ring's store: those asked for, held to half the free samples.
pub fn threshreed_pump(
    h: HostSession,
    queue: &[u64],
    capture: &[u64],
    pool: &[f32],
    r: SampleRing,
    store: &mut [f32],
    frames: usize,
) -> HostPumped
    ensures { ◌≡◌ {A = HostPumped × List Float} (result, store.new) (pump_host h queue.now capture.now pool.now r store.old frames) }
{
    let Ok(s) = Session::try_from(h) else {
        return pump_refused(1, h, r);
    };
    let x = pump::pump(s, queue, capture, pool, r, store, frames);
    pumped(h, x)
}

/// Fills the callback's block from a ring's store: whole frames while there are any, and silence.
pub fn threshreed_drain(r: SampleRing, store: &[f32], out: &mut [f32]) -> HostDrained
    ensures { ◌≡◌ {A = HostDrained × List Float} (result, out.new) (drain_host r store.now out.old) }
{
    let x = ring::drain(r, store, out);
    drained(x)
}

/// Reads a tour's file: the records of its commands at the list's front.
pub fn threshreed_read_tour(clips: &[u64; 32], file: &[u8], list: &mut [u64]) -> HostTour
    ensures { ◌≡◌ {A = HostTour × List ℕ} (result, list.new) (read_tour_host clips.now file.now list.old) }
{
    let a = tourfile::read_tour(clips, file, list);
    toured(a)
}

/// Writes a list's records to a tour's file, at the output's front.
pub fn threshreed_write_tour(clips: &[u64; 32], records: &[u64], out: &mut [u8]) -> HostTour
    ensures { ◌≡◌ {A = HostTour × List ℕ} (result, out.new) (write_tour_host clips.now records.now out.old) }
{
    let a = tourfile::write_tour(clips, records, out);
    toured(a)
}

/// Salvages a damaged tour's file: the fresh one at the output's front, the ranges at the list's.
pub fn threshreed_salvage(file: &[u8], out: &mut [u8], list: &mut [u64]) -> HostSalvage
    ensures { ◌≡◌ {A = HostSalvage × List ℕ × List ℕ} (result, out.new, list.new) (salvage_host file.now out.old list.old) }
{
    let a = remains::salvage(file, out, list);
    salvaged(a)
}

/// Starts capture, empty.
pub fn threshreed_start_capture(h: HostSession, queue: &[u64], capture: &[u64]) -> HostAnswered
    ensures { result ≡ start_capture_host h queue.now capture.now }
{
    let Ok(s) = Session::try_from(h) else {
        return refused(1, h);
    };
    let r = control::start_capture(s, queue, capture);
    answered(h, r)
}

/// Stops capture and copies its records to the list's front.
pub fn threshreed_stop_capture(
    h: HostSession,
    queue: &[u64],
    capture: &[u64],
    list: &mut [u64],
) -> HostStopped
    ensures { ◌≡◌ {A = HostStopped × List ℕ} (result, list.new) (stop_capture_host h queue.now capture.now list.old) }
{
    let Ok(s) = Session::try_from(h) else {
        return stop_refused(1, h);
    };
    let r = control::stop_capture(s, queue, capture, list);
    stopped(h, r)
}

/// Takes a control snapshot.
pub fn threshreed_snapshot(h: HostSession, queue: &[u64], capture: &[u64]) -> HostSnapped
    ensures { result ≡ snapshot_host h queue.now capture.now }
{
    let Ok(s) = Session::try_from(h) else {
        return snapshot_refused(1, h);
    };
    let r = control::snapshot(s, queue, capture);
    snapped(h, r)
}

/// Applies a control snapshot.
pub fn threshreed_apply_snapshot(
    h: HostSession,
    queue: &[u64],
    capture: &[u64],
    snapshot: HostSnapshot,
) -> HostAnswered
    ensures { result ≡ apply_host h queue.now capture.now snapshot }
{
    let Ok(s) = Session::try_from(h) else {
        return refused(1, h);
    };
    match admit(s, queue, capture, snapshot.try_into()) {
        Err(number) => refused(number, h),
        Ok(x) => {
            let r = control::apply_snapshot(s, queue, capture, x);
            answered(h, r)
        }
    }
}

/// Reads the metrics.
pub fn threshreed_metrics(h: HostSession, queue: &[u64], capture: &[u64]) -> HostMetrics
    ensures { result ≡ metrics_host h queue.now capture.now }
{
    let Ok(s) = Session::try_from(h) else {
        return metrics_refused(1, h);
    };
    let r = control::metrics(s, queue, capture);
    metered(h, r)
}
