//! The session, why a call is refused, and the answers that calls share.
#![tactic(auto)]

ghost use Rattle.std.specs.Prelude.{◌≡◌, ◌&&◌, cond, ◌+◌, ◌-◌, ◌*◌, ◌<◌, ◌≤◌, ◌^◌, min, eqb, leb, length};
ghost use Rattle.counts.specs.Below.{within, all_below};
ghost use Rattle.counts.specs.declared.Claim.TheVariants.{Song};
ghost use Rattle.ramp.specs.Number.{zero32, two32, between};
ghost use Rattle.ramp.specs.Tail.{tail_frames};
ghost use Rattle.timeline.specs.Command.{claim_of};
ghost use Rattle.timeline.specs.Record.{handle_of, read_of};
ghost use Rattle.timeline.specs.Store.{row_at};
ghost use Rattle.timeline.specs.Queue.{ordered_at, rising_at, entry_ok, stingers};
ghost use Rattle.transport.specs.Transport.{transport_fits};
ghost use Rattle.bank.specs.Slots.{clip_of, extent_of, claim_ok};
ghost use Rattle.oneshot.specs.Mix.{voice_at};
ghost use Rattle.stage.specs.Sound.{master_frames};
ghost use Rattle.session.specs.Refusal.{number_of};
ghost use Rattle.session.specs.Session.{extent_now, captured_now, turned_away};
ghost use Rattle.session.specs.WellFormed.{settings_ok, stores_ok, voice_ok, well_formed, weigh_only};
ghost use Rattle.session.specs.Reading.{clock_of, position_of, transport_state_of, loop_range_of, laps_of, master_gain_of, song_of, queue_depth_of, is_live_of};

use bank::{Bank, Clip};
use counts::{ClockFrame, Handle, SongFrame};
use oneshot::{Voice, Voices};
use ramp::Ramp;
use stage::{Counters, HOUSE, Playhead, Settings, Stage};
use timeline::Row;
use transport::{LoopRange, TransportState};

/// The most that a queue or a capture can hold.
pub const COMMAND_QUEUE_CAP: usize = 4096;

/// The largest pool, in frames.
pub const POOL_CAP: u64 = 33554432;

/// The clock goes no further.
pub const CLOCK_END: u64 = 4611686018427387904;

/// What only calls other than a block change: the last submission number given, the deepest depth, the dropped count,
/// and whether capture is on, with how many records.
#[derive(Clone, Copy)]
pub struct Desk {
    pub number: u64,
    pub deepest: usize,
    pub dropped: u64,
    pub capturing: bool,
    pub captured: usize,
}

/// A session. Its queue, capture and pool are lent with each call.
#[derive(Clone, Copy)]
pub struct Session {
    pub settings: Settings,
    pub bank: Bank,
    pub stage: Stage,
    pub queued: usize,
    pub desk: Desk,
}

impl Session {
    /// The clock: frames rendered.
    pub fn clock(self) -> ClockFrame
        ensures { result ≡ clock_of self }
    {
        self.stage.clock
    }

    /// The song position.
    pub fn position(self) -> SongFrame
        ensures { result ≡ position_of self }
    {
        self.stage.playhead.transport.position
    }

    /// Stopped, Playing or Paused.
    pub fn state(self) -> TransportState
        ensures { result ≡ transport_state_of self }
    {
        self.stage.playhead.transport.state
    }

    /// The loop, if one is set.
    pub fn loop_range(self) -> Option<LoopRange>
        ensures { result ≡ loop_range_of self }
    {
        self.stage.playhead.transport.looped
    }

    /// The laps since the loop was set.
    pub fn laps(self) -> u64
        ensures { result ≡ laps_of self }
    {
        self.stage.playhead.transport.laps
    }

    /// The master gain: the value that it is heading for.
    pub fn master_gain(self) -> f32
        ensures { result ≡ master_gain_of self }
    {
        self.stage.sound.master.target
    }

    /// The song that plays.
    pub fn song(self) -> Handle
        ensures { result ≡ song_of self }
    {
        self.stage.playhead.song
    }

    /// How many commands are queued.
    pub fn queue_depth(self) -> usize
        ensures { result ≡ queue_depth_of self }
    {
        self.queued
    }

    /// Whether a handle stands for a loaded clip.
    pub fn is_live(self, h: Handle) -> bool
        ensures { result ≡ is_live_of self h }
    {
        bank::is_live(self.bank, h)
    }
}

/// Why a call is refused, in the order of the numbers 1 to 23.
#[derive(Clone, Copy)]
pub enum Refusal {
    NotWellFormed,
    PoolLength,
    OddSamples,
    ClockSpent,
    NoSamples,
    BadSample,
    OutOfRange,
    SlotsUsed,
    SerialsSpent,
    NoRoom,
    Stale,
    WrongKind,
    WrongRate,
    BadGain,
    QueueFull,
    CaptureFull,
    VoicesTaken,
    NumbersSpent,
    Held,
    ListTooShort,
    Unreadable,
    SenselessLoop,
    BadRing,
}

impl Refusal {
    /// Its number in the table.
    pub fn number(self) -> u32
        ensures { result ≡ number_of self }
    {
        match self {
            Refusal::NotWellFormed => 1,
            Refusal::PoolLength => 2,
            Refusal::OddSamples => 3,
            Refusal::ClockSpent => 4,
            Refusal::NoSamples => 5,
            Refusal::BadSample => 6,
            Refusal::OutOfRange => 7,
            Refusal::SlotsUsed => 8,
            Refusal::SerialsSpent => 9,
            Refusal::NoRoom => 10,
            Refusal::Stale => 11,
            Refusal::WrongKind => 12,
            Refusal::WrongRate => 13,
            Refusal::BadGain => 14,
            Refusal::QueueFull => 15,
            Refusal::CaptureFull => 16,
            Refusal::VoicesTaken => 17,
            Refusal::NumbersSpent => 18,
            Refusal::Held => 19,
            Refusal::ListTooShort => 20,
            Refusal::Unreadable => 21,
            Refusal::SenselessLoop => 22,
            Refusal::BadRing => 23,
        }
    }
}

/// The answer of a call, what it gives or why it is refused, and the session that it leaves.
#[derive(Clone, Copy)]
pub struct Answered<T> {
    pub answer: Result<T, Refusal>,
    pub session: Session,
}

/// With capture off its count is no part of the session.
pub fn captured_now(d: Desk) -> usize
    ensures { result ≡ captured_now d }
{
    if d.capturing { d.captured } else { 0 }
}

/// The length of the song that plays; a handle of no slot has none.
pub fn extent_now(s: Session) -> SongFrame
    ensures { result.0 ≡ extent_now s }
{
    let h = s.song();
    if h.slot < 32 {
        return bank::extent_of(bank::clip_of(s.bank, h).kind);
    }
    SongFrame(0)
}

/// One more, held at 2^64 - 1.
pub fn one_more(n: u64) -> u64
    ensures { result ≡ min (n + 1) (2 ^ 64 - 1) }
{
    n.saturating_add(1)
}

/// A refused call leaves the session; 15 alone counts as dropped, and stops at 2^64 - 1.
#[tactic(auto, unfolding(crate::specs::Session::turned_away))]
pub fn turned_away(k: Refusal, s: Session) -> Session
    ensures { result ≡ turned_away k s }
{
    if k.number() == 15 {
        return Session {
            desk: Desk {
                dropped: one_more(s.desk.dropped),
                ..s.desk
            },
            ..s
        };
    }
    s
}

// ---- well formed

/// A rate, a queue capacity, a capture capacity and a pool in their ranges, and a known mode.
#[tactic(auto, unfolding(crate::specs::WellFormed::settings_ok))]
pub fn settings_ok(x: Settings) -> bool
    ensures { result ≡ settings_ok x }
{
    bank::rate_ok(x.rate)
        && (1 <= x.queue && x.queue <= COMMAND_QUEUE_CAP)
        && x.capture <= COMMAND_QUEUE_CAP
        && (1 <= x.pool && x.pool <= POOL_CAP)
        && x.mode <= HOUSE
}

/// The numbers are in range: the settings, the clock to 2^62, and no count passes its store.
fn numbers_ok(x: Settings, clock: ClockFrame, queued: usize, captured: usize, voices: usize) -> bool
    ensures { result ≡ settings_ok x && leb clock.0 (2 ^ 62) && leb queued x.queue && leb captured x.capture && leb voices 16 }
{
    settings_ok(x)
        && clock.0 <= CLOCK_END
        && queued <= x.queue
        && captured <= x.capture
        && voices <= 16
}

/// A store has five words for each of n records, and no other length.
fn is_store(store: &[u64], n: usize) -> bool
    ensures { result ≡ eqb (length store.now) (n * 5) }
{
    store.len() % 5 == 0 && store.len() / 5 == n
}

/// Store sizes are exactly the capacities'.
#[tactic(auto, unfolding(crate::specs::WellFormed::stores_ok))]
pub fn stores_ok(x: Settings, queue: &[u64], capture: &[u64]) -> bool
    ensures { result ≡ stores_ok x queue.now capture.now }
{
    is_store(queue, x.queue) && is_store(capture, x.capture)
}

/// The song is held; position <= length; a loop as Loop allows.
fn song_ok(used: u32, clip: Clip, rate: u32, p: Playhead) -> bool
    ensures { (b : Bank) → b.used ≡ used → (p.song.slot < 32 → clip_of b p.song ≡ clip) → result ≡ claim_ok b rate (Song p.song) && transport_fits (extent_of (clip_of b p.song).kind) p.transport }
{
    bank::song_held(used, clip, rate, p.song) && p.transport.fits(bank::extent_of(clip.kind))
}

/// The tail's clip is held, and its weight has 1 to 1,024 frames left, its target 0.
fn tail_ok(used: u32, clip: Clip, rate: u32, h: Handle, w: Ramp) -> bool
    ensures { (b : Bank) → b.used ≡ used → (h.slot < 32 → clip_of b h ≡ clip) → result ≡ claim_ok b rate (Song h) && (within 1 tail_frames w.remaining && between zero32 zero32 w.target) }
{
    bank::song_held(used, clip, rate, h)
        && ((1 <= w.remaining && w.remaining <= stage::SWAP_FADE_FRAMES)
            && ramp::is_between(0.0, 0.0, w.target))
}

/// A voice: its clip held, its head even and inside the clip, at most the declick remaining, its target from 0 to 16.
fn voice_ok(used: u32, clip: Clip, rate: u32, v: Voice) -> bool
    ensures { (s : Session) → s.bank.used ≡ used → s.settings.rate ≡ rate → (v.handle.slot < 32 → clip_of s.bank v.handle ≡ clip) → result ≡ voice_ok s v }
{
    if !bank::stinger_held(used, clip, rate, v.handle) {
        return false;
    }
    let head = v.head.0;
    let frame = (head / 2) as u64;
    let declick = oneshot::declick(rate);
    let gain = v.gain;
    let target = ramp::is_between(0.0, 16.0, gain.target);
    ((head % 2 == 0) & (frame < clip.frames)) & ((gain.remaining <= declick.frames) & target)
}

/// Every voice that sounds is one.
fn voices_ok(b: Bank, rate: u32, voices: Voices) -> bool
    requires { voices.count ≤ 16 }
    ensures { (s : Session) → s.bank ≡ b → s.settings.rate ≡ rate → result ≡ all_below voices.count (λ i. voice_ok s (voice_at voices i)) }
{
    for i in 0..voices.count {
        let v = voices.table[i];
        let place = bank::place_of(v.handle);
        let clip = b.clips[place];
        if !voice_ok(b.used, clip, rate, v) {
            return false;
        }
    }
    true
}

/// The clip that a record holds, if it holds one, is live, of right kind and rate.
#[tactic(auto, using(timeline::proofs::Words::claim_read), unfolding(bank::specs::Slots::claim_ok))]
fn row_held(used: u32, clip: Clip, rate: u32, x: Row) -> bool
    ensures { (b : Bank) → b.used ≡ used → ((handle_of x.first).slot < 32 → clip_of b (handle_of x.first) ≡ clip) → result ≡ claim_ok b rate (claim_of (read_of x)) }
{
    let h = timeline::handle_of(x.first);
    match x.kind {
        9 => bank::song_held(used, clip, rate, h),
        10 => bank::stinger_held(used, clip, rate, h),
        _ => true,
    }
}

/// A Stinger takes a voice, any other command none.
fn voices_of(kind: u64) -> usize
    ensures { result ≡ cond (eqb kind 10) 1 0 }
{
    if kind == 10 { 1 } else { 0 }
}

/// The n queued records: strictly ordered, each in order by itself, what they hold live, of right kind and rate, and at most so many Stingers.
#[tactic(auto, using(crate::proofs::Walk::one_at_most, crate::proofs::Walk::stingers_none, crate::proofs::Walk::stingers_few))]
fn queued_ok(b: Bank, rate: u32, last: u64, most: usize, store: &[u64], n: usize) -> bool
    requires { n * 5 ≤ length store.now }
    ensures { result ≡ all_below n (λ j. ordered_at store.now j && (entry_ok last (row_at store.now j) && claim_ok b rate (claim_of (read_of (row_at store.now j))))) && leb (stingers store.now n) most }
{
    let mut stingers: usize = 0;
    for j in 0..n {
        if !timeline::ordered_at(store, j) {
            return false;
        }
        let x = timeline::row_at(store, j);
        if !timeline::entry_ok(x, last) {
            return false;
        }
        if timeline::holds_clip(x.kind) {
            let place = bank::place_of(timeline::handle_of(x.first));
            let clip = b.clips[place];
            if !row_held(b.used, clip, rate, x) {
                return false;
            }
            stingers += voices_of(x.kind);
        }
    }
    stingers <= most
}

/// The n captured records: their numbers rise, each is in order by itself, and what they hold is live, of right kind and rate.
#[tactic(auto, using(crate::proofs::Walk::clipless))]
fn captured_ok(b: Bank, rate: u32, last: u64, store: &[u64], n: usize) -> bool
    requires { n * 5 ≤ length store.now }
    ensures { result ≡ all_below n (λ j. rising_at store.now j && (entry_ok last (row_at store.now j) && claim_ok b rate (claim_of (read_of (row_at store.now j))))) }
{
    for i in 0..n {
        if !timeline::rising_at(store, i) {
            return false;
        }
        let x = timeline::row_at(store, i);
        if !timeline::entry_ok(x, last) {
            return false;
        }
        if !timeline::holds_clip(x.kind) {
            continue;
        }
        let place = bank::place_of(timeline::handle_of(x.first));
        let clip = b.clips[place];
        if !row_held(b.used, clip, rate, x) {
            return false;
        }
    }
    true
}

/// Two counts are together at most a third, as whole numbers: their sum may pass 2^64.
fn together(a: u64, b: u64, most: u64) -> bool
    ensures { result ≡ leb (a + b) most }
{
    b <= most && a <= most - b
}

/// The master has at most 256 frames left, its target from 0 to 2.
fn master_ok(master: Ramp) -> bool
    ensures { result ≡ leb master.remaining master_frames && between zero32 two32 master.target }
{
    master.remaining <= stage::GAIN_RAMP_FRAMES && ramp::is_between(0.0, 2.0, master.target)
}

/// Executed + queued <= last number; swaps + stingers fired <= executed.
fn counts_ok(k: Counters, queued: usize, last: u64) -> bool
    ensures { result ≡ leb (k.executed + queued) last && leb (k.swaps + k.fired) k.executed }
{
    together(k.executed, queued as u64, last) && together(k.swaps, k.fired, k.executed)
}

/// Well formed: each clause in turn, of the parts of any session with any stores.
pub fn formed(
    settings: Settings,
    bank: Bank,
    stage: Stage,
    queued: usize,
    desk: Desk,
    queue: &[u64],
    capture: &[u64],
) -> bool
    ensures { result ≡ well_formed (record { settings = settings; bank = bank; stage = stage; queued = queued; desk = desk }) queue.now capture.now }
{
    let captured = captured_now(desk);
    let count = stage.sound.voices.count;
    if !numbers_ok(settings, stage.clock, queued, captured, count) {
        return false;
    }
    if !stores_ok(settings, queue, capture) {
        return false;
    }
    if !master_ok(stage.sound.master) {
        return false;
    }
    if !counts_ok(stage.counters, queued, desk.number) {
        return false;
    }
    if !bank::bank_ok(bank, settings.pool) {
        return false;
    }
    let playhead = stage.playhead;
    let place = bank::place_of(playhead.song);
    let song = bank.clips[place];
    if !song_ok(bank.used, song, settings.rate, playhead) {
        return false;
    }
    if queued > 0 {
        if !queued_ok(bank, settings.rate, desk.number, 16 - count, queue, queued) {
            return false;
        }
    }
    if captured > 0 {
        if !captured_ok(bank, settings.rate, desk.number, capture, captured) {
            return false;
        }
    }
    if count > 0 {
        if !voices_ok(bank, settings.rate, stage.sound.voices) {
            return false;
        }
    }
    match stage.sound.fade.tail {
        None => true,
        Some(t) => {
            let place = bank::place_of(t.song);
            let clip = bank.clips[place];
            tail_ok(bank.used, clip, settings.rate, t.song, t.weight)
        }
    }
}

/// Well formed, of any session with any stores.
pub fn well_formed(s: Session, queue: &[u64], capture: &[u64]) -> bool
    ensures { result ≡ well_formed s queue.now capture.now }
{
    formed(
        s.settings, s.bank, s.stage, s.queued, s.desk, queue, capture,
    )
}

/// 1 alone: start capture, replay, snapshot and metrics weigh nothing else.
#[tactic(auto, unfolding(crate::specs::WellFormed::weigh_only, crate::specs::Refusal::first))]
pub fn weigh_only(s: Session, queue: &[u64], capture: &[u64]) -> Result<(), Refusal>
    ensures { result ≡ weigh_only s queue.now capture.now }
{
    if !well_formed(s, queue, capture) {
        return Err(Refusal::NotWellFormed);
    }
    Ok(())
}
