//! The calls that change the bank: open, load and retire.
#![tactic(auto)]

ghost use Rattle.std.specs.Prelude.{Ok, ◌≡◌, true, List, ◌+◌, ◌-◌, ◌*◌, ◌<◌, ◌≤◌, ◌^◌, length, Float};
ghost use Rattle.counts.specs.Below.{any_below};
ghost use Rattle.counts.specs.Handles.{same_handle};
ghost use Rattle.oneshot.specs.Mix.{voice_at};
ghost use Rattle.bank.specs.Sample.{frames_of};
ghost use Rattle.bank.specs.Slots.{live, retired_from};
ghost use Rattle.session.specs.Answer.{answered};
ghost use Rattle.session.specs.Session.{with_bank, captured_now};
ghost use Rattle.session.specs.declared.Answered.{Answered};
ghost use Rattle.clips.specs.Open.{weigh_open, stage_at, session_of, no_session, open_done, open_of};
ghost use Rattle.clips.specs.Load.{start_for, weigh_load, load_done, load_of};
ghost use Rattle.clips.specs.Retire.{tail_holds, stage_holds, held_now, weigh_retire, retire_of};
ghost use Rattle.clips.specs.Own.{slot_word, clips_of};
ghost use Rattle.counts.specs.declared.Handle.{Handle};

use bank::{Bank, Clip, Kind};
use counts::{ClockFrame, Handle, SongFrame};
use oneshot::Voices;
use ramp::Ramp;
use session::{Answered, Desk, Refusal, Session};
use stage::{Counters, Fade, Playhead, Settings, Sound, Stage, Tail};
use transport::{Transport, TransportState};

// ---- open

/// Opening has no session yet: 7, 1, 2, 3, 5, 6, then 13 if the song's rate isn't the session's, then 10.
#[tactic(auto, unfolding(crate::specs::Open::weigh_open, session::specs::Refusal::first))]
pub fn weigh_open(
    settings: Settings,
    queue: &[u64],
    capture: &[u64],
    pool: &[f32],
    samples: &[f32],
    rate: u32,
    extent: SongFrame,
) -> Result<(), Refusal>
    ensures { result ≡ weigh_open settings queue.now capture.now pool.now samples.now rate extent }
{
    let frames = bank::frames_of(samples);
    if !(session::settings_ok(settings)
        && bank::rate_ok(rate)
        && bank::extent_ok(Kind::Song(extent), frames))
    {
        return Err(Refusal::OutOfRange);
    }
    if !session::stores_ok(settings, queue, capture) {
        return Err(Refusal::NotWellFormed);
    }
    if !bank::is_pool(pool, settings.pool) {
        return Err(Refusal::PoolLength);
    }
    if bank::is_odd(samples) {
        return Err(Refusal::OddSamples);
    }
    if samples.len() == 0 {
        return Err(Refusal::NoSamples);
    }
    if !bank::samples_ok(samples) {
        return Err(Refusal::BadSample);
    }
    if rate != settings.rate {
        return Err(Refusal::WrongRate);
    }
    if settings.pool < frames {
        return Err(Refusal::NoRoom);
    }
    Ok(())
}

/// Stopped at 0, gain 1.0, nothing else sounding, every count 0.
fn stage_at(h: Handle) -> Stage
    ensures { result ≡ stage_at h }
{
    let transport = Transport {
        state: TransportState::Stopped,
        position: SongFrame(0),
        cursor: SongFrame(0),
        looped: None,
        laps: 0,
    };
    Stage {
        clock: ClockFrame(0),
        playhead: Playhead { transport, song: h },
        sound: Sound {
            master: Ramp::new(1.0),
            fade: Fade { tail: None },
            voices: Voices::none(),
        },
        counters: Counters {
            executed: 0,
            swaps: 0,
            fired: 0,
        },
    }
}

/// A session that opens: nothing queued, no number given, capture off.
pub fn session_at(settings: Settings, bank: Bank, h: Handle) -> Session
    ensures { result ≡ session_of settings bank h }
{
    Session {
        settings,
        bank,
        stage: stage_at(h),
        queued: 0,
        desk: Desk {
            number: 0,
            deepest: 0,
            dropped: 0,
            capturing: false,
            captured: 0,
        },
    }
}

/// What a refused opening hands back beside its number: no session, which every call refuses.
pub fn no_session() -> Session
    ensures { result ≡ no_session }
{
    let settings = Settings {
        rate: 0,
        mode: 0,
        queue: 0,
        capture: 0,
        pool: 0,
    };
    session_at(settings, Bank::empty(), Handle { slot: 0, serial: 0 })
}

/// The first song goes to slot 0 and to the pool's start.
#[tactic(auto, using(bank::proofs::Slots::none_used), unfolding(bank::specs::Slots::empty_bank))]
fn open_song(
    settings: Settings,
    pool: &mut [f32],
    samples: &[f32],
    rate: u32,
    extent: SongFrame,
) -> Answered<Handle>
    requires { length samples.now ≤ length pool.old }
    ensures { ◌≡◌ {A = Answered Handle × List Float} (result, pool.new) (open_done settings pool.old samples.now rate extent) }
{
    let frames = bank::frames_of(samples);
    bank::paste(pool, 0, samples);
    let clip = Clip {
        serial: 1,
        kind: Kind::Song(extent),
        start: 0,
        frames,
        rate,
    };
    let h = Handle { slot: 0, serial: 1 };
    let bank = bank::place(Bank::empty(), 0, clip);
    Answered {
        answer: Ok(h),
        session: session_at(settings, bank, h),
    }
}

/// Opening loads the first song, stopped at 0, gain 1.0.
#[tactic(auto, using(crate::proofs::Opened::open_ready), unfolding(crate::specs::Open::open_of, session::specs::Refusal::unless))]
pub fn open(
    settings: Settings,
    queue: &[u64],
    capture: &[u64],
    pool: &mut [f32],
    samples: &[f32],
    rate: u32,
    extent: SongFrame,
) -> Answered<Handle>
    ensures { ◌≡◌ {A = Answered Handle × List Float} (result, pool.new) (open_of settings queue.now capture.now pool.old samples.now rate extent) }
{
    match weigh_open(settings, queue, capture, pool, samples, rate, extent) {
        Err(k) => Answered {
            answer: Err(k),
            session: no_session(),
        },
        Ok(()) => open_song(settings, pool, samples, rate, extent),
    }
}

// ---- load

/// 1, 2, 3, 5, 6, 7, 8, 9, 10.
#[tactic(auto, using(bank::proofs::Fit::start_none, crate::proofs::Loaded::whole_frames), unfolding(crate::specs::Load::weigh_load, session::specs::Refusal::first))]
pub fn weigh_load(
    s: Session,
    queue: &[u64],
    capture: &[u64],
    pool: &[f32],
    samples: &[f32],
    kind: Kind,
    rate: u32,
) -> Result<(), Refusal>
    ensures { result ≡ weigh_load s queue.now capture.now pool.now samples.now kind rate }
{
    if !session::well_formed(s, queue, capture) {
        return Err(Refusal::NotWellFormed);
    }
    if !bank::is_pool(pool, s.settings.pool) {
        return Err(Refusal::PoolLength);
    }
    if bank::is_odd(samples) {
        return Err(Refusal::OddSamples);
    }
    if samples.len() == 0 {
        return Err(Refusal::NoSamples);
    }
    if !bank::samples_ok(samples) {
        return Err(Refusal::BadSample);
    }
    let frames = bank::frames_of(samples);
    if !(bank::rate_ok(rate) && bank::extent_ok(kind, frames)) {
        return Err(Refusal::OutOfRange);
    }
    if s.bank.used == 0xffff_ffff {
        return Err(Refusal::SlotsUsed);
    }
    if s.bank.last == 0xffff_ffff {
        return Err(Refusal::SerialsSpent);
    }
    if bank::first_fit(s.bank, s.settings.pool, frames).is_none() {
        return Err(Refusal::NoRoom);
    }
    Ok(())
}

/// Loading takes the lowest free slot and the lowest start in the pool where the clip meets no loaded clip; it copies the clip
/// there and touches no other sample.
#[tactic(auto, using(bank::proofs::Slots::free_slot_law, bank::proofs::Slots::free_slot_free))]
fn load_clip(
    s: Session,
    pool: &mut [f32],
    samples: &[f32],
    kind: Kind,
    rate: u32,
) -> Answered<Handle>
    requires { (s.bank.used ≡ 2 ^ 32 - 1 → ⊥) × (s.bank.last ≡ 2 ^ 32 - 1 → ⊥) × (1 ≤ frames_of samples.now) × (start_for s samples.now * 2 + length samples.now ≤ length pool.old) }
    ensures { ◌≡◌ {A = Answered Handle × List Float} (result, pool.new) (load_done s pool.old samples.now kind rate) }
{
    let frames = bank::frames_of(samples);
    let start = bank::first_fit(s.bank, s.settings.pool, frames).unwrap();
    bank::paste(pool, (start * 2) as usize, samples);
    let slot = bank::free_slot(s.bank.used);
    let serial = s.bank.last + 1;
    let clip = Clip {
        serial,
        kind,
        start,
        frames,
        rate,
    };
    let bank = bank::place(s.bank, slot, clip);
    Answered {
        answer: Ok(Handle { slot, serial }),
        session: Session { bank, ..s },
    }
}

/// Loads a clip, or says why not.
#[tactic(auto, using(crate::proofs::Loaded::load_ready), unfolding(crate::specs::Load::load_of, session::specs::Refusal::unless))]
pub fn load(
    s: Session,
    queue: &[u64],
    capture: &[u64],
    pool: &mut [f32],
    samples: &[f32],
    kind: Kind,
    rate: u32,
) -> Answered<Handle>
    ensures { ◌≡◌ {A = Answered Handle × List Float} (result, pool.new) (load_of s queue.now capture.now pool.old samples.now kind rate) }
{
    match weigh_load(s, queue, capture, pool, samples, kind, rate) {
        Err(k) => Answered {
            answer: Err(k),
            session: s,
        },
        Ok(()) => load_clip(s, pool, samples, kind, rate),
    }
}

// ---- retire

/// The tail is that clip.
fn tail_holds(h: Handle, tail: Option<Tail>) -> bool
    ensures { result ≡ tail_holds h tail }
{
    tail.is_some_and(|t| h == t.song)
}

/// A voice is.
#[tactic(auto, using(counts::proofs::Below::any_false))]
fn voices_hold(h: Handle, voices: Voices) -> bool
    requires { voices.count ≤ 16 }
    ensures { result ≡ any_below voices.count (λ i. same_handle h (voice_at voices i).handle) }
{
    for i in 0..voices.count {
        if h == voices.table[i].handle {
            return true;
        }
    }
    false
}

/// Song, tail or voice holds it.
#[tactic(auto, unfolding(crate::specs::Retire::stage_holds))]
fn stage_holds(h: Handle, stage: Stage) -> bool
    requires { stage.sound.voices.count ≤ 16 }
    ensures { result ≡ stage_holds h stage }
{
    h == stage.playhead.song
        || tail_holds(h, stage.sound.fade.tail)
        || voices_hold(h, stage.sound.voices)
}

/// A clip is held by song, tail, voice, queue or running capture.
#[tactic(auto, unfolding(crate::specs::Retire::held_now))]
fn held_now(s: Session, queue: &[u64], capture: &[u64], h: Handle) -> bool
    requires { (s.stage.sound.voices.count ≤ 16) × (s.queued * 5 ≤ length queue.now) × (captured_now s.desk * 5 ≤ length capture.now) }
    ensures { result ≡ held_now s queue.now capture.now h }
{
    let captured = session::captured_now(s.desk);
    stage_holds(h, s.stage)
        || timeline::holds(queue, s.queued, h)
        || timeline::holds(capture, captured, h)
}

/// 1, 11, 19.
#[tactic(auto, using(session::proofs::Parts::parts), unfolding(crate::specs::Retire::weigh_retire, session::specs::Refusal::first))]
pub fn weigh_retire(s: Session, queue: &[u64], capture: &[u64], h: Handle) -> Result<(), Refusal>
    ensures { result ≡ weigh_retire s queue.now capture.now h }
{
    if !session::well_formed(s, queue, capture) {
        return Err(Refusal::NotWellFormed);
    }
    if !s.is_live(h) {
        return Err(Refusal::Stale);
    }
    if held_now(s, queue, capture, h) {
        return Err(Refusal::Held);
    }
    Ok(())
}

/// Retiring frees slot and room and writes no sample. Retired room is used again.
fn retire_clip(s: Session, h: Handle) -> Answered<()>
    requires { live s.bank h ≡ true }
    ensures { result ≡ answered (Ok tt) (with_bank s (retired_from s.bank h)) }
{
    Answered {
        answer: Ok(()),
        session: Session {
            bank: bank::retire(s.bank, h),
            ..s
        },
    }
}

/// Retires a clip, or says why not.
#[tactic(auto, unfolding(crate::specs::Retire::retire_of, crate::specs::Retire::weigh_retire, session::specs::Refusal::first, session::specs::Refusal::unless))]
pub fn retire(s: Session, queue: &[u64], capture: &[u64], h: Handle) -> Answered<()>
    ensures { result ≡ retire_of s queue.now capture.now h }
{
    match weigh_retire(s, queue, capture, h) {
        Err(k) => Answered {
            answer: Err(k),
            session: s,
        },
        Ok(()) => retire_clip(s, h),
    }
}

// ---- a session's own list

/// The word of a slot: the handle of its clip, none where it is free.
#[tactic(auto, unfolding(crate::specs::Own::slot_word))]
fn slot_word(b: Bank, i: usize) -> u64
    requires { i < 32 }
    ensures { result ≡ slot_word b i }
{
    if bank::is_used(b.used, i) {
        return timeline::handle_word(Handle {
            slot: i as u32,
            serial: bank::clip_in(b, i).serial,
        });
    }
    0
}

/// A session's own list: each loaded clip at its slot.
pub fn own_list(b: Bank) -> [u64; 32]
    ensures { result ≡ clips_of b }
{
    let mut words = [0; 32];
    for i in 0..32 {
        words[i] = slot_word(b, i);
    }
    words
}
