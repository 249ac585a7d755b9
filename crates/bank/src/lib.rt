//! The clip bank: 32 slots over a lent pool of samples.
#![tactic(auto)]

ghost use Rattle.std.specs.Prelude.{◌≡◌, true, false, not, ◌&&◌, ◌||◌, ◌+◌, ◌-◌, ◌<◌, ◌≤◌, ◌^◌, leb, length};
ghost use Rattle.std.specs.Bool.{then_some};
ghost use Rattle.counts.specs.Below.{all_below};
ghost use Rattle.counts.specs.declared.Claim.TheVariants.{Song, Stinger};
ghost use Rattle.bank.specs.Sample.{frames_of, is_odd, is_pool, sample_ok, samples_ok};
ghost use Rattle.bank.specs.Slots.{used_at, free_slot, loaded_count, empty_bank, clip_in, clip_of, live, found_of, extent_of, clip_stands, stands_for, stands_in, is_stale, stands_song, stands_stinger, wrong_kind, wrong_rate, claim_ok, loaded_in, retired_from};
ghost use Rattle.bank.specs.Room.{apart, clear_at, fits, end_in, start_at, lower_of, first_fit, pasted};
ghost use Rattle.bank.specs.WellFormed.{rate_ok, extent_ok, clip_ok, pair_ok, bank_ok};

use counts::{Claim, Handle, SongFrame};

pub const SLOTS: usize = 32;

/// A song's length goes to 2^40.
pub const LONGEST: u64 = 0x100_0000_0000;

/// A song has a length, which may go past its samples; a stinger has none.
#[derive(Clone, Copy)]
pub enum Kind {
    Song(SongFrame),
    Stinger,
}

/// A loaded clip: where it lies in the pool, in frames, and what it is.
#[derive(Clone, Copy)]
pub struct Clip {
    pub serial: u32,
    pub rate: u32,
    pub kind: Kind,
    pub start: u64,
    pub frames: u64,
}

/// The slots: the used ones are marked in one number, and `last` is the last serial given.
#[derive(Clone, Copy)]
pub struct Bank {
    pub used: u32,
    pub last: u32,
    pub clips: [Clip; 32],
}

/// What the handle that a command or a voice holds stands for: it holds none, its clip is gone, or a clip of a rate.
#[derive(Clone, Copy)]
pub enum Stands {
    Nothing,
    Stale,
    Song(u32),
    Stinger(u32),
}

impl Bank {
    /// No slot used and no serial given.
    pub fn empty() -> Bank
        ensures { result ≡ empty_bank }
    {
        let blank = Clip {
            serial: 0,
            kind: Kind::Stinger,
            start: 0,
            frames: 0,
            rate: 0,
        };
        Bank {
            used: 0,
            last: 0,
            clips: [blank; 32],
        }
    }
}

// ---- samples

/// A sample must be finite, its magnitude at most 16.
pub fn sample_ok(x: f32) -> bool
    ensures { result ≡ sample_ok x }
{
    ramp::is_between(-16.0, 16.0, x)
}

/// Every sample of a clip is one.
pub fn samples_ok(samples: &[f32]) -> bool
    ensures { result ≡ samples_ok samples.now }
{
    samples.iter().all(|&x| sample_ok(x))
}

/// Frames: half the samples, rounded down.
pub fn frames_of(samples: &[f32]) -> u64
    ensures { result ≡ frames_of samples.now }
{
    (samples.len() / 2) as u64
}

/// An odd sample count.
pub fn is_odd(samples: &[f32]) -> bool
    ensures { result ≡ is_odd samples.now }
{
    samples.len() % 2 == 1
}

/// The pool that is lent has two samples for each of its frames, and no other length.
pub fn is_pool(pool: &[f32], frames: u64) -> bool
    ensures { result ≡ is_pool pool.now frames }
{
    let odd = is_odd(pool);
    let half = frames_of(pool);
    !odd & (half == frames)
}

// ---- slots

/// The lowest free slot is the count of trailing ones, by trailing zeros of the complement; 32 if all are used.
pub fn free_slot(used: u32) -> u32
    ensures { result ≡ free_slot used }
{
    u32::trailing_zeros(!used)
}

/// The loaded count is the ones of the number.
pub fn loaded(used: u32) -> u32
    ensures { result ≡ loaded_count used }
{
    u32::count_ones(used)
}

/// The slot is marked as used.
pub fn is_used(used: u32, i: usize) -> bool
    requires { i < 32 }
    ensures { result ≡ used_at used i }
{
    (used >> i) % 2 == 1
}

/// A free slot is marked.
fn mark(used: u32, slot: u32) -> u32
    requires { (slot < 32) × (used_at used slot ≡ false) }
    ensures { result ≡ used + 2 ^ slot }
{
    used + (1u32 << slot)
}

/// A used slot is marked no more.
fn unmark(used: u32, slot: u32) -> u32
    requires { (slot < 32) × (used_at used slot ≡ true) }
    ensures { result ≡ used - 2 ^ slot }
{
    used - (1u32 << slot)
}

// ---- handles

/// The clip in slot i.
pub fn clip_in(b: Bank, i: usize) -> Clip
    requires { i < 32 }
    ensures { result ≡ clip_in b i }
{
    b.clips[i]
}

/// The clip in a handle's slot.
pub fn clip_of(b: Bank, h: Handle) -> Clip
    requires { h.slot < 32 }
    ensures { result ≡ clip_of b h }
{
    clip_in(b, h.slot as usize)
}

/// A handle is live while its slot is used and still has its serial; else it is stale.
pub fn is_live(b: Bank, h: Handle) -> bool
    ensures { result ≡ live b h }
{
    if h.slot < 32 {
        let used = is_used(b.used, h.slot as usize);
        let c = clip_of(b, h);
        return used & (c.serial == h.serial);
    }
    false
}

/// Looking a handle up gives its clip; a stale one has none.
pub fn find(b: Bank, h: Handle) -> Option<Clip>
    ensures { result ≡ found_of b h }
{
    if !is_live(b, h) {
        return None;
    }
    Some(clip_of(b, h))
}

/// A song's length; a stinger has none.
pub fn extent_of(kind: Kind) -> SongFrame
    ensures { result.0 ≡ extent_of kind }
{
    match kind {
        Kind::Song(n) => n,
        Kind::Stinger => SongFrame(0),
    }
}

/// A clip is a song or a stinger of its rate.
fn clip_stands(kind: Kind, rate: u32) -> Stands
    ensures { result ≡ clip_stands kind rate }
{
    match kind {
        Kind::Song(_) => Stands::Song(rate),
        Kind::Stinger => Stands::Stinger(rate),
    }
}

/// The place where a handle's clip is read; a handle of no slot has the first.
pub fn place_of(h: Handle) -> usize
    ensures { (result < 32) × (h.slot < 32 → result ≡ h.slot) }
{
    if h.slot < 32 { h.slot as usize } else { 0 }
}

/// What a handle stands for in any bank that has these slots used and this clip in the handle's.
fn stands_by(used: u32, clip: Clip, h: Handle) -> Stands
    ensures { (b : Bank) → b.used ≡ used → (h.slot < 32 → clip_of b h ≡ clip) → result ≡ stands_for b h }
{
    if h.slot >= 32 {
        return Stands::Stale;
    }
    let marked = is_used(used, h.slot as usize);
    if marked & (clip.serial == h.serial) {
        let kind = clip.kind;
        return clip_stands(kind, clip.rate);
    }
    Stands::Stale
}

/// A live handle stands for a song or a stinger of a rate.
pub fn stands_for(b: Bank, h: Handle) -> Stands
    ensures { result ≡ stands_for b h }
{
    let i = place_of(h);
    let c = clip_in(b, i);
    stands_by(b.used, c, h)
}

/// What a command or a voice holds: nothing, or a handle.
pub fn stands_in(b: Bank, c: Claim) -> Stands
    ensures { result ≡ stands_in b c }
{
    match c {
        Claim::Nothing => Stands::Nothing,
        Claim::Song(h) | Claim::Stinger(h) => stands_for(b, h),
    }
}

/// The handle is stale.
pub fn is_stale(x: Stands) -> bool
    ensures { result ≡ is_stale x }
{
    matches!(x, Stands::Stale)
}

/// It stands for a song.
fn stands_song(x: Stands) -> bool
    ensures { result ≡ stands_song x }
{
    matches!(x, Stands::Song(_))
}

/// It stands for a stinger.
fn stands_stinger(x: Stands) -> bool
    ensures { result ≡ stands_stinger x }
{
    matches!(x, Stands::Stinger(_))
}

/// A song where a stinger is due, or the reverse.
pub fn wrong_kind(c: Claim, x: Stands) -> bool
    ensures { result ≡ wrong_kind c x }
{
    match c {
        Claim::Nothing => false,
        Claim::Song(_) => stands_stinger(x),
        Claim::Stinger(_) => stands_song(x),
    }
}

/// The clip's rate is not the session's.
pub fn wrong_rate(rate: u32, x: Stands) -> bool
    ensures { result ≡ wrong_rate rate x }
{
    match x {
        Stands::Nothing | Stands::Stale => false,
        Stands::Song(r) | Stands::Stinger(r) => r != rate,
    }
}

/// What is held is not stale, and of the right kind and rate.
fn serves(rate: u32, other_kind: bool, x: Stands) -> bool
    ensures { result ≡ not (is_stale x || other_kind || wrong_rate rate x) }
{
    !(is_stale(x) | other_kind | wrong_rate(rate, x))
}

/// A handle that is held as a song is live, of right kind and rate, in any bank that has these slots used and this clip in the handle's.
pub fn song_held(used: u32, clip: Clip, rate: u32, h: Handle) -> bool
    ensures { (b : Bank) → b.used ≡ used → (h.slot < 32 → clip_of b h ≡ clip) → result ≡ claim_ok b rate (Song h) }
{
    let x = stands_by(used, clip, h);
    serves(rate, stands_stinger(x), x)
}

/// The same of a handle that is held as a stinger.
pub fn stinger_held(used: u32, clip: Clip, rate: u32, h: Handle) -> bool
    ensures { (b : Bank) → b.used ≡ used → (h.slot < 32 → clip_of b h ≡ clip) → result ≡ claim_ok b rate (Stinger h) }
{
    let x = stands_by(used, clip, h);
    serves(rate, stands_song(x), x)
}

// ---- room

/// The frames from start on end at `end` or before it.
pub fn ends_by(start: u64, frames: u64, end: u64) -> bool
    ensures { result ≡ leb (start + frames) end }
{
    if frames <= end {
        start <= end - frames
    } else {
        false
    }
}

/// The clip has none of the frames from start on.
pub fn apart(c: Clip, start: u64, frames: u64) -> bool
    ensures { result ≡ apart c start frames }
{
    let ended = ends_by(c.start, c.frames, start);
    let later = ends_by(start, frames, c.start);
    ended | later
}

/// The slot is free, or its clip has none of the n frames from start on.
pub fn clear_at(b: Bank, i: usize, start: u64, n: u64) -> bool
    requires { i < 32 }
    ensures { result ≡ clear_at b start n i }
{
    if is_used(b.used, i) {
        let c = clip_in(b, i);
        return apart(c, start, n);
    }
    true
}

/// The n frames from start on meet no loaded clip.
fn all_clear(b: Bank, start: u64, n: u64) -> bool
    ensures { result ≡ all_below 32 (clear_at b start n) }
{
    (0..SLOTS).all(|i| clear_at(b, i, start, n))
}

/// A clip of n frames at this start lies in the pool and meets no loaded clip.
pub fn fits(b: Bank, room: u64, n: u64, start: u64) -> bool
    ensures { result ≡ fits b room n start }
{
    let inside = ends_by(start, n, room);
    let clear = all_clear(b, start, n);
    inside & clear
}

/// The lower of two starts, where there are two.
fn lower(a: Option<u64>, b: Option<u64>) -> Option<u64>
    ensures { result ≡ lower_of a b }
{
    match (a, b) {
        (Some(x), Some(y)) => Some(x.min(y)),
        _ => a.or(b),
    }
}

/// The end of the clip in slot i, if that is used and n frames fit there.
fn candidate(b: Bank, room: u64, n: u64, i: usize) -> Option<u64>
    requires { i < 32 }
    ensures { result ≡ then_some (used_at b.used i && fits b room n (end_in b i)) (end_in b i) }
{
    if !is_used(b.used, i) {
        return None;
    }
    let c = clip_in(b, i);
    if !ends_by(c.start, c.frames, room) {
        return None;
    }
    let end = c.start + c.frames;
    fits(b, room, n, end).then_some(end)
}

/// The lowest start in the pool where a clip of n frames meets no loaded clip: the pool's front or a loaded clip's end.
pub fn first_fit(b: Bank, room: u64, n: u64) -> Option<u64>
    requires { 1 ≤ n }
    ensures { result ≡ start_at (first_fit b room n) }
{
    let mut best = fits(b, room, n, 0).then_some(0);
    for i in 0..SLOTS {
        best = lower(best, candidate(b, room, n, i));
    }
    best
}

/// The clip's samples are copied into the pool from the place `at` on, and no other sample is touched.
pub fn paste(pool: &mut [f32], at: usize, samples: &[f32])
    requires { at + length samples.now ≤ length pool.old }
    ensures { pool.new ≡ pasted pool.old at samples.now }
{
    let e = at + samples.len();
    copies::copy(&mut pool[at..e], samples);
}

// ---- well formed

/// A rate is from 8,000 to 192,000.
pub fn rate_ok(rate: u32) -> bool
    ensures { result ≡ rate_ok rate }
{
    (8000 <= rate) & (rate <= 192000)
}

/// A song's length is from its frame count to 2^40.
pub fn extent_ok(kind: Kind, frames: u64) -> bool
    ensures { result ≡ extent_ok kind frames }
{
    match kind {
        Kind::Song(n) => (frames <= n.0) & (n.0 <= LONGEST),
        Kind::Stinger => true,
    }
}

/// A clip has at least one frame, a rate and a length in their ranges, lies in the pool, and its serial has been given.
pub fn clip_ok(c: Clip, room: u64, last: u32) -> bool
    ensures { result ≡ clip_ok room last c }
{
    let rate = rate_ok(c.rate);
    let kind = c.kind;
    let extent = extent_ok(kind, c.frames);
    let inside = ends_by(c.start, c.frames, room);
    (1 <= c.frames) & rate & extent & inside & ((1 <= c.serial) & (c.serial <= last))
}

/// Two clips are apart and have distinct serials.
pub fn pair_ok(c: Clip, d: Clip) -> bool
    ensures { result ≡ pair_ok c d }
{
    let clear = apart(c, d.start, d.frames);
    clear & (c.serial != d.serial)
}

/// Used clips lie in the pool, apart, with distinct serials already given.
pub fn bank_ok(b: Bank, room: u64) -> bool
    ensures { result ≡ bank_ok b room }
{
    for i in 0..SLOTS {
        if !is_used(b.used, i) {
            continue;
        }
        let c = b.clips[i];
        if !clip_ok(c, room, b.last) {
            return false;
        }
        for j in 0..i {
            if is_used(b.used, j) && !pair_ok(c, b.clips[j]) {
                return false;
            }
        }
    }
    true
}

// ---- what loading and retiring leave

/// A clip is put into a free slot, and its serial is the last given.
pub fn place(b: Bank, slot: u32, c: Clip) -> Bank
    requires { (slot < 32) × (used_at b.used slot ≡ false) }
    ensures { result ≡ loaded_in b slot c }
{
    let mut d = b;
    let i = slot as usize;
    let used = mark(b.used, slot);
    d.used = used;
    d.last = c.serial;
    d.clips[i] = c;
    d
}

/// Retiring frees slot and room and writes no sample.
pub fn retire(b: Bank, h: Handle) -> Bank
    requires { live b h ≡ true }
    ensures { result ≡ retired_from b h }
{
    let mut d = b;
    let used = unmark(b.used, h.slot);
    d.used = used;
    d
}
