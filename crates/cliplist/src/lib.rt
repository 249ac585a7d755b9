//! A list of the clips that a session has: the session that is made of it, with no sample loaded.
#![tactic(auto)]

ghost use Rattle.std.specs.Prelude.{Some, None, MatchOption, ◌≡◌, true, false, not, ◌&&◌, [], ◌+◌, ◌*◌, ◌<◌, ◌≤◌, ltb, length, replicate};
ghost use Rattle.bank.specs.Slots.{used_at};
ghost use Rattle.session.specs.WellFormed.{well_formed};
ghost use Rattle.cliplist.specs.Start.{listed_in, no_clips};
ghost use Rattle.cliplist.specs.Words.{line_at, kind_of, line_reads, entry_of, lines_in, is_list, all_lines_fit, session_in, Lined, clip_fits, clip_more, start_of};

use bank::{Bank, Clip, Kind};
use counts::{Handle, SongFrame};
use session::Session;
use stage::Settings;

/// A line of the clip list, in words: slot, serial, kind, rate, frames and a song's length.
#[derive(Clone, Copy)]
pub struct Line {
    pub slot: u64,
    pub serial: u64,
    pub kind: u64,
    pub rate: u64,
    pub frames: u64,
    pub extent: u64,
}

/// A listed clip: what a slot holds.
#[derive(Clone, Copy)]
pub struct Entry {
    pub handle: Handle,
    pub kind: Kind,
    pub rate: u32,
    pub frames: u64,
}

/// The clips listed so far, side by side in a pool, with the frames of all.
#[derive(Clone, Copy)]
pub struct Listing {
    pub bank: Bank,
    pub total: u64,
}

/// The words of a line.
pub const WORDS: usize = 6;

/// A slot, a serial and a rate are below 2^32.
const BITS: u64 = 4294967296;

/// The commands that a session made of a list can queue.
pub const COMMANDS: usize = 256;

// ---- lines

/// Line i of a list.
#[tactic(auto, unfolding(crate::specs::Words::line_at))]
fn line_at(words: &[u64], i: usize) -> Line
    requires { i * 6 + 6 ≤ length words.now }
    ensures { result ≡ line_at words.now i }
{
    let p = i * WORDS;
    Line {
        slot: words[p],
        serial: words[p + 1],
        kind: words[p + 2],
        rate: words[p + 3],
        frames: words[p + 4],
        extent: words[p + 5],
    }
}

/// It can be read: its kind is known, and its slot, serial and rate are numbers of 32 bits.
#[tactic(auto, unfolding(crate::specs::Words::line_reads))]
fn line_reads(x: Line) -> bool
    ensures { result ≡ line_reads x }
{
    (x.kind == 1 || x.kind == 2) && x.slot < BITS && x.serial < BITS && x.rate < BITS
}

/// 1 is a song of its length, 2 a stinger, whose length is not looked at.
fn kind_of(kind: u64, extent: u64) -> Kind
    ensures { result ≡ kind_of kind extent }
{
    if kind == 1 {
        return Kind::Song(SongFrame(extent));
    }
    Kind::Stinger
}

/// The clip that a line lists.
#[tactic(auto, unfolding(crate::specs::Words::line_reads, crate::specs::Words::entry_of))]
fn entry_of(x: Line) -> Entry
    requires { line_reads x ≡ true }
    ensures { result ≡ entry_of x }
{
    Entry {
        handle: Handle {
            slot: x.slot as u32,
            serial: x.serial as u32,
        },
        kind: kind_of(x.kind, x.extent),
        rate: x.rate as u32,
        frames: x.frames,
    }
}

// ---- clips

/// No clip; every serial counts as given.
#[tactic(auto, unfolding(bank::specs::Slots::empty_bank, crate::specs::Start::no_clips))]
fn no_clips() -> Bank
    ensures { result ≡ no_clips }
{
    Bank {
        last: 0xffff_ffff,
        ..Bank::empty()
    }
}

/// Is a slot there, and free?
fn slot_free(used: u32, slot: u32) -> bool
    ensures { result ≡ ltb slot 32 && not (used_at used slot) }
{
    slot < 32 && !bank::is_used(used, slot as usize)
}

/// Has one clip more a slot of its own, and frames that a pool can hold?
#[tactic(auto, unfolding(crate::specs::Words::clip_fits))]
fn clip_fits(x: Listing, e: Entry) -> bool
    ensures { result ≡ clip_fits x e }
{
    slot_free(x.bank.used, e.handle.slot) && bank::ends_by(x.total, e.frames, session::POOL_CAP)
}

/// A clip in its slot, laid at a start.
#[tactic(auto, unfolding(bank::specs::Slots::loaded_in, crate::specs::Start::listed_in))]
fn listed_in(b: Bank, e: Entry, start: u64) -> Bank
    requires { (e.handle.slot < 32) × (used_at b.used e.handle.slot ≡ false) }
    ensures { result ≡ listed_in b e start }
{
    let clip = Clip {
        serial: e.handle.serial,
        kind: e.kind,
        start,
        frames: e.frames,
        rate: e.rate,
    };
    Bank {
        last: b.last,
        ..bank::place(b, e.handle.slot, clip)
    }
}

/// One clip more, behind the others, if it fits; else the listing stays.
#[tactic(auto, unfolding(crate::specs::Words::clip_fits, crate::specs::Words::clip_more))]
fn list_clip(x: &mut Listing, e: Entry) -> Option<()>
    ensures { MatchOption result ((clip_more x.old e ≡ None) × (x.new ≡ x.old)) (λ _. clip_more x.old e ≡ Some x.new) }
{
    if !clip_fits(*x, e) {
        return None;
    }
    *x = Listing {
        bank: listed_in(x.bank, e, x.total),
        total: x.total + e.frames,
    };
    Some(())
}

/// One line more, if it fits; else the listing stays.
#[tactic(auto, using(crate::proofs::Lines::lined_not, crate::proofs::Lines::lined_more))]
fn list_line(x: &mut Listing, words: &[u64], i: usize) -> Option<()>
    requires { (i * 6 + 6 ≤ length words.now) × Lined words.now i (Some x.old) }
    ensures { MatchOption result (Lined words.now (i + 1) None × (x.new ≡ x.old)) (λ _. Lined words.now (i + 1) (Some x.new)) }
{
    let line = line_at(words, i);
    if line_reads(line) {
        return list_clip(x, entry_of(line));
    }
    None
}

/// Reads a list, if all its lines fit.
#[tactic(auto, using(crate::proofs::Lines::lined_stop), unfolding(counts::specs::Below::all_below, crate::specs::Start::spaced, crate::specs::Start::total_of, crate::specs::Start::bank_of, crate::specs::Words::entries_of, crate::specs::Words::all_lines_fit))]
fn read_lines(words: &[u64], lines: usize) -> Option<Listing>
    requires { lines * 6 ≤ length words.now }
    ensures { Lined words.now lines result }
{
    let mut x = Listing {
        bank: no_clips(),
        total: 0,
    };
    for i in 0..lines {
        list_line(&mut x, words, i)?;
    }
    Some(x)
}

// ---- the session

/// The words are whole lines, at least one.
#[tactic(auto, unfolding(crate::specs::Words::is_list))]
fn is_list(words: &[u64]) -> bool
    ensures { result ≡ is_list words.now }
{
    words.len() % WORDS == 0 && WORDS <= words.len()
}

/// Is a session well formed that queues and captures nothing?
fn is_formed(s: Session) -> bool
    ensures { result ≡ well_formed s (replicate 1280 0) [] }
{
    let queue = [0u64; 1280];
    let capture = [0u64; 0];
    session::well_formed(s, &queue, &capture)
}

/// The session of a list whose lines fit: its first clip is the song and gives the rate.
#[tactic(auto, using(crate::proofs::Lines::list_long, crate::proofs::Lines::fit_first))]
fn session_of(mode: u32, words: &[u64], listing: Listing) -> Session
    requires { (is_list words.now ≡ true) × Lined words.now (lines_in words.now) (Some listing) }
    ensures { result ≡ session_in mode words.now }
{
    let first = entry_of(line_at(words, 0));
    let settings = Settings {
        rate: first.rate,
        mode,
        queue: COMMANDS,
        capture: 0,
        pool: listing.total,
    };
    clips::session_at(settings, listing.bank, first.handle)
}

/// The session of a clip list, six words a line: the clips listed and no other, the first its opening song. A list that no well
/// formed session has is refused.
#[tactic(auto, unfolding(crate::specs::Words::clips_ok, crate::specs::Words::start_of))]
pub fn start(mode: u32, words: &[u64]) -> Option<Session>
    ensures { result ≡ start_of mode words.now }
{
    if !is_list(words) {
        return None;
    }
    let listing = read_lines(words, words.len() / WORDS)?;
    let session = session_of(mode, words, listing);
    if !is_formed(session) {
        return None;
    }
    Some(session)
}
