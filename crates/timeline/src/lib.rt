//! Commands and their queue: what is executed, at which frame, in which order.
#![tactic(auto)]

ghost use Rattle.std.specs.Prelude.{◌≡◌, Bool, true, ◌&&◌, ◌||◌, ◌+◌, ◌-◌, ◌*◌, ◌≤◌, ◌<◌, ◌^◌, eqb, length};
ghost use Rattle.std.specs.Float.{binary32};
ghost use Rattle.std.specs.Float.Ieee.{to_bits, of_bits, le};
ghost use Rattle.counts.specs.Below.{within, count_below};
ghost use Rattle.ramp.specs.Number.{finite, sixteen32};
ghost use Rattle.timeline.specs.Command.{command_of, claim_of, takes_voice, gain_ok, is_senseless};
ghost use Rattle.timeline.specs.Record.{handle_word, handle_of, row, row_of, readable, read_of, record_of, reading_of, holds_row, sooner};
ghost use Rattle.timeline.specs.Store.{row_at, put_row, inserted, kept, copied};
ghost use Rattle.timeline.specs.Queue.{ordered_at, rising_at, entry_ok, stingers, holds, drop_transitions, transitions, is_queued, drop_captured, would_go};

use counts::{Claim, ClockFrame, Handle, SongFrame};

/// What is executed between two frames.
#[derive(Clone, Copy)]
pub enum Command {
    Play,
    Pause,
    Stop,
    Seek(SongFrame),
    Transition(SongFrame),
    Loop(SongFrame, SongFrame),
    ClearLoop,
    Gain(f32),
    Swap(Handle),
    Stinger(Handle, f32),
}

impl Command {
    /// The clip that a command holds: a Swap a song, a Stinger a stinger.
    pub fn claim(self) -> Claim
        ensures { result ≡ claim_of self }
    {
        match self {
            Command::Swap(h) => Claim::Song(h),
            Command::Stinger(h, _) => Claim::Stinger(h),
            _ => Claim::Nothing,
        }
    }

    /// A gain is finite, a stinger's at most 16.
    pub fn gain_ok(self) -> bool
        ensures { result ≡ gain_ok self }
    {
        match self {
            Command::Gain(g) => ramp::is_finite(g),
            Command::Stinger(_, g) => stinger_gain_ok(g),
            _ => true,
        }
    }

    /// A loop whose start is not below its end is senseless.
    pub fn is_senseless(self) -> bool
        ensures { result ≡ is_senseless self }
    {
        match self {
            Command::Loop(start, end) => !(start.0 < end.0),
            _ => false,
        }
    }
}

/// A stinger's gain is finite and at most 16.
fn stinger_gain_ok(g: f32) -> bool
    ensures { result ≡ finite g && le g sixteen32 }
{
    ramp::is_finite(g) & (g <= 16.0)
}

/// A Stinger takes a voice.
pub fn takes_voice(c: Claim) -> bool
    ensures { result ≡ takes_voice c }
{
    matches!(c, Claim::Stinger(_))
}

/// What the ordinary submission takes: every command but a Transition.
#[derive(Clone, Copy)]
pub enum Submission {
    Play,
    Pause,
    Stop,
    Seek(SongFrame),
    Loop(SongFrame, SongFrame),
    ClearLoop,
    Gain(f32),
    Swap(Handle),
    Stinger(Handle, f32),
}

impl From<Submission> for Command {
    ghost from_gives = { λ s c. c ≡ command_of s };

    /// The command that is submitted.
    fn from(s: Submission) -> Command {
        match s {
            Submission::Play => Command::Play,
            Submission::Pause => Command::Pause,
            Submission::Stop => Command::Stop,
            Submission::Seek(f) => Command::Seek(f),
            Submission::Loop(s, e) => Command::Loop(s, e),
            Submission::ClearLoop => Command::ClearLoop,
            Submission::Gain(g) => Command::Gain(g),
            Submission::Swap(h) => Command::Swap(h),
            Submission::Stinger(h, g) => Command::Stinger(h, g),
        }
    }
}

/// A command at its clock frame, with its submission number.
#[derive(Clone, Copy)]
pub struct QueueRecord {
    pub at: ClockFrame,
    pub number: u64,
    pub command: Command,
}

// The kinds of a row, in the rules' order.
const PLAY: u64 = 1;

const PAUSE: u64 = 2;

const STOP: u64 = 3;

const SEEK: u64 = 4;

const TRANSITION: u64 = 5;

const LOOP: u64 = 6;

const CLEAR_LOOP: u64 = 7;

const GAIN: u64 = 8;

const SWAP: u64 = 9;

const STINGER: u64 = 10;

/// A record as it lies in a lent store: five words, the kind from 1 to 10.
#[derive(Clone, Copy)]
pub struct Row {
    pub at: u64,
    pub number: u64,
    pub kind: u64,
    pub first: u64,
    pub second: u64,
}

impl Row {
    /// Five words.
    fn new(at: u64, number: u64, kind: u64, first: u64, second: u64) -> Row
        ensures { result ≡ row at number kind first second }
    {
        Row {
            at,
            number,
            kind,
            first,
            second,
        }
    }
}

/// Why a row is not read: its kind is none of the ten, or its gain is one that is refused.
#[derive(Clone, Copy)]
pub enum Misread {
    Unreadable,
    GainRefused,
}

/// A handle in one word: the slot above the serial.
pub fn handle_word(h: Handle) -> u64
    ensures { result ≡ handle_word h }
{
    (h.slot as u64) * 0x1_0000_0000 + (h.serial as u64)
}

/// The handle of a word.
pub fn handle_of(w: u64) -> Handle
    ensures { result ≡ handle_of w }
{
    Handle {
        slot: (w / 0x1_0000_0000) as u32,
        serial: (w % 0x1_0000_0000) as u32,
    }
}

/// The bits of a finite gain.
fn gain_word(g: f32) -> u64
    requires { finite g ≡ true }
    ensures { result ≡ to_bits binary32 g }
{
    f32::to_bits(g) as u64
}

/// Whether a word has the bits of a finite gain: its exponent is not all ones.
fn finite_word(w: u64) -> bool
    ensures { result ≡ finite (of_bits binary32 w) }
{
    w % 0x8000_0000 < 0x7f80_0000
}

/// The gain of a word.
fn gain_of(w: u64) -> f32
    requires { (w < 2 ^ 32) × (finite (of_bits binary32 w) ≡ true) }
    ensures { result ≡ of_bits binary32 w }
{
    f32::from_bits(w as u32)
}

/// The five words of a record.
pub fn row_of(r: QueueRecord) -> Row
    requires { gain_ok r.command ≡ true }
    ensures { result ≡ row_of r }
{
    let at = r.at;
    let t = at.0;
    let n = r.number;
    let command = r.command;
    match command {
        Command::Play => Row::new(t, n, PLAY, 0, 0),
        Command::Pause => Row::new(t, n, PAUSE, 0, 0),
        Command::Stop => Row::new(t, n, STOP, 0, 0),
        Command::Seek(f) => Row::new(t, n, SEEK, f.0, 0),
        Command::Transition(f) => Row::new(t, n, TRANSITION, f.0, 0),
        Command::Loop(s, e) => Row::new(t, n, LOOP, s.0, e.0),
        Command::ClearLoop => Row::new(t, n, CLEAR_LOOP, 0, 0),
        Command::Gain(g) => Row::new(t, n, GAIN, gain_word(g), 0),
        Command::Swap(h) => Row::new(t, n, SWAP, handle_word(h), 0),
        Command::Stinger(h, g) => Row::new(t, n, STINGER, handle_word(h), gain_word(g)),
    }
}

/// A record is readable when its kind is one of the ten; the word of a gain has 32 bits.
pub fn readable(x: Row) -> bool
    ensures { result ≡ readable x }
{
    let kind = x.kind;
    match kind {
        GAIN => x.first < 0x1_0000_0000,
        STINGER => x.second < 0x1_0000_0000,
        _ => (PLAY <= kind) & (kind <= STINGER),
    }
}

/// The gain of a readable row, if it has one, is finite, a stinger's at most 16.
fn row_gain_ok(x: Row) -> bool
    requires { readable x ≡ true }
    ensures { result ≡ gain_ok (read_of x) }
{
    let kind = x.kind;
    match kind {
        GAIN => finite_word(x.first),
        STINGER => finite_word(x.second) && stinger_gain_ok(gain_of(x.second)),
        _ => true,
    }
}

/// The command of a readable row.
fn read_command(x: Row) -> Command
    requires { (readable x ≡ true) × (gain_ok (read_of x) ≡ true) }
    ensures { result ≡ read_of x }
{
    let kind = x.kind;
    match kind {
        PAUSE => Command::Pause,
        STOP => Command::Stop,
        SEEK => Command::Seek(SongFrame(x.first)),
        TRANSITION => Command::Transition(SongFrame(x.first)),
        LOOP => Command::Loop(SongFrame(x.first), SongFrame(x.second)),
        CLEAR_LOOP => Command::ClearLoop,
        GAIN => Command::Gain(gain_of(x.first)),
        SWAP => Command::Swap(handle_of(x.first)),
        STINGER => Command::Stinger(handle_of(x.first), gain_of(x.second)),
        _ => Command::Play,
    }
}

/// The record of a readable row.
pub fn record_of(x: Row) -> QueueRecord
    requires { (readable x ≡ true) × (gain_ok (read_of x) ≡ true) }
    ensures { result ≡ record_of x }
{
    QueueRecord {
        at: ClockFrame(x.at),
        number: x.number,
        command: read_command(x),
    }
}

/// Reading a row: the record, its gain bit for bit; a kind that is none of the ten and a gain that is refused are errors.
pub fn read(x: Row) -> Result<QueueRecord, Misread>
    ensures { result ≡ reading_of x }
{
    if !readable(x) {
        return Err(Misread::Unreadable);
    }
    if !row_gain_ok(x) {
        return Err(Misread::GainRefused);
    }
    Ok(record_of(x))
}

/// The five words of record i.
pub fn row_at(store: &[u64], i: usize) -> Row
    requires { i * 5 + 5 ≤ length store.now }
    ensures { result ≡ row_at store.now i }
{
    let p = i * 5;
    Row {
        at: store[p],
        number: store[p + 1],
        kind: store[p + 2],
        first: store[p + 3],
        second: store[p + 4],
    }
}

/// Writes record i over.
pub fn put_row(store: &mut [u64], i: usize, x: Row)
    requires { i * 5 + 5 ≤ length store.old }
    ensures { store.new ≡ put_row store.old i x }
{
    let p = i * 5;
    store[p] = x.at;
    store[p + 1] = x.number;
    store[p + 2] = x.kind;
    store[p + 3] = x.first;
    store[p + 4] = x.second;
}

/// Puts a record behind every one of the n that is due no later, each of which moves up by one place.
pub fn insert(store: &mut [u64], n: usize, x: Row)
    requires { n * 5 + 5 ≤ length store.old }
    ensures { store.new ≡ inserted store.old n x }
{
    let mut i = n;
    while 0 < i {
        let j = i - 1;
        let y = row_at(store, j);
        if y.at <= x.at {
            put_row(store, i, y);
            i = j;
        } else {
            put_row(store, i, x);
            return;
        }
    }
    put_row(store, 0, x);
}

/// The first to execute, which stands last. Taking it writes nothing: the live part is one shorter.
pub fn first(store: &[u64], n: usize) -> QueueRecord
    requires { (0 < n) × (n * 5 ≤ length store.now) × (readable (row_at store.now (n - 1)) ≡ true) × (gain_ok (read_of (row_at store.now (n - 1))) ≡ true) }
    ensures { result ≡ record_of (row_at store.now (n - 1)) }
{
    record_of(row_at(store, n - 1))
}

/// The frame of the first to execute.
pub fn first_at(store: &[u64], n: usize) -> ClockFrame
    requires { (0 < n) × (n * 5 ≤ length store.now) }
    ensures { result ≡ (record_of (row_at store.now (n - 1))).at }
{
    let p = (n - 1) * 5;
    ClockFrame(store[p])
}

/// Takes every one of n records that passes a test out, and keeps the order of the rest; gives how many are left.
fn drop_rows<F: Fn(Row) -> bool>(store: &mut [u64], n: usize, test: F) -> usize
    requires room { n * 5 ≤ length store.old }
    requires calls { F.IsAlwaysCallable test }
    ensures { (p : Row → Bool) → ((x : Row) (r : Bool) → F.post test x r → r ≡ p x) → (store.new ≡ (kept p store.old n).words) × (result ≡ (kept p store.old n).count) }
{
    let mut k = 0;
    for j in 0..n {
        let x = row_at(store, j);
        if !test(x) {
            put_row(store, k, x);
            k += 1;
        }
    }
    k
}

/// Takes every Transition out of the queue, and keeps the order of the rest; gives how many are left.
pub fn drop_transitions(store: &mut [u64], n: usize) -> usize
    requires { n * 5 ≤ length store.old }
    ensures { (store.new ≡ (drop_transitions store.old n).words) × (result ≡ (drop_transitions store.old n).count) }
{
    drop_rows(store, n, |x| x.kind == TRANSITION)
}

/// Whether a Transition of that number is queued.
fn is_queued(store: &[u64], n: usize, number: u64) -> bool
    requires { n * 5 ≤ length store.now }
    ensures { result ≡ is_queued store.now n number }
{
    (0..n).any(|j| {
        let x = row_at(store, j);
        (x.kind == TRANSITION) & (x.number == number)
    })
}

/// Takes the records of the queued Transitions out of a capture of m, found by their numbers; gives how many are left.
pub fn drop_captured(capture: &mut [u64], m: usize, store: &[u64], n: usize) -> usize
    requires { (m * 5 ≤ length capture.old) × (n * 5 ≤ length store.now) }
    ensures { (capture.new ≡ (drop_captured capture.old m store.now n).words) × (result ≡ (drop_captured capture.old m store.now n).count) }
{
    drop_rows(capture, m, |x| is_queued(store, n, x.number))
}

/// How many of n records are of a kind.
#[tactic(auto, using(crate::proofs::Steps::count_in, crate::proofs::Steps::count_out), unfolding(counts::specs::Below::count_below))]
fn count_kind(store: &[u64], n: usize, kind: u64) -> usize
    requires { n * 5 ≤ length store.now }
    ensures { result ≡ count_below n (λ j. eqb (row_at store.now j).kind kind) }
{
    let mut k = 0;
    for j in 0..n {
        if row_at(store, j).kind == kind {
            k += 1;
        }
    }
    k
}

/// How many stingers are queued.
pub fn count_stingers(store: &[u64], n: usize) -> usize
    requires { n * 5 ≤ length store.now }
    ensures { result ≡ stingers store.now n }
{
    count_kind(store, n, STINGER)
}

/// How many Transitions are queued.
pub fn count_transitions(store: &[u64], n: usize) -> usize
    requires { n * 5 ≤ length store.now }
    ensures { result ≡ transitions store.now n }
{
    count_kind(store, n, TRANSITION)
}

/// How many of the m captured records would go with the queued Transitions.
pub fn count_would_go(capture: &[u64], m: usize, store: &[u64], n: usize) -> usize
    requires { (m * 5 ≤ length capture.now) × (n * 5 ≤ length store.now) }
    ensures { result ≡ would_go capture.now m store.now n }
{
    (0..m)
        .filter(|&j| is_queued(store, n, row_at(capture, j).number))
        .count()
}

/// Copies the first n records of a capture to a list's front; the rest of the list stays.
pub fn copy_records(list: &mut [u64], capture: &[u64], n: usize)
    requires { (n * 5 ≤ length list.old) × (n * 5 ≤ length capture.now) }
    ensures { list.new ≡ copied capture.now n list.old }
{
    let e = n * 5;
    copies::copy(&mut list[..e], &capture[..e]);
}

/// A Swap or a Stinger that holds the handle.
fn holds_row(h: Handle, x: Row) -> bool
    ensures { result ≡ holds_row h x }
{
    let word = handle_word(h);
    (x.first == word) & ((x.kind == SWAP) | (x.kind == STINGER))
}

/// Whether one of n records holds the handle.
pub fn holds(store: &[u64], n: usize, h: Handle) -> bool
    requires { n * 5 ≤ length store.now }
    ensures { result ≡ holds h store.now n }
{
    (0..n).any(|j| holds_row(h, row_at(store, j)))
}

/// Strictly before, by (frame, submission number).
#[tactic(auto, unfolding(crate::specs::Record::sooner))]
fn sooner(x: Row, y: Row) -> bool
    ensures { result ≡ sooner x y }
{
    x.at < y.at || (x.at == y.at) & (x.number < y.number)
}

/// Record j executes strictly before the one below it.
pub fn ordered_at(store: &[u64], j: usize) -> bool
    requires { j * 5 + 5 ≤ length store.now }
    ensures { result ≡ ordered_at store.now j }
{
    if j == 0 {
        return true;
    }
    sooner(row_at(store, j), row_at(store, j - 1))
}

/// The number of record j is above that of the one before it.
pub fn rising_at(capture: &[u64], j: usize) -> bool
    requires { j * 5 + 5 ≤ length capture.now }
    ensures { result ≡ rising_at capture.now j }
{
    if j == 0 {
        return true;
    }
    let x = row_at(capture, j - 1);
    let y = row_at(capture, j);
    x.number < y.number
}

/// A submission number is from 1 to the last given.
fn number_ok(number: u64, last: u64) -> bool
    ensures { result ≡ within 1 last number }
{
    (1 <= number) & (number <= last)
}

/// A Swap and a Stinger hold a clip.
pub fn holds_clip(kind: u64) -> bool
    ensures { result ≡ eqb kind 9 || eqb kind 10 }
{
    (kind == SWAP) | (kind == STINGER)
}

/// A record is readable, and its gain, if it has one, as refusal 14 allows.
fn reads(x: Row) -> bool
    ensures { result ≡ readable x && gain_ok (read_of x) }
{
    let kind = x.kind;
    match kind {
        GAIN => (x.first < 0x1_0000_0000) & finite_word(x.first),
        STINGER => readable(x) && row_gain_ok(x),
        _ => (PLAY <= kind) & (kind <= STINGER),
    }
}

/// A queued or captured command is readable, its gain as refusal 14 allows, its number from 1 to the last given.
pub fn entry_ok(x: Row, last: u64) -> bool
    ensures { result ≡ entry_ok last x }
{
    if !number_ok(x.number, last) {
        return false;
    }
    reads(x)
}
