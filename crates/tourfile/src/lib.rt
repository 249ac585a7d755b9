//! A tour in a file: the reader and the writer of captured commands.
#![tactic(auto)]

ghost use Rattle.std.specs.Prelude.{◌≡◌, true, ◌∷◌, ◌++◌, [], ◌+◌, ◌*◌, ◌/◌, ◌≤◌, ◌<◌, ◌^◌, length, drop};
ghost use Rattle.std.proofs.lemmas.List.Edits.{sets};
ghost use Rattle.timeline.specs.Record.{readable};
ghost use Rattle.fields.specs.Bytes.{two_bytes, eight_bytes};
ghost use Rattle.fields.specs.Field.{fields_of, carried};
ghost use Rattle.tourfile.specs.Answer.{fault_number, error_at};
ghost use Rattle.tourfile.specs.Reader.{start, wrong_first, unknown_tag, wrong_length, other_version, unknown_kind, not_listed, not_rising, too_many, wrong_count, bytes_after, judged_of, behind, turn_of, weighed, read_of, row_in, rows_in, put_rows, read_into};
ghost use Rattle.tourfile.specs.Writer.{head_bytes, command_bytes, version_bytes, last_bytes, tail_bytes, file_of, records_of, rows_from, write_of, write_into, unlisted, late, record_judged_of, records_weighed};
ghost use Rattle.tourfile.specs.Steps.{front_turn, size_of, CanWrite};

use std::ops::ControlFlow;
use timeline::Row;

/// Why a tour is not read, or not written.
#[derive(Clone, Copy)]
pub enum Fault {
    ListedTwice,
    CutShort,
    WrongFirstTag,
    UnknownTag,
    WrongLength,
    OtherVersion,
    UnknownKind,
    ClipNotListed,
    NotRising,
    TooMany,
    WrongCount,
    BytesAfter,
    ListTooShort,
    Unreadable,
    OutputTooShort,
}

impl Fault {
    /// Its number, from 101 on.
    pub fn number(self) -> u32
        ensures { result ≡ fault_number self }
    {
        match self {
            Fault::ListedTwice => 101,
            Fault::CutShort => 102,
            Fault::WrongFirstTag => 103,
            Fault::UnknownTag => 104,
            Fault::WrongLength => 105,
            Fault::OtherVersion => 106,
            Fault::UnknownKind => 107,
            Fault::ClipNotListed => 108,
            Fault::NotRising => 109,
            Fault::TooMany => 110,
            Fault::WrongCount => 111,
            Fault::BytesAfter => 112,
            Fault::ListTooShort => 113,
            Fault::Unreadable => 114,
            Fault::OutputTooShort => 115,
        }
    }

    /// With its place.
    fn at(self, place: usize) -> TourError
        ensures { result ≡ error_at self place }
    {
        TourError { fault: self, place }
    }
}

/// A fault with its place, which is a faulty field's first byte, or the place in the list of a record at fault, else 0.
#[derive(Clone, Copy)]
pub struct TourError {
    pub fault: Fault,
    pub place: usize,
}

/// How far the reader has come: the next field's first byte, the commands before it, and the last one's number.
#[derive(Clone, Copy, Default)]
pub struct Progress {
    pub at: usize,
    pub count: usize,
    pub last: u64,
}

/// What a field gives: the way on, or the answer.
type Turn = ControlFlow<Result<usize, TourError>, Progress>;

// ---- what may be wrong with a field

/// The first field has tag 1.
fn wrong_first(p: Progress, f: &[u8]) -> bool
    ensures { result ≡ wrong_first p f.now }
{
    let tag = fields::byte(f, 0);
    (p.at == 0) & !(tag == 1)
}

/// Later ones have tag 2 or 3, or one that is skipped.
fn unknown_tag(p: Progress, f: &[u8]) -> bool
    ensures { result ≡ unknown_tag p f.now }
{
    let tag = fields::byte(f, 0);
    !(p.at == 0) & !((tag == 2) | (tag == 3) | (128 <= tag))
}

/// A command has at least 17 bytes, and what its kind carries if the kind is known; first and last have two.
pub fn wrong_length(f: &[u8]) -> bool
    ensures { result ≡ wrong_length f.now }
{
    let tag = fields::byte(f, 0);
    let body = fields::two(f, 1);
    let kind = fields::byte(f, 19) as u64;
    let due = 17 + (fields::carried(kind) as u16);
    if tag == 2 {
        return (body < 17) | (fields::is_kind(kind) & !(body == due));
    }
    ((tag == 1) | (tag == 3)) & !(body == 2)
}

/// The version is 1.
pub fn other_version(f: &[u8]) -> bool
    ensures { result ≡ other_version f.now }
{
    let tag = fields::byte(f, 0);
    let version = fields::two(f, 3);
    (tag == 1) & !(version == 1)
}

/// A command's kind is none of the ten.
pub fn unknown_kind(f: &[u8]) -> bool
    ensures { result ≡ unknown_kind f.now }
{
    let tag = fields::byte(f, 0);
    let kind = fields::byte(f, 19) as u64;
    let known = fields::is_kind(kind);
    (tag == 2) & !known
}

/// A command's clip is not in the list.
fn not_listed(clips: &[u64; 32], f: &[u8]) -> bool
    ensures { result ≡ not_listed clips.now f.now }
{
    let tag = fields::byte(f, 0);
    let kind = fields::byte(f, 19) as u64;
    let has = fields::has_clip(kind);
    let listed = fields::is_listed(clips, fields::byte(f, 20));
    (tag == 2) & (has & !listed)
}

/// A command's number is not above the last one's; the first is free.
pub fn not_rising(p: Progress, f: &[u8]) -> bool
    ensures { result ≡ not_rising p f.now }
{
    let tag = fields::byte(f, 0);
    let number = fields::eight(f, 11);
    (tag == 2) & ((0 < p.count) & (number <= p.last))
}

/// There are 4,096 commands already.
fn too_many(p: Progress, f: &[u8]) -> bool
    ensures { result ≡ too_many p f.now }
{
    let tag = fields::byte(f, 0);
    (tag == 2) & (4096 <= p.count)
}

/// The last field does not tell how many commands there were.
fn wrong_count(p: Progress, f: &[u8]) -> bool
    ensures { result ≡ wrong_count p f.now }
{
    let tag = fields::byte(f, 0);
    let told = fields::two(f, 3) as usize;
    (tag == 3) & !(told == p.count)
}

/// Something stands behind the last field.
fn bytes_after(more: bool, f: &[u8]) -> bool
    ensures { result ≡ bytes_after more f.now }
{
    let tag = fields::byte(f, 0);
    (tag == 3) & more
}

/// What is wrong with a field.
fn judge(clips: &[u64; 32], p: Progress, more: bool, f: &[u8]) -> Result<(), Fault>
    ensures { result ≡ judged_of clips.now p more f.now }
{
    if !fields::is_whole(f) {
        return Err(Fault::CutShort);
    }
    if wrong_first(p, f) {
        return Err(Fault::WrongFirstTag);
    }
    if unknown_tag(p, f) {
        return Err(Fault::UnknownTag);
    }
    if wrong_length(f) {
        return Err(Fault::WrongLength);
    }
    if other_version(f) {
        return Err(Fault::OtherVersion);
    }
    if unknown_kind(f) {
        return Err(Fault::UnknownKind);
    }
    if not_listed(clips, f) {
        return Err(Fault::ClipNotListed);
    }
    if not_rising(p, f) {
        return Err(Fault::NotRising);
    }
    if too_many(p, f) {
        return Err(Fault::TooMany);
    }
    if wrong_count(p, f) {
        return Err(Fault::WrongCount);
    }
    if bytes_after(more, f) {
        return Err(Fault::BytesAfter);
    }
    Ok(())
}

/// Behind a field.
pub fn behind(p: Progress, f: &[u8]) -> Progress
    requires { (p.count ≤ p.at) × (p.at + length f.now < 2 ^ 64) × (0 < length f.now) }
    ensures { result ≡ behind p f.now }
{
    let tag = fields::byte(f, 0);
    let at = p.at + f.len();
    if tag == 2 {
        return Progress {
            at,
            count: p.count + 1,
            last: fields::eight(f, 11),
        };
    }
    Progress { at, ..p }
}

/// A faulty field and the last one give the answer, any other the way on.
fn take_turn(clips: &[u64; 32], p: Progress, more: bool, f: &[u8]) -> Turn
    requires { (p.count ≤ p.at) × (p.at + length f.now < 2 ^ 64) × (0 < length f.now) }
    ensures { result ≡ turn_of clips.now p more f.now }
{
    if let Err(x) = judge(clips, p, more, f) {
        return ControlFlow::Break(Err(x.at(p.at)));
    }
    if fields::byte(f, 0) == 3 {
        return ControlFlow::Break(Ok(p.count));
    }
    ControlFlow::Continue(behind(p, f))
}

/// The turn of the field that the reader has come to.
fn front_turn(clips: &[u64; 32], p: Progress, file: &[u8]) -> Turn
    requires { (p.count ≤ p.at) × (p.at < length file.now) }
    ensures { result ≡ front_turn clips.now p (drop p.at file.now) }
{
    let at = p.at;
    let rest = &file[at..];
    let n = fields::piece_size(rest);
    let more = n < rest.len();
    let f = &rest[..n];
    take_turn(clips, p, more, f)
}

/// From left to right: the first faulty field, or how many commands there are.
fn weigh(clips: &[u64; 32], file: &[u8]) -> Result<usize, TourError>
    ensures { result ≡ weighed clips.now start (fields_of file.now) }
{
    let mut p = Progress::default();
    while p.at < file.len() {
        match front_turn(clips, p, file) {
            ControlFlow::Break(a) => return a,
            ControlFlow::Continue(q) => p = q,
        }
    }
    Err(Fault::CutShort.at(p.at))
}

// ---- the records

/// The record of a command's field.
fn row_in(clips: &[u64; 32], f: &[u8]) -> Row
    ensures { result ≡ row_in clips.now f.now }
{
    let kind = fields::byte(f, 19) as u64;
    let first = fields::first_part(kind);
    let second = fields::second_part(kind);
    let behind = 20 + (first.size() as usize);
    Row {
        at: fields::eight(f, 3),
        number: fields::eight(f, 11),
        kind,
        first: fields::part_in(clips, first, f, 20),
        second: fields::part_in(clips, second, f, behind),
    }
}

/// Writes the records of a file's commands to a list's front.
pub fn fill(clips: &[u64; 32], file: &[u8], list: &mut [u64])
    requires { length (rows_in clips.now (fields_of file.now)) * 5 ≤ length list.old }
    ensures { list.new ≡ put_rows list.old 0 (rows_in clips.now (fields_of file.now)) }
{
    let mut at: usize = 0;
    let mut k: usize = 0;
    while at < file.len() {
        let rest = &file[at..];
        let n = fields::piece_size(rest);
        let f = &rest[..n];
        if fields::byte(f, 0) == 2 {
            timeline::put_row(list, k, row_in(clips, f));
            k += 1;
        }
        at += n;
    }
}

/// What the reader answers for a list of so many words: how many commands there are, or why it reads none.
pub fn weigh_read(clips: &[u64; 32], file: &[u8], room: usize) -> Result<usize, TourError>
    ensures { result ≡ read_of clips.now file.now room }
{
    if fields::listed_twice(clips) {
        return Err(Fault::ListedTwice.at(0));
    }
    let n = weigh(clips, file)?;
    let records = room / 5;
    if records < n {
        return Err(Fault::ListTooShort.at(0));
    }
    Ok(n)
}

/// Reads a tour: the records of its commands at the list's front, or why there are none.
pub fn read_tour(clips: &[u64; 32], file: &[u8], list: &mut [u64]) -> Result<usize, TourError>
    ensures value { result ≡ read_of clips.now file.now (length list.old) }
    ensures list_after { list.new ≡ read_into clips.now file.now list.old }
{
    let n = weigh_read(clips, file, list.len())?;
    fill(clips, file, list);
    Ok(n)
}

// ---- the writer

/// A record holds a clip that is not listed.
fn is_unlisted(clips: &[u64; 32], x: Row) -> bool
    ensures { result ≡ unlisted clips.now x }
{
    let has = fields::has_clip(x.kind);
    let b = fields::clip_byte(clips, x.first);
    has & (b == 32)
}

/// A record's number is not above the one before it; the first is free.
fn is_late(i: usize, before: u64, x: Row) -> bool
    ensures { result ≡ late i before x }
{
    (0 < i) & (x.number <= before)
}

/// What is wrong with record i.
fn judge_record(clips: &[u64; 32], i: usize, before: u64, x: Row) -> Result<(), Fault>
    ensures { result ≡ record_judged_of clips.now i before x }
{
    if !timeline::readable(x) {
        return Err(Fault::Unreadable);
    }
    if is_unlisted(clips, x) {
        return Err(Fault::ClipNotListed);
    }
    if is_late(i, before, x) {
        return Err(Fault::NotRising);
    }
    Ok(())
}

/// The first record at fault, or how many there are.
fn weigh_records(clips: &[u64; 32], records: &[u64]) -> Result<usize, TourError>
    ensures { result ≡ records_weighed clips.now 0 0 (records_of records.now) }
{
    let n = records.len() / 5;
    let mut before: u64 = 0;
    for i in 0..n {
        let x = timeline::row_at(records, i);
        if let Err(f) = judge_record(clips, i, before, x) {
            return Err(f.at(i));
        }
        before = x.number;
    }
    Ok(n)
}

/// Writes the tag and the length of a command.
fn put_start(out: &mut [u8], at: usize, body: u16)
    requires { at + 3 ≤ length out.old }
    ensures { out.new ≡ sets out.old at (2 ∷ two_bytes body) }
{
    fields::put_byte(out, at, 2);
    fields::put_two(out, at + 1, body);
}

/// Writes a command's number and kind.
fn put_number(out: &mut [u8], at: usize, number: u64, kind: u8)
    requires { at + 9 ≤ length out.old }
    ensures { out.new ≡ sets out.old at (eight_bytes number ++ (kind ∷ [])) }
{
    fields::put_eight(out, at, number);
    fields::put_byte(out, at + 8, kind);
}

/// Writes a command's field up to its kind.
fn put_head(out: &mut [u8], at: usize, x: Row)
    requires { (at + 20 ≤ length out.old) × (readable x ≡ true) }
    ensures { out.new ≡ sets out.old at (head_bytes x) }
{
    let body = 17 + (fields::carried(x.kind) as u16);
    let kind = x.kind as u8;
    put_start(out, at, body);
    fields::put_eight(out, at + 3, x.at);
    put_number(out, at + 11, x.number, kind);
}

/// Writes one command.
fn put_command(out: &mut [u8], at: usize, clips: &[u64; 32], x: Row)
    requires { (at + (20 + carried x.kind) ≤ length out.old) × (readable x ≡ true) }
    ensures { out.new ≡ sets out.old at (command_bytes clips.now x) }
{
    let first = fields::first_part(x.kind);
    let second = fields::second_part(x.kind);
    let size = first.size() as usize;
    put_head(out, at, x);
    fields::put_part(out, at + 20, clips, first, x.first);
    fields::put_part(out, at + 20 + size, clips, second, x.second);
}

/// How many bytes the file of n records takes.
fn tour_size(records: &[u64], n: usize) -> usize
    requires { (n ≤ 4096) × (n * 5 ≤ length records.now) }
    ensures { result ≡ 10 + size_of (rows_from records.now 0 n) }
{
    let mut size: usize = 10;
    for i in 0..n {
        let x = timeline::row_at(records, i);
        let more = fields::carried(x.kind) as usize;
        size += 20 + more;
    }
    size
}

/// Writes the first field.
pub fn put_version(out: &mut [u8])
    requires { 5 ≤ length out.old }
    ensures { out.new ≡ sets out.old 0 version_bytes }
{
    out[..5].copy_from_slice(&[1, 2, 0, 1, 0]);
}

/// Writes the last field.
pub fn put_last(out: &mut [u8], at: usize, n: u16)
    requires { at + 5 ≤ length out.old }
    ensures { out.new ≡ sets out.old at (last_bytes n) }
{
    fields::put_byte(out, at, 3);
    fields::put_two(out, at + 1, 2);
    fields::put_two(out, at + 3, n);
}

/// Writes the commands and the count behind the first field.
fn put_tail(out: &mut [u8], clips: &[u64; 32], records: &[u64])
    requires { CanWrite clips.now records.now out.old }
    ensures { out.new ≡ sets out.old 5 (tail_bytes clips.now (length records.now / 5) (records_of records.now)) }
{
    let n = records.len() / 5;
    let mut at: usize = 5;
    for i in 0..n {
        let x = timeline::row_at(records, i);
        let more = fields::carried(x.kind) as usize;
        put_command(out, at, clips, x);
        at += 20 + more;
    }
    put_last(out, at, n as u16);
}

/// Writes the file of a list of records in which none is at fault.
fn put_tour(out: &mut [u8], clips: &[u64; 32], records: &[u64])
    requires { CanWrite clips.now records.now out.old }
    ensures { out.new ≡ sets out.old 0 (file_of clips.now (records_of records.now)) }
{
    put_version(out);
    put_tail(out, clips, records);
}

/// Writes a tour: its file at the output's front, or why there is none.
pub fn write_tour(clips: &[u64; 32], records: &[u64], out: &mut [u8]) -> Result<usize, TourError>
    ensures value { result ≡ write_of clips.now (records_of records.now) (length out.old) }
    ensures out_after { out.new ≡ write_into clips.now (records_of records.now) out.old }
{
    if fields::listed_twice(clips) {
        return Err(Fault::ListedTwice.at(0));
    }
    let n = weigh_records(clips, records)?;
    if 4096 < n {
        return Err(Fault::TooMany.at(0));
    }
    let size = tour_size(records, n);
    if out.len() < size {
        return Err(Fault::OutputTooShort.at(0));
    }
    put_tour(out, clips, records);
    Ok(size)
}
