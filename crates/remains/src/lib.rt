//! What remains of a damaged tour: every byte of its file is kept, passed over or dropped, and what is kept makes a fresh file.
#![tactic(auto)]

ghost use Rattle.std.specs.Prelude.{◌≡◌, ◌+◌, ◌*◌, ◌<◌, ◌≤◌, ◌&&◌, ◌||◌, not, [], ◌∷◌, length, take, drop, leb, eqb};
ghost use Rattle.std.proofs.lemmas.List.Edits.{sets};
ghost use Rattle.fields.specs.Field.{tag_of};
ghost use Rattle.tourfile.specs.Reader.{not_rising};
ghost use Rattle.remains.specs.Salvage.{fate_word, no_clip, is_valid, what, ranges_of, kept_fields, laid, fresh, range_words, salvage_of, salvage_out, salvage_list};
ghost use Rattle.remains.specs.Steps.{run_end, next, tally_of};

use tourfile::{Fault, Progress};

/// What is done with a part of the damaged file.
#[derive(Clone, Copy)]
pub enum Fate {
    Kept,
    Passed,
    Dropped,
}

impl Fate {
    /// Its word in the list.
    pub fn word(self) -> u64
        ensures { result ≡ fate_word self }
    {
        match self {
            Fate::Kept => 1,
            Fate::Passed => 2,
            Fate::Dropped => 3,
        }
    }
}

/// A part of the damaged file: what is done with it, its first byte, and the one behind its last.
#[derive(Clone, Copy)]
pub struct Range {
    pub what: Fate,
    pub from: u64,
    pub to: u64,
}

/// Commands kept, bytes of the fresh file, ranges listed.
#[derive(Clone, Copy)]
pub struct Salvaged {
    pub kept: usize,
    pub bytes: usize,
    pub ranges: usize,
}

/// What a walk through the file counts: commands kept, their bytes, ranges.
#[derive(Clone, Copy)]
pub struct Tally {
    pub kept: usize,
    pub bytes: usize,
    pub ranges: usize,
}

// ---- what stands at a place

/// A command's clip byte is none of the 32.
fn no_clip(f: &[u8]) -> bool
    ensures { result ≡ no_clip f.now }
{
    let tag = fields::byte(f, 0);
    let has = fields::has_clip(fields::byte(f, 19) as u64);
    let clip = fields::byte(f, 20);
    (tag == 2) & (has & (32 <= clip))
}

/// A field is valid for its tag: whole, and of a right length, version, kind and clip where the tag asks for one.
fn is_valid(f: &[u8]) -> bool
    ensures { result ≡ is_valid f.now }
{
    let whole = fields::is_whole(f);
    let wrong = tourfile::wrong_length(f);
    let other = tourfile::other_version(f);
    let unknown = tourfile::unknown_kind(f);
    let none = no_clip(f);
    whole & (!wrong & (!other & (!unknown & !none)))
}

/// A command whose number is above the last kept one's.
fn rises(p: Progress, f: &[u8]) -> bool
    ensures { result ≡ (eqb (tag_of f.now) 2 && not (not_rising p f.now)) }
{
    let tag = fields::byte(f, 0);
    let low = tourfile::not_rising(p, f);
    (tag == 2) & !low
}

/// A first or last field, or one that readers skip.
fn is_other(f: &[u8]) -> bool
    ensures { result ≡ (eqb (tag_of f.now) 1 || eqb (tag_of f.now) 3 || leb 128 (tag_of f.now)) }
{
    let tag = fields::byte(f, 0);
    (tag == 1) | (tag == 3) | (128 <= tag)
}

/// What is done at a place.
fn what_at(file: &[u8], p: Progress) -> Fate
    requires { p.at ≤ length file.now }
    ensures { result ≡ what file.now p }
{
    let at = p.at;
    let rest = &file[at..];
    let n = fields::piece_size(rest);
    let f = &rest[..n];
    if !is_valid(f) {
        return Fate::Dropped;
    }
    if rises(p, f) {
        return Fate::Kept;
    }
    if is_other(f) {
        return Fate::Passed;
    }
    Fate::Dropped
}

// ---- the walk, one range at a time

/// Where the bytes that are dropped side by side end.
#[tactic(auto, using(crate::proofs::Runs::run_stop, crate::proofs::Runs::run_on))]
fn run_end(file: &[u8], p: Progress) -> usize
    requires { p.at ≤ length file.now }
    ensures { result ≡ run_end (length file.now) file.now p }
{
    for at in p.at..file.len() {
        let q = Progress { at, ..p };
        if !matches!(what_at(file, q), Fate::Dropped) {
            return at;
        }
    }
    file.len()
}

/// Behind the range that begins at a place: a whole field, or a run of dropped bytes.
fn next_place(file: &[u8], p: Progress, w: Fate) -> Progress
    requires { (p.count ≤ p.at) × (p.at < length file.now) × (w ≡ what file.now p) }
    ensures { result ≡ next file.now p }
{
    if let Fate::Dropped = w {
        return Progress {
            at: run_end(file, p),
            ..p
        };
    }
    let at = p.at;
    let rest = &file[at..];
    let n = fields::piece_size(rest);
    let f = &rest[..n];
    tourfile::behind(p, f)
}

/// Commands to keep, their bytes, and ranges.
fn measure(file: &[u8]) -> Tally
    ensures { result ≡ tally_of file.now }
{
    let mut p = Progress::default();
    let mut bytes: usize = 0;
    let mut ranges: usize = 0;
    while p.at < file.len() {
        let w = what_at(file, p);
        let q = next_place(file, p, w);
        let from = p.at;
        let to = q.at;
        if let Fate::Kept = w {
            bytes += to - from;
        }
        ranges += 1;
        p = q;
    }
    Tally {
        kept: p.count,
        bytes,
        ranges,
    }
}

// ---- the fresh file and the list

/// Copies n bytes of the file to a place in the output.
fn copy_part(file: &[u8], from: usize, n: usize, out: &mut [u8], at: usize)
    requires { (from + n ≤ length file.now) × (at + n ≤ length out.old) }
    ensures { out.new ≡ sets out.old at (take n (drop from file.now)) }
{
    copies::copy(&mut out[at..at + n], &file[from..from + n]);
}

/// Writes the kept fields behind the fresh file's first one, and gives the place behind them.
fn put_kept(file: &[u8], out: &mut [u8]) -> usize
    requires { 10 + length (laid (kept_fields file.now (ranges_of file.now))) ≤ length out.old }
    ensures { (out.new ≡ sets out.old 5 (laid (kept_fields file.now (ranges_of file.now)))) × (result ≡ 5 + length (laid (kept_fields file.now (ranges_of file.now)))) }
{
    let mut p = Progress::default();
    let mut o: usize = 5;
    while p.at < file.len() {
        let w = what_at(file, p);
        let q = next_place(file, p, w);
        let from = p.at;
        let n = q.at - from;
        if let Fate::Kept = w {
            copy_part(file, from, n, out, o);
            o += n;
        }
        p = q;
    }
    o
}

/// Writes one range.
fn put_range(list: &mut [u64], at: usize, what: Fate, from: u64, to: u64)
    requires { at + 3 ≤ length list.old }
    ensures { list.new ≡ sets list.old at (fate_word what ∷ from ∷ to ∷ []) }
{
    list[at] = what.word();
    list[at + 1] = from;
    list[at + 2] = to;
}

/// Writes the ranges to the list's front.
fn put_ranges(file: &[u8], list: &mut [u64])
    requires { length (ranges_of file.now) * 3 ≤ length list.old }
    ensures { list.new ≡ sets list.old 0 (range_words (ranges_of file.now)) }
{
    let mut p = Progress::default();
    let mut k: usize = 0;
    while p.at < file.len() {
        let w = what_at(file, p);
        let q = next_place(file, p, w);
        let from = p.at as u64;
        let to = q.at as u64;
        put_range(list, k, w, from, to);
        k += 3;
        p = q;
    }
}

/// Writes the fresh file.
fn put_fresh(file: &[u8], out: &mut [u8], kept: usize)
    requires { (10 + length (laid (kept_fields file.now (ranges_of file.now))) ≤ length out.old) × (kept ≡ length (kept_fields file.now (ranges_of file.now))) × (kept ≤ 4096) }
    ensures { out.new ≡ sets out.old 0 (fresh file.now) }
{
    tourfile::put_version(out);
    let at = put_kept(file, out);
    tourfile::put_last(out, at, kept as u16);
}

/// Salvages a damaged tour: the fresh file at the output's front, the ranges at the list's, or why neither.
pub fn salvage(file: &[u8], out: &mut [u8], list: &mut [u64]) -> Result<Salvaged, Fault>
    ensures value { result ≡ salvage_of file.now (length out.old) (length list.old) }
    ensures out_after { out.new ≡ salvage_out file.now out.old (length list.old) }
    ensures list_after { list.new ≡ salvage_list file.now (length out.old) list.old }
{
    let t = measure(file);
    let kept = t.kept;
    let ranges = t.ranges;
    let body = t.bytes;
    if 4096 < kept {
        return Err(Fault::TooMany);
    }
    if out.len() < 10 {
        return Err(Fault::OutputTooShort);
    }
    if out.len() - 10 < body {
        return Err(Fault::OutputTooShort);
    }
    if list.len() / 3 < ranges {
        return Err(Fault::ListTooShort);
    }
    put_fresh(file, out, kept);
    put_ranges(file, list);
    Ok(Salvaged {
        kept,
        bytes: 10 + body,
        ranges,
    })
}
