//! What a tour's file is made of: numbers in bytes, fields of a tag, a length and as many bytes, and the list of 32 handles
//! that its clip bytes stand for.
#![tactic(auto)]

ghost use Rattle.std.specs.Prelude.{◌≡◌, ℕ, [], ◌∷◌, ◌+◌, ◌≤◌, ◌<◌, ◌^◌, eqb, get_or, length};
ghost use Rattle.std.proofs.lemmas.List.Edits.{sets};
ghost use Rattle.counts.specs.Below.{any_below};
ghost use Rattle.fields.specs.Bytes.{two, four, eight, two_bytes, four_bytes, eight_bytes};
ghost use Rattle.fields.specs.Field.{is_whole, piece_size, is_kind, first_part, second_part, part_size, carried, is_clip, has_clip, part_in, part_bytes};
ghost use Rattle.fields.specs.Steps.{Fits};
ghost use Rattle.fields.specs.Clips.{is_handle, is_listed, handle_at, twice_at, listed_twice, place_below, clip_byte};

// ---- numbers in bytes, the low byte first

/// The byte at a place; past the end 0.
pub fn byte(s: &[u8], i: usize) -> u8
    ensures { result ≡ get_or s.now i 0 }
{
    s.get(i).copied().unwrap_or(0)
}

/// So many bytes from a place on; past the end zeros.
fn bytes<const N: usize>(s: &[u8], i: usize) -> [u8; N]
    requires { i + N ≤ 2 ^ 64 }
    ensures { (k : ℕ) → k < N → get_or result k 0 ≡ get_or s.now (i + k) 0 }
{
    std::array::from_fn(|k| byte(s, i + k))
}

/// The number of two bytes.
pub fn two(s: &[u8], i: usize) -> u16
    requires { i + 1 < 2 ^ 64 }
    ensures { result ≡ two s.now i }
{
    u16::from_le_bytes(bytes(s, i))
}

/// The number of four bytes.
pub fn four(s: &[u8], i: usize) -> u32
    requires { i + 3 < 2 ^ 64 }
    ensures { result ≡ four s.now i }
{
    u32::from_le_bytes(bytes(s, i))
}

/// The number of eight bytes.
pub fn eight(s: &[u8], i: usize) -> u64
    requires { i + 7 < 2 ^ 64 }
    ensures { result ≡ eight s.now i }
{
    u64::from_le_bytes(bytes(s, i))
}

/// Writes one byte.
pub fn put_byte(out: &mut [u8], at: usize, b: u8)
    requires { at < length out.old }
    ensures { out.new ≡ sets out.old at (b ∷ []) }
{
    out[at] = b;
}

/// Writes a number to two bytes.
pub fn put_two(out: &mut [u8], at: usize, x: u16)
    requires { at + 2 ≤ length out.old }
    ensures { out.new ≡ sets out.old at (two_bytes x) }
{
    out[at..at + 2].copy_from_slice(&x.to_le_bytes());
}

/// Writes a number to four bytes.
fn put_four(out: &mut [u8], at: usize, x: u32)
    requires { at + 4 ≤ length out.old }
    ensures { out.new ≡ sets out.old at (four_bytes x) }
{
    out[at..at + 4].copy_from_slice(&x.to_le_bytes());
}

/// Writes a number to eight bytes.
pub fn put_eight(out: &mut [u8], at: usize, x: u64)
    requires { at + 8 ≤ length out.old }
    ensures { out.new ≡ sets out.old at (eight_bytes x) }
{
    out[at..at + 8].copy_from_slice(&x.to_le_bytes());
}

// ---- fields

/// The field at the front is all there.
pub fn is_whole(rest: &[u8]) -> bool
    ensures { result ≡ is_whole rest.now }
{
    let body = two(rest, 1) as usize;
    (3 <= rest.len()) & (3 + body <= rest.len())
}

/// How far the field at the front goes; one that is cut short, to the end.
pub fn piece_size(rest: &[u8]) -> usize
    ensures { result ≡ piece_size rest.now }
{
    if is_whole(rest) {
        return 3 + (two(rest, 1) as usize);
    }
    rest.len()
}

/// The kinds are 1 to 10.
pub fn is_kind(k: u64) -> bool
    ensures { result ≡ is_kind k }
{
    (1 <= k) & (k <= 10)
}

// ---- the list of handles, in a record's words

/// A serial of 0 is no handle.
fn is_handle(w: u64) -> bool
    ensures { result ≡ is_handle w }
{
    w % 0x1_0000_0000 != 0
}

/// The clip byte stands for a handle.
pub fn is_listed(clips: &[u64; 32], b: u8) -> bool
    ensures { result ≡ is_listed clips.now b }
{
    is_handle(handle_at(clips, b))
}

/// The handle of a clip byte; past the list 0.
fn handle_at(clips: &[u64; 32], b: u8) -> u64
    ensures { result ≡ handle_at clips.now b }
{
    clips.get(b as usize).copied().unwrap_or(0)
}

/// The word at i stands further down too.
fn stands_below(clips: &[u64; 32], i: usize) -> bool
    requires { i < 32 }
    ensures { result ≡ any_below i (λ j. eqb (get_or clips.now j 0) (get_or clips.now i 0)) }
{
    let w = clips[i];
    for j in 0..i {
        if clips[j] == w {
            return true;
        }
    }
    false
}

/// The handle at i stands further down too.
fn twice_at(clips: &[u64; 32], i: usize) -> bool
    requires { i < 32 }
    ensures { result ≡ twice_at clips.now i }
{
    let handle = is_handle(clips[i]);
    let below = stands_below(clips, i);
    handle & below
}

/// A handle is listed twice.
pub fn listed_twice(clips: &[u64; 32]) -> bool
    ensures { result ≡ listed_twice clips.now }
{
    (0..32).any(|i| twice_at(clips, i))
}

/// The highest place of a word in the list; 32 if it has none.
fn place_of(clips: &[u64; 32], w: u64) -> u8
    ensures { result ≡ place_below clips.now w 32 }
{
    match clips.iter().rposition(|x| *x == w) {
        Some(i) => i as u8,
        None => 32,
    }
}

/// The clip byte of a handle; 32 if it is not listed.
pub fn clip_byte(clips: &[u64; 32], w: u64) -> u8
    ensures { result ≡ clip_byte clips.now w }
{
    if is_handle(w) {
        return place_of(clips, w);
    }
    32
}

// ---- what a command carries

/// What a kind carries behind its number, in one part or two.
#[derive(Clone, Copy)]
pub enum Part {
    Nothing,
    Frame,
    Gain,
    Clip,
}

impl Part {
    /// A frame has eight bytes, a gain four, a clip one.
    pub fn size(self) -> u8
        ensures { result ≡ part_size self }
    {
        match self {
            Part::Nothing => 0,
            Part::Frame => 8,
            Part::Gain => 4,
            Part::Clip => 1,
        }
    }

    /// A clip.
    fn is_clip(self) -> bool
        ensures { result ≡ is_clip self }
    {
        matches!(self, Part::Clip)
    }
}

/// The first part of a kind.
pub fn first_part(k: u64) -> Part
    ensures { result ≡ first_part k }
{
    match k {
        4 => Part::Frame,
        5 => Part::Frame,
        6 => Part::Frame,
        8 => Part::Gain,
        9 => Part::Clip,
        10 => Part::Clip,
        _ => Part::Nothing,
    }
}

/// The second part of a kind.
pub fn second_part(k: u64) -> Part
    ensures { result ≡ second_part k }
{
    match k {
        6 => Part::Frame,
        10 => Part::Gain,
        _ => Part::Nothing,
    }
}

/// How many bytes a kind carries.
pub fn carried(k: u64) -> u8
    ensures { result ≡ carried k }
{
    let first = first_part(k).size();
    let second = second_part(k).size();
    first + second
}

/// Swap and Stinger carry a clip.
pub fn has_clip(k: u64) -> bool
    ensures { result ≡ has_clip k }
{
    first_part(k).is_clip()
}

/// The word of a part that stands at a place of a field.
pub fn part_in(clips: &[u64; 32], p: Part, f: &[u8], i: usize) -> u64
    requires { i + 7 < 2 ^ 64 }
    ensures { result ≡ part_in clips.now p f.now i }
{
    match p {
        Part::Nothing => 0,
        Part::Frame => eight(f, i),
        Part::Gain => four(f, i) as u64,
        Part::Clip => handle_at(clips, byte(f, i)),
    }
}

/// Writes a part.
pub fn put_part(out: &mut [u8], at: usize, clips: &[u64; 32], p: Part, w: u64)
    requires { (at + part_size p ≤ length out.old) × Fits p w }
    ensures { out.new ≡ sets out.old at (part_bytes clips.now p w) }
{
    match p {
        Part::Nothing => {}
        Part::Frame => put_eight(out, at, w),
        Part::Gain => put_four(out, at, w as u32),
        Part::Clip => put_byte(out, at, clip_byte(clips, w)),
    }
}
