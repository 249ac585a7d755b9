//! Salvages a damaged tour. `salvage DAMAGED FRESH` reads the first file, writes the tour that remains of it to the second, and
//! lists what was done with each of its bytes. What is wrong is said in one line, and then nothing is written.
//!
//! It is run on `data/damaged.thr`, a tour of 14 commands: the fourth has a wrong bit in its kind and the seventh in its tag, which
//! makes it a field to skip; six bytes stand before the sixth; the ninth comes again after the eleventh; and behind the last field
//! the copy begins again, and is cut.
#![tactic(auto)]

ghost use Rattle.std.specs.Prelude.{◌≤◌};

mod fresh;
mod list;
mod said;
mod words;

use fresh::MOST;
use list::WORDS;
use remains::Salvaged;
use std::io;

/// The most bytes of a fresh file: it has a first and a last field, if the damaged one has neither.
const OUT: usize = 1048586;

/// The most bytes of a name.
const NAME: usize = 4096;

/// Writes the fresh file, and lists the ranges.
fn write(
    rt: &HostRuntime,
    file: &[u8],
    fresh: &[u8],
    out: &[u8; OUT],
    list: &[u64; WORDS],
    s: Salvaged,
) -> io::Result<()>
    requires { (s.bytes ≤ 1048586) × (s.ranges ≤ 65536) }
{
    if fresh::write(rt, fresh, &out[..s.bytes]) {
        list::all(rt, file, list, s)?;
    }
    Ok(())
}

/// What remains of a file, if it can be salvaged.
fn salvage_to(
    rt: &HostRuntime,
    damaged: &[u8],
    file: &[u8],
    fresh: &[u8],
    out: &mut [u8; OUT],
    list: &mut [u64; WORDS],
) -> io::Result<()> {
    match remains::salvage(file, out, list) {
        Ok(s) => write(rt, file, fresh, out, list, s),
        Err(x) => {
            said::refused(rt, damaged, x);
            Ok(())
        }
    }
}

/// Lends output and list.
fn salvage(rt: &HostRuntime, damaged: &[u8], file: &[u8], fresh: &[u8]) -> io::Result<()> {
    let mut out = [0; OUT];
    let mut list = [0; WORDS];
    salvage_to(rt, damaged, file, fresh, &mut out, &mut list)
}

/// Reads the damaged file.
fn read(rt: &HostRuntime, damaged: &[u8], fresh: &[u8], bytes: &mut [u8; MOST]) -> io::Result<()> {
    let Some(n) = fresh::read(rt, damaged, bytes) else {
        return Ok(());
    };
    let whole: &[u8] = bytes;
    salvage(rt, damaged, &whole[..n], fresh)
}

/// Both names, where the second is free.
fn both(rt: &HostRuntime, damaged: &[u8], fresh: &[u8]) -> io::Result<()> {
    if damaged.is_empty() || fresh.is_empty() {
        said::how(rt);
        return Ok(());
    }
    if fresh::is_free(rt, fresh) {
        let mut bytes = [0; MOST];
        read(rt, damaged, fresh, &mut bytes)?;
    }
    Ok(())
}

/// The second name.
fn second(rt: &HostRuntime, damaged: &[u8]) -> io::Result<()> {
    let mut fresh = [0; NAME];
    let n = files::argument(rt, 2, &mut fresh);
    both(rt, damaged, &fresh[..n])
}

fn main(rt: HostRuntime) -> io::Result<()> {
    if !files::is_given(&rt, 2) || files::is_given(&rt, 3) {
        said::how(&rt);
        return Ok(());
    }
    let mut damaged = [0; NAME];
    let n = files::argument(&rt, 1, &mut damaged);
    second(&rt, &damaged[..n])
}
