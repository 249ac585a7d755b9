//! The damaged file is read whole, and the fresh one is there whole or not at all.
ghost use Rattle.std.specs.Prelude.{◌≤◌, IfSome};

use crate::said;
use crate::said::Failure;
use std::fs::File;
use std::io::Write;
use std::{fs, io};

/// The most bytes of a damaged file. The longest tour has 147,466, skipped fields aside.
pub const MOST: usize = 1048576;

/// No file has this name; if one has, it is said.
pub fn is_free(rt: &HostRuntime, name: &[u8]) -> bool {
    match files::open(rt, name) {
        Ok(_) => {
            said::wrong(
                rt,
                name,
                b" is there already: the fresh file needs a name of its own",
            );
            false
        }
        Err(e) if e.kind() == io::ErrorKind::NotFound => true,
        Err(e) => {
            Failure::new(b"write", name, e).say(rt);
            false
        }
    }
}

/// How many bytes a file has, read to the front, if there is something to salvage; if not, it is said.
pub fn read(rt: &HostRuntime, name: &[u8], bytes: &mut [u8; MOST]) -> Option<usize>
    ensures { IfSome result (λ n. n ≤ 1048576) }
{
    let long = b" has more than 1,048,576 bytes";
    let count = files::read(rt, b"salvage", name, bytes, long)?;
    if count == 0 {
        said::wrong(rt, name, b" is empty");
        return None;
    }
    Some(count)
}

/// The fresh file's name with `.part` behind it; where that is too long for a name, more bytes than a name has.
#[derive(Clone, Copy)]
struct Part {
    bytes: [u8; 4096],
    len: usize,
    ghost inside: { len ≤ 4096 },
}

impl Part {
    fn of(name: &[u8]) -> Part {
        let mut bytes = [b'.'; 4096];
        let n = name.len().min(4096);
        bytes[..n].copy_from_slice(&name[..n]);
        if n > 4090 {
            return Part { bytes, len: 4096 };
        }
        bytes[n..n + 5].copy_from_slice(b".part");
        Part { bytes, len: n + 5 }
    }

    fn name(&self) -> &[u8] {
        &self.bytes[..self.len]
    }
}

/// Makes a file anew.
fn make(rt: &HostRuntime, name: &[u8]) -> io::Result<File> {
    File::options()
        .write(true)
        .create_new(true)
        .open(rt, files::path(name)?)
}

/// Writes a file, and has it stored.
fn store(file: File, bytes: &[u8]) -> io::Result<()> {
    let mut file = file;
    file.write_all(bytes)?;
    file.sync_all()
}

/// Gives a file another name.
fn rename(rt: &HostRuntime, from: &[u8], to: &[u8]) -> io::Result<()> {
    fs::rename(rt, files::path(from)?, files::path(to)?)
}

/// Removes a file, if that can be.
fn remove(rt: &HostRuntime, name: &[u8]) {
    if let Ok(path) = files::path(name) {
        let _ = fs::remove_file(rt, path);
    }
}

/// Writes the fresh file under a part's name, and gives it its own once it is whole.
fn write_by<'a>(
    rt: &HostRuntime,
    file: File,
    name: &'a [u8],
    part: &'a [u8],
    bytes: &[u8],
) -> Result<(), Failure<'a>> {
    store(file, bytes).map_err(|e| Failure::new(b"write", part, e))?;
    rename(rt, part, name).map_err(|e| Failure::new(b"write", name, e))
}

/// Writes the fresh file, or says why it is not written, after which nothing is left of a part that it made.
pub fn write(rt: &HostRuntime, name: &[u8], bytes: &[u8]) -> bool {
    let whole = Part::of(name);
    let part = whole.name();
    let file = match make(rt, part) {
        Ok(file) => file,
        Err(e) => {
            Failure::new(b"make", part, e).say(rt);
            return false;
        }
    };
    match write_by(rt, file, name, part, bytes) {
        Ok(()) => true,
        Err(failure) => {
            failure.say(rt);
            remove(rt, part);
            false
        }
    }
}
