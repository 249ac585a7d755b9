//! A file is named by an argument and read whole, and what is wrong with one is said in one line on standard error.
#![tactic(auto)]

ghost use Rattle.std.specs.Prelude.{◌≤◌, IfOk, IfSome, length};

use std::env::FillError;
use std::fs::File;
use std::io;
use std::io::{Cursor, Read, Write};
use std::rt::Env;

/// The program was started with an argument i.
pub fn is_given(rt: &HostRuntime, i: usize) -> bool {
    let mut none = [0u8; 0];
    !matches!(rt.arg(i, &mut none), Err(FillError::NotPresent))
}

/// How many bytes of a store argument i takes; none where it is not there, or longer than the store.
pub fn argument(rt: &HostRuntime, i: usize, name: &mut [u8]) -> usize
    ensures { result ≤ length name.new }
{
    rt.arg(i, name).unwrap_or(0)
}

/// Writes to standard error; where that fails, there is nowhere left to say so.
pub fn text(rt: &HostRuntime, s: &[u8]) {
    let _ = rt.stderr().write_all(s);
}

/// What is wrong with a file, as a program says it.
pub fn wrong(rt: &HostRuntime, program: &[u8], name: &[u8], what: &[u8]) {
    text(rt, program);
    text(rt, b": ");
    text(rt, name);
    text(rt, what);
    text(rt, b"\n");
}

/// Why the system says so: an error's words, without its number.
fn why(rt: &HostRuntime, e: io::Error) {
    let mut store = Cursor::new([0u8; 256]);
    let _ = write!(store, "{e}");
    let all = str::from_utf8(store.get_ref()).unwrap_or("");
    let words = match all.split_once(" (os error ") {
        Some((words, _)) => words,
        None => all.trim_end_matches('\0'),
    };
    text(rt, words.as_bytes());
}

/// What a program cannot do with a file, and why the system says so.
pub fn failed(rt: &HostRuntime, program: &[u8], what: &[u8], name: &[u8], e: io::Error) {
    text(rt, program);
    text(rt, b": cannot ");
    text(rt, what);
    text(rt, b" ");
    text(rt, name);
    text(rt, b": ");
    why(rt, e);
    text(rt, b"\n");
}

/// Reads to the front of a store until it is full or the file ends.
pub fn fill(file: &mut File, bytes: &mut [u8]) -> io::Result<usize>
    ensures { IfOk result (λ n. n ≤ length bytes.new) }
{
    let mut done: usize = 0;
    while done < bytes.len() {
        let n = file.read(&mut bytes[done..])?;
        if n == 0 {
            return Ok(done);
        }
        done += n;
    }
    Ok(done)
}

/// The path of a file of this name. A name that is no text names none.
pub fn path(name: &[u8]) -> io::Result<&str> {
    str::from_utf8(name).map_err(|_| io::Error::from(io::ErrorKind::InvalidFilename))
}

/// Opens a file to read it.
pub fn open(rt: &HostRuntime, name: &[u8]) -> io::Result<File> {
    File::open(rt, path(name)?)
}

/// Why a file is not read whole.
#[derive(Drop)]
enum Unread {
    Open(io::Error),
    Read(io::Error),
    Long,
}

/// Reads a file to the front of a store: how many bytes it has, if nothing follows them.
fn whole(rt: &HostRuntime, name: &[u8], bytes: &mut [u8]) -> Result<usize, Unread>
    ensures { IfOk result (λ n. n ≤ length bytes.new) }
{
    let mut file = open(rt, name).map_err(Unread::Open)?;
    let count = fill(&mut file, bytes).map_err(Unread::Read)?;
    let mut more = [0u8; 1];
    if count == bytes.len() && file.read(&mut more).map_err(Unread::Read)? > 0 {
        return Err(Unread::Long);
    }
    Ok(count)
}

/// How many bytes a file has, read whole to the front of a store; if it is not read, it is said why. `long` says that it has
/// more bytes than the store.
pub fn read(
    rt: &HostRuntime,
    program: &[u8],
    name: &[u8],
    bytes: &mut [u8],
    long: &[u8],
) -> Option<usize>
    ensures { IfSome result (λ n. n ≤ length bytes.new) }
{
    match whole(rt, name, bytes) {
        Ok(count) => return Some(count),
        Err(Unread::Open(e)) => failed(rt, program, b"open", name, e),
        Err(Unread::Read(e)) => failed(rt, program, b"read", name, e),
        Err(Unread::Long) => wrong(rt, program, name, long),
    }
    None
}
