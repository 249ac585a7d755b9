//! What is wrong, in one line on standard error.
use std::io;
use tourfile::Fault;

/// How the program is called.
pub fn how(rt: &HostRuntime) {
    files::text(
        rt,
        b"salvage: call it as `salvage DAMAGED FRESH`, with the damaged file's name and one for the fresh file\n",
    );
}

/// What is wrong with a file.
pub fn wrong(rt: &HostRuntime, name: &[u8], what: &[u8]) {
    files::wrong(rt, b"salvage", name, what);
}

/// What could not be done with which file, and why the system says so.
#[derive(Drop)]
pub struct Failure<'a> {
    what: &'static [u8],
    name: &'a [u8],
    error: io::Error,
}

impl<'a> Failure<'a> {
    pub fn new(what: &'static [u8], name: &'a [u8], error: io::Error) -> Failure<'a> {
        Failure { what, name, error }
    }

    pub fn say(self, rt: &HostRuntime) {
        let Failure { what, name, error } = self;
        files::failed(rt, b"salvage", what, name, error);
    }
}

/// Why a file is not salvaged: too many commands, or too many ranges. The output is never too short.
pub fn refused(rt: &HostRuntime, name: &[u8], x: Fault) {
    match x {
        Fault::TooMany => wrong(rt, name, b" has more than 4,096 commands to keep"),
        _ => wrong(rt, name, b" falls into more than 65,536 ranges"),
    }
}
