//! 'A loop past the song's length is still accepted, since a swap may come first.'
use crate::host::{RATE, Small, handle_of, looped, small};
use crate::told::{range, stands};
use bank::Kind;
use counts::SongFrame;
use std::io;
use timeline::Submission;
use transport::At;

/// A loop from 1 to 3 that waits in the queue, then a block of 6, and the loop after it.
fn told(rt: &impl Print, mut host: Small) -> io::Result<()> {
    print::submit_answer(rt, host.submit(looped(1, 3), At::Immediate))?;
    print!(rt; "\n    a block of 6: ")?;
    let a = host.block(&mut [0.0; 12]);
    range(rt, host.session.loop_range())?;
    print!(rt; ", ")?;
    stands(rt, a, host.session)
}

/// In the song of 2 frames that plays nothing is set; after a swap to a longer one, of 4, the loop is.
pub fn past_the_length(rt: &impl Print) -> io::Result<()> {
    let mut host = small();
    let longer = handle_of(host.load(&[0.125; 8], Kind::Song(SongFrame(4)), RATE));
    print!(rt; "a loop from 1 to 3\n  in a song of length 2: ")?;
    told(rt, host)?;
    host.queue_one(Submission::Swap(longer));
    print!(rt; "  after a swap to one of length 4: ")?;
    told(rt, host)
}
