//! The full queue, at the Rust's own capacity.
use crate::host::{Host, SMALL, SONG};
use crate::refusals::submit_full;
use counts::ClockFrame;
use stage::Settings;
use std::io;
use timeline::Submission;
use transport::At;

/// '4,096 queued are accepted; the next gets 15.' Each is due before the one that came before it.
pub fn queue_full(rt: &impl Print) -> io::Result<()> {
    let settings = Settings {
        queue: 4096,
        ..SMALL
    };
    let mut host: Host<20480, 16> = Host::open(settings, &SONG, 2);
    for at in (1..=4096).rev() {
        let _ = host.submit(Submission::Play, At::Frame(ClockFrame(at)));
    }
    let s = host.session;
    print!(rt;
        "a queue of 4,096\n  4,096 submitted: queued {}",
        s.queue_depth()
    )?;
    print!(rt;
        ", last number {}, dropped {}\n  the next: ",
        s.desk.number, s.desk.dropped
    )?;
    submit_full(rt, host)
}
