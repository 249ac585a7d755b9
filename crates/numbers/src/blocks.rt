//! Block numbers, over sessions laid by hand.
ghost use Rattle.std.specs.Prelude.{◌<◌};

use crate::told::{samples, stands};
use bank::{Bank, Clip, Kind};
use counts::{ClockFrame, Handle, SamplePlace, SongFrame};
use oneshot::{Voice, Voices};
use print::Sample;
use ramp::Ramp;
use session::{Answered, Desk, Session};
use stage::{AS_TONO, Counters, Fade, Playhead, Settings, Sound, Stage};
use std::io;
use timeline::{Command, QueueRecord};
use transport::{LoopRange, Transport, TransportState};

// ---- sessions, laid by hand

/// A pool of 1,200 frames, a queue of 4 records, no capture.
const SETTINGS: Settings = Settings {
    rate: 48000,
    mode: AS_TONO,
    queue: 4,
    capture: 0,
    pool: 1200,
};

fn clip(serial: u32, kind: Kind, start: u64, frames: u64) -> Clip {
    Clip {
        serial,
        kind,
        start,
        frames,
        rate: 48000,
    }
}

/// Slot 0: the song of two frames. Slot 1: a song of 1,100. Slot 2: a stinger of sixteen.
fn clips() -> Bank {
    let none = clip(0, Kind::Stinger, 0, 0);
    let mut all = [none; 32];
    all[0] = clip(1, Kind::Song(SongFrame(2)), 0, 2);
    all[1] = clip(2, Kind::Song(SongFrame(1100)), 2, 1100);
    all[2] = clip(3, Kind::Stinger, 1102, 16);
    Bank {
        used: 7,
        last: 3,
        clips: all,
    }
}

const SHORT: Handle = Handle { slot: 0, serial: 1 };

const LONG: Handle = Handle { slot: 1, serial: 2 };

const BELL: Handle = Handle { slot: 2, serial: 3 };

/// The samples of those clips: 0.5, -0.5, 0.25, 0.25; then 0.5 and the sixteenths from 1 on, and 0.5 again; then sixteenths.
fn sound_of(place: usize) -> f32 {
    match place {
        1 => -0.5,
        2 | 3 => 0.25,
        6..=19 => std::num::nearest_u32_to_f32((place / 2 - 2) as u32) / 16.0,
        2204..=2399 => 0.0625,
        _ => 0.5,
    }
}

fn pool() -> [f32; 2400] {
    let mut all = [0.0; 2400];
    for (place, sample) in all.iter_mut().enumerate() {
        *sample = sound_of(place);
    }
    all
}

/// A session at clock 0 over those clips, with `queued` records in its queue and no voices.
fn session(
    song: Handle,
    state: TransportState,
    looped: Option<LoopRange>,
    master: f32,
    queued: usize,
) -> Session {
    Session {
        settings: SETTINGS,
        bank: clips(),
        stage: Stage {
            clock: ClockFrame(0),
            playhead: Playhead {
                transport: Transport {
                    state,
                    position: SongFrame(0),
                    cursor: SongFrame(0),
                    looped,
                    laps: 0,
                },
                song,
            },
            sound: Sound {
                master: Ramp::new(master),
                fade: Fade { tail: None },
                voices: Voices::none(),
            },
            counters: Counters {
                executed: 0,
                swaps: 0,
                fired: 0,
            },
        },
        queued,
        desk: Desk {
            number: queued as u64,
            deepest: 0,
            dropped: 0,
            capturing: false,
            captured: 0,
        },
    }
}

/// Puts a command that is due at a frame into the queue; one with a gain that is not finite is none.
fn put(queue: &mut [u64; 20], place: usize, at: u64, number: u64, command: Command)
    requires { place < 4 }
{
    let record = QueueRecord {
        at: ClockFrame(at),
        number,
        command,
    };
    if command.gain_ok() {
        timeline::put_row(queue, place, timeline::row_of(record));
    }
}

/// A block into a part of the output, with no capture.
fn run(s: Session, queue: &[u64; 20], pool: &[f32], out: &mut [f32]) -> Answered<u64> {
    let records: &[u64] = queue;
    block::block(s, records, &records[..0], pool, out)
}

// ---- the numbers

/// A block whose answer is told, and the session after it.
fn run_told(
    rt: &impl Print,
    s: Session,
    queue: &[u64; 20],
    pool: &[f32],
    out: &mut [f32],
) -> io::Result<Session> {
    let r = run(s, queue, pool, out);
    stands(rt, r.answer, r.session)?;
    Ok(r.session)
}

/// Play and Pause at 8, for a session at rest.
fn put_two(queue: &mut [u64; 20]) -> Session {
    put(queue, 0, 8, 2, Command::Pause);
    put(queue, 1, 8, 1, Command::Play);
    session(LONG, TransportState::Stopped, None, 1.0, 2)
}

/// A block of 8 executes one, of 0 none, then of 1 the other first.
fn eight_none_one(rt: &impl Print, s: Session, queue: &[u64; 20], pool: &[f32]) -> io::Result<()> {
    let mut eight = [0.0; 16];
    let mut none = [0.0; 0];
    let mut one = [0.0; 2];
    let first = run_told(rt, s, queue, pool, &mut eight)?;
    print!(rt; "  then of 0: ")?;
    let second = run_told(rt, first, queue, pool, &mut none)?;
    print!(rt; "  then of 1: ")?;
    run_told(rt, second, queue, pool, &mut one)?;
    Ok(())
}

/// A block of 9 executes both.
fn nine(rt: &impl Print, s: Session, queue: &[u64; 20], pool: &[f32]) -> io::Result<()> {
    let mut nine = [0.0; 18];
    print!(rt; "  a block of 9: ")?;
    run_told(rt, s, queue, pool, &mut nine)?;
    Ok(())
}

/// Two commands at 8, clock 0.
fn two_at_8(rt: &impl Print, pool: &[f32]) -> io::Result<()> {
    let mut queue = [0; 20];
    let s = put_two(&mut queue);
    print!(rt; "two commands at 8, clock 0\n  a block of 8: ")?;
    eight_none_one(rt, s, &queue, pool)?;
    nine(rt, s, &queue, pool)
}

/// Song (0.5, -0.5), (0.25, 0.25), length 2, Play at 0, block of 4: those pairs, four zeros; position 2, Stopped.
fn two_frames(rt: &impl Print, pool: &[f32]) -> io::Result<()> {
    let mut queue = [0; 20];
    put(&mut queue, 0, 0, 1, Command::Play);
    let s = session(SHORT, TransportState::Stopped, None, 1.0, 1);
    let mut out = [0.0; 8];
    print!(rt; "a song of two frames, Play at 0, a block of 4\n  ")?;
    run_told(rt, s, &queue, pool, &mut out)?;
    print!(rt; " ")?;
    samples(rt, &out)?;
    println!(rt)
}

/// Gain 0 at rest: the first frame 255/256, so 0.5 sounds as 0.498046875.
fn gain_zero(rt: &impl Print, pool: &[f32]) -> io::Result<()> {
    let mut queue = [0; 20];
    put(&mut queue, 0, 0, 1, Command::Gain(0.0));
    let s = session(LONG, TransportState::Playing, None, 1.0, 1);
    let mut out = [0.0; 2];
    print!(rt; "Gain 0 at rest, 0.5 sounds as\n ")?;
    run(s, &queue, pool, &mut out);
    samples(rt, &out[..2])?;
    println!(rt)
}

/// A loop that wraps inside a block.
fn loop_wraps(rt: &impl Print, pool: &[f32]) -> io::Result<()> {
    let queue = [0; 20];
    let looped = Some(LoopRange {
        start: SongFrame(2),
        end: SongFrame(4),
    });
    let s = session(LONG, TransportState::Playing, looped, 1.0, 0);
    let mut out = [0.0; 14];
    print!(rt; "loop 2..4 from 0, a block of 7\n  ")?;
    run_told(rt, s, &queue, pool, &mut out)?;
    print!(rt; " ")?;
    samples(rt, &out)?;
    println!(rt)
}

/// A swap, the master at 0, which the tail ignores as tono: its first frame at 1023/1024, its last but one at 1/1024, its last at 0.
fn swap_tail(rt: &impl Print, pool: &[f32]) -> io::Result<()> {
    let mut queue = [0; 20];
    put(&mut queue, 0, 0, 1, Command::Swap(SHORT));
    let s = session(LONG, TransportState::Playing, None, 0.0, 1);
    let mut out = [0.0; 2050];
    print!(rt;
        "a swap with the master at 0, a block of 1,025: the tail's frames 1, 1,023, 1,024 and the one after\n  "
    )?;
    run_told(rt, s, &queue, pool, &mut out)?;
    print!(rt; " ")?;
    samples(rt, &out[..2])?;
    print!(rt; "\n ")?;
    samples(rt, &out[2044..])?;
    println!(rt)
}

/// Sixteen voices, the k-th with k frames gone.
fn sixteen() -> Voices {
    let gain = Ramp::new(1.0);
    let mut voices = Voices::none();
    for i in 0..16 {
        voices.table[i] = Voice {
            handle: BELL,
            head: SamplePlace(i * 2),
            gain,
        };
    }
    voices.count = 16;
    voices
}

/// A block of one frame with nothing queued: its left sample, and how many voices are left.
fn one_frame(rt: &impl Print, s: Session, pool: &[f32]) -> io::Result<Session> {
    let mut out = [0.0; 2];
    let next = run(s, &[0; 20], pool, &mut out).session;
    let left = next.stage.sound.voices.count;
    println!(rt; "  {} {left}", Sample(out[0]))?;
    Ok(next)
}

/// Sixteen voices that end on different frames: one leaves after each.
fn voices_end(rt: &impl Print, pool: &[f32]) -> io::Result<()> {
    let mut s = session(LONG, TransportState::Stopped, None, 1.0, 0);
    s.stage.sound.voices = sixteen();
    print!(rt;
        "sixteen voices of 0.0625 that end on different frames: the sum, and how many are left\n"
    )?;
    for _ in 0..17 {
        s = one_frame(rt, s, pool)?;
    }
    Ok(())
}

pub fn all(rt: &impl Print) -> io::Result<()> {
    let pool = pool();
    two_at_8(rt, &pool)?;
    two_frames(rt, &pool)?;
    gain_zero(rt, &pool)?;
    loop_wraps(rt, &pool)?;
    swap_tail(rt, &pool)?;
    voices_end(rt, &pool)
}
