//! Whether a call left a session and its stores as they were.
use bank::{Bank, Clip, Kind};
use oneshot::{Voice, Voices};
use print::bits;
use ramp::Ramp;
use session::{Desk, Session};
use stage::{Counters, Settings, Sound, Stage, Tail};
use transport::{LoopRange, Transport};

/// Two floats are the same by their bits: -0.0 is not +0.0.
fn float(a: f32, b: f32) -> bool {
    bits(a) == bits(b)
}

/// Two pools, or two outputs, have the same samples.
pub fn samples(a: &[f32], b: &[f32]) -> bool {
    a.len() == b.len() && a.iter().zip(b).all(|(x, y)| float(*x, *y))
}

fn settings(a: Settings, b: Settings) -> bool {
    (a.rate == b.rate)
        & (a.mode == b.mode)
        & (a.queue == b.queue)
        & (a.capture == b.capture)
        & (a.pool == b.pool)
}

fn kind(a: Kind, b: Kind) -> bool {
    match (a, b) {
        (Kind::Song(x), Kind::Song(y)) => x.0 == y.0,
        (Kind::Stinger, Kind::Stinger) => true,
        _ => false,
    }
}

fn clip(a: Clip, b: Clip) -> bool {
    kind(a.kind, b.kind)
        & (a.serial == b.serial)
        & (a.start == b.start)
        & (a.frames == b.frames)
        & (a.rate == b.rate)
}

fn bank(a: Bank, b: Bank) -> bool {
    a.clips.iter().zip(&b.clips).all(|(x, y)| clip(*x, *y))
        & (a.used == b.used)
        & (a.last == b.last)
}

fn range(a: Option<LoopRange>, b: Option<LoopRange>) -> bool {
    match (a, b) {
        (None, None) => true,
        (Some(l), Some(r)) => l.start.0 == r.start.0 && l.end.0 == r.end.0,
        _ => false,
    }
}

fn transport(a: Transport, b: Transport) -> bool {
    (a.state == b.state)
        & range(a.looped, b.looped)
        & (a.position.0 == b.position.0)
        & (a.cursor.0 == b.cursor.0)
        & (a.laps == b.laps)
}

fn gain(a: Ramp, b: Ramp) -> bool {
    float(a.value, b.value)
        & float(a.target, b.target)
        & float(a.step, b.step)
        & (a.remaining == b.remaining)
}

fn tail(a: Option<Tail>, b: Option<Tail>) -> bool {
    match (a, b) {
        (None, None) => true,
        (Some(t), Some(u)) => {
            t.song == u.song && t.cursor.0 == u.cursor.0 && gain(t.weight, u.weight)
        }
        _ => false,
    }
}

fn voice(a: Voice, b: Voice) -> bool {
    (a.handle == b.handle) & gain(a.gain, b.gain) & (a.head.0 == b.head.0)
}

fn voices(a: Voices, b: Voices) -> bool {
    a.table.iter().zip(&b.table).all(|(x, y)| voice(*x, *y)) & (a.count == b.count)
}

fn sound(a: Sound, b: Sound) -> bool {
    gain(a.master, b.master) & tail(a.fade.tail, b.fade.tail) & voices(a.voices, b.voices)
}

fn counters(a: Counters, b: Counters) -> bool {
    (a.executed == b.executed) & (a.swaps == b.swaps) & (a.fired == b.fired)
}

fn stage(a: Stage, b: Stage) -> bool {
    (a.clock.0 == b.clock.0)
        & transport(a.playhead.transport, b.playhead.transport)
        & (a.playhead.song == b.playhead.song)
        & sound(a.sound, b.sound)
        & counters(a.counters, b.counters)
}

fn desk(a: Desk, b: Desk) -> bool {
    (a.number == b.number)
        & (a.deepest == b.deepest)
        & (a.dropped == b.dropped)
        & (a.capturing == b.capturing)
        & (a.captured == b.captured)
}

/// Two sessions are the same, place by place.
pub fn session(a: Session, b: Session) -> bool {
    settings(a.settings, b.settings)
        & bank(a.bank, b.bank)
        & stage(a.stage, b.stage)
        & (a.queued == b.queued)
        & desk(a.desk, b.desk)
}

/// They are the same but for the dropped count.
pub fn session_but_dropped(a: Session, mut b: Session) -> bool {
    b.desk.dropped = a.desk.dropped;
    session(a, b)
}
