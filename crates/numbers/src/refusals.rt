//! Each refusal number at a call: 'Each gives its number alone; all lent stores and the session stay, save 15.'
use crate::host::{CLICK, Host, RATE, SMALL, SONG, Small, handle_of, looped, playing, small};
use crate::told::{block_answer, kept};
use bank::Kind;
use counts::{ClockFrame, Handle, SongFrame};
use stage::{HOUSE, Settings};
use std::io;
use timeline::{Row, Submission};
use transport::At;

// ---- what a refused call is told by

/// An opening with the pool of 8 frames: its answer, and whether the pool is as it was.
fn open(rt: &impl Print, settings: Settings, queue: &[u64], song: &[f32]) -> io::Result<()> {
    let capture = [0; 5];
    let mut pool = [0.0; 16];
    let lasts = SongFrame(2);
    let r = clips::open(settings, queue, &capture, &mut pool, song, RATE, lasts);
    print::load_answer(rt, r.answer)?;
    kept(rt, crate::same::samples(&pool, &[0.0; 16]))
}

/// A load of a stinger: its answer, and whether all is as it was.
fn load<const QUEUE: usize, const POOL: usize>(
    rt: &impl Print,
    mut host: Host<QUEUE, POOL>,
    clip: &[f32],
    rate: u32,
) -> io::Result<()> {
    let was = host;
    print::load_answer(rt, host.load(clip, Kind::Stinger, rate))?;
    kept(rt, host.is_as(&was))
}

/// A block of 1: its answer, and whether all and the output is as it was.
fn block(rt: &impl Print, mut host: Small) -> io::Result<()> {
    let was = host;
    let mut out = [0.5; 2];
    block_answer(rt, host.block(&mut out))?;
    kept(rt, host.is_as(&was) & crate::same::samples(&out, &[0.5; 2]))
}

/// A submission at once: its answer, and whether all is as it was.
fn submit<const QUEUE: usize, const POOL: usize>(
    rt: &impl Print,
    mut host: Host<QUEUE, POOL>,
    x: Submission,
) -> io::Result<()> {
    let was = host;
    print::submit_answer(rt, host.submit(x, At::Immediate))?;
    kept(rt, host.is_as(&was))
}

/// A Play that finds the queue full: '15: queue full; dropped count + 1'.
pub fn submit_full<const QUEUE: usize, const POOL: usize>(
    rt: &impl Print,
    mut host: Host<QUEUE, POOL>,
) -> io::Result<()> {
    let was = host;
    print::submit_answer(rt, host.submit(Submission::Play, At::Immediate))?;
    print!(rt; ", dropped {}, but for that", host.session.desk.dropped)?;
    kept(rt, host.is_as_but_dropped(&was))
}

// ---- the numbers

/// '1: session or its stores not well formed.'
fn stores(rt: &impl Print) -> io::Result<()> {
    let host = small();
    print!(rt; "  metrics, lent a queue of 1 record where 2 are named: ")?;
    let r = control::metrics(host.session, &host.queue[..5], &host.capture);
    print::metrics_answer(rt, r.answer)?;
    kept(rt, crate::same::session(host.session, r.session))
}

/// The same of a session whose mode is set to an unknown one by hand, in every call.
fn altered(rt: &impl Print) -> io::Result<()> {
    let mut host = small();
    host.session.settings.mode = 2;
    print!(rt; "  a block of 1 in mode 2, set by hand: ")?;
    block(rt, host)?;
    print!(rt; "  a command in it: ")?;
    submit(rt, host, Submission::Play)
}

/// '2: lent pool has another length.'
fn pools(rt: &impl Print) -> io::Result<()> {
    let Host {
        session,
        queue,
        capture,
        ..
    } = small();
    let other = Host {
        session,
        queue,
        capture,
        pool: [0.0; 14],
    };
    print!(rt; "  load, lent a pool of 7 frames where 8 are named: ")?;
    load(rt, other, &CLICK, RATE)
}

/// '3: odd sample count.'
fn odd(rt: &impl Print) -> io::Result<()> {
    print!(rt; "  load of 3 samples: ")?;
    load(rt, small(), &[0.25; 3], RATE)
}

/// '4: block would pass clock 2^62.'
fn clock(rt: &impl Print) -> io::Result<()> {
    let mut host = small();
    host.session.stage.clock = ClockFrame(4611686018427387904);
    print!(rt; "  a block of 1 at clock 2^62: ")?;
    block(rt, host)
}

/// '5: clip without samples.' '6: sample not finite or above 16.' '7: clip rate (8,000 to 192,000) outside its range.'
fn samples(rt: &impl Print) -> io::Result<()> {
    let host = small();
    print!(rt; "  load of no samples: ")?;
    load(rt, host, &[], RATE)?;
    print!(rt; "  load of a sample of 17: ")?;
    load(rt, host, &[0.25, 17.0], RATE)?;
    print!(rt; "  load at a rate of 7,999: ")?;
    load(rt, host, &CLICK, 7999)
}

/// 'An unknown mode joins 7', which opening weighs first: before 1 and 3.
fn modes(rt: &impl Print) -> io::Result<()> {
    let unknown = Settings { mode: 2, ..SMALL };
    let house = Settings {
        mode: HOUSE,
        ..SMALL
    };
    let odd = [0.25; 3];
    print!(rt; "  open in mode 2: ")?;
    open(rt, unknown, &[0; 10], &[0.25; 4])?;
    print!(rt; "  open in mode 2 with 3 samples, lent a queue of 1 record where 2 are named: ")?;
    open(rt, unknown, &[0; 5], &odd)?;
    print!(rt; "  the same in mode 1: ")?;
    open(rt, house, &[0; 5], &odd)
}

/// '8: 32 slots used.' The pool has 40 frames.
fn slots(rt: &impl Print) -> io::Result<()> {
    let settings = Settings { pool: 40, ..SMALL };
    let mut host: Host<10, 80> = Host::open(settings, &SONG, 2);
    for _ in 0..31 {
        let _ = host.load(&CLICK, Kind::Stinger, RATE);
    }
    print!(rt; "  load when 32 slots are used: ")?;
    load(rt, host, &CLICK, RATE)
}

/// '9: serials spent.'
fn serials(rt: &impl Print) -> io::Result<()> {
    let mut host = small();
    host.session.bank.last = 4294967295;
    print!(rt; "  load when serial 4,294,967,295 is given: ")?;
    load(rt, host, &CLICK, RATE)
}

/// '10: no start in the pool fits.'
fn room(rt: &impl Print) -> io::Result<()> {
    print!(rt; "  load of 7 frames where 6 are free: ")?;
    load(rt, small(), &[0.25; 14], RATE)
}

/// '11: stale handle.' '12: song where a stinger is due, or the reverse.' '13: clip rate is not the session's.'
/// '14: gain not finite; stinger gain above 16.' '22, senseless loop.'
fn handles(rt: &impl Print) -> io::Result<()> {
    let mut host = small();
    let song = host.session.song();
    let other = handle_of(host.load(&CLICK, Kind::Song(SongFrame(1)), 44100));
    let unknown = Handle { slot: 0, serial: 7 };
    print!(rt; "  a swap to slot 0 serial 7, which was never given: ")?;
    submit(rt, host, Submission::Swap(unknown))?;
    print!(rt; "  a stinger of a song: ")?;
    submit(rt, host, Submission::Stinger(song, 1.0))?;
    print!(rt; "  a swap to a song of 44,100: ")?;
    submit(rt, host, Submission::Swap(other))?;
    print!(rt; "  a stinger at gain 17: ")?;
    submit(rt, host, Submission::Stinger(song, 17.0))?;
    print!(rt; "  a loop from 5 to 5: ")?;
    submit(rt, host, looped(5, 5))?;
    print!(rt; "  a loop from 6 to 5: ")?;
    submit(rt, host, looped(6, 5))
}

/// '14: snapshot gain outside 0..2.'
fn snapshot_gain(rt: &impl Print) -> io::Result<()> {
    let mut host = small();
    let was = host;
    print!(rt; "  a snapshot of gain 2.5: ")?;
    print::answer(rt, host.apply(playing(1, 2.5, None)))?;
    kept(rt, host.is_as(&was))
}

/// '15: queue full.' 22 comes before it, and is not counted as dropped.
fn queue_full(rt: &impl Print) -> io::Result<()> {
    let mut host = small();
    host.queue_one(Submission::Play);
    host.queue_one(Submission::Pause);
    print!(rt; "  a third command in a queue of 2: ")?;
    submit_full(rt, host)?;
    print!(rt; "  a loop from 5 to 5 in its place: ")?;
    submit(rt, host, looped(5, 5))
}

/// A session whose capture of 1 is on, and full.
fn capture_one() -> Small {
    let mut host = small();
    let _ = host.start_capture();
    host.queue_one(Submission::Play);
    host
}

/// '16: capture on and full.' 22 comes before it.
fn captured(rt: &impl Print) -> io::Result<()> {
    let host = capture_one();
    print!(rt; "  a second command in a capture of 1: ")?;
    submit(rt, host, Submission::Pause)?;
    print!(rt; "  a loop from 5 to 5 in its place: ")?;
    submit(rt, host, looped(5, 5))
}

/// '17: a stinger while queued stingers + sounding voices = 16.' The queue holds 17.
fn stingers(rt: &impl Print) -> io::Result<()> {
    let settings = Settings { queue: 17, ..SMALL };
    let mut host: Host<85, 16> = Host::open(settings, &SONG, 2);
    let bell = handle_of(host.load(&CLICK, Kind::Stinger, RATE));
    let ring = Submission::Stinger(bell, 1.0);
    for _ in 0..16 {
        let _ = host.submit(ring, At::Frame(ClockFrame(9)));
    }
    print!(rt; "  a stinger when 16 are queued: ")?;
    submit(rt, host, ring)
}

/// '18: submission number 2^64 - 1 already given.' 22 comes before it.
fn numbers(rt: &impl Print) -> io::Result<()> {
    let mut host = small();
    host.session.desk.number = 18446744073709551615;
    print!(rt; "  a command when number 2^64 - 1 is given: ")?;
    submit(rt, host, Submission::Play)?;
    print!(rt; "  a loop from 5 to 5 in its place: ")?;
    submit(rt, host, looped(5, 5))
}

/// '19: clip held by song, tail, voice, queue or running capture.'
fn song_held(rt: &impl Print) -> io::Result<()> {
    let mut host = small();
    let was = host;
    print!(rt; "  retire of the song: ")?;
    print::answer(rt, host.retire(was.session.song()))?;
    kept(rt, host.is_as(&was))
}

/// '20: list for captured records too short.'
fn list_short(rt: &impl Print) -> io::Result<()> {
    let host = capture_one();
    let mut list = [7; 4];
    print!(rt; "  stop capture of 1 record into a list of 4 words: ")?;
    let r = control::stop_capture(host.session, &host.queue, &host.capture, &mut list);
    print::stop_answer(rt, r.answer)?;
    kept(
        rt,
        crate::same::session(host.session, r.session) & (list == [7; 4]),
    )
}

fn row(at: u64, kind: u64, first: u64, second: u64) -> Row {
    Row {
        at,
        number: 1,
        kind,
        first,
        second,
    }
}

/// A list of four records.
fn list_of(rows: [Row; 4]) -> [u64; 20] {
    let mut list = [0; 20];
    timeline::put_row(&mut list, 0, rows[0]);
    timeline::put_row(&mut list, 1, rows[1]);
    timeline::put_row(&mut list, 2, rows[2]);
    timeline::put_row(&mut list, 3, rows[3]);
    list
}

fn replay(rt: &impl Print, host: &mut Small, list: &[u64; 20]) -> io::Result<()> {
    let r = submission::replay(host.session, &mut host.queue, &host.capture, list);
    host.session = r.session;
    print::replay_answer(rt, r.answer)
}

fn metrics(rt: &impl Print, host: &Small) -> io::Result<()> {
    print!(rt; "\n    then metrics: ")?;
    let r = control::metrics(host.session, &host.queue, &host.capture);
    print::metrics_answer(rt, r.answer)?;
    println!(rt)
}

/// '21: replayed record unreadable (seen only as a skip).' 'It reports taken, queue-full and otherwise skipped.'
/// The second of the four is of kind 11.
fn unreadable(rt: &impl Print) -> io::Result<()> {
    let mut host = small();
    let list = list_of([
        row(8, 1, 0, 0),
        row(8, 11, 0, 0),
        row(4, 2, 0, 0),
        row(2, 3, 0, 0),
    ]);
    print!(rt; "  replay of 4 records into a queue of 2, the second of kind 11, which is 21: ")?;
    replay(rt, &mut host, &list)?;
    metrics(rt, &host)
}

/// 22 in a replayed record: otherwise skipped, also where the queue is full. The first and the third of four loops are senseless.
fn senseless(rt: &impl Print) -> io::Result<()> {
    let mut host = small();
    let list = list_of([
        row(8, 6, 5, 5),
        row(8, 6, 5, 6),
        row(8, 6, 6, 5),
        row(8, 6, 5, 7),
    ]);
    print!(rt; "  replay of loops 5..5, 5..6, 6..5 and 5..7 into a queue of 2: ")?;
    replay(rt, &mut host, &list)?;
    print!(rt; "\n    once more: ")?;
    replay(rt, &mut host, &list)?;
    metrics(rt, &host)
}

pub fn all(rt: &impl Print) -> io::Result<()> {
    println!(rt; "each refusal number, at a call that meets it")?;
    stores(rt)?;
    altered(rt)?;
    pools(rt)?;
    odd(rt)?;
    clock(rt)?;
    samples(rt)?;
    modes(rt)?;
    slots(rt)?;
    serials(rt)?;
    room(rt)?;
    handles(rt)?;
    snapshot_gain(rt)?;
    queue_full(rt)?;
    captured(rt)?;
    stingers(rt)?;
    numbers(rt)?;
    song_held(rt)?;
    list_short(rt)?;
    unreadable(rt)?;
    senseless(rt)
}
