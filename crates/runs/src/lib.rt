//! Runs of frames: as many as there are in which no voice ends, and of their song, master and tail as many as there are in
//! which nothing is decided anew.
#![tactic(auto)]

ghost use Rattle.std.specs.Prelude.{◌≡◌, ◌+◌, ◌*◌, ◌≤◌, ◌<◌, ◌++◌, length, drop, true};
ghost use Rattle.transport.specs.Transport.{is_playing};
ghost use Rattle.stage.specs.Mode.{is_house};
ghost use Rattle.stage.specs.Machine.{output_of, passes_of};
ghost use Rattle.bank.specs.Recording.{recording_of, view_of};
ghost use Rattle.oneshot.specs.Mix.{sounding};
ghost use Rattle.oneshot.specs.Sounding.{Each, Ready};
ghost use Rattle.sweeps.specs.Over.{over};
ghost use Rattle.sweeps.specs.Adds.{ticks_of};
ghost use Rattle.runs.specs.Voices.{voice_by, voices_by, Lasts, LastsIn, Still, stream_of, voice_on, sums};
ghost use Rattle.runs.specs.Core.{core_made, core_after, core_adds, passes_in, CoreReady};
ghost use Rattle.runs.specs.Run.{cursor_by, transport_by, tail_by, core_by, end_of, Inside, Steady, Fading, Calm, part_of, song_part, over_adds, OverReady, slot_of};
ghost use Rattle.runs.specs.Frames.{stretch_of, FramesReady};

use bank::{Bank, Clip};
use counts::{ClockFrame, Handle, SamplePlace, SongFrame};
use oneshot::{Pair, Voice, Voices};
use ramp::Ramp;
use stage::{Fade, Playhead, Settings, Sound, Stage, Tail};
use sweeps::Stream;
use transport::Transport;

/// So many frames of a voice whose clip has more: each adds its share.
fn voice_on(v: Voice, pool: &[f32], clip: Clip, out: &mut [f32], frames: usize) -> Voice
    requires { LastsIn (length pool.now) frames v clip × (frames * 2 ≤ length out.old) }
    ensures { (result ≡ voice_by frames v) × (out.new ≡ voice_on pool.now clip frames v out.old) }
{
    let head = v.head.0;
    let at = (clip.start * 2) as usize + head;
    let gain = sweeps::add_part(pool, Some(at), out, frames, v.gain);
    Voice {
        head: SamplePlace(head + frames * 2),
        gain,
        ..v
    }
}

/// A voice whose gain stands still, as a stream of the pool.
fn stream_of(v: Voice, clip: Clip) -> Stream
    requires { clip.start * 2 + v.head.0 < 9223372036854775808 }
    ensures { result ≡ stream_of v clip }
{
    let start = (clip.start * 2) as usize;
    Stream {
        at: start + v.head.0,
        gain: v.gain.value,
    }
}

/// A voice whose gain stands still, so many frames on.
fn still_by(v: Voice, frames: usize) -> Voice
    requires { Still v × (v.head.0 + frames * 2 < 9223372036854775808) }
    ensures { result ≡ voice_by frames v }
{
    let next = v.head.0 + frames * 2;
    Voice {
        head: SamplePlace(next),
        ..v
    }
}

/// What four voices have, in firing order.
#[derive(Clone, Copy)]
struct Four<T> {
    a: T,
    b: T,
    c: T,
    d: T,
}

/// The gains of four voices stand still.
fn all_still(v: Four<Voice>) -> bool
    ensures { result ≡ true → Still v.a × Still v.b × Still v.c × Still v.d }
{
    v.a.gain.at_target() & v.b.gain.at_target() & v.c.gain.at_target() & v.d.gain.at_target()
}

/// So many frames of four voices whose clips have more: each adds its share, in turn. Where their gains stand still, they are added together.
fn four_on(
    v: Four<Voice>,
    pool: &[f32],
    clips: Four<Clip>,
    out: &mut [f32],
    frames: usize,
) -> Four<Voice>
    requires { LastsIn (length pool.now) frames v.a clips.a × LastsIn (length pool.now) frames v.b clips.b × LastsIn (length pool.now) frames v.c clips.c × LastsIn (length pool.now) frames v.d clips.d × (frames * 2 ≤ length out.old) }
    ensures { (result ≡ record { a = voice_by frames v.a; b = voice_by frames v.b; c = voice_by frames v.c; d = voice_by frames v.d }) × (out.new ≡ voice_on pool.now clips.d frames v.d (voice_on pool.now clips.c frames v.c (voice_on pool.now clips.b frames v.b (voice_on pool.now clips.a frames v.a out.old)))) }
{
    if all_still(v) {
        let sa = stream_of(v.a, clips.a);
        let sb = stream_of(v.b, clips.b);
        let sc = stream_of(v.c, clips.c);
        let sd = stream_of(v.d, clips.d);
        sweeps::add_four(pool, sa, sb, sc, sd, out, frames * 2);
        return Four {
            a: still_by(v.a, frames),
            b: still_by(v.b, frames),
            c: still_by(v.c, frames),
            d: still_by(v.d, frames),
        };
    }
    Four {
        a: voice_on(v.a, pool, clips.a, &mut out[..], frames),
        b: voice_on(v.b, pool, clips.b, &mut out[..], frames),
        c: voice_on(v.c, pool, clips.c, &mut out[..], frames),
        d: voice_on(v.d, pool, clips.d, &mut out[..], frames),
    }
}

/// The frames of a voice before its last one.
fn voice_ahead(v: Voice, clip: Clip) -> usize
    requires { (v.head.0 + 1 < clip.frames * 2) × (clip.frames * 2 < 9223372036854775808) }
    ensures { v.head.0 + result * 2 < clip.frames * 2 }
{
    let samples = (clip.frames * 2) as usize;
    let left = (samples - v.head.0) / 2;
    left - 1
}

/// At most so many frames, before any voice's last one.
fn voices_ahead(voices: Voices, pool: &[f32], bank: Bank, most: usize) -> usize
    requires { Ready (length pool.now) bank voices }
    ensures { (result ≤ most) × Each (Lasts (view_of pool.now bank) result) voices }
{
    let mut least = most;
    for i in 0..voices.count {
        let v = voices.table[i];
        let clip = bank.clips[v.handle.slot as usize];
        let left = voice_ahead(v, clip);
        least = least.min(left);
    }
    least
}

/// The stinger sums of so many frames, and the voices after them.
fn mix_on(voices: Voices, pool: &[f32], bank: Bank, out: &mut [f32], frames: usize) -> Voices
    requires { Ready (length pool.now) bank voices × Each (Lasts (view_of pool.now bank) frames) voices × (frames * 2 ≤ length out.old) }
    ensures { (result ≡ voices_by frames voices) × (out.new ≡ over (sums (view_of pool.now bank) (sounding voices)) 0 (frames * 2) out.old) }
{
    let mut table = voices.table;
    let count = voices.count;
    sweeps::clear(&mut out[..], frames * 2);
    let mut i: usize = 0;
    while i < count {
        if 4 <= count - i {
            let a = table[i];
            let b = table[i + 1];
            let c = table[i + 2];
            let d = table[i + 3];
            let clips = Four {
                a: bank.clips[a.handle.slot as usize],
                b: bank.clips[b.handle.slot as usize],
                c: bank.clips[c.handle.slot as usize],
                d: bank.clips[d.handle.slot as usize],
            };
            let w = four_on(Four { a, b, c, d }, pool, clips, &mut out[..], frames);
            table[i] = w.a;
            table[i + 1] = w.b;
            table[i + 2] = w.c;
            table[i + 3] = w.d;
            i += 4;
        } else {
            let v = table[i];
            let clip = bank.clips[v.handle.slot as usize];
            table[i] = voice_on(v, pool, clip, &mut out[..], frames);
            i += 1;
        }
    }
    Voices { table, ..voices }
}

// ---- a run of song and tail

/// A clip from a cursor on; past the clip silence.
fn part_of(clip: Clip, cursor: SongFrame) -> Option<usize>
    requires { (clip.start + clip.frames) * 2 < 9223372036854775808 }
    ensures { result ≡ part_of clip cursor.0 }
{
    let c = cursor.0;
    if c < clip.frames {
        return Some(((clip.start + c) * 2) as usize);
    }
    None
}

/// The song, if it plays.
fn song_part(clip: Clip, t: Transport) -> Option<usize>
    requires { (clip.start + clip.frames) * 2 < 9223372036854775808 }
    ensures { result ≡ song_part clip t }
{
    if t.state.is_playing() {
        return part_of(clip, t.cursor);
    }
    None
}

/// A cursor so many frames on, in which it does not pass its clip's end.
fn cursor_by(frames: u64, cursor: SongFrame, n: usize) -> SongFrame
    requires { Inside frames cursor.0 n }
    ensures { result ≡ record { 0 = cursor_by frames cursor.0 n } }
{
    let c = cursor.0;
    if c < frames {
        return SongFrame(c + n as u64);
    }
    cursor
}

/// A transport so many frames on.
fn transport_by(t: Transport, frames: u64, n: usize) -> Transport
    requires { (is_playing t.state ≡ true → Inside frames t.cursor.0 n) × (is_playing t.state ≡ true → t.position.0 + n < 18446744073709551616) }
    ensures { result ≡ transport_by frames n t }
{
    if t.state.is_playing() {
        return Transport {
            position: SongFrame(t.position.0 + n as u64),
            cursor: cursor_by(frames, t.cursor, n),
            ..t
        };
    }
    t
}

/// The master and the tail, so many frames on.
#[derive(Clone, Copy)]
struct Over {
    master: Ramp,
    fade: Fade,
}

/// So many frames of song and tail, over the sums that stand there. The clip is the tail's.
fn over_sums(
    house: bool,
    pool: &[f32],
    song: Option<usize>,
    clip: Clip,
    master: Ramp,
    fade: Fade,
    out: &mut [f32],
    n: usize,
) -> Over
    requires { OverReady pool.now song clip n (length out.old) fade.tail }
    ensures { (result.master ≡ ticks_of n master) × (result.fade.tail ≡ tail_by clip.frames n fade.tail) × (out.new ≡ over (over_adds house pool.now song clip master fade.tail) 0 (n * 2) out.old) }
{
    match fade.tail {
        None => {
            let g = sweeps::add_part(pool, song, out, n, master);
            Over { master: g, fade }
        }
        Some(t) => {
            let part = part_of(clip, t.cursor);
            let gains = sweeps::add_both(house, pool, song, part, out, n, master, t.weight);
            let tail = Tail {
                cursor: cursor_by(clip.frames, t.cursor, n),
                weight: gains.weight,
                ..t
            };
            Over {
                master: gains.master,
                fade: Fade { tail: Some(tail) },
            }
        }
    }
}

// ---- how far

/// At most so many frames in which a cursor does not pass its clip's end.
fn cursor_ahead(frames: u64, cursor: SongFrame, most: usize) -> usize
    ensures { (result ≤ most) × Inside frames cursor.0 result }
{
    let c = cursor.0;
    if c < frames {
        return most.min((frames - c) as usize);
    }
    most
}

/// At most so many frames in which a position does not come to an end; 0 if it stands there.
fn position_ahead(position: u64, end: u64, most: usize) -> usize
    ensures { (result ≤ most) × (0 < result → position + result < end) }
{
    if position < end {
        let left = (end - position) as usize;
        return most.min(left - 1);
    }
    0
}

/// Where a position must not come to.
fn end_of(t: Transport, extent: SongFrame) -> u64
    ensures { result ≡ end_of extent.0 t.looped }
{
    t.looped.map_or(extent.0, |l| l.end.0)
}

/// At most so many frames in which a transport neither wraps nor stops.
fn song_ahead(t: Transport, frames: u64, extent: SongFrame, most: usize) -> usize
    ensures { (result ≤ most) × (0 < result → Steady frames extent.0 result t) }
{
    if t.state.is_playing() {
        let reads = cursor_ahead(frames, t.cursor, most);
        return position_ahead(t.position.0, end_of(t, extent), reads);
    }
    most
}

/// At most so many frames in which the tail's weight does not land.
fn tail_ahead(tail: Option<Tail>, frames: u64, most: usize) -> usize
    ensures { (result ≤ most) × (0 < result → Fading frames result tail) }
{
    match tail {
        None => most,
        Some(t) => {
            let reads = cursor_ahead(frames, t.cursor, most);
            position_ahead(0, t.weight.remaining as u64, reads)
        }
    }
}

// ---- song, master and tail

/// What makes a frame over the stinger sum: the song, the master and the tail.
#[derive(Clone, Copy)]
struct Core {
    playhead: Playhead,
    master: Ramp,
    fade: Fade,
}

/// A core a frame on, the frame, and how many times the playhead passed from the loop's end to its start.
#[derive(Clone, Copy)]
struct Made {
    core: Core,
    out: Pair,
    passes: u64,
}

/// A core so many frames on, and the passes made in them.
#[derive(Clone, Copy)]
struct Gone {
    core: Core,
    frames: usize,
    passes: u64,
}

/// What a core's frames are made by: the settings, the song's clip, and the tail's.
#[derive(Clone, Copy)]
struct Given {
    settings: Settings,
    song: Clip,
    clip: Clip,
}

impl Core {
    /// At most so many frames in which nothing is decided anew.
    fn ahead(self, given: Given, most: usize) -> usize
        ensures { (result ≤ most) × (0 < result → Calm given.song given.clip result self) }
    {
        let extent = bank::extent_of(given.song.kind);
        let first = song_ahead(self.playhead.transport, given.song.frames, extent, most);
        tail_ahead(self.fade.tail, given.clip.frames, first)
    }

    /// So many frames at once, in which nothing is decided anew, over the sums that stand there. No frames: nothing.
    fn run(self, given: Given, pool: &[f32], out: &mut [f32], n: usize) -> Core
        requires { CoreReady (length pool.now) given.song given.clip self × (0 < n → Calm given.song given.clip n self) × (n * 2 ≤ length out.old) }
        ensures { (result ≡ core_by given.song.frames given.clip.frames n self) × (out.new ≡ over (over_adds (is_house given.settings) pool.now (song_part given.song self.playhead.transport) given.clip self.master self.fade.tail) 0 (n * 2) out.old) }
    {
        if n == 0 {
            return self;
        }
        let t = self.playhead.transport;
        let part = song_part(given.song, t);
        let house = given.settings.is_house();
        let made = over_sums(
            house,
            pool,
            part,
            given.clip,
            self.master,
            self.fade,
            out,
            n,
        );
        Core {
            playhead: Playhead {
                transport: transport_by(t, given.song.frames, n),
                ..self.playhead
            },
            master: made.master,
            fade: made.fade,
        }
    }

    /// One frame over a sum: a and b, the playhead's step; d: g = master tick, out = song × g, plus the tail's share, plus the
    /// sum, in that order of adding.
    fn frame(self, given: Given, pool: &[f32], sum: Pair) -> Made
        requires { CoreReady (length pool.now) given.song given.clip self }
        ensures { result ≡ core_made given.settings (recording_of pool.now given.song) (recording_of pool.now given.clip) self sum }
    {
        let extent = bank::extent_of(given.song.kind);
        let moved = self
            .playhead
            .step(given.settings, given.song.frames, extent);
        let pair = stage::played(pool, given.song, moved);
        let ticked = self.master.tick();
        let g = ticked.value;
        let faded = self
            .fade
            .step_of(given.settings, pool, given.clip, g, pair.times(g));
        Made {
            core: Core {
                playhead: moved.playhead,
                master: ticked.ramp,
                fade: faded.fade,
            },
            out: faded.out.plus(sum),
            passes: moved.passes,
        }
    }

    /// Some frames over the sums that stand there: those in which nothing is decided anew at once, and after them one by the
    /// rules.
    fn go_on(self, given: Given, pool: &[f32], out: &mut [f32], most: usize) -> Gone
        requires { CoreReady (length pool.now) given.song given.clip self × (0 < most) × (most * 2 ≤ length out.old) }
        ensures { (0 < result.frames) × (result.frames ≤ most) × (result.core ≡ core_after given.settings (recording_of pool.now given.song) (recording_of pool.now given.clip) result.frames self) × (out.new ≡ over (core_adds given.settings (recording_of pool.now given.song) (recording_of pool.now given.clip) self) 0 (result.frames * 2) out.old) × (result.passes ≡ passes_in given.settings (recording_of pool.now given.song) (recording_of pool.now given.clip) result.frames self) }
    {
        let ahead = self.ahead(given, most);
        let core = self.run(given, pool, &mut out[..], ahead);
        if ahead == most {
            return Gone {
                core,
                frames: most,
                passes: 0,
            };
        }
        let left = ahead * 2;
        let right = left + 1;
        let sum = Pair {
            left: out[left],
            right: out[right],
        };
        let made = core.frame(given, pool, sum);
        out[left] = made.out.left;
        out[right] = made.out.right;
        Gone {
            core: made.core,
            frames: ahead + 1,
            passes: made.passes,
        }
    }
}

/// So many frames of song, master and tail, over the sums that stand there.
fn over_frames(core: Core, given: Given, pool: &[f32], out: &mut [f32], frames: usize) -> Gone
    requires { CoreReady (length pool.now) given.song given.clip core × (frames * 2 ≤ length out.old) }
    ensures { (result ≡ record { core = core_after given.settings (recording_of pool.now given.song) (recording_of pool.now given.clip) frames core; frames = frames; passes = passes_in given.settings (recording_of pool.now given.song) (recording_of pool.now given.clip) frames core }) × (out.new ≡ over (core_adds given.settings (recording_of pool.now given.song) (recording_of pool.now given.clip) core) 0 (frames * 2) out.old) }
{
    let mut core = core;
    let mut passes: u64 = 0;
    let mut done: usize = 0;
    while done < frames {
        let at = done * 2;
        let gone = core.go_on(given, pool, &mut out[at..], frames - done);
        core = gone.core;
        passes += gone.passes;
        done += gone.frames;
    }
    Gone {
        core,
        frames,
        passes,
    }
}

// ---- all of it

/// The slot of the tail's clip; without a tail the song's.
fn tail_slot(tail: Option<Tail>, song: Handle) -> u32
    ensures { result ≡ slot_of tail song }
{
    tail.map_or(song.slot, |t| t.song.slot)
}

/// A stage so many frames on, and the passes made in them.
#[derive(Clone, Copy)]
pub struct Further {
    pub stage: Stage,
    pub frames: usize,
    pub passes: u64,
}

/// Some frames of a stage: all of them without a voice, else those before one ends, and where one ends that frame.
pub fn frames_on(
    stage: Stage,
    settings: Settings,
    pool: &[f32],
    bank: Bank,
    out: &mut [f32],
    most: usize,
) -> Further
    requires { FramesReady pool.now bank most (length out.old) stage }
    ensures { (0 < result.frames) × (result.frames ≤ most) × (result.stage ≡ (stretch_of settings (view_of pool.now bank) result.frames stage).at.core) × (out.new ≡ output_of (stretch_of settings (view_of pool.now bank) result.frames stage).made ++ drop (result.frames * 2) out.old) × (result.passes ≡ passes_of (stretch_of settings (view_of pool.now bank) result.frames stage).made) }
{
    let handle = stage.playhead.song;
    let sound = stage.sound;
    let voices = sound.voices;
    let given = Given {
        settings,
        song: bank.clips[handle.slot as usize],
        clip: bank.clips[tail_slot(sound.fade.tail, handle) as usize],
    };
    let core = Core {
        playhead: stage.playhead,
        master: sound.master,
        fade: sound.fade,
    };
    if voices.count == 0 {
        sweeps::clear(&mut out[..], most * 2);
        let gone = over_frames(core, given, pool, out, most);
        let next = gone.core;
        return Further {
            stage: Stage {
                clock: ClockFrame(stage.clock.0 + most as u64),
                playhead: next.playhead,
                sound: Sound {
                    master: next.master,
                    fade: next.fade,
                    voices,
                },
                ..stage
            },
            frames: most,
            passes: gone.passes,
        };
    }
    let ahead = voices_ahead(voices, pool, bank, most);
    if ahead == 0 {
        let made = stage.frame(settings, pool, bank);
        out[0] = made.out.left;
        out[1] = made.out.right;
        return Further {
            stage: made.stage,
            frames: 1,
            passes: made.passes,
        };
    }
    let voices = mix_on(voices, pool, bank, &mut out[..], ahead);
    let gone = over_frames(core, given, pool, out, ahead);
    let next = gone.core;
    Further {
        stage: Stage {
            clock: ClockFrame(stage.clock.0 + ahead as u64),
            playhead: next.playhead,
            sound: Sound {
                master: next.master,
                fade: next.fade,
                voices,
            },
            ..stage
        },
        frames: ahead,
        passes: gone.passes,
    }
}
