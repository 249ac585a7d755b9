//! Everything that a frame or a command changes, and nothing else.
#![tactic(auto)]

ghost use Rattle.std.specs.Prelude.{◌≡◌, true, ◌<◌, length};
ghost use Rattle.counts.specs.Counts.{place_of};
ghost use Rattle.timeline.specs.Command.{claim_of, takes_voice};
ghost use Rattle.transport.specs.Transport.{loop_fits};
ghost use Rattle.bank.specs.Recording.{recording_of, view_of};
ghost use Rattle.oneshot.specs.Pair.{pair_at};
ghost use Rattle.oneshot.specs.Sounding.{LiesIn};
ghost use Rattle.stage.specs.Mode.{is_house};
ghost use Rattle.stage.specs.Playhead.{moved_of, playhead_by};
ghost use Rattle.stage.specs.Sound.{only, played_of, tail_share, faded_of, rendered_of, clamp_of, tail_from, sound_by};
ghost use Rattle.stage.specs.Counters.{counters_by};
ghost use Rattle.stage.specs.Stage.{frame_of, execute_of};
ghost use Rattle.stage.specs.Ready.{Fades, Sounding, FrameReady, Countable, ExecReady};

use bank::{Bank, Clip};
use counts::{ClockFrame, Handle, SongFrame};
use oneshot::{Pair, Voice, Voices};
use ramp::{Ramp, Tween};
use timeline::Command;
use transport::{LoopRange, Transport, TransportState};

/// How long a swap's tail sounds.
pub const SWAP_FADE_FRAMES: u32 = 1024;

/// How long a master gain change takes.
pub const GAIN_RAMP_FRAMES: u32 = 256;

/// The mode in which a swap's tail ignores the master, and rule a sends the cursor to the loop's start.
pub const AS_TONO: u32 = 0;

/// The mode in which a swap's tail is under the master, and rule a sends the cursor to the position.
pub const HOUSE: u32 = 1;

/// Fixed at opening: the rate, the mode, how many records the queue and the capture hold, and the pool's frames.
#[repr(C)]
#[derive(Clone, Copy)]
pub struct Settings {
    pub rate: u32,
    pub mode: u32,
    pub queue: usize,
    pub capture: usize,
    pub pool: u64,
}

impl Settings {
    /// The session is in house mode.
    pub fn is_house(self) -> bool
        ensures { result ≡ is_house self }
    {
        self.mode == HOUSE
    }
}

/// Where the song stands, and which song it is.
#[derive(Clone, Copy)]
pub struct Playhead {
    pub transport: Transport,
    pub song: Handle,
}

/// A playhead a frame on, the cursor at which the song is heard in that frame, if it plays, and how many times the playhead
/// passed from the loop's end to its start.
#[derive(Clone, Copy)]
pub struct Moved {
    pub playhead: Playhead,
    pub heard: Option<SongFrame>,
    pub passes: u64,
}

impl Playhead {
    /// Rules a and b. The song has so many frames, and so long an extent.
    #[tactic(auto, unfolding(crate::specs::Playhead::moved_of))]
    pub fn step(self, settings: Settings, frames: u64, extent: SongFrame) -> Moved
        requires { loop_fits extent.0 self.transport.looped ≡ true }
        ensures { result ≡ moved_of settings frames extent.0 self }
    {
        let s = self.transport.step(settings.is_house(), frames, extent);
        Moved {
            playhead: Playhead {
                transport: s.transport,
                ..self
            },
            heard: s.heard,
            passes: s.passes,
        }
    }

    /// What a command does to it.
    #[tactic(auto, unfolding(crate::specs::Playhead::playhead_by))]
    pub fn execute(self, extent: SongFrame, command: Command) -> Playhead
        ensures { result ≡ playhead_by extent.0 command self }
    {
        let t = self.transport;
        let transport = match command {
            Command::Play => t.play(),
            Command::Pause => t.pause(),
            Command::Stop => t.stop(),
            Command::Seek(f) | Command::Transition(f) => t.seek(f, extent),
            Command::Loop(start, end) => t.set_loop(Some(LoopRange { start, end }), extent),
            Command::ClearLoop => t.clear_loop(),
            Command::Gain(_) | Command::Stinger(_, _) => t,
            Command::Swap(song) => {
                return Playhead {
                    transport: Transport {
                        state: TransportState::Playing,
                        position: SongFrame(0),
                        cursor: SongFrame(0),
                        looped: None,
                        laps: 0,
                    },
                    song,
                };
            }
        };
        Playhead { transport, ..self }
    }
}

/// The song that a swap left behind: its clip, its cursor and its weight.
#[derive(Clone, Copy)]
pub struct Tail {
    pub song: Handle,
    pub cursor: SongFrame,
    pub weight: Ramp,
}

/// The place of the tail.
#[derive(Clone, Copy)]
pub struct Fade {
    pub tail: Option<Tail>,
}

/// A tail a frame on, and the frame with its share added.
#[derive(Clone, Copy)]
pub struct Faded {
    pub fade: Fade,
    pub out: Pair,
}

/// What sounds beside the song: the master gain over it, the tail and the voices.
#[derive(Clone, Copy)]
pub struct Sound {
    pub master: Ramp,
    pub fade: Fade,
    pub voices: Voices,
}

/// A sound a frame on, and the frame.
#[derive(Clone, Copy)]
pub struct Rendered {
    pub sound: Sound,
    pub out: Pair,
}

/// The pair at a cursor of a clip; past the clip +0.0.
pub fn read_at(pool: &[f32], clip: Clip, cursor: SongFrame) -> Pair
    requires { LiesIn (length pool.now) clip }
    ensures { result ≡ pair_at (recording_of pool.now clip) (place_of cursor) }
{
    if cursor.0 < clip.frames {
        return oneshot::pair_at(pool, clip, cursor.place());
    }
    Pair {
        left: 0.0,
        right: 0.0,
    }
}

/// If Playing, the song gives the pair at its cursor; if not Playing, +0.0.
#[tactic(auto, unfolding(crate::specs::Sound::played_of))]
pub fn played(pool: &[f32], song: Clip, m: Moved) -> Pair
    requires { LiesIn (length pool.now) song }
    ensures { result ≡ played_of (recording_of pool.now song) m }
{
    match m.heard {
        Some(c) => read_at(pool, song, c),
        None => Pair {
            left: 0.0,
            right: 0.0,
        },
    }
}

/// The tail's share of a frame: as tono tail × w, in house mode (tail × g) × w.
fn tail_share(settings: Settings, g: f32, tail: Pair, w: f32) -> Pair
    ensures { result ≡ tail_share settings g tail w }
{
    if settings.is_house() {
        return tail.times(g).times(w);
    }
    tail.times(w)
}

impl Fade {
    /// Where there is a tail: w ticks, its share is added, the tail reads straight on. It leaves after the frame in which its
    /// weight lands on 0. The clip is the tail's.
    #[tactic(auto, unfolding(crate::specs::Sound::with_tail, crate::specs::Sound::tail_on))]
    pub fn step_of(self, settings: Settings, pool: &[f32], clip: Clip, g: f32, out: Pair) -> Faded
        requires { LiesIn (length pool.now) clip }
        ensures { result ≡ faded_of settings (only (recording_of pool.now clip)) g self.tail out }
    {
        let Some(t) = self.tail else {
            return Faded { fade: self, out };
        };
        let ticked = t.weight.tick();
        let share = tail_share(settings, g, read_at(pool, clip, t.cursor), ticked.value);
        let cursor = transport::cursor_on(clip.frames, t.cursor);
        let weight = ticked.ramp;
        let landed = weight.at_target();
        let tail = if landed {
            None
        } else {
            Some(Tail {
                cursor,
                weight,
                ..t
            })
        };
        Faded {
            fade: Fade { tail },
            out: out.plus(share),
        }
    }

    /// The same, with the clip out of the bank.
    #[tactic(auto, unfolding(bank::specs::Recording::view_of, crate::specs::Sound::with_tail, crate::specs::Sound::tail_on))]
    pub fn step(self, settings: Settings, pool: &[f32], bank: Bank, g: f32, out: Pair) -> Faded
        requires { Fades (length pool.now) bank self.tail }
        ensures { result ≡ faded_of settings (view_of pool.now bank) g self.tail out }
    {
        match self.tail {
            None => Faded { fade: self, out },
            Some(t) => self.step_of(settings, pool, bank::clip_of(bank, t.song), g, out),
        }
    }
}

/// A gain is clamped to 0..2; -0.0 is taken as +0.0.
pub fn clamp(gain: f32) -> f32
    ensures { result ≡ clamp_of gain }
{
    if gain > 2.0 {
        return 2.0;
    }
    ramp::not_below(gain)
}

impl Sound {
    /// c mixes the voices; d: g = master tick, out = song × g, plus the tail's share, plus the stinger sum, in that order of
    /// adding.
    #[tactic(auto, unfolding(crate::specs::Sound::rendered_of))]
    pub fn render(self, settings: Settings, pool: &[f32], bank: Bank, song: Pair) -> Rendered
        requires { Sounding (length pool.now) bank self }
        ensures { result ≡ rendered_of settings (view_of pool.now bank) song self }
    {
        let mixed = self.voices.mix(pool, bank);
        let ticked = self.master.tick();
        let g = ticked.value;
        let faded = self.fade.step(settings, pool, bank, g, song.times(g));
        Rendered {
            sound: Sound {
                master: ticked.ramp,
                fade: faded.fade,
                voices: mixed.voices,
            },
            out: faded.out.plus(mixed.sum),
        }
    }

    /// What a command does to it: Gain sets the master, Swap makes the old song the tail, Stinger adds a voice.
    #[tactic(auto, unfolding(crate::specs::Sound::sound_by))]
    pub fn execute(self, settings: Settings, playhead: Playhead, command: Command) -> Sound
        requires { takes_voice (claim_of command) ≡ true → self.voices.count < 16 }
        ensures { result ≡ sound_by settings playhead command self }
    {
        match command {
            Command::Gain(gain) => Sound {
                master: self
                    .master
                    .set(clamp(gain), Tween::frames(GAIN_RAMP_FRAMES)),
                ..self
            },
            Command::Swap(_) => Sound {
                fade: Fade {
                    tail: Some(tail_from(playhead)),
                },
                ..self
            },
            Command::Stinger(h, gain) => Sound {
                voices: self.voices.add(Voice::fired(settings.rate, h, gain)),
                ..self
            },
            _ => self,
        }
    }
}

/// The old song becomes the tail, from 1 to 0 in 1,024 frames.
fn tail_from(playhead: Playhead) -> Tail
    ensures { result ≡ tail_from playhead }
{
    Tail {
        song: playhead.song,
        cursor: playhead.transport.cursor,
        weight: Ramp::new(1.0).set(0.0, Tween::frames(SWAP_FADE_FRAMES)),
    }
}

/// Commands executed, and of them the swaps and the stingers fired.
#[repr(C)]
#[derive(Clone, Copy)]
pub struct Counters {
    pub executed: u64,
    pub swaps: u64,
    pub fired: u64,
}

impl Counters {
    /// Each counts as executed; swaps and stingers also have counters.
    #[tactic(auto, unfolding(crate::specs::Counters::counters_by))]
    pub fn count(mut self, command: Command) -> Counters
        requires { Countable self }
        ensures { result ≡ counters_by command self }
    {
        self.executed += 1;
        match command {
            Command::Swap(_) => self.swaps += 1,
            Command::Stinger(_, _) => self.fired += 1,
            _ => {}
        }
        self
    }
}

/// The clock is the frames rendered.
#[derive(Clone, Copy)]
pub struct Stage {
    pub clock: ClockFrame,
    pub playhead: Playhead,
    pub sound: Sound,
    pub counters: Counters,
}

/// A stage a frame on, the frame, and how many times the playhead passed from the loop's end to its start.
#[derive(Clone, Copy)]
pub struct Framed {
    pub stage: Stage,
    pub out: Pair,
    pub passes: u64,
}

impl Stage {
    /// One frame: a and b, the playhead's step; c and d, the sound over the pair that the song gives; e, clock + 1.
    #[tactic(auto, unfolding(bank::specs::Recording::view_of, crate::specs::Stage::frame_of))]
    pub fn frame(self, settings: Settings, pool: &[f32], bank: Bank) -> Framed
        requires { FrameReady (length pool.now) bank self }
        ensures { result ≡ frame_of settings (view_of pool.now bank) self }
    {
        let song = bank::clip_of(bank, self.playhead.song);
        let moved = self
            .playhead
            .step(settings, song.frames, bank::extent_of(song.kind));
        let rendered = self
            .sound
            .render(settings, pool, bank, played(pool, song, moved));
        Framed {
            stage: Stage {
                clock: ClockFrame(self.clock.0 + 1),
                playhead: moved.playhead,
                sound: rendered.sound,
                ..self
            },
            out: rendered.out,
            passes: moved.passes,
        }
    }

    /// One command, where the song that plays has the length `extent`.
    #[tactic(auto, unfolding(crate::specs::Stage::execute_of))]
    pub fn execute(self, settings: Settings, extent: SongFrame, command: Command) -> Stage
        requires { ExecReady command self }
        ensures { result ≡ execute_of settings extent.0 command self }
    {
        Stage {
            playhead: self.playhead.execute(extent, command),
            sound: self.sound.execute(settings, self.playhead, command),
            counters: self.counters.count(command),
            ..self
        }
    }
}
