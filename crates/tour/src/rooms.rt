//! The sounds of the tour: two rooms and a bell, each a falling saw.
ghost use Rattle.std.specs.Prelude.{◌<◌};

/// How a clip sounds.
#[derive(Clone, Copy)]
pub struct Tone {
    /// The saw's period in frames.
    pub period: u32,
    /// How many frames a beat takes to fall from full to silence.
    pub beat: u32,
    pub left: f32,
    pub right: f32,
    ghost goes_round: { 0 < period },
    ghost falls: { 0 < beat },
}

/// 200 Hz, to the left, two beats to a bar of 1,000 frames.
pub const HALL: Tone = Tone {
    period: 40,
    beat: 500,
    left: 0.625,
    right: 0.25,
};

/// 320 Hz, to the right, a beat to a bar.
pub const NAVE: Tone = Tone {
    period: 25,
    beat: 1000,
    left: 0.125,
    right: 0.75,
};

/// 1,000 Hz, in the middle, a single beat.
pub const BELL: Tone = Tone {
    period: 8,
    beat: 600,
    left: 0.5,
    right: 0.5,
};

/// How far a frame is into the cycle that it falls in, from 0 up to 1.
fn through(frame: u32, cycle: u32) -> f32
    requires { 0 < cycle }
{
    std::num::nearest_u32_to_f32(frame % cycle) / std::num::nearest_u32_to_f32(cycle)
}

impl Tone {
    /// A frame at full: the saw rises from -1 to 1, the beat falls from 1 to 0.
    fn level(self, frame: u32) -> f32 {
        let saw = through(frame, self.period) * 2.0 - 1.0;
        let fall = 1.0 - through(frame, self.beat);
        saw * fall
    }

    /// Fills a clip from its first frame on. Frames are counted in 32 bits, which divide faster than 64.
    pub fn sound(self, clip: &mut [f32]) {
        for (frame, samples) in (0..u32::MAX).zip(clip.chunks_mut(2)) {
            if let [left, right] = samples {
                let x = self.level(frame);
                *left = x * self.left;
                *right = x * self.right;
            }
        }
    }
}
