//! The clips that seeds make, and the digests of samples and records.
use print::bits;

/// The samples that a seed makes, as many as a pool holds: a clip is the first of them.
pub fn made(seed: u64) -> [f32; 65536] {
    let mut samples = [0.0; 65536];
    let mut x = seed;
    for place in samples.iter_mut() {
        x = next(x);
        *place = sample(x);
    }
    samples
}

fn next(x: u64) -> u64 {
    ((x % 2147483648) * 1103515245 + 12345) % 2147483648
}

/// A sample from -0.5 to 0.5, in 65,536ths.
fn sample(x: u64) -> f32 {
    let steps = (x % 2147483648 / 32768) as u32;
    (std::num::nearest_u32_to_f32(steps) - 32768.0) / 65536.0
}

/// A digest with one more word of 32 bits.
fn stir(digest: u64, word: u64) -> u64 {
    (digest % 4294967291 * 16777619 + word % 4294967296) % 4294967291
}

/// The digest of samples.
pub fn of_samples(samples: &[f32]) -> u64 {
    samples.iter().fold(1, |digest, &x| stir(digest, bits(x)))
}

/// The digest of words: each as its low 32 bits, then its high 32 bits.
pub fn of_words(words: &[u64]) -> u64 {
    words.iter().fold(1, |digest, &word| {
        stir(stir(digest, word), word / 4294967296)
    })
}
