//! Hashes by which a search finds states again.
ghost use Rattle.std.specs.Prelude.{◌≡◌};

/// An odd number whose bits have no pattern.
const FACTOR: u64 = 0x9e37_79b9_7f4a_7c15;

/// The hash before anything is mixed into it.
pub const FIRST_MARK: u64 = FACTOR;

/// Mixes a word into a hash.
pub fn mix(mark: u64, word: u64) -> u64 {
    let mixed = (mark ^ word).wrapping_mul(FACTOR);
    mixed ^ (mixed >> 32)
}

/// Mixes words into a hash.
pub fn mix_all(mark: u64, words: &[u64]) -> u64 {
    let mut mixed = mix(mark, words.len() as u64);
    for word in words {
        mixed = mix(mixed, *word);
    }
    mixed
}
