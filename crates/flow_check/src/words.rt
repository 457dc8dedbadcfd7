//! States as words of 32 bits.
ghost use Rattle.std.specs.Prelude.{◌≡◌, ℕ, List, IfOk, drop, take, slice_index};
ghost use Rattle.flow_check.specs.Words.{number_in_words, maybe_of, parts_in_words};

use std::alloc::{AllocError, Global};

/// Returns the word of this index, 0 if there is none.
pub fn word_at(words: &[u32], index: usize) -> u32
    ensures { result ≡ slice_index words.now index }
{
    match words.get(index) {
        None => 0,
        Some(word) => *word,
    }
}

/// Returns the words from this index on.
pub fn words_from(words: &[u32], index: usize) -> &[u32]
    ensures { result.now ≡ drop index words.now }
{
    if index <= words.len() {
        let (_, others) = words.split_at(index);
        others
    } else {
        &[]
    }
}

/// Returns the words before this index.
pub fn words_before(words: &[u32], index: usize) -> &[u32]
    ensures { result.now ≡ take index words.now }
{
    if index <= words.len() {
        let (front, _) = words.split_at(index);
        front
    } else {
        words
    }
}

/// Returns the number that the first two words encode.
pub fn number_of(words: &[u32]) -> u64
    ensures { result ≡ number_in_words words.now }
{
    word_at(words, 0) as u64 + 4_294_967_296 * word_at(words, 1) as u64
}

/// Returns the number that a word encodes, or None if it is missing.
pub fn maybe_of(word: u32) -> Option<usize>
    ensures { result ≡ maybe_of word }
{
    if word == 0 {
        None
    } else {
        Some((word - 1) as usize)
    }
}

/// Writes the low half of a number, and then the high one.
pub fn write_number(words: &mut Vec<u32>, number: u64) -> Result<(), AllocError> {
    words.push((number & 0xffff_ffff) as u32)?;
    words.push((number >> 32) as u32)?;
    Ok(())
}

/// Writes a number. One that is too large is written as the greatest word, and then read as another number.
pub fn write_small(words: &mut Vec<u32>, number: usize) -> Result<(), AllocError> {
    words.push(u32::try_from(number).unwrap_or(u32::MAX))?;
    Ok(())
}

/// Writes a number that may be missing.
pub fn write_maybe(words: &mut Vec<u32>, number: Option<usize>) -> Result<(), AllocError> {
    let word = number.map_or(0, |number| number.saturating_add(1));
    write_small(words, word)
}

/// A part of a state that words encode.
pub trait Part: Drop {
    /// The part that the first words encode.
    ghost part: { List ℕ → Self };

    /// The words after it.
    ghost others: { List ℕ → List ℕ };

    fn read(alloc: Global, words: &[u32]) -> Result<Self, AllocError>
        ensures { IfOk result (λ read. read ≡ part words.now) };

    fn others(words: &[u32]) -> &[u32]
        ensures { result.now ≡ others words.now };

    /// Writes the part. The words are not proved to be right.
    fn write(&self, words: &mut Vec<u32>) -> Result<(), AllocError>;
}

/// Reads `count` parts.
pub fn read_parts<P: Part>(alloc: Global, words: &[u32], count: usize) -> Result<Vec<P>, AllocError>
    ensures { IfOk result (λ read. read.items ≡ parts_in_words P.part P.others count words.now) }
{
    let mut parts = Vec::new(alloc);
    let mut rest = words;
    for _ in 0..count {
        parts.push(P::read(alloc, rest)?)?;
        rest = P::others(rest);
    }
    Ok(parts)
}

/// Writes parts.
pub fn write_parts<P: Part>(words: &mut Vec<u32>, parts: &[P]) -> Result<(), AllocError> {
    for part in parts {
        part.write(words)?;
    }
    Ok(())
}

impl Part for u64 {
    ghost part = { number_in_words };

    ghost others = { drop 2 };

    fn read(_alloc: Global, words: &[u32]) -> Result<Self, AllocError> {
        Ok(number_of(words))
    }

    fn others(words: &[u32]) -> &[u32] {
        words_from(words, 2)
    }

    fn write(&self, words: &mut Vec<u32>) -> Result<(), AllocError> {
        write_number(words, *self)
    }
}
