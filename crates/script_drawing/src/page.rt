//! A text that is written from its beginning to its end, and how wide a text is.

use std::alloc::{AllocError, Global};
use std::fmt;
use std::fmt::{Display, Write};

/// A text that is being written. If memory is refused, it no longer grows, and `finish` reports it: a caller need not
/// check each word.
#[derive(Drop)]
pub struct Page {
    text: String,
    /// Whether there was no memory for something.
    failed: bool,
}

impl Page {
    /// Returns an empty text.
    pub fn new(alloc: Global) -> Self {
        Page {
            text: String::new(alloc),
            failed: false,
        }
    }

    /// Returns another text, which is empty.
    pub fn another(&self) -> Self {
        Page::new(*self.text.allocator())
    }

    /// Adds some words.
    pub fn push_str(&mut self, words: &str) {
        self.failed = self.failed || self.text.push_str(words).is_err();
    }

    /// Adds the same character `count` times.
    pub fn push_times(&mut self, letter: char, count: usize) {
        for _ in 0..count {
            self.failed = self.failed || self.text.push(letter).is_err();
        }
    }

    /// Adds what `write!` and `writeln!` write.
    pub(crate) fn write_fmt<D: Display + Drop>(&mut self, words: D) {
        self.failed = self.failed || self.text.write_fmt(words).is_err();
    }

    /// Removes the spaces at the end, at most `most` of them.
    pub fn pop_spaces(&mut self, most: usize) {
        for _ in 0..most {
            if !self.text.ends_with(' ') {
                break;
            }
            self.text.pop();
        }
    }

    /// Records that there was no memory for a part of the text, so that `finish` fails.
    pub fn fail(&mut self) {
        self.failed = true;
    }

    /// Returns the text, or `AllocError` if there was no memory for all of it.
    pub fn finish(self) -> Result<String, AllocError> {
        if self.failed {
            return Err(AllocError);
        }
        Ok(self.text)
    }
}

/// The text before the lines of a script, and the text after them.
#[derive(Drop)]
pub struct Frame {
    pub before: String,
    pub after: String,
}

/// Counts the bytes that are written to it.
#[derive(Drop)]
struct Counter {
    count: usize,
}

impl Write for Counter {
    fn write_str(&mut self, s: &str) -> fmt::Result {
        self.count = self.count.saturating_add(s.len());
        Ok(())
    }
}

/// Returns how many characters a value has when it is written. Each of them is one byte.
pub fn width_of<D: Display + Drop>(value: D) -> usize {
    let mut counter = Counter { count: 0 };
    let _written = Write::write(&mut counter, value);
    counter.count
}
