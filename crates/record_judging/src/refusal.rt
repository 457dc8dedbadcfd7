//! Why a record is refused.
use std::alloc::AllocError;

/// A part of a record.
#[derive(Clone, Copy)]
pub enum Part {
    /// The object with `flow` and `calls`, or the first line.
    Head,
    /// The value of `flow`.
    Flow,
    /// The call of this number, from 1.
    Call(usize),
}

/// What is wrong with a part.
#[derive(Clone, Copy)]
pub enum Wrong {
    /// The value of a key is not what is expected. `words` are the words that it may be.
    Value {
        key: &'static str,
        expected: &'static str,
        words: &'static [&'static str],
    },
    /// The object lacks the key. `words` are the words that its value may be.
    Missing {
        key: &'static str,
        expected: &'static str,
        words: &'static [&'static str],
    },
    /// The object has a key that is not known.
    Key {
        known: &'static [&'static str],
    },
    /// The part is no object.
    NoObject,
}

/// Why a record is refused.
#[derive(Clone, Copy)]
pub struct Refusal {
    pub part: Part,
    pub wrong: Wrong,
}

/// Why no sheet was read.
#[derive(Clone, Copy)]
pub enum Unread {
    Refused(Refusal),
    NotJson,
    OutOfMemory,
}

impl From<AllocError> for Unread {
    fn from(_error: AllocError) -> Unread {
        Unread::OutOfMemory
    }
}

/// Returns the refusal of a key's value that is not what is expected.
pub fn unfit(
    part: Part,
    key: &'static str,
    expected: &'static str,
    words: &'static [&'static str],
) -> Unread {
    let wrong = Wrong::Value {
        key,
        expected,
        words,
    };
    Unread::Refused(Refusal { part, wrong })
}

/// Returns the refusal of an object that lacks the key.
pub fn missing(
    part: Part,
    key: &'static str,
    expected: &'static str,
    words: &'static [&'static str],
) -> Unread {
    let wrong = Wrong::Missing {
        key,
        expected,
        words,
    };
    Unread::Refused(Refusal { part, wrong })
}

/// Returns the refusal of an object with a key that is none of these.
pub fn unknown_key(part: Part, known: &'static [&'static str]) -> Unread {
    let wrong = Wrong::Key { known };
    Unread::Refused(Refusal { part, wrong })
}

/// Returns the refusal of a part that is no object.
pub fn no_object(part: Part) -> Unread {
    let wrong = Wrong::NoObject;
    Unread::Refused(Refusal { part, wrong })
}
