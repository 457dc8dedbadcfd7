//! The forms, keys and objects of scripts, from which the tables of words are made.

use crate::form::members_len;
use serde_json::Value;
use std::alloc::{AllocError, Global};

/// The versions of the format.
#[derive(Clone, Copy)]
pub enum Version {
    One,
    Two,
}

impl Version {
    /// Returns the words in a message about a word that only the other version knows.
    pub fn words(self) -> &'static str {
        match self {
            Version::One => " in version 1",
            Version::Two => " in version 2",
        }
    }
}

/// The form that a value must have.
#[derive(Clone, Copy)]
pub enum Form {
    /// 1 or 2.
    Version,
    Signed,
    Unsigned,
    /// Below 2^32.
    Short,
    Name,
    OneOf(&'static [&'static str]),
    /// A text that says which keys its object has.
    Tag,
    /// A list of whole numbers, with the most that it may have.
    Numbers(usize),
    /// How many items a `flat_map` makes of one item.
    Spread,
    /// The first number and the last.
    Range,
    Entries,
    /// An item, a pending turn, or a fault.
    Entry,
    Started,
    Chain,
    Source,
    Operators,
    Operator,
    Flow,
    Flows,
    Steps,
    Step,
    Script,
}

/// The versions in which a key is known, and whether it is required.
#[derive(Clone, Copy)]
pub enum Need {
    Always,
    Maybe,
    OnlyInOne,
    OnlyInTwo,
    MaybeInTwo,
}

impl Need {
    /// Returns whether a version knows the word.
    pub fn is_known(self, version: Version) -> bool {
        match version {
            Version::One => !matches!(self, Need::OnlyInTwo | Need::MaybeInTwo),
            Version::Two => !matches!(self, Need::OnlyInOne),
        }
    }

    /// Returns whether a version requires the word.
    fn is_required(self, version: Version) -> bool {
        self.is_known(version) && !matches!(self, Need::Maybe | Need::MaybeInTwo)
    }
}

/// A key of an object.
#[derive(Clone, Copy)]
pub struct Key {
    pub word: &'static str,
    pub form: Form,
    pub need: Need,
}

/// A key of an object: its word, the form of its value, and the versions that know it.
macro_rules! key {
    ($word:expr, $form:expr, $need:expr) => {
        Key {
            word: $word,
            form: $form,
            need: $need,
        }
    };
}

pub(crate) use key;

/// An object of scripts: its name in messages, and its keys.
#[derive(Clone, Copy)]
pub struct Shape {
    pub name: &'static str,
    pub keys: &'static [Key],
}

impl Shape {
    /// Returns the key with this word, in any version.
    pub fn key_named(&self, word: &str) -> Option<Key> {
        self.keys.iter().find(|key| key.word == word).copied()
    }

    /// Returns the first required key that is missing.
    pub fn missing(&self, version: Version, object: &Value) -> Option<Key> {
        for key in self.keys {
            if key.need.is_required(version) && object.get(key.word).is_none() {
                return Some(*key);
            }
        }
        None
    }

    /// Returns whether an object has all required keys, and no unknown ones.
    pub fn fits(&self, version: Version, object: &Value) -> bool {
        let mut known = 0usize;
        for key in self.keys {
            if key.need.is_known(version) && object.get(key.word).is_some() {
                known = known.saturating_add(1);
            }
        }
        known == members_len(object) && self.missing(version, object).is_none()
    }
}

/// Returns the words of the keys that a version knows.
pub fn known_keys(
    alloc: Global,
    keys: &'static [Key],
    version: Version,
) -> Result<Vec<&'static str>, AllocError> {
    let mut words = Vec::new(alloc);
    for key in keys {
        if key.need.is_known(version) {
            words.push(key.word)?;
        }
    }
    Ok(words)
}

/// A row of a table: the word of a tag, and the object that has it.
#[derive(Clone, Copy)]
pub struct Row {
    pub word: &'static str,
    pub name: &'static str,
    pub keys: &'static [Key],
    pub need: Need,
}

/// Returns the row with this word, in any version.
pub fn row_named(rows: &'static [Row], word: &str) -> Option<Row> {
    rows.iter().find(|row| row.word == word).copied()
}

/// Returns the words of the rows that a version knows.
pub fn known_tags(
    alloc: Global,
    rows: &'static [Row],
    version: Version,
) -> Result<Vec<&'static str>, AllocError> {
    let mut words = Vec::new(alloc);
    for row in rows {
        if row.need.is_known(version) {
            words.push(row.word)?;
        }
    }
    Ok(words)
}

/// A row of a table: the word of a tag, the name of the object that has it, the object's keys, and the versions that
/// know both. Without name and versions, the word is the name, and each version knows it.
macro_rules! row {
    ($word:literal, $keys:expr) => {
        row!($word, $word, $keys, Need::Always)
    };
    ($word:expr, $name:expr, $keys:expr, $need:expr) => {
        Row {
            word: $word,
            name: $name,
            keys: $keys,
            need: $need,
        }
    };
}

pub(crate) use row;
