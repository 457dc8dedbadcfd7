//! The values of the keys of an object.
use crate::refusal::{Part, Unread, missing, no_object, unfit, unknown_key};
use crate::words::is_one_of;
use serde_json::Value;

const WHOLE: &str = "a whole number below 2^64";

const SMALL: &str = "a whole number below 2^32";

const TEXT: &str = "a word";

/// An object of a record.
#[derive(Clone, Copy)]
pub struct Fields<'a> {
    pub value: &'a Value,
    pub part: Part,
}

impl<'a> Fields<'a> {
    /// Refuses anything but an object whose keys are all among these.
    pub fn has_only(self, keys: &'static [&'static str]) -> Result<(), Unread> {
        let Some(members) = self.value.as_object() else {
            return Err(no_object(self.part));
        };
        for (name, _value) in members {
            if !is_one_of(name.as_str(), keys) {
                return Err(unknown_key(self.part, keys));
            }
        }
        Ok(())
    }

    /// Returns the value of a key, or `None` if the object lacks it.
    pub fn get(self, key: &'static str) -> Option<&'a Value> {
        self.value.get(key)
    }

    /// Returns the value of a key. Refuses an object that lacks it.
    pub fn need(self, key: &'static str, expected: &'static str) -> Result<&'a Value, Unread> {
        match self.value.get(key) {
            Some(value) => Ok(value),
            None => Err(missing(self.part, key, expected, &[])),
        }
    }

    pub fn whole(self, key: &'static str) -> Result<u64, Unread> {
        match self.need(key, WHOLE)?.as_u64() {
            Some(number) => Ok(number),
            None => Err(unfit(self.part, key, WHOLE, &[])),
        }
    }

    pub fn small(self, key: &'static str) -> Result<u32, Unread> {
        match self.need(key, SMALL)?.as_u64() {
            Some(number) if number <= 0xFFFF_FFFF => Ok(number as u32),
            _ => Err(unfit(self.part, key, SMALL, &[])),
        }
    }

    /// Returns the word of a key. Refuses a value that is no word; `words` are the words that it may be, if there are few.
    pub fn word(
        self,
        key: &'static str,
        words: &'static [&'static str],
    ) -> Result<&'a str, Unread> {
        let Some(value) = self.value.get(key) else {
            return Err(missing(self.part, key, TEXT, words));
        };
        match value.as_str() {
            Some(word) => Ok(word),
            None => Err(unfit(self.part, key, TEXT, words)),
        }
    }
}
