//! The forms of values: which values have them, their limits, and their words in messages.

use crate::chain_words::{MOST_ITEMS, MOST_SPREAD};
use crate::flow_words::STARTED_WORDS;
use crate::head::items_of;
use crate::words::Form;
use script_format::{MOST_FLOWS, MOST_STEPS, is_name};
use serde_json::Value;

/// Returns how many members an object has.
pub fn members_len(value: &Value) -> usize {
    match value.as_object() {
        Some(members) => members.len(),
        None => 0,
    }
}

/// Returns how many numbers a range has, if it has two bounds.
fn range_len(value: &Value) -> Option<u64> {
    let [first, last] = items_of(value) else {
        return None;
    };
    let (first, last) = (first.as_i64()?, last.as_i64()?);
    if first <= last {
        Some(last.abs_diff(first).saturating_add(1))
    } else {
        Some(0)
    }
}

/// Returns whether there is a value that is a whole number below 2^32.
fn is_short(value: Option<&Value>) -> bool {
    match value {
        Some(value) => matches!(value.as_u64(), Some(number) if number <= u32::MAX as u64),
        None => false,
    }
}

impl Form {
    /// Returns whether a value has the form. Looks at what a list or an object contains only for a range and a fault.
    pub fn fits(self, value: &Value) -> bool {
        let word = value.as_str().unwrap_or("");
        match self {
            Form::Version => matches!(value.as_u64(), Some(1 | 2)),
            Form::Signed => value.as_i64().is_some(),
            Form::Unsigned | Form::Spread => value.as_u64().is_some(),
            Form::Short => is_short(Some(value)),
            Form::Name => is_name(word),
            Form::OneOf(words) => words.contains(&word),
            Form::Tag => value.is_string(),
            Form::Numbers(_) | Form::Entries | Form::Operators | Form::Steps => value.is_array(),
            Form::Range => range_len(value).is_some(),
            Form::Entry => {
                value.is_i64()
                    || word == "pending"
                    || (members_len(value) == 1 && is_short(value.get("fault")))
            }
            Form::Started => value.is_object() || STARTED_WORDS.contains(&word),
            Form::Source => members_len(value) > 0,
            Form::Chain | Form::Operator => value.is_object(),
            Form::Flow | Form::Flows | Form::Step | Form::Script => value.is_object(),
        }
    }

    /// Returns the words for the form in messages.
    pub fn words(self) -> &'static str {
        match self {
            Form::Version => "1 or 2",
            Form::Signed => "a whole number of 64 bits with a sign",
            Form::Unsigned => "a whole number from 0 to 18446744073709551615",
            Form::Spread => "a whole number from 0 to 1000",
            Form::Short => "a whole number from 0 to 4294967295",
            Form::Name => "a name, 1 to 32 of a to z, 0 to 9 and _",
            Form::OneOf(_) => "a word",
            Form::Tag => "a text",
            Form::Numbers(_) => "a list of whole numbers of 64 bits with a sign",
            Form::Range => "a list of two whole numbers, the first and the last",
            Form::Entries => "a list of whole numbers, \"pending\" and {\"fault\": 7}",
            Form::Entry => "a whole number, \"pending\" or {\"fault\": 7}",
            Form::Started => "\"eagerly\", \"lazily\" or {\"stop\": 100}",
            Form::Chain => "a chain, {\"from\": .., \"ops\": [..]}",
            Form::Source => "{\"of\": [..]}, {\"range\": [1, 5]} or {\"script\": [..]}",
            Form::Operators => "a list of operators",
            Form::Operator => "an operator, {\"op\": ..}",
            Form::Flow => "a flow, {\"kind\": ..}",
            Form::Flows => "an object that has a flow for each name",
            Form::Steps => "a list of steps",
            Form::Step => "a step, {\"do\": ..}",
            Form::Script => "an object",
        }
    }

    /// Returns the words that a value of the form may be.
    pub fn choices(self) -> &'static [&'static str] {
        match self {
            Form::OneOf(words) => words,
            Form::Started => STARTED_WORDS,
            Form::Entry => &["pending"],
            _ => &[],
        }
    }

    /// Returns the size of a value, the greatest size that is allowed, and its unit, if the form has a limit.
    pub fn limited(self, value: &Value) -> Option<(u64, u64, &'static str)> {
        let items = items_of(value).len() as u64;
        match self {
            Form::Numbers(most) => Some((items, most as u64, "items")),
            Form::Entries => Some((items, MOST_ITEMS as u64, "entries")),
            Form::Steps => Some((items, MOST_STEPS as u64, "steps")),
            Form::Flows => Some((members_len(value) as u64, MOST_FLOWS as u64, "flows")),
            Form::Range => Some((range_len(value).unwrap_or(0), MOST_ITEMS as u64, "numbers")),
            Form::Spread => Some((
                value.as_u64().unwrap_or(0),
                MOST_SPREAD as u64,
                "items of one",
            )),
            _ => None,
        }
    }
}
