//! Finds where a text stops being JSON.

use crate::parts::{Quoted, Text};
use serde_json::{Error, Value};
use std::alloc::AllocError;
use std::str::from_utf8;

/// Where and why a text stops being JSON.
#[derive(Clone, Copy)]
pub struct Stop {
    /// The offset, which is the text's end if the text only breaks off.
    pub at: usize,
    /// Whether a message should show the value at the offset before `what`.
    pub shows_value: bool,
    /// What is wrong there, in words that follow the value if it is shown.
    pub what: &'static str,
    /// What was expected there, in words.
    pub expected: &'static str,
}

/// How many brackets of a text may be open at once.
const MOST_NESTED: usize = 127;

/// The kind of the last token before a place. With the innermost open bracket it decides what may follow.
#[derive(Clone, Copy)]
enum Last {
    /// There is no token before the place.
    Nothing,
    Brace,
    Bracket,
    Comma,
    Colon,
    Key,
    Value,
}

/// The first part of a text, which is JSON so far.
#[derive(Clone, Copy)]
struct Front {
    /// The open brackets. There are `nesting` of them, which may be one more than the array has room for.
    open: [u8; MOST_NESTED],
    nesting: usize,
    last: Last,
    quoted: Quoted,
}

impl Front {
    /// Returns whether the innermost open bracket is that of an object.
    fn is_in_object(&self) -> bool {
        matches!(self.open.get(self.nesting.wrapping_sub(1)), Some(b'{'))
    }

    /// Takes the next byte.
    fn take(&mut self, byte: u8) {
        if !matches!(self.quoted, Quoted::Outside) {
            self.quoted = self.quoted.after(byte);
            return;
        }
        match byte {
            b' ' | b'\n' | b'\r' | b'\t' => {}
            b'{' | b'[' => {
                if self.nesting < MOST_NESTED {
                    self.open[self.nesting] = byte;
                }
                self.nesting = self.nesting.saturating_add(1);
                self.last = if byte == b'{' {
                    Last::Brace
                } else {
                    Last::Bracket
                };
            }
            b'}' | b']' => {
                self.nesting = self.nesting.saturating_sub(1);
                self.last = Last::Value;
            }
            b',' => self.last = Last::Comma,
            b':' => self.last = Last::Colon,
            _ => {
                let may_be_key = matches!(self.last, Last::Brace | Last::Comma);
                let is_key = may_be_key && self.is_in_object();
                self.last = if is_key { Last::Key } else { Last::Value };
                self.quoted = self.quoted.after(byte);
            }
        }
    }

    /// Returns what may follow.
    fn expected(&self) -> &'static str {
        if !matches!(self.quoted, Quoted::Outside) {
            return "the rest of a text, and its closing quote";
        }
        let in_object = self.is_in_object();
        match self.last {
            Last::Nothing => "a value",
            Last::Brace => "a key between quotes or \"}\"",
            Last::Bracket => "a value or \"]\"",
            Last::Comma if in_object => "a key between quotes",
            Last::Comma | Last::Colon => "a value",
            Last::Key => "\":\"",
            Last::Value if self.nesting == 0 => "the end of the text",
            Last::Value if in_object => "\",\" or \"}\"",
            Last::Value => "\",\" or \"]\"",
        }
    }

    /// Returns what was expected in place of a byte that may not follow.
    fn expected_before(&self, byte: Option<&u8>) -> &'static str {
        match (self.last, byte) {
            (Last::Comma, Some(b']')) if !self.is_in_object() => "no comma before \"]\"",
            (Last::Comma, Some(b'}')) if self.is_in_object() => "no comma before \"}\"",
            _ => self.expected(),
        }
    }
}

/// Takes the bytes before an offset, up to the first bracket that nests too deep. Returns the offset at which it
/// stopped, and the front that it took.
fn front_before(bytes: &[u8], offset: usize) -> (usize, Front) {
    let mut front = Front {
        open: [0; MOST_NESTED],
        nesting: 0,
        last: Last::Nothing,
        quoted: Quoted::Outside,
    };
    for (index, byte) in bytes.iter().take(offset).enumerate() {
        front.take(*byte);
        if front.nesting > MOST_NESTED {
            return (index, front);
        }
    }
    (offset, front)
}

/// Returns the offset of an error of the JSON reader.
fn offset_of(bytes: &[u8], error: &Error) -> usize {
    if error.is_eof() {
        return bytes.len();
    }
    let mut line = 1usize;
    let mut start = 0usize;
    for (index, byte) in bytes.iter().enumerate() {
        if line >= error.line() {
            break;
        }
        if *byte == b'\n' {
            line = line.saturating_add(1);
        }
        start = index.saturating_add(1);
    }
    start.saturating_add(error.column().saturating_sub(1))
}

/// Returns what is wrong at or before the offset at which the reader stopped.
fn fault_at(bytes: &[u8], offset: usize) -> Stop {
    let (at, deepest) = front_before(bytes, offset.saturating_add(1));
    if deepest.nesting > MOST_NESTED {
        return Stop {
            at,
            shows_value: false,
            what: "the text nests too deep",
            expected: "at most 127 open brackets",
        };
    }
    let correct = match from_utf8(bytes) {
        Ok(_) => bytes.len(),
        Err(error) => error.valid_up_to(),
    };
    let (at, front) = front_before(bytes, offset.min(correct));
    let (shows_value, what, expected) = if at >= bytes.len() {
        (false, "the text ends here", front.expected())
    } else if at == correct {
        (false, "these bytes are no UTF-8", "UTF-8")
    } else {
        let expected = front.expected_before(bytes.get(at));
        (true, ": here the text stops being JSON", expected)
    };
    Stop {
        at,
        shows_value,
        what,
        expected,
    }
}

/// Returns where a text stops being JSON and what was expected there, or None if all of it is JSON. Bytes that are not
/// UTF-8 are not JSON, and neither is a text with more than 127 brackets open at once.
///
/// # Errors
/// `AllocError`: out of memory.
pub fn not_json(text: Text<'_>) -> Result<Option<Stop>, AllocError> {
    match Value::from_slice(text.alloc, text.bytes) {
        Ok(_) => Ok(None),
        Err(error) if error.is_memory() => Err(AllocError),
        Err(error) => Ok(Some(fault_at(text.bytes, offset_of(text.bytes, &error)))),
    }
}
