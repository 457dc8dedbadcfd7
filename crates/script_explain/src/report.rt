//! The message about what is wrong in a script, and where.

use crate::words::{Form, Key};
use json_places::{Place, Spot, Text, nearest};
use std::alloc::AllocError;
use std::fmt::Display;

/// Where in a script a value is.
#[derive(Clone, Copy)]
pub enum Owner {
    /// It is the script.
    Script,
    /// It is the value of a key.
    Member(&'static str),
    /// It is an item of the list of a key.
    Item(&'static str),
    /// It is a key that is the name of a flow.
    FlowName,
}

/// Why the check of a part of a script ended before all of it was checked.
#[derive(Clone, Copy)]
pub enum Ended {
    /// The report says what is wrong.
    Told,
    OutOfMemory,
}

impl From<AllocError> for Ended {
    fn from(_error: AllocError) -> Ended {
        Ended::OutOfMemory
    }
}

/// The result of checking a part of a script: `Ok` if nothing is wrong.
pub type Looked = Result<(), Ended>;

/// The message about a script. It begins with `begin` or `begin_value`, which add the place of what is wrong, unless
/// the fault has no place, and ends with `end` or `end_near`. If memory is refused, words are missing, and the end
/// returns `OutOfMemory`.
#[derive(Drop)]
pub struct Report<'a> {
    pub text: Text<'a>,
    /// The part of the script that has the fault, if it is known: 0 is the head, and steps are numbered from 1.
    pub part: Option<u64>,
    pub lines: String,
    pub is_out_of_memory: bool,
}

impl<'a> Report<'a> {
    /// Adds what `write!` writes.
    pub fn write_fmt<D: Display + Drop>(&mut self, words: D) {
        let added = self.lines.write_fmt(words);
        self.is_out_of_memory = self.is_out_of_memory || added.is_err();
    }

    /// Returns the line and the column of an offset.
    pub fn place(&self, at: usize) -> Place {
        Place::at(self.text.bytes, at)
    }

    /// Begins with the place of an offset, and the part of the script that it is in.
    pub fn begin(&mut self, at: usize) {
        let place = self.place(at);
        match self.part {
            Some(0) => write!(self, "{place}: head: "),
            Some(step) => write!(self, "{place}: step {step}: "),
            None => write!(self, "{place}: "),
        }
    }

    /// Begins with the place and the text of the key or the value at an offset.
    pub fn begin_value(&mut self, at: usize) {
        self.begin(at);
        let (shown, after) = self.text.shown(at);
        match String::from_utf8_lossy(self.text.alloc, shown) {
            Ok(shown) => write!(self, "{}{after}", shown.as_str()),
            Err(_) => self.is_out_of_memory = true,
        }
    }

    /// Adds the words that may be chosen, in quotes, as a list in a sentence.
    pub fn add_choices(&mut self, choices: &[&str]) {
        for (index, word) in choices.iter().enumerate() {
            let before = if index > 0 { ", " } else { "" };
            write!(self, "{before}\"{word}\"");
        }
    }

    /// Adds the words for a value of a form.
    fn add_form(&mut self, form: Form) {
        match form {
            Form::OneOf(words) => {
                write!(self, "one of ");
                self.add_choices(words);
            }
            _ => write!(self, "{}", form.words()),
        }
    }

    /// Adds a key that is missing, and the form of its value.
    pub fn add_key(&mut self, key: Key) {
        write!(self, "\"{}\", ", key.word);
        self.add_form(key.form);
    }

    /// Ends the last line.
    pub fn end(&mut self) -> Looked {
        write!(self, "\n");
        if self.is_out_of_memory {
            Err(Ended::OutOfMemory)
        } else {
            Err(Ended::Told)
        }
    }

    /// Adds the choice that is nearest to a word, if one is near.
    pub fn add_near(&mut self, word: &str, choices: &[&str]) {
        match nearest(self.text.alloc, word, choices) {
            Ok(Some(near)) => write!(self, "\n  nearest: \"{near}\""),
            Ok(None) => {}
            Err(_) => self.is_out_of_memory = true,
        }
    }

    /// Ends with the choice that is nearest to a word, if one is near.
    pub fn end_near(&mut self, word: &str, choices: &[&str]) -> Looked {
        self.add_near(word, choices);
        self.end()
    }

    /// Reports that the object of a name, which begins at an offset, lacks a key.
    pub fn tell_missing(&mut self, at: usize, name: &'static str, key: Key) -> Looked {
        self.begin(at);
        write!(self, "{name} has no \"{}\"\n  expected: ", key.word);
        self.add_key(key);
        self.end()
    }

    /// Reports a value that does not have the right form.
    pub fn tell_form(&mut self, owner: Owner, found: Spot<'_>, form: Form) -> Looked {
        self.begin_value(found.at);
        match owner {
            Owner::Script => write!(self, " is no script"),
            Owner::FlowName => write!(self, " is no name of a flow"),
            Owner::Member(key) => write!(self, " is no value of \"{key}\""),
            Owner::Item(key) => write!(self, " is no item of \"{key}\""),
        }
        write!(self, "\n  expected: ");
        self.add_form(form);
        self.end_near(found.value.as_str().unwrap_or(""), form.choices())
    }
}
