//! Explains where and why a record is refused.
use crate::reading::{has_lines, is_blank, is_newline, line_at, value_of};
use crate::refusal::{Part, Refusal, Unread, Wrong};
use crate::words::is_one_of;
use json_places::{Place, Spot, Text, nearest, not_json};
use serde_json::Value;
use std::alloc::{AllocError, Global};

/// Returns where a part of a record begins, in the object at `root`. A call that has a line is all of that object.
fn part_in<'a>(
    text: Text<'a>,
    root: Spot<'a>,
    part: Part,
    in_lines: bool,
) -> Result<Option<Spot<'a>>, AllocError> {
    match part {
        Part::Head => Ok(Some(root)),
        Part::Flow => text.member(root, "flow"),
        Part::Call(_) if in_lines => Ok(Some(root)),
        Part::Call(number) => match text.member(root, "calls")? {
            Some(calls) => Ok(text.item(calls, number.saturating_sub(1))),
            None => Ok(None),
        },
    }
}

/// Returns where the line of this part begins, and where it ends.
fn line_of(bytes: &[u8], part: Part) -> (usize, usize) {
    match part {
        Part::Head | Part::Flow => line_at(bytes, 0),
        Part::Call(number) => line_at(bytes, number),
    }
}

/// The words that explain the verdict on a record.
#[derive(Drop)]
struct Report<'a> {
    text: Text<'a>,
    words: String,
}

impl<'a> Report<'a> {
    fn add(&mut self, words: &[&str]) -> Result<(), AllocError> {
        for word in words {
            self.words.push_str(word)?;
        }
        Ok(())
    }

    fn add_place(&mut self, at: usize, part: Part) -> Result<(), AllocError> {
        let place = Place::at(self.text.bytes, at);
        match part {
            Part::Head | Part::Flow => write!(self.words, "{place}: "),
            Part::Call(number) => write!(self.words, "{place}: call {number}: "),
        }
    }

    /// Adds the key or the value that begins here.
    fn add_value(&mut self, at: usize) -> Result<(), AllocError> {
        let (shown, after) = self.text.shown(at);
        let shown = String::from_utf8_lossy(self.text.alloc, shown)?;
        self.add(&[shown.as_str(), after])
    }

    fn add_nearest(
        &mut self,
        word: &str,
        choices: &'static [&'static str],
    ) -> Result<(), AllocError> {
        match nearest(self.text.alloc, word, choices)? {
            Some(near) => self.add(&["\n  nearest: \"", near, "\""]),
            None => Ok(()),
        }
    }

    /// Adds that it is no key, and which keys there are.
    fn add_keys(&mut self, keys: &'static [&'static str]) -> Result<(), AllocError> {
        let mut opening = " is no key here\n  expected: one of \"";
        for key in keys {
            self.add(&[opening, *key, "\""])?;
            opening = ", \"";
        }
        Ok(())
    }

    /// Reports a key that the object should not have.
    fn tell_key(
        &mut self,
        object: Spot<'_>,
        part: Part,
        keys: &'static [&'static str],
    ) -> Result<(), AllocError> {
        let mut from = object.at.saturating_add(1);
        for _ in 0..self.text.bytes.len() {
            let Some(member) = self.text.member_from(object, from)? else {
                break;
            };
            if !is_one_of(member.name, keys) {
                return self.tell_unknown(member.key, member.name, part, keys);
            }
            from = member.end;
        }
        Ok(())
    }

    /// Reports the key that begins here, which is none of these.
    fn tell_unknown(
        &mut self,
        at: usize,
        name: &str,
        part: Part,
        keys: &'static [&'static str],
    ) -> Result<(), AllocError> {
        self.add_place(at, part)?;
        self.add_value(at)?;
        self.add_keys(keys)?;
        self.add_nearest(name, keys)
    }

    /// Adds what is expected, and the words that it may be.
    fn add_expected(
        &mut self,
        expected: &'static str,
        words: &'static [&'static str],
    ) -> Result<(), AllocError> {
        self.add(&["\n  expected: ", expected])?;
        let mut opening = ": \"";
        for word in words {
            self.add(&[opening, *word, "\""])?;
            opening = ", \"";
        }
        Ok(())
    }

    /// Reports the value of this key, which is not what is expected. If it is close to one of these words, suggests
    /// that word.
    fn tell_value(
        &mut self,
        object: Spot<'_>,
        part: Part,
        key: &'static str,
        expected: &'static str,
        words: &'static [&'static str],
    ) -> Result<(), AllocError> {
        let found = self.text.member(object, key)?.unwrap_or(object);
        self.add_place(found.at, part)?;
        self.add_value(found.at)?;
        write!(self.words, " is no value of \"{key}\"")?;
        let listed = if key == "call" { words } else { &[] };
        self.add_expected(expected, listed)?;
        self.add_nearest(found.value.as_str().unwrap_or(""), words)
    }

    /// Reports that no object begins here.
    fn tell_no_object(&mut self, at: usize, part: Part) -> Result<(), AllocError> {
        self.add_place(at, part)?;
        self.add_value(at)?;
        self.words.push_str(" is no object\n  expected: an object")
    }

    /// Reports a key that the object lacks.
    fn tell_missing(
        &mut self,
        at: usize,
        part: Part,
        key: &'static str,
        expected: &'static str,
        words: &'static [&'static str],
    ) -> Result<(), AllocError> {
        self.add_place(at, part)?;
        self.add(&["\"", key, "\" is missing"])?;
        self.add_expected(expected, words)
    }

    /// Reports why a part of the record is refused, whose head or line begins here.
    fn tell(&mut self, refusal: Refusal, root: Spot<'_>, in_lines: bool) -> Result<(), AllocError> {
        let part = refusal.part;
        let Some(object) = part_in(self.text, root, part, in_lines)? else {
            return self.words.push_str("the record is refused");
        };
        match refusal.wrong {
            Wrong::Key { known } => self.tell_key(object, part, known),
            Wrong::NoObject => self.tell_no_object(object.at, part),
            Wrong::Missing {
                key,
                expected,
                words,
            } => self.tell_missing(object.at, part, key, expected, words),
            Wrong::Value {
                key,
                expected,
                words,
            } => self.tell_value(object, part, key, expected, words),
        }
    }

    /// Reports where the part of the text between these offsets stops being JSON.
    fn tell_stop(&mut self, begin: usize, end: usize) -> Result<(), AllocError> {
        let part = Text {
            alloc: self.text.alloc,
            bytes: self.text.bytes.get(begin..end).unwrap_or(&[]),
        };
        let Some(stop) = not_json(part)? else {
            return self.words.push_str("the record is no JSON");
        };
        let at = begin.saturating_add(stop.at);
        self.add_place(at, Part::Head)?;
        if stop.shows_value {
            self.add_value(at)?;
        }
        self.add(&[stop.what, "\n  expected: ", stop.expected])
    }
}

/// Returns where the first line that is no JSON begins, and where it ends.
fn bad_line(alloc: Global, bytes: &[u8]) -> Result<(usize, usize), AllocError> {
    let mut begin: usize = 0;
    for line in bytes.split(is_newline) {
        let end = begin.saturating_add(line.len());
        if !is_blank(line) {
            match value_of(alloc, line) {
                Ok(_) => {}
                Err(Unread::OutOfMemory) => return Err(AllocError),
                Err(_) => return Ok((begin, end)),
            }
        }
        begin = end.saturating_add(1);
    }
    Ok((begin, begin))
}

fn tell_refusal(
    report: &mut Report<'_>,
    refusal: Refusal,
    in_lines: bool,
) -> Result<(), AllocError> {
    let text = report.text;
    let (begin, end) = if in_lines {
        line_of(text.bytes, refusal.part)
    } else {
        (0, text.bytes.len())
    };
    let Ok(value) = value_of(text.alloc, text.bytes.get(begin..end).unwrap_or(&[])) else {
        return Err(AllocError);
    };
    let at = text.part_from(begin).unwrap_or(begin);
    report.tell(refusal, Spot { value: &value, at }, in_lines)
}

/// Reports why these bytes are no record.
fn tell_unread(report: &mut Report<'_>, unread: Unread) -> Result<(), AllocError> {
    let text = report.text;
    let Ok(in_lines) = has_lines(text.alloc, text.bytes) else {
        return Err(AllocError);
    };
    match unread {
        Unread::OutOfMemory => Err(AllocError),
        Unread::Refused(refusal) => tell_refusal(report, refusal, in_lines),
        Unread::NotJson if in_lines => {
            let (begin, end) = bad_line(text.alloc, text.bytes)?;
            report.tell_stop(begin, end)
        }
        Unread::NotJson => report.tell_stop(0, text.bytes.len()),
    }
}

/// Explains in a few lines why these bytes are no record.
pub fn explain(alloc: Global, bytes: &[u8], unread: Unread) -> Result<String, AllocError> {
    let mut report = Report {
        text: Text { alloc, bytes },
        words: String::new(alloc),
    };
    tell_unread(&mut report, unread)?;
    report.words.push_str("\n")?;
    Ok(report.words)
}
