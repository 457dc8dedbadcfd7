//! Finds the parts of objects and lists in a JSON text.

use serde_json::Value;
use std::alloc::{AllocError, Global};

/// A text, and the allocator for what is read from it.
#[derive(Clone, Copy)]
pub struct Text<'a> {
    /// The allocator.
    pub alloc: Global,
    /// All bytes of the text, which may be neither JSON nor UTF-8.
    pub bytes: &'a [u8],
}

/// A value of a text, and the offset at which it begins.
#[derive(Clone, Copy)]
pub struct Spot<'a> {
    /// The value as it was read.
    pub value: &'a Value,
    /// The offset of its first byte.
    pub at: usize,
}

/// A member of an object.
#[derive(Clone, Copy)]
pub struct Member<'a> {
    /// Its key as it was read.
    pub name: &'a str,
    /// The offset of the key's opening quote.
    pub key: usize,
    /// Its value, and the offset at which that begins. If the object has the key twice, the value is the last one.
    pub spot: Spot<'a>,
    /// The offset after the value.
    pub end: usize,
}

/// The bytes of a value in a text.
#[derive(Clone, Copy)]
pub struct Extent {
    /// The offset of its first byte.
    pub from: usize,
    /// The offset after its last byte.
    pub to: usize,
}

/// Whether a byte is in a text between quotes.
#[derive(Clone, Copy)]
pub enum Quoted {
    Outside,
    Inside,
    /// After a backslash.
    Escaped,
}

impl Quoted {
    /// Returns the state after this byte.
    pub fn after(self, byte: u8) -> Quoted {
        match (self, byte) {
            (Quoted::Outside, b'"') => Quoted::Inside,
            (Quoted::Outside, _) => Quoted::Outside,
            (Quoted::Escaped, _) => Quoted::Inside,
            (Quoted::Inside, b'\\') => Quoted::Escaped,
            (Quoted::Inside, b'"') => Quoted::Outside,
            (Quoted::Inside, _) => Quoted::Inside,
        }
    }
}

/// Returns the length of the object, the list or the text between quotes with which these bytes begin.
fn enclosed_len(bytes: &[u8]) -> usize {
    let mut nesting = 0usize;
    let mut quoted = Quoted::Outside;
    for (index, byte) in bytes.iter().enumerate() {
        match (quoted, *byte) {
            (Quoted::Outside, b'{' | b'[') => nesting = nesting.saturating_add(1),
            (Quoted::Outside, b'}' | b']') => nesting = nesting.saturating_sub(1),
            _ => quoted = quoted.after(*byte),
        }
        if nesting == 0 && matches!(quoted, Quoted::Outside) {
            return index.saturating_add(1);
        }
    }
    bytes.len()
}

/// Returns the length of the number or the plain word with which these bytes begin.
fn plain_len(bytes: &[u8]) -> usize {
    for (index, byte) in bytes.iter().enumerate() {
        if matches!(
            *byte,
            b',' | b':' | b'}' | b']' | b' ' | b'\n' | b'\r' | b'\t'
        ) {
            return index.max(1);
        }
    }
    bytes.len()
}

/// How many bytes of a value messages show.
const MOST_SHOWN: usize = 48;

impl<'a> Text<'a> {
    /// Returns the bytes from an offset on.
    fn rest(self, at: usize) -> &'a [u8] {
        self.bytes.get(at..).unwrap_or(&[])
    }

    /// Returns the bytes of the key or the value that begins at an offset.
    fn raw(self, at: usize) -> &'a [u8] {
        let rest = self.rest(at);
        let length = match rest.first() {
            Some(b'{' | b'[' | b'"') => enclosed_len(rest),
            _ => plain_len(rest),
        };
        rest.get(..length).unwrap_or(rest)
    }

    /// Returns the offset of the next key or value, from an offset outside of them, or None if the object, the list or
    /// the text ends first.
    pub fn part_from(self, from: usize) -> Option<usize> {
        for (index, byte) in self.rest(from).iter().enumerate() {
            match *byte {
                b' ' | b'\n' | b'\r' | b'\t' | b',' | b':' => {}
                b'}' | b']' => return None,
                _ => return Some(from.saturating_add(index)),
            }
        }
        None
    }

    /// Returns the offset of the key or the value after the one at an offset, or None if the object, the list or the
    /// text ends first.
    pub fn part_after(self, at: usize) -> Option<usize> {
        self.part_from(at.saturating_add(self.raw(at).len()))
    }

    /// Returns the next member of an object, if there is one more. `from` is the offset after the opening bracket, or
    /// the `end` of the member before. A value that is not an object has no members.
    ///
    /// # Errors
    /// `AllocError`: out of memory.
    pub fn member_from(
        self,
        object: Spot<'a>,
        from: usize,
    ) -> Result<Option<Member<'a>>, AllocError> {
        let Some(key) = self.part_from(from) else {
            return Ok(None);
        };
        let Some(at) = self.part_after(key) else {
            return Ok(None);
        };
        let Some(members) = object.value.as_object() else {
            return Ok(None);
        };
        // The key was read before, so only an allocation can fail.
        let Ok(word) = Value::from_slice(self.alloc, self.raw(key)) else {
            return Err(AllocError);
        };
        match members.get_key_value(word.as_str().unwrap_or("")) {
            Some((name, value)) => Ok(Some(Member {
                name: name.as_str(),
                key,
                spot: Spot { value, at },
                end: at.saturating_add(self.raw(at).len()),
            })),
            None => Ok(None),
        }
    }

    /// Returns the value of a key of an object, if there is one. If the object has the key twice, the last one counts.
    /// A value that is not an object has no keys.
    ///
    /// # Errors
    /// `AllocError`: out of memory.
    pub fn member(self, object: Spot<'a>, key: &str) -> Result<Option<Spot<'a>>, AllocError> {
        let mut found = None;
        if object.value.get(key).is_none() {
            return Ok(found);
        }
        let mut from = object.at.saturating_add(1);
        for _ in 0..self.bytes.len() {
            let Some(member) = self.member_from(object, from)? else {
                break;
            };
            if member.name == key {
                found = Some(member.spot);
            }
            from = member.end;
        }
        Ok(found)
    }

    /// Returns the item of this index of a list, if there is one. The first item has the index 0. A value that is not a
    /// list has no items.
    pub fn item(self, list: Spot<'a>, index: usize) -> Option<Spot<'a>> {
        let value = list.value.get(index)?;
        let mut at = self.part_from(list.at.saturating_add(1))?;
        for _ in 0..index {
            at = self.part_after(at)?;
        }
        Some(Spot { value, at })
    }

    /// Returns the bytes of each item of a list. A value that is not a list has no items.
    ///
    /// # Errors
    /// `AllocError`: out of memory.
    pub fn items(self, list: Spot<'a>) -> Result<Vec<Extent>, AllocError> {
        let mut items = Vec::new(self.alloc);
        let Some(values) = list.value.as_array() else {
            return Ok(items);
        };
        let mut at = list.at.saturating_add(1);
        for _ in 0..values.len() {
            let Some(from) = self.part_from(at) else {
                break;
            };
            at = from.saturating_add(self.raw(from).len());
            items.push(Extent { from, to: at })?;
        }
        Ok(items)
    }

    /// Returns the value that begins at an offset as messages show it, and what follows it. A value of more than 48
    /// bytes is cut, perhaps within a character, and followed by "..". Messages only name an object, a list and the end
    /// of the text.
    pub fn shown(self, at: usize) -> (&'a [u8], &'static str) {
        match self.rest(at).first() {
            None => ("the end of the text".as_bytes(), ""),
            Some(b'{') => ("an object".as_bytes(), ""),
            Some(b'[') => ("a list".as_bytes(), ""),
            Some(_) => {
                let raw = self.raw(at);
                match raw.get(..MOST_SHOWN) {
                    Some(cut) if raw.len() > MOST_SHOWN => (cut, ".."),
                    _ => (raw, ""),
                }
            }
        }
    }
}
