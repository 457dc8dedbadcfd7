//! What the marks of a picture mean: an entry for each kind of mark that the picture has.

use crate::mark::{Admitted, Mark, Note, Sign, Words};
use crate::parts::{Cell, Part};
use std::alloc::{AllocError, Global};

/// An entry of a legend: a mark of its kind, and what it means.
#[derive(Clone, Copy)]
pub struct Entry {
    pub mark: Mark<'static>,
    pub words: &'static str,
}

/// An entry whose mark has this sign, these words and this note.
macro_rules! entry {
    ($sign:ident, $words:expr, $note:expr, $means:literal) => {
        Entry {
            mark: Mark {
                lane: 0,
                column: 0,
                sign: Sign::$sign,
                words: $words,
                note: $note,
            },
            words: $means,
        }
    };
}

const THREE: Words<'static> = Words::Number(3);

const TWO_VALUES: Words<'static> = Words::Admitted(Admitted {
    first: [3, 4, 0],
    count: 2,
});

/// The entries, in their order.
static ENTRIES: [Entry; 9] = [
    entry!(Value, THREE, Note::None, "taken by the flow, or received"),
    entry!(Value, TWO_VALUES, Note::None, "waiting values that got in"),
    entry!(Waits, THREE, Note::None, "its emitter waits"),
    entry!(Lost, THREE, Note::None, "not taken, cancelled or dropped"),
    entry!(
        Over,
        Words::None,
        Note::Behind(2),
        "2 emitted values behind"
    ),
    entry!(Begins, Words::None, Note::None, "begins, or ends"),
    entry!(Told, THREE, Note::None, "what the flow answers"),
    entry!(Refused, THREE, Note::None, "refused, or failed"),
    entry!(Nothing, Words::None, Note::None, "nothing there"),
];

fn has_several(words: Words<'_>) -> bool {
    matches!(words, Words::Admitted(_))
}

impl Entry {
    /// Returns whether a part has a mark of this kind. A note is a kind of its own.
    fn explains(&self, part: &Part<'_>) -> bool {
        let Part::Cell(
            Cell {
                mark: Some(mark),
                ..
            },
        ) = part
        else {
            return false;
        };
        match (self.mark.sign, mark.sign) {
            (Sign::Value, Sign::Value) => has_several(self.mark.words) == has_several(mark.words),
            (Sign::Over, _) => matches!(mark.note, Note::Behind(_)),
            (Sign::Begins, Sign::Ends) => true,
            (own, other) => own == other,
        }
    }
}

/// Returns the entries for the marks that these parts have.
///
/// # Errors
/// `AllocError`: out of memory.
pub fn legend_of(alloc: Global, parts: &[Part<'_>]) -> Result<Vec<Entry>, AllocError> {
    let mut entries = Vec::new(alloc);
    for entry in &ENTRIES {
        if parts.iter().any(|part| entry.explains(part)) {
            entries.push(*entry)?;
        }
    }
    Ok(entries)
}
