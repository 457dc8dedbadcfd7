//! Places in a text, as lines and columns.
ghost use Rattle.std.specs.Prelude.{◌<◌};

use std::fmt;

/// A line and a column of a text, both from 1. A column counts characters.
#[derive(Clone, Copy)]
pub struct Place {
    /// The line, from 1.
    pub line: usize,
    /// The column, from 1.
    pub column: usize,
}

impl Place {
    /// Returns the place of the byte at an offset, or the end of the text if the offset is beyond it.
    pub fn at(bytes: &[u8], offset: usize) -> Place
        ensures from_one { (0 < result.line) × (0 < result.column) }
    {
        let mut place = Place { line: 1, column: 1 };
        for byte in bytes.iter().take(offset) {
            if *byte == b'\n' {
                place.line = place.line.saturating_add(1);
                place.column = 1;
            } else if *byte < 0x80 || *byte >= 0xC0 {
                // A character of UTF-8 begins.
                place.column = place.column.saturating_add(1);
            }
        }
        place
    }
}

impl fmt::Display for Place {
    fn fmt<W: fmt::Write>(&self, f: &mut fmt::Formatter<W>) -> fmt::Result {
        let line = self.line;
        let column = self.column;
        write!(f, "line {line}, column {column}")
    }
}
