//! The marks of a lane and its line as SVG.

use crate::mark::{Mark, Note, Sign, Words};
use crate::page::{Page, width_of};
use crate::parts::Cell;
use indexmap::IndexSet;
use std::fmt::Display;

/// The width of a character, in pixels.
const CHARACTER: usize = 9;

/// Returns the width of this many characters, in pixels.
pub fn pixels(characters: usize) -> usize {
    characters.saturating_mul(CHARACTER)
}

/// Adds a text of a class at a place. It has no character that SVG would interpret.
pub fn add_text<D: Display + Drop>(page: &mut Page, class: &str, x: usize, y: usize, words: D) {
    write!(
        page,
        "<text class=\"{class}\" x=\"{x}\" y=\"{y}\">{words}</text>\n"
    );
}

/// How a mark looks: the class of its box, the class of its words, and the radius of the box's corners.
type Look = (&'static str, &'static str, usize);

fn look_of(mark: Mark<'_>) -> Look {
    match mark.sign {
        Sign::Value => match mark.words {
            Words::Admitted(_) => ("m p", "n", 13),
            _ => ("m", "n k", 13),
        },
        Sign::Waits => ("m w", "n", 13),
        Sign::Lost => ("m l", "n s", 13),
        Sign::Nothing => ("m e", "n", 5),
        Sign::Begins | Sign::Ends | Sign::Over => ("b", "n", 0),
        Sign::Told => ("t", "n", 3),
        Sign::Refused => ("r", "n f", 3),
    }
}

/// Returns the width and the height of a mark's box.
pub fn size_of(mark: Mark<'_>) -> (usize, usize) {
    match mark.sign {
        Sign::Begins | Sign::Ends => (4, 24),
        Sign::Over => (0, 0),
        Sign::Nothing => (10, 10),
        _ => {
            let width = pixels(width_of(mark.words)).saturating_add(12);
            (width.max(26), 26)
        }
    }
}

/// The hue of the first value, in degrees: a blue.
const FIRST_HUE: usize = 205;

/// The distance from the hue of a value to that of the next one. Neighbours differ much, and no two of 360 values have
/// the same hue.
const HUE_STEP: usize = 137;

/// The values of a picture, in the order in which they are drawn. Each has a colour.
pub type Colours = IndexSet<i64>;

/// Adds the colour of a value that was taken.
fn add_colour(page: &mut Page, colours: &mut Colours, mark: Mark<'_>) {
    if let (Sign::Value, Words::Number(value)) = (mark.sign, mark.words) {
        match colours.insert_full(value) {
            Ok((place, _)) => {
                let hue = (place % 360).wrapping_mul(HUE_STEP).wrapping_add(FIRST_HUE) % 360;
                write!(page, " fill=\"hsl({hue},85%,83%)\"");
            }
            Err(_) => page.fail(),
        }
    }
}

/// Adds the box of a mark, whose left side is at `x` and whose middle is at `y`.
fn add_box(page: &mut Page, colours: &mut Colours, mark: Mark<'_>, x: usize, y: usize) {
    let (shape, _, corner) = look_of(mark);
    let (width, height) = size_of(mark);
    let top = y.saturating_sub(height / 2);
    write!(page, "<rect class=\"{shape}\"");
    add_colour(page, colours, mark);
    write!(
        page,
        " x=\"{x}\" y=\"{top}\" width=\"{width}\" height=\"{height}\" rx=\"{corner}\"/>\n"
    );
}

/// Adds a line of a class between two places.
fn add_line(page: &mut Page, class: &str, from: (usize, usize), to: (usize, usize)) {
    let ((x1, y1), (x2, y2)) = (from, to);
    write!(
        page,
        "<line class=\"{class}\" x1=\"{x1}\" y1=\"{y1}\" x2=\"{x2}\" y2=\"{y2}\"/>\n"
    );
}

/// Adds a mark whose box begins at `x`, on the line at `y`. A value that is lost is crossed out, from corner to corner,
/// and a note is to the right of the mark.
pub fn add_mark(page: &mut Page, colours: &mut Colours, mark: Mark<'_>, x: usize, y: usize) {
    let (_, class, _) = look_of(mark);
    let (width, _) = size_of(mark);
    let end = x.saturating_add(width);
    add_box(page, colours, mark, x, y);
    if matches!(mark.sign, Sign::Lost) {
        let (left, right) = (x.saturating_add(2), end.saturating_sub(2));
        let (low, high) = (y.saturating_add(11), y.saturating_sub(11));
        add_line(page, "z", (left, low), (right, high));
    }
    let middle = x.saturating_add(width / 2);
    add_text(page, class, middle, y.saturating_add(5), mark.words);
    if !matches!(mark.note, Note::None) {
        let (right, above) = (end.saturating_add(3), y.saturating_sub(5));
        add_text(page, "h", right, above, mark.note);
    }
}

/// Adds a column of a lane from `x` on: its line, and its mark. A line that begins or ends in the column does so at the
/// middle of the mark, or where a mark would begin.
pub fn add_cell(page: &mut Page, colours: &mut Colours, cell: Cell<'_>, x: usize, y: usize) {
    let begin = x.saturating_add(CHARACTER);
    if cell.has_line {
        let middle = match cell.mark {
            Some(mark) => begin.saturating_add(size_of(mark).0 / 2),
            None => begin,
        };
        let end = x.saturating_add(pixels(cell.width));
        let from = if cell.comes { x } else { middle };
        let to = if cell.goes_on { end } else { middle };
        add_line(
            page,
            if cell.waits { "x d" } else { "x" },
            (from, y),
            (to, y),
        );
    }
    if let Some(mark) = cell.mark {
        add_mark(page, colours, mark, begin, y);
    }
}
