//! A picture of calls over time as SVG: a lane for each caller, and in it a bar with the words of each call.
use crate::drawing::{Bar, Picture};
use crate::order::write_call;
use crate::written::{Sheet, WrittenCall};
use std::alloc::{AllocError, Global};

/// The width of a letter.
const LETTER: usize = 8;

/// The least distance between two moments.
const COLUMN: usize = 24;

/// The height of a lane.
const LANE: usize = 36;

/// The space above the first lane, where the moments are.
const TOP: usize = 76;

/// The space at the edges of the picture.
const MARGIN: usize = 16;

/// Colours for a light background and for a dark one.
const STYLE: &str = "<style>
text{font:13px ui-monospace,SFMono-Regular,Menlo,Consolas,'DejaVu Sans Mono',monospace;fill:#1f2328}
.p{fill:#ffffff}
.t{font-size:10px;fill:#59636e}
.x{stroke:#d1d9e0}
.c{fill:#eaeef2}
.w{fill:#ffebe9;stroke:#b3261e;stroke-width:2}
@media (prefers-color-scheme:dark){
text{fill:#e6edf3}
.p{fill:#0d1117}
.t{fill:#9198a1}
.x{stroke:#3d444d}
.c{fill:#262c36}
.w{fill:#4c1b1b;stroke:#ff9a91}
}
</style>";

/// Returns what to write for a character that is markup, or that text may not contain.
fn escape_of(letter: char) -> Option<&'static str> {
    match letter {
        '&' => Some("&amp;"),
        '<' => Some("&lt;"),
        '>' => Some("&gt;"),
        _ if letter < ' ' => Some("?"),
        _ => None,
    }
}

fn write_letter(out: &mut String, letter: char) -> Result<(), AllocError> {
    match escape_of(letter) {
        Some(escape) => out.push_str(escape),
        None => out.push(letter),
    }
}

/// Writes text so that it is no markup.
fn write_escaped(out: &mut String, text: &str) -> Result<(), AllocError> {
    for letter in text.chars() {
        write_letter(out, letter)?;
    }
    Ok(())
}

/// Writes the words in the bar of a call.
fn write_words(out: &mut String, sheet: &Sheet, call: WrittenCall) -> Result<(), AllocError> {
    write!(out, "{} ", call.number)?;
    write_call(out, sheet, call)
}

/// Returns how wide the bar of a call has to be.
fn width_of(alloc: Global, sheet: &Sheet, call: WrittenCall) -> Result<usize, AllocError> {
    let mut words = String::new(alloc);
    write_words(&mut words, sheet, call)?;
    Ok(words.len().saturating_mul(LETTER).saturating_add(MARGIN))
}

/// Returns the top of a lane.
fn y_of(lane: usize) -> usize {
    lane.saturating_mul(LANE).saturating_add(TOP)
}

/// Where each column of a picture is. Each bar has room for its words.
#[derive(Drop)]
struct Columns {
    widths: Vec<usize>,
    edges: Vec<usize>,
}

/// Returns how wide each bar has to be.
fn widths_of(alloc: Global, sheet: &Sheet, picture: &Picture) -> Result<Vec<usize>, AllocError> {
    let mut widths = Vec::new(alloc);
    for bar in picture.bars.as_slice() {
        let width = width_of(alloc, sheet, bar.call)?;
        widths.push(width)?;
    }
    Ok(widths)
}

/// Returns where the first column begins, after all names.
fn left_of(sheet: &Sheet, picture: &Picture) -> usize {
    let mut left = MARGIN;
    for bar in picture.bars.as_slice() {
        left = left.max(name_width(sheet, bar.caller));
    }
    left
}

impl Columns {
    fn new(alloc: Global, sheet: &Sheet, picture: &Picture) -> Result<Columns, AllocError> {
        let mut columns = Columns {
            widths: widths_of(alloc, sheet, picture)?,
            edges: Vec::new(alloc),
        };
        columns.edges.push(left_of(sheet, picture))?;
        for column in 0..picture.moments.len() {
            let end = columns.end_of(picture, column);
            columns.edges.push(end)?;
        }
        Ok(columns)
    }

    /// Returns where a column begins.
    fn x_of(&self, column: usize) -> usize {
        self.edges.get(column).copied().unwrap_or(0)
    }

    /// Returns where a column ends: after all bars that end there.
    fn end_of(&self, picture: &Picture, column: usize) -> usize {
        let mut end = self.x_of(column).saturating_add(COLUMN);
        for (bar, width) in picture.bars.iter().zip(self.widths.iter()) {
            if bar.last_column() == column {
                end = end.max(self.x_of(bar.from).saturating_add(*width));
            }
        }
        end
    }

    /// Returns where the last column ends.
    fn right(&self) -> usize {
        self.edges.last().copied().unwrap_or(MARGIN)
    }
}

/// Returns how much room a caller's name takes.
fn name_width(sheet: &Sheet, caller: usize) -> usize {
    let letters = sheet.name(caller).len();
    letters.saturating_mul(LETTER).saturating_add(2 * MARGIN)
}

/// Writes a line and a number for each moment.
fn write_moments(
    out: &mut String,
    picture: &Picture,
    columns: &Columns,
    bottom: usize,
) -> Result<(), AllocError> {
    for (column, moment) in picture.moments.iter().enumerate() {
        let x = columns.x_of(column);
        writeln!(
            out,
            "<line class=\"x\" x1=\"{x}\" y1=\"{TOP}\" x2=\"{x}\" y2=\"{bottom}\"/><text class=\"t\" transform=\"translate({x} {}) rotate(-40)\">{moment}</text>",
            TOP - 6
        )?;
    }
    Ok(())
}

fn write_name(out: &mut String, sheet: &Sheet, bar: &Bar) -> Result<(), AllocError> {
    let y = y_of(bar.lane).saturating_add(LANE / 2 + 5);
    write!(out, "<text x=\"{MARGIN}\" y=\"{y}\">")?;
    write_escaped(out, sheet.name(bar.caller))?;
    out.push_str("</text>\n")
}

/// Writes a box of this width, with the corner of its lane here, and begins the text in it.
fn write_box(
    out: &mut String,
    class: &str,
    x: usize,
    y: usize,
    width: usize,
) -> Result<(), AllocError> {
    let top = y.saturating_add(5);
    let height = LANE - 10;
    write!(
        out,
        "<rect class=\"{class}\" x=\"{x}\" y=\"{top}\" width=\"{width}\" height=\"{height}\" rx=\"3\"/>"
    )?;
    let left = x.saturating_add(MARGIN / 2);
    let bottom = y.saturating_add(LANE / 2 + 5);
    write!(out, "<text x=\"{left}\" y=\"{bottom}\">")
}

fn write_bar(
    out: &mut String,
    sheet: &Sheet,
    columns: &Columns,
    bar: &Bar,
) -> Result<(), AllocError> {
    let x = columns.x_of(bar.from);
    let width = columns.x_of(bar.to).saturating_sub(x).max(4);
    let class = if bar.is_marked { "w" } else { "c" };
    write_box(out, class, x, y_of(bar.lane), width)?;
    write_words(out, sheet, bar.call)?;
    out.push_str("</text>\n")
}

/// Writes the lane of each caller: its name before its first call, and its calls.
fn write_lanes(
    out: &mut String,
    sheet: &Sheet,
    picture: &Picture,
    columns: &Columns,
) -> Result<(), AllocError> {
    let mut named: usize = 0;
    for bar in picture.bars.as_slice() {
        if bar.lane >= named {
            write_name(out, sheet, bar)?;
            named = bar.lane.saturating_add(1);
        }
        write_bar(out, sheet, columns, bar)?;
    }
    Ok(())
}

/// Writes what is around and behind the calls.
fn write_head(out: &mut String, width: usize, height: usize, word: &str) -> Result<(), AllocError> {
    writeln!(
        out,
        "<svg xmlns=\"http://www.w3.org/2000/svg\" viewBox=\"0 0 {width} {height}\" width=\"{width}\" height=\"{height}\" role=\"img\">"
    )?;
    writeln!(
        out,
        "<title>Recorded calls over time: {word}</title>\n{STYLE}\n<rect class=\"p\" width=\"100%\" height=\"100%\"/><text x=\"{MARGIN}\" y=\"24\">{word}</text>"
    )
}

/// Writes a picture of calls; `word` is their verdict.
pub fn write_svg(
    alloc: Global,
    out: &mut String,
    sheet: &Sheet,
    picture: &Picture,
    word: &str,
) -> Result<(), AllocError> {
    let columns = Columns::new(alloc, sheet, picture)?;
    let width = columns.right().saturating_add(MARGIN);
    let bottom = y_of(picture.lanes());
    write_head(out, width, bottom.saturating_add(MARGIN), word)?;
    write_moments(out, picture, &columns, bottom)?;
    write_lanes(out, sheet, picture, &columns)?;
    out.push_str("</svg>\n")
}
