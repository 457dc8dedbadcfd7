//! A picture as text for a terminal.

use crate::flow_words::heads_of;
use crate::layout::{MOST_WIDTH, parts_of};
use crate::legend::{Entry, legend_of};
use crate::mark::Label;
use crate::page::{Frame, Page, width_of};
use crate::parts::{Cell, Numbered, Part};
use crate::played::Played;
use crate::script_words::add_collection;
use std::alloc::{AllocError, Global};

/// The text between two entries of the legend.
const BETWEEN: &str = "    ";

/// Ends a line, without the spaces before its end.
fn end_line(page: &mut Page) {
    page.pop_spaces(MOST_WIDTH);
    page.push_str("\n");
}

/// Adds a label, with spaces up to the width of the labels.
fn add_name(page: &mut Page, label: Label<'_>, width: usize) {
    write!(page, "{label}");
    page.push_times(' ', width.saturating_sub(width_of(label)));
}

/// Adds a column of a lane: its line, and its mark.
fn add_cell(page: &mut Page, cell: Cell<'_>) {
    let line = if cell.waits { '┄' } else { '─' };
    page.push_times(if cell.comes { line } else { ' ' }, 1);
    let mut taken = 1;
    if let Some(mark) = cell.mark {
        write!(page, "{mark}");
        taken = width_of(mark).saturating_add(1);
    }
    let after = if cell.goes_on { line } else { ' ' };
    page.push_times(after, cell.width.saturating_sub(taken));
}

/// Adds the number of a step above its column, and the moment if it is a turn.
fn add_number(page: &mut Page, numbered: Numbered<'_>) {
    let head = numbered.head;
    write!(page, " {head}");
    let taken = width_of(head).saturating_add(1);
    page.push_times(' ', numbered.width.saturating_sub(taken));
}

fn add_part(page: &mut Page, part: Part<'_>) {
    match part {
        Part::Numbers(width) => add_name(page, Label::of("step"), width),
        Part::Number(numbered) => add_number(page, numbered),
        Part::Name(label, width) => add_name(page, label, width),
        Part::Cell(cell) => add_cell(page, cell),
        Part::EndNumbers | Part::EndLane => end_line(page),
        Part::EndBand(_) => page.push_str("\n"),
        Part::Collection(step, chain) => {
            add_collection(page, step, chain);
            page.push_str("\n");
        }
    }
}

/// Adds what the marks mean, in lines of at most `MOST_WIDTH`.
fn add_legend(page: &mut Page, entries: &[Entry]) {
    let mut taken = 0usize;
    for entry in entries {
        let Entry { mark, words } = *entry;
        let width = width_of(mark).saturating_add(1).saturating_add(words.len());
        let before = if taken > 0 { BETWEEN } else { "" };
        taken = taken.saturating_add(before.len()).saturating_add(width);
        if taken > MOST_WIDTH {
            write!(page, "\n{mark} {words}");
            taken = width;
        } else {
            write!(page, "{before}{mark} {words}");
        }
    }
    if taken > 0 {
        page.push_str("\n\n");
    }
}

/// Returns the frame of a script with its pictures as text, before the lines.
pub fn text_frame(alloc: Global, played: Played<'_>) -> Result<Frame, AllocError> {
    let parts = parts_of(alloc, played)?;
    let legend = legend_of(alloc, parts.as_slice())?;
    let heads = heads_of(alloc, played, played.refused_lines())?;
    let mut page = Page::new(alloc);
    write!(page, "{heads}\n");
    for part in &parts {
        add_part(&mut page, *part);
    }
    add_legend(&mut page, legend.as_slice());
    Ok(Frame {
        before: page.finish()?,
        after: String::new(alloc),
    })
}

/// Returns a frame with the flows of a script before its lines. The rules are beside the lines, not in the frame.
pub fn explained_frame(alloc: Global, played: Played<'_>) -> Result<Frame, AllocError> {
    let mut before = heads_of(alloc, played, &[])?;
    before.push('\n')?;
    Ok(Frame {
        before,
        after: String::new(alloc),
    })
}
