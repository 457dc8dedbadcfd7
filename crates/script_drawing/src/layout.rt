//! Where the marks of a picture are: in columns with a width in characters, and in bands that are at most 100 wide.

use crate::collection::collection_picture;
use crate::growing::steps_picture;
use crate::mark::Mark;
use crate::page::width_of;
use crate::parts::{Cell, Head, Numbered, Part};
use crate::picture::{Lane, Picture};
use crate::played::{Played, PlayedStep};
use std::alloc::{AllocError, Global};

/// The most characters in a line of a band.
pub const MOST_WIDTH: usize = 100;

/// The least width of a column.
const LEAST_COLUMN: usize = 6;

/// The least width of the labels before the lanes.
const LEAST_LABELS: usize = 14;

/// Columns beside each other.
#[derive(Clone, Copy)]
struct Band<'p, 'a> {
    /// The steps of the picture's columns. The picture of a collection has none.
    steps: &'a [PlayedStep<'a>],
    /// The width of the labels before the lanes.
    labels: usize,
    /// The first column.
    from: usize,
    widths: &'p [usize],
    /// The marks in these columns.
    marks: &'p [Mark<'a>],
}

/// Returns the width of the labels before these lanes.
fn labels_width(lanes: &[Lane<'_>]) -> usize {
    let mut widest = LEAST_LABELS;
    for lane in lanes {
        widest = widest.max(width_of(lane.label).saturating_add(2));
    }
    widest
}

/// Returns the least width of each column, which its head needs.
fn head_widths(
    alloc: Global,
    columns: usize,
    steps: &[PlayedStep<'_>],
) -> Result<Vec<usize>, AllocError> {
    let mut widths = Vec::new(alloc);
    for column in 0..columns {
        let head = width_of(Head::of(steps, column));
        widths.push(head.saturating_add(2).max(LEAST_COLUMN))?;
    }
    Ok(widths)
}

/// Returns the width of each column, which its head and its marks need.
fn widths_of(
    alloc: Global,
    picture: &Picture<'_>,
    steps: &[PlayedStep<'_>],
) -> Result<Vec<usize>, AllocError> {
    let mut widths = head_widths(alloc, picture.columns, steps)?;
    for mark in &picture.marks {
        if let Some(width) = widths.get_mut(mark.column) {
            *width = (*width).max(width_of(*mark).saturating_add(3));
        }
    }
    Ok(widths)
}

/// Returns the column after the last one that fits beside `from`, after labels of this width.
fn band_end(widths: &[usize], from: usize, labels: usize) -> usize {
    let mut width = labels;
    for column in from..widths.len() {
        width = width.saturating_add(widths[column]);
        if width > MOST_WIDTH && column > from {
            return column;
        }
    }
    widths.len()
}

/// Returns the place of the first mark, from `first` on, that is not before a column.
fn marks_before(marks: &[Mark<'_>], first: usize, column: usize) -> usize {
    for place in first..marks.len() {
        if marks[place].column >= column {
            return place;
        }
    }
    marks.len()
}

/// Returns the lanes that these marks are on, in order.
fn lanes_of(alloc: Global, marks: &[Mark<'_>]) -> Result<Vec<usize>, AllocError> {
    let mut lanes = Vec::new(alloc);
    for mark in marks {
        lanes.push(mark.lane)?;
    }
    lanes.sort_unstable();
    lanes.dedup();
    Ok(lanes)
}

impl<'a> Band<'_, 'a> {
    /// Returns the mark of a lane in a column.
    fn mark_at(&self, lane: usize, column: usize) -> Option<Mark<'a>> {
        for mark in self.marks {
            if mark.lane == lane && mark.column == column {
                return Some(*mark);
            }
        }
        None
    }

    /// Returns the first of the marks with the widest words in a column.
    fn widest(&self, column: usize) -> Option<Mark<'a>> {
        let mut widest: Option<Mark<'a>> = None;
        for mark in self.marks {
            if mark.column == column
                && match widest {
                    Some(most) => width_of(mark.words) > width_of(most.words),
                    None => true,
                }
            {
                widest = Some(*mark);
            }
        }
        widest
    }

    /// Returns the width of the band, including the labels.
    fn width(&self) -> usize {
        let mut total = self.labels;
        for width in self.widths {
            total = total.saturating_add(*width);
        }
        total
    }

    /// Adds the numbers of the steps above their columns.
    fn add_numbers(&self, parts: &mut Vec<Part<'a>>) -> Result<(), AllocError> {
        parts.push(Part::Numbers(self.labels))?;
        for (place, width) in self.widths.iter().enumerate() {
            let column = self.from.saturating_add(place);
            if let Some(one) = self.steps.get(column) {
                parts.push(Part::Number(Numbered {
                    head: Head::of(self.steps, column),
                    step: one.step,
                    width: *width,
                    widest: self.widest(column),
                }))?;
            }
        }
        parts.push(Part::EndNumbers)?;
        Ok(())
    }

    /// Adds the lane that has this place in the picture.
    fn add_lane(
        &self,
        parts: &mut Vec<Part<'a>>,
        lane: usize,
        shown: Lane<'a>,
    ) -> Result<(), AllocError> {
        let Lane { begins, ends, .. } = shown;
        parts.push(Part::Name(shown.label, self.labels))?;
        for (place, width) in self.widths.iter().enumerate() {
            let column = self.from.saturating_add(place);
            parts.push(Part::Cell(Cell {
                width: *width,
                mark: self.mark_at(lane, column),
                has_line: begins <= column && column <= ends,
                comes: begins < column && column <= ends,
                goes_on: begins <= column && column < ends,
                waits: shown.waits.is_some(),
            }))?;
        }
        parts.push(Part::EndLane)?;
        Ok(())
    }

    /// Adds the numbers of the steps, if there are steps, and the lanes that have marks in the band.
    fn add_to(
        &self,
        alloc: Global,
        parts: &mut Vec<Part<'a>>,
        lanes: &[Lane<'a>],
    ) -> Result<(), AllocError> {
        if !self.steps.is_empty() {
            self.add_numbers(parts)?;
        }
        for lane in &lanes_of(alloc, self.marks)? {
            if let Some(shown) = lanes.get(*lane) {
                self.add_lane(parts, *lane, *shown)?;
            }
        }
        parts.push(Part::EndBand(self.width()))?;
        Ok(())
    }
}

/// Adds the parts of a picture, with these steps above their columns. A band without marks is left out.
fn add_parts<'a>(
    alloc: Global,
    parts: &mut Vec<Part<'a>>,
    picture: Picture<'a>,
    steps: &'a [PlayedStep<'a>],
) -> Result<(), AllocError> {
    let widths = widths_of(alloc, &picture, steps)?;
    let marks = picture.marks.as_slice();
    let labels = labels_width(picture.lanes.as_slice());
    let mut from = 0;
    let mut first = 0;
    // There are at most as many bands as columns.
    for _ in 0..widths.len() {
        let to = band_end(widths.as_slice(), from, labels);
        let last = marks_before(marks, first, to);
        if last > first {
            let band = Band {
                steps,
                labels,
                from,
                widths: widths.get(from..to).unwrap_or(&[]),
                marks: marks.get(first..last).unwrap_or(&[]),
            };
            band.add_to(alloc, parts, picture.lanes.as_slice())?;
        }
        from = to;
        first = last;
    }
    Ok(())
}

/// Returns the parts of the pictures of a script that was played: that of its steps, and those of its collections.
///
/// # Errors
/// `AllocError`: out of memory.
pub fn parts_of<'a>(alloc: Global, played: Played<'a>) -> Result<Vec<Part<'a>>, AllocError> {
    let mut parts = Vec::new(alloc);
    add_parts(
        alloc,
        &mut parts,
        steps_picture(alloc, played)?,
        played.steps,
    )?;
    for one in played.steps {
        if let Some(chain) = one.step.get("chain") {
            parts.push(Part::Collection(one.number, chain))?;
            let picture = collection_picture(alloc, chain, one.answer, one.line)?;
            add_parts(alloc, &mut parts, picture, &[])?;
        }
    }
    Ok(parts)
}
