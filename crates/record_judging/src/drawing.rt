//! Draws calls over time. As text, each call has a line, and the lines of one caller are below each other.
use crate::conflict::Conflict;
use crate::order::write_line;
use crate::svg::write_svg;
use crate::written::{Sheet, WrittenCall};
use std::alloc::{AllocError, Global};

/// What a picture is made of.
#[derive(Clone, Copy, Debug)]
pub enum Form {
    Text,
    Svg,
}

/// The most calls in a picture.
const MOST_CALLS: usize = 1000;

/// A picture without a conflict ends at the moment by which this many calls are over, or with the record if fewer calls
/// end.
const MOST_OVER: usize = 30;

/// A call in a picture, and the columns in which it begins and ends.
#[derive(Clone, Copy)]
pub struct Bar {
    pub caller: usize,
    /// The lane of the caller.
    pub lane: usize,
    pub call: WrittenCall,
    pub from: usize,
    /// The column in which the call ends, or the number of columns if it is not over in the picture.
    pub to: usize,
    pub is_marked: bool,
}

impl Bar {
    /// Returns the last column in which the call takes room.
    pub fn last_column(self) -> usize {
        self.to.saturating_sub(1).max(self.from)
    }
}

/// The calls of a picture, and its moments in order. Each moment has a column.
#[derive(Drop)]
pub struct Picture {
    pub bars: Vec<Bar>,
    pub moments: Vec<u64>,
    pub conflict: Option<Conflict>,
}

impl Picture {
    /// Makes the picture of the calls around a conflict, or of the first calls if there is none.
    pub fn new(
        alloc: Global,
        sheet: &Sheet,
        conflict: Option<Conflict>,
    ) -> Result<Picture, AllocError> {
        let mut picture = Picture {
            bars: Vec::new(alloc),
            moments: Vec::new(alloc),
            conflict,
        };
        let last = picture.last_moment(alloc, sheet)?;
        for (caller, row) in sheet.rows.iter().enumerate() {
            for call in row {
                picture.add(caller, *call, last)?;
            }
        }
        picture.moments.sort()?;
        picture.moments.dedup();
        picture.place();
        Ok(picture)
    }

    /// Returns the moment after which nothing is drawn.
    fn last_moment(&self, alloc: Global, sheet: &Sheet) -> Result<u64, AllocError> {
        if let Some(conflict) = &self.conflict {
            return Ok(conflict.moment);
        }
        let ends = ends_of(alloc, sheet)?;
        Ok(ends.get(MOST_OVER - 1).copied().unwrap_or(u64::MAX))
    }

    /// Returns how many callers are drawn.
    pub fn lanes(&self) -> usize {
        match self.bars.last() {
            Some(bar) => bar.lane.saturating_add(1),
            None => 0,
        }
    }

    /// Returns the lane of a caller's next call, which is a new one after a call of another caller.
    fn lane_of(&self, caller: usize) -> usize {
        match self.bars.last() {
            Some(bar) if bar.caller == caller => bar.lane,
            _ => self.lanes(),
        }
    }

    /// Adds a call that began by the last moment, and its moments.
    fn add(&mut self, caller: usize, call: WrittenCall, last: u64) -> Result<(), AllocError> {
        let (is_drawn, is_marked) = match &self.conflict {
            None => (call.begin <= last, false),
            Some(conflict) => (conflict.overlaps(call), conflict.needs(call)),
        };
        if !is_drawn || self.bars.len() >= MOST_CALLS {
            return Ok(());
        }
        self.moments.push(call.begin)?;
        if let Some(end) = call.end {
            if end <= last {
                self.moments.push(end)?;
            }
        }
        let lane = self.lane_of(caller);
        self.bars.push(Bar {
            caller,
            lane,
            call,
            from: 0,
            to: 0,
            is_marked,
        })?;
        Ok(())
    }

    /// Gives the calls their columns.
    fn place(&mut self) {
        let moments = self.moments.as_slice();
        let columns = moments.len();
        for bar in self.bars.as_mut_slice() {
            bar.from = column_of(moments, bar.call.begin);
            bar.to = match bar.call.end {
                Some(end) => column_of(moments, end),
                None => columns,
            };
        }
    }
}

/// Returns the ends of all calls in order.
fn ends_of(alloc: Global, sheet: &Sheet) -> Result<Vec<u64>, AllocError> {
    let mut ends = Vec::new(alloc);
    for calls in sheet.rows.as_slice() {
        for call in calls {
            if let Some(end) = call.end {
                ends.push(end)?;
            }
        }
    }
    ends.sort()?;
    Ok(ends)
}

/// Returns the column of a moment, or the number of columns if it has none.
fn column_of(moments: &[u64], moment: u64) -> usize {
    match moments.binary_search(&moment) {
        Ok(column) => column,
        Err(_) => moments.len(),
    }
}

/// Writes the line of a call over this many columns: `|---|`, or `|--->` if it is not over.
fn write_bar(out: &mut String, bar: &Bar, columns: usize) -> Result<(), AllocError> {
    for column in 0..columns {
        let is_edge = column == bar.from || column == bar.to;
        let is_inside = bar.from <= column && column < bar.to;
        let cell = match (is_edge, is_inside) {
            (true, true) => "|-",
            (true, false) => "| ",
            (false, true) => "--",
            (false, false) => "  ",
        };
        out.push_str(cell)?;
    }
    let end = if bar.to >= columns { ">" } else { " " };
    out.push_str(end)
}

/// Writes a call after its line over this many columns.
fn write_row(out: &mut String, sheet: &Sheet, bar: &Bar, columns: usize) -> Result<(), AllocError> {
    write_bar(out, bar, columns)?;
    let mark = if bar.is_marked { " ! " } else { "   " };
    write_line(out, mark, sheet, bar.caller, bar.call)
}

fn write_text(
    out: &mut String,
    sheet: &Sheet,
    picture: &Picture,
    word: &str,
) -> Result<(), AllocError> {
    writeln!(out, "{word}")?;
    for bar in picture.bars.as_slice() {
        write_row(out, sheet, bar, picture.moments.len())?;
    }
    Ok(())
}

/// Writes a picture of calls; `word` is their verdict.
pub fn write_picture(
    alloc: Global,
    out: &mut String,
    sheet: &Sheet,
    picture: &Picture,
    word: &str,
    form: Form,
) -> Result<(), AllocError> {
    match form {
        Form::Text => write_text(out, sheet, picture, word),
        Form::Svg => write_svg(alloc, out, sheet, picture, word),
    }
}
