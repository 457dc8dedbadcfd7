//! A picture as SVG.

use crate::flow_words::heads_of;
use crate::layout::parts_of;
use crate::legend::{Entry, legend_of};
use crate::mark::Label;
use crate::page::{Frame, Page, width_of};
use crate::parts::{Cell, Numbered, Part};
use crate::played::Played;
use crate::script_words::add_collection;
use crate::style::{FRONT, STYLE};
use crate::svg_marks::{Colours, add_cell, add_mark, add_text, pixels, size_of};
use flow_script::text_at;
use serde_json::Value;
use std::alloc::{AllocError, Global};

/// The free space on the right, which the word above the last column needs.
const MARGIN: usize = 48;

/// The width of a mark with a short number.
const LEAST_MARK: usize = 26;

/// The least width of a picture.
const LEAST_WIDTH: usize = 420;

/// The height of a lane.
const LANE: usize = 38;

/// The height of the steps' numbers and words above their columns.
const HEADER: usize = 62;

/// The width of a small character, in pixels.
const SMALL: usize = 6;

/// The free space between two entries of the legend.
const BETWEEN: usize = 24;

/// The height of a row of the legend.
const ROW: usize = 32;

/// The column of a step, in pixels.
#[derive(Clone, Copy)]
pub struct Column {
    /// The number of the step, from 1.
    pub step: usize,
    /// Where the column begins.
    pub x: usize,
    /// The line on which the number of the step is written.
    pub y: usize,
    pub width: usize,
    /// The bottom of the lanes below the number.
    pub bottom: usize,
}

/// The name of a lane, and the line on which it is written, in pixels.
#[derive(Clone, Copy)]
pub struct LaneName<'a> {
    pub y: usize,
    pub label: Label<'a>,
}

/// Where the parts of a picture are.
#[derive(Drop)]
pub struct Places<'a> {
    pub columns: Vec<Column>,
    pub names: Vec<LaneName<'a>>,
}

/// The elements that were drawn so far, with the width and the height that they need.
#[derive(Drop)]
struct Canvas<'a> {
    page: Page,
    width: usize,
    height: usize,
    /// Where the next column begins.
    x: usize,
    colours: Colours,
    places: Places<'a>,
    /// How many of the columns are in bands that have ended.
    ended: usize,
}

impl<'a> Canvas<'a> {
    fn new(alloc: Global) -> Self {
        Canvas {
            page: Page::new(alloc),
            width: LEAST_WIDTH,
            height: 12,
            x: 0,
            colours: Colours::new(alloc),
            places: Places {
                columns: Vec::new(alloc),
                names: Vec::new(alloc),
            },
            ended: 0,
        }
    }

    /// Adds a line of words.
    fn add_words(&mut self, words: &str) {
        let y = self.height.saturating_add(22);
        let width = words.len().saturating_mul(8).saturating_add(16);
        self.width = self.width.max(width);
        self.height = y.saturating_add(8);
        add_text(&mut self.page, "a", 8, y, words);
    }

    /// Adds the number of a step above the middle of its mark, and what the step does, in a word that rises to the
    /// right. A program finds the column by its attribute `data-step`.
    fn add_number(&mut self, numbered: Numbered<'_>) {
        let (head, step) = (numbered.head, numbered.head.number);
        let x = pixels(1).saturating_add(self.x);
        let top = self.height.saturating_add(40);
        let (y, width) = (top.saturating_add(14), pixels(numbered.width));
        let mark = match numbered.widest {
            Some(mark) => size_of(mark).0,
            None => LEAST_MARK,
        };
        let middle = x.saturating_add(mark / 2);
        let word = text_at(numbered.step, "do");
        write!(
            self.page,
            "<text class=\"h n\" data-step=\"{step}\" x=\"{middle}\" y=\"{y}\">{head}</text>\n"
        );
        write!(
            self.page,
            "<text class=\"h\" transform=\"translate({middle} {top}) rotate(-24)\">{word}</text>\n"
        );
        let column = Column {
            step,
            x,
            y,
            width,
            bottom: 0,
        };
        if self.places.columns.push(column).is_err() {
            self.page.fail();
        }
        self.x = self.x.saturating_add(width);
    }

    /// Ends a band of this width: the lanes below its columns end here.
    fn end_band(&mut self, width: usize) {
        self.width = self.width.max(pixels(width).saturating_add(MARGIN));
        let height = self.height;
        for place in self.ended..self.places.columns.len() {
            if let Some(column) = self.places.columns.get_mut(place) {
                column.bottom = height;
            }
        }
        self.ended = self.places.columns.len();
    }

    /// Adds a collection in words.
    fn add_collection(&mut self, step: usize, chain: &Value) {
        let mut words = self.page.another();
        add_collection(&mut words, step, chain);
        match words.finish() {
            Ok(words) => self.add_words(words.as_str()),
            Err(_) => self.page.fail(),
        }
    }

    /// Adds the label of a lane, and begins its columns after labels of this width.
    fn add_name(&mut self, label: Label<'a>, width: usize) {
        let y = self.height.saturating_add(LANE / 2 + 5);
        if self.places.names.push(LaneName { y, label }).is_err() {
            self.page.fail();
        }
        self.x = pixels(width);
        write!(self.page, "<text class=\"a\" x=\"8\" y=\"{y}\">");
        match label.cut() {
            (name, Some(flow)) => write!(self.page, "{name} &lt; {flow}</text>\n"),
            (name, None) => write!(self.page, "{name}</text>\n"),
        }
    }

    /// Adds a column of a lane.
    fn add_cell(&mut self, cell: Cell<'_>) {
        let y = self.height.saturating_add(LANE / 2);
        add_cell(&mut self.page, &mut self.colours, cell, self.x, y);
        self.x = self.x.saturating_add(pixels(cell.width));
    }

    fn add_part(&mut self, part: Part<'a>) {
        match part {
            Part::Numbers(width) => self.x = pixels(width),
            Part::Number(numbered) => self.add_number(numbered),
            Part::EndNumbers => self.height = self.height.saturating_add(HEADER),
            Part::Name(label, width) => self.add_name(label, width),
            Part::Cell(cell) => self.add_cell(cell),
            Part::EndLane => self.height = self.height.saturating_add(LANE),
            Part::EndBand(width) => self.end_band(width),
            Part::Collection(step, chain) => self.add_collection(step, chain),
        }
    }

    /// Adds an entry of the legend, in the row that ends at the height so far, or in another row if that has no room.
    fn add_entry(&mut self, entry: Entry) {
        let Entry { mark, words } = entry;
        let note = width_of(mark.note).saturating_mul(SMALL);
        let marked = size_of(mark).0.saturating_add(note).saturating_add(8);
        let width = words.len().saturating_mul(SMALL).saturating_add(marked);
        if self.x.saturating_add(width) > self.width {
            self.x = 8;
            self.height = self.height.saturating_add(ROW);
        }
        let y = self.height.saturating_sub(ROW / 2);
        let after = self.x.saturating_add(marked);
        add_mark(&mut self.page, &mut self.colours, mark, self.x, y);
        add_text(&mut self.page, "h", after, y.saturating_add(4), words);
        self.x = self.x.saturating_add(width).saturating_add(BETWEEN);
    }

    /// Adds what the marks mean.
    fn add_legend(&mut self, entries: &[Entry]) {
        self.x = 8;
        self.height = self.height.saturating_add(ROW).saturating_add(8);
        for entry in entries {
            self.add_entry(*entry);
        }
        self.height = self.height.saturating_add(8);
    }

    /// Adds the flows and the lines of those that were refused, each in a line of words.
    fn add_heads(&mut self, heads: &str) {
        for head in heads.lines() {
            self.add_words(head);
        }
    }

    fn add_parts(&mut self, parts: &[Part<'a>]) {
        for part in parts {
            self.add_part(*part);
        }
    }
}

/// Returns the pictures of a script as SVG, around the lines, and where their parts are. The lines are a part of the
/// description in words, after the flows.
pub fn svg_picture<'a>(
    alloc: Global,
    played: Played<'a>,
) -> Result<(Frame, Places<'a>), AllocError> {
    let parts = parts_of(alloc, played)?;
    let legend = legend_of(alloc, parts.as_slice())?;
    let heads = heads_of(alloc, played, played.refused_lines())?;
    let mut canvas = Canvas::new(alloc);
    canvas.page.push_str(STYLE);
    canvas.add_heads(heads.as_str());
    canvas.add_parts(parts.as_slice());
    canvas.add_legend(legend.as_slice());
    canvas.page.push_str("</svg>\n");
    let Canvas {
        page,
        width,
        height,
        places,
        ..
    } = canvas;
    let flows = heads_of(alloc, played, &[])?;
    let mut front = Page::new(alloc);
    write!(
        front,
        "<svg xmlns=\"http://www.w3.org/2000/svg\" viewBox=\"0 0 {width} {height}\" width=\"{width}\" height=\"{height}\"{FRONT}{flows}"
    );
    let (before, after) = (front.finish()?, page.finish()?);
    Ok((Frame { before, after }, places))
}
