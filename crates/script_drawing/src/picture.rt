//! A picture: lanes, and the marks on them, from left to right.

use crate::mark::{Label, Mark, Note, Sign, Words};
use std::alloc::{AllocError, Global};

/// A line of the picture, from left to right, for a flow, a subscriber or an emission.
#[derive(Clone, Copy)]
pub struct Lane<'a> {
    pub label: Label<'a>,
    /// The column where it begins.
    pub begins: usize,
    /// The last column of the lane, or `usize::MAX` if it does not end.
    pub ends: usize,
    /// The value of an emission, whose emitter waits until the lane ends.
    pub waits: Option<i64>,
}

/// The end of a lane that does not end.
const OPEN: usize = usize::MAX;

/// Lanes, and the marks on them in the order of their columns.
#[derive(Drop)]
pub struct Picture<'a> {
    /// Its lanes, from top to bottom.
    pub lanes: Vec<Lane<'a>>,
    /// Its marks, in the order of their columns. A lane need not have a mark in each column.
    pub marks: Vec<Mark<'a>>,
    /// How many columns there are.
    pub columns: usize,
    /// Whether there was no memory for a lane or a mark.
    pub failed: bool,
}

impl<'a> Picture<'a> {
    /// Returns a picture without lanes and marks.
    pub fn new(alloc: Global) -> Self {
        Picture {
            lanes: Vec::new(alloc),
            marks: Vec::new(alloc),
            columns: 0,
            failed: false,
        }
    }

    /// Adds a lane that begins at the next column.
    pub fn add_lane(&mut self, label: Label<'a>, waits: Option<i64>) {
        let lane = Lane {
            label,
            begins: self.columns,
            ends: OPEN,
            waits,
        };
        self.failed = self.failed || self.lanes.push(lane).is_err();
    }

    /// Adds a mark in the next column.
    pub fn add_mark(&mut self, lane: usize, sign: Sign, words: Words<'a>, note: Note) {
        let mark = Mark {
            lane,
            column: self.columns,
            sign,
            words,
            note,
        };
        self.failed = self.failed || self.marks.push(mark).is_err();
    }

    /// Ends the lane at a column.
    pub fn end_lane(&mut self, lane: usize, column: usize) {
        if lane < self.lanes.len() {
            self.lanes[lane].ends = column;
        }
    }

    /// Returns whether the lane has not ended.
    pub fn is_open(&self, lane: usize) -> bool {
        match self.lanes.get(lane) {
            Some(lane) => lane.ends == OPEN,
            None => false,
        }
    }

    /// Returns the value of an emission, if the lane is that of one and has not ended.
    pub fn open_value(&self, lane: Option<usize>) -> Option<i64> {
        let lane = self.lanes.get(lane?)?;
        if lane.ends == OPEN { lane.waits } else { None }
    }

    /// Returns the picture, or `AllocError` if there was no memory for all of it.
    pub fn finish(self) -> Result<Self, AllocError> {
        if self.failed {
            return Err(AllocError);
        }
        Ok(self)
    }
}
