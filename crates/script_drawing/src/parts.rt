//! The parts of a picture, which text and SVG show.

use crate::mark::{Label, Mark};
use crate::played::PlayedStep;
use serde_json::Value;
use std::fmt;

/// A column of a lane.
#[derive(Clone, Copy)]
pub struct Cell<'a> {
    pub width: usize,
    pub mark: Option<Mark<'a>>,
    /// Whether the lane has a line in this column.
    pub has_line: bool,
    /// Whether its line continues that of the column before.
    pub comes: bool,
    /// Whether its line continues in the next column.
    pub goes_on: bool,
    /// Whether the lane is that of an emission, whose emitter waits as long as the lane has a line.
    pub waits: bool,
}

/// What is written above a column: the number of its step, from 1, and the moment if it is a turn.
#[derive(Clone, Copy)]
pub struct Head {
    pub number: usize,
    moment: Option<u64>,
}

impl Head {
    /// Returns the head of a column, counted from 0, of a picture of these steps.
    pub fn of(steps: &[PlayedStep<'_>], column: usize) -> Head {
        Head {
            number: column.saturating_add(1),
            moment: match steps.get(column) {
                Some(one) => one.seen.act.moment(),
                None => None,
            },
        }
    }
}

impl fmt::Display for Head {
    fn fmt<W: fmt::Write>(&self, f: &mut fmt::Formatter<W>) -> fmt::Result {
        let number = self.number;
        match self.moment {
            Some(moment) => write!(f, "{number} at {moment}"),
            None => write!(f, "{number}"),
        }
    }
}

/// The step of a column.
#[derive(Clone, Copy)]
pub struct Numbered<'a> {
    pub head: Head,
    pub step: &'a Value,
    /// The width of the column.
    pub width: usize,
    /// The widest mark in the column.
    pub widest: Option<Mark<'a>>,
}

/// A part of a picture. The parts are in order from left to right, line by line.
#[derive(Clone, Copy)]
pub enum Part<'a> {
    /// Begins the line of the steps' numbers, after labels of this width.
    Numbers(usize),
    Number(Numbered<'a>),
    EndNumbers,
    /// Begins a lane, with its label and the width of the labels.
    Name(Label<'a>, usize),
    Cell(Cell<'a>),
    EndLane,
    /// Ends a band with this width, including the labels.
    EndBand(usize),
    /// Begins the picture of a collection, with the number of its step, and its chain.
    Collection(usize, &'a Value),
}
