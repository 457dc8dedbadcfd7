//! A record as it is written, before it is judged.
ghost use Rattle.std.specs.Prelude.{◌≡◌, take, drop, map, string_bytes};
ghost use Rattle.record_judging.specs.StateRows.{values_in};
ghost use Rattle.record_judging.specs.Verdicts.{name_of};

use crate::words::CallWord;
use flow_law::Config;
use std::alloc::{AllocError, Global};
use std::collections::HashMap;

/// A list within the lists of a sheet.
#[derive(Clone, Copy)]
pub struct Range {
    pub from: usize,
    pub count: usize,
}

/// Returns the values from this index on.
fn values_from(values: &[u64], index: usize) -> &[u64]
    ensures { result.now ≡ drop index values.now }
{
    if index <= values.len() {
        let (_, others) = values.split_at(index);
        others
    } else {
        &[]
    }
}

/// Returns the first `count` values.
fn first_values(values: &[u64], count: usize) -> &[u64]
    ensures { result.now ≡ take count values.now }
{
    if count <= values.len() {
        let (front, _) = values.split_at(count);
        front
    } else {
        values
    }
}

impl Range {
    pub fn of(self, lists: &[u64]) -> &[u64]
        ensures { result.now ≡ values_in lists.now self }
    {
        first_values(values_from(lists, self.from), self.count)
    }
}

/// An answer as it is written.
#[derive(Clone, Copy)]
pub enum WrittenAnswer {
    Done,
    Cancelled,
    Empty,
    Value(u64),
    Truth(bool),
    Number(u64),
    Values(Range),
    /// Of `update`: the old value and the new one.
    Exchange(u64, u64),
}

/// A call as it is written, with the values that its keys have.
#[derive(Clone, Copy)]
pub struct WrittenCall {
    /// The number of the call in the record, from 1.
    pub number: usize,
    pub call: CallWord,
    pub value: u64,
    pub expect: u64,
    pub first: Range,
    pub begin: u64,
    pub end: Option<u64>,
    pub answer: Option<WrittenAnswer>,
}

/// The flow of a record.
#[derive(Clone, Copy)]
pub enum WrittenFlow {
    State { initial: u64 },
    Shared(Config),
}

impl WrittenFlow {
    pub fn is_state(self) -> bool {
        matches!(self, WrittenFlow::State { .. })
    }
}

/// A record: its flow, the names of its callers in the order of their first calls, and the calls of each.
#[derive(Drop)]
pub struct Sheet {
    pub flow: WrittenFlow,
    pub names: Vec<String>,
    places: HashMap<String, usize>,
    pub rows: Vec<Vec<WrittenCall>>,
    pub lists: Vec<u64>,
    pub count: usize,
}

impl Sheet {
    pub fn new(alloc: Global, flow: WrittenFlow) -> Sheet {
        Sheet {
            flow,
            names: Vec::new(alloc),
            places: HashMap::new(alloc),
            rows: Vec::new(alloc),
            lists: Vec::new(alloc),
            count: 0,
        }
    }

    /// Returns the name of the caller at this place.
    pub fn name(&self, caller: usize) -> &str
        ensures { result.now ≡ name_of (map string_bytes self.now.names.items) caller }
    {
        match self.names.get(caller) {
            Some(name) => name.as_str(),
            None => "",
        }
    }

    /// Returns the place of a caller. A caller without one gets a new place.
    fn place_of(&mut self, alloc: Global, name: &str) -> Result<usize, AllocError> {
        if let Some(place) = self.places.get(name) {
            return Ok(*place);
        }
        let place = self.names.len();
        self.names.push(String::from_str(alloc, name)?)?;
        self.rows.push(Vec::new(alloc))?;
        let _ = self.places.insert(String::from_str(alloc, name)?, place)?;
        Ok(place)
    }

    /// Adds a call of the caller of this name.
    pub fn add(&mut self, alloc: Global, name: &str, call: WrittenCall) -> Result<(), AllocError> {
        let place = self.place_of(alloc, name)?;
        if let Some(row) = self.rows.get_mut(place) {
            row.push(call)?;
        }
        self.count = self.count.saturating_add(1);
        Ok(())
    }
}
