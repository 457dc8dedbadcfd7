//! A script that was read as JSON: its version, its steps and its flows.

use crate::words::Version;
use flow_script::text_at;
use json_places::{Spot, Text};
use serde_json::Value;
use std::alloc::AllocError;

/// Returns the items of a list, or no items if the value is not a list.
pub fn items_of(value: &Value) -> &[Value] {
    match value.as_array() {
        Some(items) => items.as_slice(),
        None => &[],
    }
}

/// A script whose text is JSON.
#[derive(Clone, Copy)]
pub struct Script<'a> {
    pub text: Text<'a>,
    pub version: Version,
    pub root: Spot<'a>,
}

impl<'a> Script<'a> {
    /// Returns the script of a text, and its value.
    pub fn new(text: Text<'a>, value: &'a Value) -> Self {
        Script {
            text,
            version: match value.get("version") {
                Some(version) if version.as_u64() == Some(1) => Version::One,
                _ => Version::Two,
            },
            root: Spot {
                value,
                at: text.part_from(0).unwrap_or(0),
            },
        }
    }

    /// Returns the steps before the one at an index, counted from 0.
    pub fn steps_before(self, index: usize) -> &'a [Value] {
        match self.root.value.get("steps") {
            Some(steps) => items_of(steps).get(..index).unwrap_or(&[]),
            None => &[],
        }
    }

    /// Returns the step at an index, counted from 0.
    pub fn step(self, index: usize) -> Result<Option<Spot<'a>>, AllocError> {
        match self.text.member(self.root, "steps")? {
            Some(steps) => Ok(self.text.item(steps, index)),
            None => Ok(None),
        }
    }

    /// Returns the flow that a step acts on.
    pub fn flow_of(self, step: &Value) -> Option<&'a Value> {
        match self.root.value.get("flows") {
            Some(flows) => flows.get(text_at(step, "flow")),
            None => self.root.value.get("flow"),
        }
    }
}
