//! The names of a script's subscribers, by the places that a trace has in place of names.

use crate::members::text_at;
use crate::trace::{Act, Seen};
use script_format::FlowStep;
use serde_json::Value;
use std::alloc::{AllocError, Global};

/// The names of the subscribers of each flow, in the order in which the steps introduce them.
#[derive(Drop)]
pub struct SubscriberNames<'a> {
    flows: Vec<Vec<&'a str>>,
}

/// Returns the flow for which a step introduces a subscriber.
fn introduces(seen: &Seen) -> Option<usize> {
    match (seen.act, seen.changes.name) {
        (Act::OnFlow(flow, FlowStep::Subscribe) | Act::SubscribesWith(flow, _), Some(_)) => {
            Some(flow)
        }
        _ => None,
    }
}

impl<'a> SubscriberNames<'a> {
    /// Returns the names that these steps introduce, for this many flows.
    pub fn new(
        alloc: Global,
        count: usize,
        steps: &'a [Value],
        seen: &[Seen],
    ) -> Result<Self, AllocError> {
        let mut flows: Vec<Vec<&'a str>> = Vec::new(alloc);
        for _ in 0..count {
            flows.push(Vec::new(alloc))?;
        }
        for (place, step) in steps.iter().enumerate() {
            if let Some(seen) = seen.get(place)
                && let Some(flow) = introduces(seen)
                && let Some(names) = flows.get_mut(flow)
            {
                names.push(text_at(step, "name"))?;
            }
        }
        Ok(SubscriberNames { flows })
    }

    /// Returns the name of the subscriber of a flow, or an empty text if there is no such subscriber.
    pub fn name(&self, flow: usize, place: usize) -> &'a str {
        match self.flows.get(flow) {
            Some(names) => names.get(place).copied().unwrap_or(""),
            None => "",
        }
    }
}
