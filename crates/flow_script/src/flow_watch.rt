//! What is known of a flow while a script is played, beside what the flow itself shows: the values that it emitted, those
//! that wait, and what each subscriber has received.

mod progress;
mod values;

use crate::answer::Answer;
use crate::asking::Asking;
use crate::case::Case;
use crate::row::PlayedFlow;
use crate::trace::{Act, After, Changes, FlowHead, FlowTrace, Progress};
use script_format::FlowStep;
use std::alloc::{AllocError, Global};

/// A value whose emitter waits: the place of the emission's name, and the value. An item of a shared chain has no name.
#[derive(Clone, Copy)]
struct Queued {
    emission: Option<usize>,
    value: i64,
}

/// A step that was played.
#[derive(Clone, Copy)]
pub struct Taken<'a> {
    pub act: Act,
    pub case: Case,
    pub answer: &'a Answer,
}

/// What is known of a flow beside what the flow itself shows.
#[derive(Drop)]
pub struct Watch {
    head: FlowHead,
    /// All emitted values, in order.
    values: Vec<i64>,
    /// How many values were emitted before the last reset.
    reset_mark: u64,
    /// By the places of their names.
    subscribers: Vec<Progress>,
    /// How many names of emissions were introduced.
    emissions: usize,
    /// The values that are not emitted yet, the first one in front.
    queue: Vec<Queued>,
    /// The emissions that wait, by the places of their names.
    waiting: Vec<usize>,
    /// The chain of a sharing.
    asking: Option<Asking>,
}

impl Watch {
    /// Returns a watch on a flow before its first step.
    pub fn new(alloc: Global, head: FlowHead, asking: Option<Asking>) -> Self {
        Watch {
            head,
            values: Vec::new(alloc),
            reset_mark: 0,
            subscribers: Vec::new(alloc),
            emissions: 0,
            queue: Vec::new(alloc),
            waiting: Vec::new(alloc),
            asking,
        }
    }

    /// Returns what the trace keeps of the flow.
    pub fn finish(self) -> FlowTrace {
        FlowTrace {
            head: self.head,
            values: self.values,
        }
    }

    /// Returns the place of the name that a step on a flow introduces or acts on.
    fn name_of(&self, act: Act) -> Option<usize> {
        match act {
            Act::OnFlow(_, FlowStep::Emit(_)) => Some(self.emissions),
            Act::OnFlow(_, FlowStep::Subscribe) | Act::SubscribesWith(_, _) => {
                Some(self.subscribers.len())
            }
            Act::OnFlow(
                _,
                FlowStep::Poll(place)
                | FlowStep::Cancel(place)
                | FlowStep::Next(place)
                | FlowStep::Unsubscribe(place),
            ) => Some(place),
            _ => None,
        }
    }

    /// Returns how many of the emitted values are in the replay cache.
    fn cached(&self, emitted: u64) -> u64 {
        emitted
            .saturating_sub(self.reset_mark)
            .min(u64::from(self.head.replay()))
    }

    /// Adds the next step on the flow, after it was played.
    pub fn add_step(
        &mut self,
        flow: &PlayedFlow,
        taken: &Taken<'_>,
        changes: &mut Changes,
    ) -> Result<(), AllocError> {
        changes.name = self.name_of(taken.act);
        self.add_values(taken, changes)?;
        self.move_all(flow, taken, changes)?;
        self.end_waits(flow, taken.act, changes)?;
        let emitted = flow.emission_count().unwrap_or(0);
        changes.lag = match taken.act {
            Act::OnFlow(_, FlowStep::Subscribe | FlowStep::Next(_)) | Act::SubscribesWith(_, _) => {
                flow.lag(changes.name.unwrap_or(0))
            }
            _ => None,
        };
        changes.after = Some(After {
            emitted,
            held: flow.held(),
            cached: self.cached(emitted),
            subscribers: flow.subscription_count(),
            value: flow.value(),
        });
        Ok(())
    }
}
