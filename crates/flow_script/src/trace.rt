//! The trace of a script: what each of its steps did, and what it left of its flow.
//!
//! A script is played once, and whatever is shown of it is written from its trace: its lines, its pictures, the rules
//! behind its lines, and the trace as JSON. No writer decides again what a flow did.
//!
//! # What a step did
//! A step has an `Answer`, which its line reports. If the answer does not say what the step did, its `Case` does: a
//! `try_emit` that returns `true` may have appended its value, dropped it, or dropped the oldest one. The case is found
//! before the step is played: `traced` says that it is the one that the documented flow takes in that state.
//!
//! # What a step left
//! A trace has each emitted value of a flow once, in order. A position counts the emitted values before it, so a cache,
//! a buffer, and what a subscriber has yet to receive are each a part of that list, and a step only says what moved:
//! the state after any step follows from the steps up to it. These parts are tested.
//!
//! # Cost
//! Only `traced` watches the flows. `played` asks for nothing but answers.

use crate::answer::Answers;
use crate::case::Case;
use flow_law::{Config, Started};
use script_format::{FlowStep, ScriptFlow};

/// What a step does. A flow is given by its place among those of the script.
#[derive(Clone, Copy)]
pub enum Act {
    OnFlow(usize, FlowStep),
    /// A subscription with first values of its own: its flow, and how many values.
    SubscribesWith(usize, usize),
    Collects,
}

impl Act {
    /// Returns the place of the flow on which the step acts.
    pub fn flow(self) -> Option<usize> {
        match self {
            Act::OnFlow(flow, _) | Act::SubscribesWith(flow, _) => Some(flow),
            Act::Collects => None,
        }
    }

    /// Returns the moment of a turn.
    pub fn moment(self) -> Option<u64> {
        match self {
            Act::OnFlow(_, FlowStep::Turn(at)) => Some(at),
            _ => None,
        }
    }
}

/// What a subscriber has received: how many of its own first values are left, and its position among the emitted values.
#[derive(Clone, Copy, PartialEq, Eq)]
pub struct Progress {
    pub own: usize,
    /// None if there is no such subscriber. That of a subscriber of a state flow is 0.
    pub position: Option<u64>,
}

/// A subscriber that a step moved, added or removed, by the place of its name.
#[derive(Clone, Copy)]
pub struct Moved {
    pub subscriber: usize,
    pub progress: Progress,
}

/// A value that subscribers lost by a step, and these subscribers, by the places of their names.
#[derive(Drop)]
pub struct Loss {
    pub value: i64,
    pub losers: Vec<usize>,
}

/// A flow after a step.
#[derive(Clone, Copy)]
pub struct After {
    /// How many values a shared flow has emitted so far.
    pub emitted: u64,
    /// How many of the last ones a present or a new subscriber may still receive.
    pub held: usize,
    /// How many of the last ones are in the replay cache.
    pub cached: u64,
    /// The number of subscribers.
    pub subscribers: u64,
    /// The value of a state flow.
    pub value: Option<i64>,
}

/// What is seen of a step beside its answer.
#[derive(Drop)]
pub struct Seen {
    pub act: Act,
    /// The case of the documented flow that the step took.
    pub case: Case,
    pub changes: Changes,
}

/// What a step changed.
#[derive(Drop)]
pub struct Changes {
    /// The place of the name that the step introduces or acts on, among those of its kind for its flow.
    pub name: Option<usize>,
    /// How many values the step emitted, or `None` if its flow is not a shared flow. A step that makes room emits
    /// values that were waiting.
    pub emitted: Option<u64>,
    /// The lag of the step's subscriber after the step: how many emitted values it has yet to receive. Its own first
    /// values do not count.
    pub lag: Option<u64>,
    /// The item that a turn took from its chain.
    pub item: Option<i64>,
    pub loss: Option<Loss>,
    /// The subscribers whose progress is another one after the step.
    pub moved: Vec<Moved>,
    /// The emissions that waited before the step and do not wait after it, by the places of their names.
    pub ended: Vec<usize>,
    /// The step's flow after the step, if it was made.
    pub after: Option<After>,
}

/// What a flow of a script is, as far as the rules of its steps depend on it.
#[derive(Clone, Copy)]
pub enum FlowHead {
    Shared(Config),
    State,
    /// A chain that is shared into a shared flow, with how many values are replayed.
    Share(Started, u32),
    /// A chain that is shared into a state flow.
    StateIn(Started),
}

impl FlowHead {
    pub(crate) fn of(flow: &ScriptFlow) -> Self {
        match flow {
            ScriptFlow::Shared(config) => FlowHead::Shared(*config),
            ScriptFlow::State { .. } => FlowHead::State,
            ScriptFlow::Share {
                started,
                replay,
                ..
            } => FlowHead::Share(*started, *replay),
            ScriptFlow::StateIn { started, .. } => FlowHead::StateIn(*started),
        }
    }

    /// Returns how many values the flow replays.
    pub fn replay(self) -> u32 {
        match self {
            FlowHead::Shared(config) => config.replay,
            FlowHead::Share(_, replay) => replay,
            FlowHead::State | FlowHead::StateIn(_) => 1,
        }
    }
}

/// A flow of a trace.
#[derive(Drop)]
pub struct FlowTrace {
    pub head: FlowHead,
    /// All values that a shared flow emitted, in order.
    pub values: Vec<i64>,
}

/// The trace of a script. Its lists of steps have an entry for each step that was played.
#[derive(Drop)]
pub struct Trace {
    /// In the order in which they are made.
    pub flows: Vec<FlowTrace>,
    pub answers: Answers,
    pub steps: Vec<Seen>,
    /// For each step, the final lag of the subscriber that it introduced.
    pub last_lags: Vec<Option<u64>>,
}
