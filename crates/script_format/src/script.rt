//! A script that was read and checked.

use flow_law::{Config, Started};
use script_chain_format::Build;
use serde_json::Value;

/// A step on a flow. An emission or a subscriber is given by its place: how many of its kind were introduced before it
/// for that flow.
#[derive(Clone, Copy)]
pub enum FlowStep {
    TryEmit(i64),
    /// Introduces an emission.
    Emit(i64),
    /// With the place of the emission.
    Poll(usize),
    /// With the place of the emission.
    Cancel(usize),
    /// Introduces a subscriber.
    Subscribe,
    /// With the place of the subscriber.
    Next(usize),
    /// With the place of the subscriber.
    Unsubscribe(usize),
    Cache,
    Count,
    Reset,
    Value,
    Set(i64),
    /// With the expected value, and the new one.
    CompareAndSet(i64, i64),
    /// With the moment of the turn.
    Turn(u64),
}

#[derive(Drop)]
pub enum Step {
    /// With the place of the flow among those of the script.
    Flow(usize, FlowStep),
    /// Introduces a subscriber, with the place of its flow and its own first values.
    SubscribeWith(usize, Vec<i64>),
    Collect(Build),
}

/// What a flow of a script is made from.
#[derive(Drop)]
pub enum ScriptFlow {
    Shared(Config),
    State {
        initial: i64,
        limit: u64,
    },
    /// A chain that is shared into a shared flow (`shareIn`).
    Share {
        chain: Build,
        started: Started,
        replay: u32,
        limit: u64,
    },
    /// A chain that is shared into a state flow (`stateIn`).
    StateIn {
        chain: Build,
        started: Started,
        initial: i64,
        limit: u64,
    },
}

/// A flow of a script. If it is refused when it is made, its line says why. With a name, the line begins with the name,
/// and the script is played all the same; without a name, that line is all that the script writes.
#[derive(Drop)]
pub struct NamedFlow {
    pub name: Option<String>,
    pub flow: ScriptFlow,
}

/// A checked script. One of its flows may still be refused when it is made.
#[derive(Drop)]
pub struct Script {
    /// In the order in which they are made.
    pub flows: Vec<NamedFlow>,
    pub steps: Vec<Step>,
}

/// A checked script with the data of the text that it was read from. The text has what a played script no longer needs:
/// the names of its steps, and the words of its flows and chains.
#[derive(Drop)]
pub struct ReadScript {
    pub script: Script,
    pub value: Value,
}
