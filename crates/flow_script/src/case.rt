//! The case of its documented flow that a step takes, before it is played.
ghost use Rattle.std.specs.Prelude.{◌≡◌, ℤ};
ghost use Rattle.flow_core.specs.SharedCore.{case_of};
ghost use Rattle.flow_law.specs.flow.Standing.{StandsFor};
ghost use Rattle.flow_law.specs.declared.states.SharedFlowState.{SharedFlowState};
ghost use Rattle.flow_script.specs.Cases as meaning;

use flow_core::{EmitCase, SharedCore, StateCore};
use script_format::FlowStep;

/// What a step does, where its answer does not say it: the case of its documented flow that it takes.
#[derive(Clone, Copy, Debug, PartialEq, Eq)]
pub enum Case {
    /// The step has no cases: its answer says what it did.
    Plain,
    /// An emission: the flow has no subscriber, or room for the value, and takes it at once.
    Appends,
    /// An emission into a flow without a buffer: the value is offered to the subscribers. `try_emit` does not take it.
    Offers,
    /// An emission into a blocked flow, which waits. `try_emit` does not take it.
    Queues,
    /// An emission into a blocked flow, whose value is dropped.
    DropsLatest,
    /// An emission into a blocked flow: subscribers that are a whole buffer behind lose their oldest value.
    DropsOldest,
    /// A state flow's value becomes another one.
    Stores,
    /// A state flow's value is set to the same value, which changes nothing.
    Conflates,
    /// A state flow's value is not the expected one, and stays.
    Keeps,
}

/// Returns the case of an emission.
fn case_of_emission(case: EmitCase) -> Case
    ensures { result ≡ meaning.as_case (case_of case) }
{
    match case {
        EmitCase::Appends => Case::Appends,
        EmitCase::Offers => Case::Offers,
        EmitCase::Queues => Case::Queues,
        EmitCase::DropsLatest => Case::DropsLatest,
        EmitCase::DropsOldest => Case::DropsOldest,
    }
}

/// Returns the case of a step on a shared flow.
pub fn shared_case(core: &SharedCore<i64>, step: FlowStep) -> Case
    ensures { (s : SharedFlowState ℤ) → StandsFor core.now s →
        result ≡ meaning.shared_case step s }
{
    match step {
        FlowStep::TryEmit(_) => case_of_emission(core.emission_case()),
        FlowStep::Emit(_) => case_of_emission(core.emission_case()),
        _ => Case::Plain,
    }
}

/// Returns the value of a state flow.
pub fn current(core: &StateCore<i64>) -> i64
    ensures { result ≡ core.now.value }
{
    match core.value() {
        Ok(value) => value,
        Err(_) => unreachable!(),
    }
}

/// Returns the case of a value that a state flow takes.
fn stored_case(core: &StateCore<i64>, value: i64) -> Case
    ensures { result ≡ meaning.stored_case value core.now }
{
    if current(core) == value {
        Case::Conflates
    } else {
        Case::Stores
    }
}

fn compared_case(core: &StateCore<i64>, expect: i64, update: i64) -> Case
    ensures { result ≡ meaning.state_case (FlowStep.CompareAndSet expect update) core.now }
{
    if current(core) == expect {
        stored_case(core, update)
    } else {
        Case::Keeps
    }
}

/// Returns the case of a step on a state flow.
pub fn state_case(core: &StateCore<i64>, step: FlowStep) -> Case
    ensures { result ≡ meaning.state_case step core.now }
{
    match step {
        FlowStep::TryEmit(value) => stored_case(core, value),
        FlowStep::Set(value) => stored_case(core, value),
        FlowStep::CompareAndSet(expect, update) => compared_case(core, expect, update),
        _ => Case::Plain,
    }
}
