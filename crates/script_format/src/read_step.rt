//! Reading a step.
ghost use Rattle.std.specs.Prelude.{◌≡◌, Ok, Err};
ghost use Rattle.serde_json.specs.View.{view};
ghost use Rattle.script_chain_format.specs.Results.{Gives};
ghost use Rattle.script_format.specs.Actions.{heads_of};
ghost use Rattle.script_format.specs.Format as format;
ghost use Rattle.script_format.specs.Checks as checks;
ghost use Rattle.script_format.specs.Names.{name_rows, written_of};
ghost use Rattle.script_chain_format.specs.Chains.{build_result};

use crate::names::Names;
use crate::read_head::kind_at;
use crate::read_place::place_at;
use crate::script::{FlowStep, NamedFlow, Step};
use crate::verb::{FlowVerb, Verb, verb_named};
use crate::written::{Written, written_by};
use script_chain_format::{Build, ScriptFault, Version, chain_in, has_only, numbers_of, text_at};
use serde_json::Value;
use std::alloc::Global;

/// The most first values of its own that a subscriber may have.
pub const MOST_FIRST: usize = 10_000;

/// Returns whether a step has first values for its subscriber. Version 1 has none.
fn has_first(version: Version, step: &Value) -> bool
    ensures { result ≡ format.has_first version (view step.now) }
{
    match version {
        Version::One => false,
        Version::Two => step.get("first").is_some(),
    }
}

/// Returns what a step does, if it has no keys except those that it needs.
fn verb_of(version: Version, step: &Value) -> Option<Verb>
    ensures { result ≡ format.verb_of version (view step.now) }
{
    let text = text_at(step, "do")?;
    let verb = verb_named(text, has_first(version, step))?;
    if has_only(step, verb.keys(version)) {
        Some(verb)
    } else {
        None
    }
}

/// Returns the step on the flow at a place. `names` has the names of the steps before it, and gains the one that it
/// introduces.
fn named_step<'a>(
    alloc: Global,
    names: &mut Names<'a>,
    flow: usize,
    at: u64,
    written: Written<'a>,
) -> Result<Step, ScriptFault>
    ensures { Gives (checks.named_step flow at (name_rows names.old) (written_of written.entry))
        (checks.named_result result (name_rows names.new)) }
{
    match written {
        Written::Plain(step) => Ok(Step::Flow(flow, step)),
        Written::Emit(name, value) => {
            names.add_emission(flow, at, name)?;
            Ok(Step::Flow(flow, FlowStep::Emit(value)))
        }
        Written::Poll(name) => {
            let emission = names.emission(flow, at, name)?;
            Ok(Step::Flow(flow, FlowStep::Poll(emission)))
        }
        Written::Cancel(name) => {
            let emission = names.emission(flow, at, name)?;
            Ok(Step::Flow(flow, FlowStep::Cancel(emission)))
        }
        Written::Subscribe(name) => {
            names.add_subscriber(flow, at, name)?;
            Ok(Step::Flow(flow, FlowStep::Subscribe))
        }
        Written::SubscribeWith(name, values) => {
            let first = numbers_of(alloc, at, MOST_FIRST, values)?;
            names.add_subscriber(flow, at, name)?;
            Ok(Step::SubscribeWith(flow, first))
        }
        Written::Next(name) => {
            let subscriber = names.subscriber(flow, at, name)?;
            Ok(Step::Flow(flow, FlowStep::Next(subscriber)))
        }
        Written::Unsubscribe(name) => {
            let subscriber = names.subscriber(flow, at, name)?;
            Ok(Step::Flow(flow, FlowStep::Unsubscribe(subscriber)))
        }
    }
}

/// Returns a step on a flow. `names` has the names of the steps before it, and gains the one that it introduces.
fn flow_step<'a>(
    alloc: Global,
    version: Version,
    flows: &[NamedFlow],
    verb: FlowVerb,
    names: &mut Names<'a>,
    at: u64,
    step: &'a Value,
) -> Result<Step, ScriptFault>
    ensures { Gives
        (checks.flow_step_by version
        (heads_of flows.now) verb at (name_rows names.old) (view step.now))
        (checks.named_result result (name_rows names.new)) }
{
    let Some(written) = written_by(verb, step) else {
        return Err(ScriptFault::BadShape(at));
    };
    let place = place_at(version, flows, at, step)?;
    if !kind_at(flows, place).allows(verb) {
        return Err(ScriptFault::BadShape(at));
    }
    named_step(alloc, names, place, at, written)
}

/// Returns the chain of a step that collects it.
fn collected_in(
    alloc: Global,
    version: Version,
    at: u64,
    step: &Value,
) -> Result<Build, ScriptFault>
    ensures { Gives (checks.collected_in version at (view step.now)) (build_result result) }
{
    match step.get("chain") {
        Some(chain) => chain_in(alloc, version, at, chain),
        None => Err(ScriptFault::BadShape(at)),
    }
}

/// Returns the step. `names` has the names of the steps before it, and gains the one that it introduces.
pub fn step_of<'a>(
    alloc: Global,
    version: Version,
    flows: &[NamedFlow],
    names: &mut Names<'a>,
    at: u64,
    step: &'a Value,
) -> Result<Step, ScriptFault>
    ensures { Gives
        (checks.step_of version (heads_of flows.now) at (name_rows names.old) (view step.now))
        (checks.named_result result (name_rows names.new)) }
{
    let Some(verb) = verb_of(version, step) else {
        return Err(ScriptFault::BadShape(at));
    };
    match verb {
        Verb::Flow(verb) => flow_step(alloc, version, flows, verb, names, at, step),
        Verb::Collect => Ok(Step::Collect(collected_in(alloc, version, at, step)?)),
    }
}
