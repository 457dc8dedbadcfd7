//! The flow of a script that a step acts on.
ghost use Rattle.std.specs.Prelude.{◌≡◌};
ghost use Rattle.serde_json.specs.View.{view};
ghost use Rattle.script_chain_format.specs.Results.{Gives};
ghost use Rattle.script_format.specs.Actions.{heads_of, named_head};
ghost use Rattle.script_format.specs.Checks as checks;

use crate::name_form::name_at;
use crate::script::NamedFlow;
use script_chain_format::{ScriptFault, Version};
use serde_json::Value;

fn is_named(flow: &NamedFlow, name: &str) -> bool
    ensures { result ≡ checks.is_named name.now (named_head flow.now) }
{
    match &flow.name {
        Some(known) => name == known.as_str(),
        None => false,
    }
}

/// Returns the place of the flow with this name.
fn place_named(flows: &[NamedFlow], name: &str) -> Option<usize>
    ensures { result ≡ checks.place_named name.now (heads_of flows.now) }
{
    for (place, flow) in flows.iter().enumerate() {
        if is_named(flow, name) {
            return Some(place);
        }
    }
    None
}

/// Returns the place of the flow that a step names. In version 1 a step names none: it acts on the only flow.
pub fn place_at(
    version: Version,
    flows: &[NamedFlow],
    at: u64,
    step: &Value,
) -> Result<usize, ScriptFault>
    ensures { Gives (checks.place_at version (heads_of flows.now) at (view step.now)) result }
{
    match version {
        Version::One => Ok(0),
        Version::Two => {
            let Some(name) = name_at(step, "flow") else {
                return Err(ScriptFault::BadShape(at));
            };
            match place_named(flows, name) {
                Some(place) => Ok(place),
                None => Err(ScriptFault::UnknownName(at)),
            }
        }
    }
}
