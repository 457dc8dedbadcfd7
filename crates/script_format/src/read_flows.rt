//! Reading the flows of a script of version 2, each with its name.
ghost use Rattle.std.specs.Prelude.{◌++◌, [], ◌∷◌, Ok, Result, List};
ghost use Rattle.serde_json.specs.View.{view, members_view};
ghost use Rattle.script_chain_format.specs.declared.reading.fault.ScriptFault.{ScriptFault as TheScriptFault};
ghost use Rattle.script_format.specs.Actions.{heads_of, named_head};
ghost use Rattle.script_chain_format.specs.Results.{Gives};
ghost use Rattle.script_format.specs.Flows as row;
ghost use Rattle.script_format.specs.Heads.{NamedHead};
ghost use Rattle.script_format.specs.HeadViews.{flows_result, named_flow_result};

use crate::name_form::is_name;
use crate::read_head::flow_in;
use crate::script::NamedFlow;
use script_chain_format::{ScriptFault, Version, first_fault, is_final};
use serde_json::{Map, Value};
use std::alloc::Global;

/// The most flows that a script may have.
pub const MOST_FLOWS: usize = 64;

/// Returns a flow and its name.
fn named_flow(alloc: Global, name: &str, flow: &Value) -> Result<NamedFlow, ScriptFault>
    ensures { Gives (row.named_flow name.now (view flow.now)) (named_flow_result result) }
{
    if !is_name(name) {
        return Err(ScriptFault::BadShape(0));
    }
    let flow = flow_in(alloc, Version::Two, flow)?;
    let name = String::from_str(alloc, name)?;
    Ok(NamedFlow {
        name: Some(name),
        flow,
    })
}

fn pushed(mut flows: Vec<NamedFlow>, flow: NamedFlow) -> Result<Vec<NamedFlow>, ScriptFault>
    ensures { Gives (Ok (heads_of flows.items ++ named_head flow ∷ [])) (flows_result result) }
{
    flows.push(flow)?;
    Ok(flows)
}

/// Returns the flows with one more. A bad form of any flow takes precedence over a limit of any.
fn with_flow(
    flows: Result<Vec<NamedFlow>, ScriptFault>,
    flow: Result<NamedFlow, ScriptFault>,
) -> Result<Vec<NamedFlow>, ScriptFault>
    ensures { (m : Result (List NamedHead) TheScriptFault) (o : Result NamedHead TheScriptFault)
        → Gives m (flows_result flows) → Gives o (named_flow_result flow)
        → Gives (row.with_named_flow m o) (flows_result result) }
{
    match flows {
        Ok(flows) => pushed(flows, flow?),
        Err(fault) => Err(first_fault(fault, &flow)),
    }
}

/// Returns an empty list, or `TooLarge` if `count` is more than a script may have.
fn no_flows_of(alloc: Global, count: usize) -> Result<Vec<NamedFlow>, ScriptFault>
    ensures { Gives (row.no_flows_of count) (flows_result result) }
{
    if count > MOST_FLOWS {
        Err(ScriptFault::TooLarge(0))
    } else {
        Ok(Vec::new(alloc))
    }
}

/// Returns the flows of a script in the byte order of their names, which is the order of an object's members.
pub fn named_flows(
    alloc: Global,
    members: &Map<String, Value>,
) -> Result<Vec<NamedFlow>, ScriptFault>
    ensures { Gives (row.named_flows (members_view members.now.entries)) (flows_result result) }
{
    let mut flows = no_flows_of(alloc, members.len());
    for (name, flow) in members.iter() {
        if is_final(&flows) {
            return flows;
        }
        flows = with_flow(flows, named_flow(alloc, name.as_str(), flow));
    }
    flows
}
