//! Reading a script's head.
ghost use Rattle.std.specs.Prelude.{◌≡◌, Ok, Err, map, option_map};
ghost use Rattle.serde_json.specs.View.{view, items_view};
ghost use Rattle.script_chain_format.specs.Results.{Gives, or_fault};
ghost use Rattle.script_format.specs.Format as format;
ghost use Rattle.script_format.specs.Actions.{head_of_flow, heads_of};
ghost use Rattle.script_format.specs.Flows as row;
ghost use Rattle.script_format.specs.Heads as heads;
ghost use Rattle.script_format.specs.HeadViews.{flow_result, flows_result, head_result};

use crate::read_config::{config_of, limit_at};
use crate::read_flows::named_flows;
use crate::read_share::{share_in, state_in};
use crate::script::{NamedFlow, ScriptFlow};
use crate::verb::HeadKind;
use script_chain_format::{ScriptFault, Version, has_only, i64_at, text_at};
use serde_json::Value;
use std::alloc::Global;

/// Returns a state flow.
fn state_of(flow: &Value) -> Option<ScriptFlow>
    ensures { option_map head_of_flow result ≡ heads.state_of (view flow.now) }
{
    let initial = i64_at(flow, "initial")?;
    let limit = limit_at(flow)?;
    if !has_only(flow, &["kind", "initial", "limit"]) {
        return None;
    }
    Some(ScriptFlow::State { initial, limit })
}

fn shared_of(flow: &Value) -> Option<ScriptFlow>
    ensures { option_map head_of_flow result
        ≡ option_map heads.shared_flow (format.config_of (view flow.now)) }
{
    Some(ScriptFlow::Shared(config_of(flow)?))
}

/// Returns the flow, or `BadShape` if its form is wrong.
fn formed(flow: Option<ScriptFlow>) -> Result<ScriptFlow, ScriptFault>
    ensures { Gives (or_fault (ScriptFault.BadShape 0) (option_map head_of_flow flow))
        (flow_result result) }
{
    flow.ok_or(ScriptFault::BadShape(0))
}

/// Returns the flow of a head with this kind.
fn flow_named(
    alloc: Global,
    version: Version,
    kind: &str,
    flow: &Value,
) -> Result<ScriptFlow, ScriptFault>
    ensures { Gives (heads.flow_named version kind.now (view flow.now)) (flow_result result) }
{
    match kind {
        "shared" => formed(shared_of(flow)),
        "state" => formed(state_of(flow)),
        "share" => share_in(alloc, version, flow),
        "state_in" => state_in(alloc, version, flow),
        _ => Err(ScriptFault::BadShape(0)),
    }
}

/// Returns the flow of a head, in a script of this version.
pub fn flow_in(alloc: Global, version: Version, flow: &Value) -> Result<ScriptFlow, ScriptFault>
    ensures { Gives (heads.flow_in version (view flow.now)) (flow_result result) }
{
    match text_at(flow, "kind") {
        Some(kind) => flow_named(alloc, version, kind, flow),
        None => Err(ScriptFault::BadShape(0)),
    }
}

fn no_flows(alloc: Global, flow: &Value) -> Result<Vec<NamedFlow>, ScriptFault>
    ensures { Gives (heads.no_flows (view flow.now)) (flows_result result) }
{
    if has_only(flow, &["kind"]) {
        Ok(Vec::new(alloc))
    } else {
        Err(ScriptFault::BadShape(0))
    }
}

/// Returns a list of one flow without a name.
fn only(alloc: Global, flow: ScriptFlow) -> Result<Vec<NamedFlow>, ScriptFault>
    ensures { Gives (Ok (heads.only_flow (head_of_flow flow))) (flows_result result) }
{
    let mut flows = Vec::new(alloc);
    flows.push(NamedFlow { name: None, flow })?;
    Ok(flows)
}

/// Returns a list of the only flow of a script of version 1, or an empty list for the kind `none`.
fn only_named(alloc: Global, kind: &str, flow: &Value) -> Result<Vec<NamedFlow>, ScriptFault>
    ensures { Gives (heads.only_named kind.now (view flow.now)) (flows_result result) }
{
    match kind {
        "none" => no_flows(alloc, flow),
        _ => only(alloc, flow_named(alloc, Version::One, kind, flow)?),
    }
}

/// Returns a list of the only flow of a script of version 1, or an empty list if it has none.
fn only_in(alloc: Global, flow: &Value) -> Result<Vec<NamedFlow>, ScriptFault>
    ensures { Gives (heads.only_in (view flow.now)) (flows_result result) }
{
    match text_at(flow, "kind") {
        Some(kind) => only_named(alloc, kind, flow),
        None => Err(ScriptFault::BadShape(0)),
    }
}

/// Returns the kind of a flow, which decides what steps it allows.
fn kind_of(flow: &ScriptFlow) -> HeadKind
    ensures { result ≡ heads.kind_of (head_of_flow flow.now) }
{
    match flow {
        ScriptFlow::Shared(_) => HeadKind::Shared,
        ScriptFlow::State { .. } => HeadKind::State,
        ScriptFlow::Share { .. } => HeadKind::Share,
        ScriptFlow::StateIn { .. } => HeadKind::StateIn,
    }
}

/// Returns the kind of the flow at a place, or `Absent` if there is none.
pub fn kind_at(flows: &[NamedFlow], place: usize) -> HeadKind
    ensures { result ≡ heads.kind_at place (heads_of flows.now) }
{
    match flows.get(place) {
        Some(named) => kind_of(&named.flow),
        None => HeadKind::Absent,
    }
}

fn head_keys(version: Version) -> &'static [&'static str]
    ensures { map (λ key. key.now) result.now ≡ row.head_keys version }
{
    match version {
        Version::One => &["version", "flow", "steps"],
        Version::Two => &["version", "flows", "steps"],
    }
}

fn steps_in(version: Version, value: &Value) -> Option<&Vec<Value>>
    ensures { option_map (λ steps. items_view steps.now.items) result
        ≡ row.steps_in version (view value.now) }
{
    if !has_only(value, head_keys(version)) {
        return None;
    }
    value.get("steps")?.as_array()
}

/// Returns the flows of a script: one without a name or none in version 1, and each with its name in version 2.
fn flows_in(alloc: Global, version: Version, value: &Value) -> Result<Vec<NamedFlow>, ScriptFault>
    ensures { Gives (row.flows_in version (view value.now)) (flows_result result) }
{
    match version {
        Version::One => match value.get("flow") {
            Some(flow) => only_in(alloc, flow),
            None => Err(ScriptFault::BadShape(0)),
        },
        Version::Two => match value.get("flows").and_then(Value::as_object) {
            Some(members) => named_flows(alloc, members),
            None => Err(ScriptFault::BadShape(0)),
        },
    }
}

/// Returns the flows and the steps of a head. A bad form takes precedence over a limit, so the keys of the head, and
/// that `steps` is a list, are checked first.
pub fn head_in(
    alloc: Global,
    version: Version,
    value: &Value,
) -> Result<(Vec<NamedFlow>, &Vec<Value>), ScriptFault>
    ensures { Gives (row.head_in version (view value.now)) (head_result result) }
{
    let Some(steps) = steps_in(version, value) else {
        return Err(ScriptFault::BadShape(0));
    };
    let flows = flows_in(alloc, version, value)?;
    Ok((flows, steps))
}
