//! Reading a script, or refusing it with the first fault that is found.
ghost use Rattle.std.specs.Prelude.{◌<◌, ◌+◌, Ok, Err};
ghost use Rattle.serde_json.specs.View.{view, items_view};
ghost use Rattle.script_chain_format.specs.Results.{Gives};
ghost use Rattle.script_format.specs.Checks as checks;
ghost use Rattle.script_format.specs.Actions.{heads_of};
ghost use Rattle.script_format.specs.ReadScripts.{script_alone};

use crate::names::Names;
use crate::read_head::head_in;
use crate::read_step::step_of;
use crate::script::{NamedFlow, ReadScript, Script, Step};
use script_chain_format::{ScriptFault, Version, version_of};
use serde_json::Value;
use std::alloc::Global;

/// The most bytes that a script may have.
pub const MOST_BYTES: usize = 1_048_576;

/// The most steps that a script may have.
pub const MOST_STEPS: usize = 10_000;

fn steps_of(
    alloc: Global,
    version: Version,
    flows: &[NamedFlow],
    steps: &[Value],
) -> Result<Vec<Step>, ScriptFault>
    ensures { let heads = heads_of flows.now in Gives
        (checks.steps_of version heads 1 (checks.nothing_named heads) (items_view steps.now))
        (checks.steps_result result) }
{
    let mut names = Names::new(alloc, flows.len())?;
    let mut checked = Vec::new(alloc);
    for (index, step) in steps.iter().enumerate() {
        let step = step_of(alloc, version, flows, &mut names, index as u64 + 1, step)?;
        checked.push(step)?;
    }
    Ok(checked)
}

/// Returns the script with these flows, if there are not too many steps and none is refused.
fn checked(
    alloc: Global,
    version: Version,
    flows: Vec<NamedFlow>,
    steps: &[Value],
) -> Result<Script, ScriptFault>
    ensures { Gives (checks.checked version (heads_of flows.items, items_view steps.now))
        (checks.script_result result) }
{
    if steps.len() > MOST_STEPS {
        return Err(ScriptFault::TooLarge(0));
    }
    let steps = steps_of(alloc, version, flows.as_slice(), steps)?;
    Ok(Script { flows, steps })
}

fn script_of(alloc: Global, value: &Value) -> Result<Script, ScriptFault>
    ensures { Gives (checks.script_of (view value.now)) (checks.script_result result) }
{
    if !value.is_object() {
        return Err(ScriptFault::BadShape(0));
    }
    let Some(version) = version_of(value) else {
        return Err(ScriptFault::BadVersion);
    };
    let (flows, steps) = head_in(alloc, version, value)?;
    checked(alloc, version, flows, steps.as_slice())
}

/// Returns the data of a JSON text.
fn json_of(alloc: Global, bytes: &[u8]) -> Result<Value, ScriptFault>
    ensures { Gives (checks.json_of bytes.now) (checks.value_result result) }
{
    match Value::from_slice(alloc, bytes) {
        Ok(value) => Ok(value),
        Err(error) if error.is_memory() => Err(ScriptFault::OutOfMemory),
        Err(_) => Err(ScriptFault::NotJson),
    }
}

/// Reads a whole script, checks each of its steps, and keeps the data of the text.
pub fn read_with_text(alloc: Global, bytes: &[u8]) -> Result<ReadScript, ScriptFault>
    ensures { Gives (checks.read_script bytes.now) (checks.script_result (script_alone result)) }
{
    if bytes.len() > MOST_BYTES {
        return Err(ScriptFault::TooLarge(0));
    }
    let value = json_of(alloc, bytes)?;
    let script = script_of(alloc, &value)?;
    Ok(ReadScript { script, value })
}

/// Reads a whole script, and checks each of its steps.
pub fn read_script(alloc: Global, bytes: &[u8]) -> Result<Script, ScriptFault>
    ensures { Gives (checks.read_script bytes.now) (checks.script_result result) }
{
    match read_with_text(alloc, bytes) {
        Ok(read) => Ok(read.script),
        Err(fault) => Err(fault),
    }
}
