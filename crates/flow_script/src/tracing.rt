//! Playing a script and watching its flows: its trace.
ghost use Rattle.std.specs.Prelude.{◌≡◌, IfOk, IfErr};
ghost use Rattle.script_chain_format.specs.Results.{Gives};
ghost use Rattle.script_format.specs.Actions.{actions_of, heads_of};
ghost use Rattle.flow_script.specs.Cases as meaning;
ghost use Rattle.flow_script.specs.Rows.{FollowsSteps, TakesCases};
ghost use Rattle.flow_script.specs.Traces.{trace_result, trace_seen};

use crate::answer::{Answer, Answers};
use crate::asking::Asking;
use crate::flow_watch::Watch;
use crate::row::{PlayedFlow, begin};
use crate::trace::{FlowHead, FlowTrace, Seen, Trace};
use crate::watching::{last_lags, watched_step};
use script_chain_format::version_of;
use script_format::{NamedFlow, ReadScript, Script, ScriptFault, Step, read_with_text};
use serde_json::Value;
use std::alloc::{AllocError, Global};

/// The trace of a script, and the data of its text.
#[derive(Drop)]
pub struct TracedScript {
    pub value: Value,
    pub trace: Trace,
}

impl TracedScript {
    /// Returns the steps that were played, as the text has them.
    pub fn steps(&self) -> &[Value] {
        match self.value.get("steps") {
            Some(Value::Array(steps)) => steps.get(..self.trace.steps.len()).unwrap_or(&[]),
            _ => &[],
        }
    }
}

/// Returns a watch on each flow of a script, before the first step.
fn watches_of(alloc: Global, value: &Value, flows: &[NamedFlow]) -> Result<Vec<Watch>, AllocError> {
    let mut watches = Vec::new(alloc);
    for named in flows {
        let asking = match (version_of(value), flow_value(value, named)) {
            (Some(version), Some(flow)) => Asking::new(alloc, version, flow)?,
            _ => None,
        };
        watches.push(Watch::new(alloc, FlowHead::of(&named.flow), asking))?;
    }
    Ok(watches)
}

/// Returns a flow as the script's text has it.
fn flow_value<'a>(value: &'a Value, named: &NamedFlow) -> Option<&'a Value> {
    match &named.name {
        Some(name) => value.get("flows")?.get(name.as_str()),
        None => value.get("flow"),
    }
}

/// Returns what the trace keeps of the watches after the last step.
fn flows_of(alloc: Global, watches: Vec<Watch>) -> Result<Vec<FlowTrace>, AllocError> {
    let mut flows = Vec::new(alloc);
    for watch in watches {
        flows.push(watch.finish())?;
    }
    Ok(flows)
}

/// The answers of the steps, and what was seen of them.
type Watched = (Vec<Answer>, Vec<Seen>);

/// Plays the steps of a script one after the other, and watches the flows.
fn watch_steps(
    alloc: Global,
    row: &mut Vec<Option<PlayedFlow>>,
    watches: &mut [Watch],
    steps: Vec<Step>,
) -> Result<Watched, ScriptFault>
    ensures plays { IfOk result (λ told.
        FollowsSteps (actions_of steps.items) row.old.items told.0.items) }
    ensures cases { IfOk result (λ told.
        TakesCases (actions_of steps.items) row.old.items told.1.items) }
    ensures fault { IfErr result (λ fault. fault ≡ ScriptFault.OutOfMemory) }
{
    let mut answers = Vec::new(alloc);
    let mut all_seen = Vec::new(alloc);
    for step in steps {
        let (answer, seen) = watched_step(alloc, row, watches, step)?;
        answers.push(answer)?;
        all_seen.push(seen)?;
    }
    Ok((answers, all_seen))
}

/// Plays a script that was read, and watches its flows. `value` is the data of its text.
fn traced(alloc: Global, value: &Value, script: Script) -> Result<Trace, ScriptFault>
    ensures traced { IfOk result (λ trace. trace_seen trace ≡
        meaning.trace_of (heads_of script.flows.items) (actions_of script.steps.items)) }
    ensures fault { IfErr result (λ fault. fault ≡ ScriptFault.OutOfMemory) }
{
    let Script { flows, steps } = script;
    let mut watches = watches_of(alloc, value, flows.as_slice())?;
    let mut not_made = Vec::new(alloc);
    let Some(mut row) = begin(alloc, &mut not_made, flows)? else {
        return Ok(Trace {
            flows: flows_of(alloc, watches)?,
            answers: Answers {
                not_made,
                steps: Vec::new(alloc),
            },
            steps: Vec::new(alloc),
            last_lags: Vec::new(alloc),
        });
    };
    let (answers, seen) = watch_steps(alloc, &mut row, watches.as_mut_slice(), steps)?;
    let last_lags = last_lags(alloc, row.as_slice(), seen.as_slice())?;
    Ok(Trace {
        flows: flows_of(alloc, watches)?,
        answers: Answers {
            not_made,
            steps: answers,
        },
        steps: seen,
        last_lags,
    })
}

/// Reads a script, plays it, and returns its trace with the data of its text.
pub fn trace_of(alloc: Global, bytes: &[u8]) -> Result<TracedScript, ScriptFault>
    ensures { Gives (meaning.traced bytes.now) (trace_result result) }
{
    let ReadScript { script, value } = match read_with_text(alloc, bytes) {
        Ok(read) => read,
        Err(fault) => return Err(fault),
    };
    match traced(alloc, &value, script) {
        Ok(trace) => Ok(TracedScript { value, trace }),
        Err(_) => Err(ScriptFault::OutOfMemory),
    }
}
