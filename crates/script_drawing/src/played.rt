//! A script that was played: its flows, and its steps with their lines. All that is shown of a script is written from
//! these.

use flow_script::{Answer, FlowTrace, Seen, TracedScript};
use json_places::Extent;
use serde_json::Value;
use std::alloc::{AllocError, Global};

/// A script that was played.
#[derive(Clone, Copy)]
pub struct Played<'a> {
    pub traced: &'a TracedScript,
    /// The parts of the text between its line feeds: a line for each flow that was refused, and then one for each step.
    pub lines: &'a [&'a str],
    /// In the order in which they are made.
    pub flows: &'a [DrawnFlow<'a>],
    pub steps: &'a [PlayedStep<'a>],
}

/// A flow of a script that was played.
#[derive(Clone, Copy)]
pub struct DrawnFlow<'a> {
    pub name: &'a str,
    /// The flow as the script has it.
    pub value: &'a Value,
    pub trace: &'a FlowTrace,
}

/// A step that was played.
#[derive(Clone, Copy)]
pub struct PlayedStep<'a> {
    /// The number of the step, from 1.
    pub number: usize,
    /// The step as the script has it.
    pub step: &'a Value,
    pub seen: &'a Seen,
    pub answer: &'a Answer,
    /// Its line. A line that is missing counts as empty.
    pub line: &'a str,
    /// The rule behind its line; empty if the form of the drawing has no rules.
    pub rule: &'a str,
    /// The bytes of the step in the script's text, if the form of the drawing has them.
    pub extent: Option<Extent>,
    /// The final lag of the subscriber that the step introduced, or 0 if it introduced none.
    pub last_lag: u64,
}

/// Returns the flows of a script. The only flow of a script that does not name it has the name `flow`.
///
/// # Errors
/// `AllocError`: out of memory.
pub fn flows_of(alloc: Global, traced: &TracedScript) -> Result<Vec<DrawnFlow<'_>>, AllocError> {
    let TracedScript {
        value: script,
        trace,
    } = traced;
    let mut flows = Vec::new(alloc);
    if let (Some(value), Some(trace)) = (script.get("flow"), trace.flows.first()) {
        flows.push(DrawnFlow {
            name: "flow",
            value,
            trace,
        })?;
    } else if let Some(Value::Object(heads)) = script.get("flows") {
        for ((name, value), trace) in heads.iter().zip(trace.flows.iter()) {
            flows.push(DrawnFlow {
                name: name.as_str(),
                value,
                trace,
            })?;
        }
    }
    Ok(flows)
}

/// Returns the steps of a script, with these lines, rules and extents.
///
/// # Errors
/// `AllocError`: out of memory.
pub fn steps_of<'a>(
    alloc: Global,
    traced: &'a TracedScript,
    lines: &'a [&'a str],
    rules: &'a [String],
    extents: &[Extent],
) -> Result<Vec<PlayedStep<'a>>, AllocError> {
    let trace = &traced.trace;
    let lines = lines.get(trace.answers.not_made.len()..).unwrap_or(&[]);
    let mut steps = Vec::new(alloc);
    for (place, step) in traced.steps().iter().enumerate() {
        if let (Some(seen), Some(answer)) = (
            trace.steps.get(place),
            trace.answers.steps.get(place),
        ) {
            steps.push(PlayedStep {
                number: place.saturating_add(1),
                step,
                seen,
                answer,
                line: lines.get(place).copied().unwrap_or(""),
                rule: rule_at(rules, place),
                extent: extents.get(place).copied(),
                last_lag: match trace.last_lags.get(place) {
                    Some(Some(lag)) => *lag,
                    _ => 0,
                },
            })?;
        }
    }
    Ok(steps)
}

fn rule_at(rules: &[String], place: usize) -> &str {
    match rules.get(place) {
        Some(rule) => rule.as_str(),
        None => "",
    }
}

impl<'a> Played<'a> {
    /// Returns how many lines precede that of the first step: one for each flow that was refused.
    pub(crate) fn refused(&self) -> usize {
        self.traced.trace.answers.not_made.len()
    }

    /// Returns the lines of the flows that were refused.
    pub(crate) fn refused_lines(&self) -> &'a [&'a str] {
        self.lines.get(..self.refused()).unwrap_or(&[])
    }

    /// Returns the step that wrote the line at a place. The line of a flow that was refused has no step.
    pub(crate) fn step_of_line(&self, place: usize) -> Option<&'a PlayedStep<'a>> {
        self.steps.get(place.checked_sub(self.refused())?)
    }
}
