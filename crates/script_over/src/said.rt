//! What a way says of a script's flows and steps, and its lines.

use crate::way::Way;
use flow_script::{Answer, add_answer};
use std::alloc::AllocError;

/// What a way says of a step.
#[derive(Drop)]
pub enum Said {
    Answer(Answer),
    /// The way has no such call, which has this name in scripts.
    NoCall(&'static str),
    /// The way does not have the step's flow.
    NoFlow,
}

/// What a way says of a flow before the first step.
#[derive(Drop)]
pub enum Head {
    /// The flow was made, which has no line.
    Made,
    /// The flow was refused.
    Refused(Answer),
    /// The way does not have the flow, which needs what has this name in scripts.
    NoCall(&'static str),
}

/// A flow's name, if it has one, and what a way says of the flow before the first step.
#[derive(Drop)]
pub struct NamedHead {
    pub name: Option<String>,
    pub head: Head,
}

impl NamedHead {
    /// Returns whether the flow's line is all that the script writes: the flow of a script of version 1 was refused.
    pub fn ends_script(&self) -> bool {
        self.name.is_none() && matches!(&self.head, Head::Refused(_))
    }
}

/// All that a way says of a script.
#[derive(Drop)]
pub struct Told {
    pub heads: Vec<NamedHead>,
    /// What is said of each step. Empty if the flow of a script of version 1 is refused.
    pub steps: Vec<Said>,
}

/// Adds the line of a call, or of what a flow needs, that a way does not have.
pub fn add_no_call(text: &mut String, way: Way, call: &str) -> Result<(), AllocError> {
    let way = way.word();
    writeln!(text, "no such call over {way}: {call}")
}

fn add_name(text: &mut String, name: &Option<String>) -> Result<(), AllocError> {
    match name {
        Some(name) => {
            let name = name.as_str();
            write!(text, "{name} ")
        }
        None => Ok(()),
    }
}

/// Adds the line of a flow, unless it was made.
pub fn add_head(text: &mut String, way: Way, named: &NamedHead) -> Result<(), AllocError> {
    match &named.head {
        Head::Made => Ok(()),
        Head::Refused(answer) => {
            add_name(text, &named.name)?;
            add_answer(text, answer)
        }
        Head::NoCall(needed) => {
            add_name(text, &named.name)?;
            add_no_call(text, way, needed)
        }
    }
}

/// Adds the line of a step.
pub fn add_said(text: &mut String, way: Way, said: &Said) -> Result<(), AllocError> {
    match said {
        Said::Answer(answer) => add_answer(text, answer),
        Said::NoCall(call) => add_no_call(text, way, call),
        Said::NoFlow => add_answer(text, &Answer::NoFlow),
    }
}

/// Adds the lines of a script.
pub fn add_told(text: &mut String, way: Way, told: &Told) -> Result<(), AllocError> {
    for head in &told.heads {
        add_head(text, way, head)?;
    }
    for said in &told.steps {
        add_said(text, way, said)?;
    }
    Ok(())
}
