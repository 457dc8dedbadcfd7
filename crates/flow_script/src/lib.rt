//! Plays JSON flow scripts, and writes their lines.
//!
//! `play` reads a whole script, checks it, plays it on flows for one thread, and only then writes the lines. A script
//! that is refused writes nothing. The refusal says why, and for a fault of a step or of the head (step 0), which one.
//!
//! # What `play` promises
//! `Plays` relates what was written to the `script_meaning` of the bytes that the reader had. At `Ok` the text that they
//! mean was written; at a refusal nothing was, and the fault is that of the meaning; after a write that failed, a first
//! part of the text was.
//!
//! # Playing
//! A `Player` is what the steps on one flow are played on: `flow_steps` has the steps that every kind of flow has,
//! `shared_calls`, `state_calls` and `sharing_steps` those of one kind. `row` plays a step on the flow at its place,
//! `collecting` collects a chain.
//!
//! Each step has one `Answer`. A call that runs out of memory has no answer: it ends the script with
//! `ScriptFault::OutOfMemory`.
//!
//! # Lines
//! The text of a script has a line for each answer (`text_of`): `lines` has the lines of flows, `chain_lines` those of
//! collections, `share_lines` those of turns.
//!
//! # Traces
//! `trace_of` plays a script and also watches its flows: for each step it returns the case of the documented flow that
//! the step took, and what it left. The head of `trace` says how a trace is read. A player that asks for no trace does not
//! pay for one.
#![tactic(auto)]

mod answer;
mod asking;
mod case;
mod chain_lines;
mod collecting;
mod flow_steps;
mod flow_watch;
mod lines;
mod members;
mod memory;
mod numbers;
mod player;
mod playing;
mod refusal;
mod row;
mod script_core;
mod script_hub;
mod script_text;
mod share_lines;
mod shared_calls;
mod sharing_steps;
mod state_calls;
mod step_case;
mod subscriber_names;
mod telling;
mod trace;
mod tracing;
mod transfer;
mod watched;
mod watching;

pub use answer::{Answer, Answers, NotMade};
pub use case::Case;
pub use chain_lines::chain_fault_words;
pub use members::{number_at, text_at};
pub use playing::{answers_of, lines_of, play, played};
pub use script_format::{
    Build, FlowStep, NamedFlow, ReadScript, Script, ScriptFault, ScriptFlow, Step, read_script,
};
pub use script_text::{add_answer, text_of};
pub use subscriber_names::SubscriberNames;
pub use telling::{
    OUT_OF_MEMORY, REFUSED, TRANSFER_FAILED, line_of, tell, tell_arguments, tell_fault, tell_memory,
};
pub use trace::{Act, After, Changes, FlowHead, FlowTrace, Loss, Moved, Progress, Seen, Trace};
pub use tracing::{TracedScript, trace_of};
pub use transfer::{read_all, write_all};
pub use watched::Watched;
