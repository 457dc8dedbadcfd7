//! Reads JSON flow scripts: a text gives a `Script`, or the first fault in it.
//!
//! `read_script` checks the whole text before it returns a script. `ScriptFault` says why it was refused, and for a
//! fault of a step or of the head (step 0), which one.
#![tactic(auto)]

mod name_form;
mod names;
mod read;
mod read_config;
mod read_flows;
mod read_head;
mod read_place;
mod read_share;
mod read_step;
mod script;
mod verb;
mod written;

pub use name_form::is_name;
pub use read::{MOST_BYTES, MOST_STEPS, read_script, read_with_text};
pub use read_flows::MOST_FLOWS;
pub use read_step::MOST_FIRST;
pub use script::{FlowStep, NamedFlow, ReadScript, Script, ScriptFlow, Step};
pub use script_chain_format::{Build, ScriptFault};
