//! Chains in JSON scripts: reads a chain's text, and builds the chain.
//!
//! Begin with `chain_in`. The module `reading` has what each reader of a script needs: the members of a JSON object,
//! the script's version, and the fault that refuses a script.
#![tactic(auto)]

mod chain_words;
mod read_chain;
mod read_op;
mod read_source;
mod reading;

pub use read_chain::{Build, chain_in};
pub use read_source::{are_whole_numbers, numbers_of};
pub use reading::fault::{ScriptFault, first_fault, is_final};
pub use reading::members::{has_only, i64_at, text_at, u32_at, u64_at};
pub use reading::version::{Version, version_of};
