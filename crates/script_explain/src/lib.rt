//! Explains flow scripts in words: where and why one is refused, and by which rule a step has its answer.
//!
//! # Refusals
//! `explain_refusal` takes the bytes of a script and the fault with which the reader refused it. It searches the text
//! again for the key or the value that is wrong, and writes its line and column, what was expected there, and the
//! nearest right word. If it finds none, it writes the place of the step and the words of the fault. Three tables list
//! what scripts consist of: `step_words`, `flow_words`, `chain_words`. The search ends at the first thing that is
//! wrong, which it writes to the `Report`.
//!
//! # Rules
//! `rules_of` takes the trace of a script, and returns for each step the rule that gives its answer: the words of the
//! case that the step took. `rules` has the rules; they are those of docs/DEFINITIONS.md.
#![tactic(auto)]

mod chain_words;
mod flow_words;
mod form;
mod head;
mod names;
mod refusal;
mod report;
mod rules;
mod search;
mod step_words;
mod words;

pub use refusal::explain_refusal;
pub use rules::rules_of;
