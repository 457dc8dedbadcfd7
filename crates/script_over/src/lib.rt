//! Plays flow scripts by the calls of flows for threads, and writes the lines of `flow_script`.
//!
//! A `Way` says by which calls: those of cores (`one-thread`), of handles (`threads`), of futures (`futures`) or of
//! flows of words (`word`). Each of them but the first gives each subscriber and each emission of a flow a
//! thread of its own, so the tokens of a flow are used by many threads.
//!
//! # Turns
//! The threads take turns, so that the lines are those of the script. `Company` hands each step to the thread of its
//! token, as a `Call` through a channel, and waits for what the thread says: a thread sleeps while it has no step. The
//! flows of a script do not affect each other, and are played one after the other.
//!
//! # Tokens
//! A `Token` makes one call at a time. `MakesTokens` makes the tokens of a flow: `shared_tokens`, `state_tokens`,
//! `word_tokens` and `word_flow_tokens` have handles, `seated`, `future_emission`, `future_reader` and `state_future` futures, and `drivers`
//! the sharings of chains.
//!
//! # Lines
//! A step has an `Answer` of `flow_script`, whose line `add_answer` writes, or its way has no such call (`Said`).
//! `compared` compares the lines of all ways with those of `one-thread`, which are those of `flow_play`.
//!
//! # What is proved
//! `text_over` refuses what `flow_play` refuses, with its fault, and writes its lines over `one-thread`. That the lines
//! of the other ways are the same is tested. No token is used with another flow than its own.
#![tactic(auto)]

mod call;
mod company;
mod comparing;
mod drivers;
mod flow_calls;
mod flows;
mod future_emission;
mod future_reader;
mod over_shared;
mod over_state;
mod over_word_flow;
mod over_word_state;
mod playing;
mod polled;
mod program;
mod reading;
mod refused;
mod said;
mod seated;
mod shared_tokens;
mod state_future;
mod state_tokens;
mod token;
mod verdict;
mod way;
mod word_flow_tokens;
mod word_tokens;
mod worker;

pub use comparing::{Comparison, compared};
pub use playing::text_over;
pub use program::{refuse_arguments, run};
pub use way::Way;
