//! Checks recorded calls of a flow: whether a legal history of the documented flow explains the
//! answers that callers got.
//!
//! # Records
//! A `Record` has the calls of each caller in the caller's order, with the moments at which each
//! began and ended. Calls of different callers may overlap. A call that has no end is pending.
//!
//! # Verdicts
//! `Legal(order)` gives an order of the calls that a legal history explains. `Illegal` says that
//! there is none. Both are proved. `GaveUp` claims nothing: the search took too long, or what it
//! found was not confirmed.
//!
//! # The search
//! The search is not proved; what it finds is checked. An order is replayed, and a table of states
//! without an order is checked to be complete.
#![tactic(auto)]

mod candidates;
mod checking;
mod looking_ahead;
mod machine;
mod marks;
mod moments;
mod node;
mod record;
mod refuting;
mod remaining;
mod replaying;
mod same;
mod search;
mod settling;
mod shared_answers;
mod shared_calls;
mod shared_checking;
mod shared_machine;
mod shared_moves;
mod shared_same;
mod shared_steps;
mod shared_words;
mod state_answers;
mod state_calls;
mod state_checking;
mod state_machine;
mod state_twins;
mod subscribed;
mod table;
mod timed;
mod twins;
mod verdict;
mod words;
mod wrong_moment;

pub use moments::{Cut, known_record};
pub use record::{Fault, FaultKind, Record};
pub use shared_calls::{SharedAnswer, SharedEntry, SharedOperation};
pub use shared_checking::{check_shared, shared_goes_wrong, shared_seems_illegal};
pub use state_calls::{StateAnswer, StateEntry, StateOperation};
pub use state_checking::{check_state, state_goes_wrong, state_seems_illegal};
pub use timed::Timed;
pub use verdict::Verdict;
