//! A lock with tokens.
//!
//! A gate guards a state. A caller enters with a *seat* and has the state until it leaves. The contracts say what a
//! mutex leaves to prose: the state stands for a history of events, and each seat has seen a beginning of that one
//! history. A caller that enters finds a state whose history extends what its seat had seen by events of other callers.
//! A caller that leaves names the events that it added, under the name of its seat.
//!
//! - `Gate::new` makes the gate and its first seat; `seat` makes more, each through another one.
//! - `enter` waits until the gate is free. `try_enter` returns `false` if another caller is inside.
//! - `Seat::state` lends the state to the caller inside, and `leave` frees the gate.
//! - `meet` shows two seats the same history, which begins with what each had seen.
//! - `look` changes nothing, and proves that what a seat has seen begins a history for which some state stood.
//! - `close` and `close_with` return the state.
//! - `Seat::end` ends a seat whose caller is not inside. A seat has no `Drop`, so a caller that entered has to leave.
//!
//! Progress is not claimed: a waiting `enter` may never enter, and waiting callers enter in any order.
#![tactic(auto)]

mod entering;
mod gate;
mod inside;
mod seat;
mod steps;
mod view;

pub use gate::Gate;
pub use seat::Seat;
pub use steps::{GateRule, NamesEvents};
pub use view::SeatView;
