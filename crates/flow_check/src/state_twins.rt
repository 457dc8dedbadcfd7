//! Which calls of a state flow may be swapped.
ghost use Rattle.std.specs.Prelude.{◌≡◌};
ghost use Rattle.flow_check.specs.StateTwins.{is_same_write, both_subscribe, are_out, are_state_twins};

use crate::state_calls::{StateAnswer, StateEntry, StateOperation};
use crate::state_machine::StateMachine;

/// Returns whether both calls change the value in the same way.
fn is_same_write(one: StateEntry, other: StateEntry) -> bool
    ensures { result ≡ is_same_write one other }
{
    match (one.operation, one.answer, other.operation, other.answer) {
        (
            StateOperation::Set(v),
            Some(StateAnswer::Done),
            StateOperation::Set(w),
            Some(StateAnswer::Done),
        ) => v == w,
        _ => false,
    }
}

/// Returns whether both calls subscribe.
fn both_subscribe(one: StateEntry, other: StateEntry) -> bool
    ensures { result ≡ both_subscribe one other }
{
    match (one.operation, one.answer, other.operation, other.answer) {
        (
            StateOperation::Subscribe,
            Some(StateAnswer::Done),
            StateOperation::Subscribe,
            Some(StateAnswer::Done),
        ) => true,
        _ => false,
    }
}

impl StateMachine {
    fn are_out(&self, caller: usize, other: usize) -> bool
        ensures { result ≡ are_out caller other self.now }
    {
        self.is_out(caller) && self.is_out(other)
    }

    /// Returns whether it does not matter which of a caller's call and another caller's twin of it comes first. If both
    /// subscribe, other callers only see how many are subscribed.
    pub fn may_swap(&self, caller: usize, call: StateEntry, other: usize, twin: StateEntry) -> bool
        ensures { result ≡ are_state_twins caller other call twin self.now }
    {
        is_same_write(call, twin) || (both_subscribe(call, twin) && self.are_out(caller, other))
    }
}
