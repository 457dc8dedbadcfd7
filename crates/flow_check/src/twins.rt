//! Calls of two callers that may be swapped, such as to set the same value. Of these the one that ends first comes first.
ghost use Rattle.std.specs.Prelude.{◌≡◌, ℕ, IsTrue};
ghost use Rattle.flow_check.specs.Twins.{BeginsAfter, IsEarlierTwin, HasEarlierTwin};

use crate::machine::Machine;
use crate::node::Node;
use crate::remaining::{is_over_before, may_come_next, next_call, recorded};
use crate::timed::Timed;

/// Returns whether the caller's call after its next one, if there is one, begins after this end.
fn begins_after<C: Copy>(
    callers: &[Vec<Timed<C>>],
    placed: &Vec<u32>,
    caller: usize,
    end: Option<u64>,
) -> bool
    ensures { IsTrue result → BeginsAfter callers.now placed.now.items end caller }
{
    let Some(index) = placed.as_slice().get(caller) else {
        return true;
    };
    match recorded(callers, caller, *index as usize + 1) {
        None => true,
        Some(call) => is_over_before(end, call.begin),
    }
}

/// Returns whether the other caller's next call may be swapped with this caller's, and comes first: an order that begins
/// with this caller's call can begin with the other one.
fn is_earlier_twin<C: Copy, M: Machine<C>>(
    callers: &[Vec<Timed<C>>],
    node: &Node<M>,
    caller: usize,
    other: usize,
) -> bool
    ensures { IsTrue result →
        IsEarlierTwin M.stepped M.may_skip M.Swapped
        callers.now node.now.state node.now.placed.items caller other }
{
    let Some(call) = next_call(callers, &node.placed, caller) else {
        return false;
    };
    let Some(end) = call.end else {
        return false;
    };
    let Some(twin) = next_call(callers, &node.placed, other) else {
        return false;
    };
    if !is_over_before(twin.end, end) {
        return false;
    }
    if !node.state.are_twins(caller, &call.call, other, &twin.call) {
        return false;
    }
    if !may_come_next(callers, &node.placed, twin.begin) {
        return false;
    }
    begins_after(callers, &node.placed, caller, twin.end)
}

/// Returns whether some caller's next call may be swapped with this caller's, and comes first.
pub fn has_earlier_twin<C: Copy, M: Machine<C>>(
    callers: &[Vec<Timed<C>>],
    node: &Node<M>,
    caller: usize,
) -> bool
    ensures { IsTrue result →
        HasEarlierTwin M.stepped M.may_skip M.Swapped
        callers.now node.now.state node.now.placed.items caller }
{
    let Some(call) = next_call(callers, &node.placed, caller) else {
        return false;
    };
    // A call that has a twin is one of itself.
    if !node.state.are_twins(caller, &call.call, caller, &call.call) {
        return false;
    }
    for other in 0..callers.len() {
        if is_earlier_twin(callers, node, caller, other) {
            return true;
        }
    }
    false
}
