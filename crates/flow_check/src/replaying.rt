//! Checks whether an order of steps goes through a record.
ghost use Rattle.std.specs.Prelude.{◌≡◌, IsTrue, IfOk, IfSome, map};
ghost use Rattle.flow_check.specs.Remaining.{GoesThroughAll, IsStep};

use crate::machine::Machine;
use crate::node::Move;
use crate::remaining::{may_come_next, next_call, none_placed, owes_nothing, place};
use crate::timed::Timed;
use std::alloc::{AllocError, Global};

/// Returns the caller of each turn.
pub fn callers_of(alloc: Global, order: &[Move]) -> Result<Vec<usize>, AllocError>
    ensures { IfOk result (λ callers. callers.items ≡ map (λ turn. turn.caller) order.now) }
{
    let mut callers = Vec::new(alloc);
    for turn in order {
        callers.push(turn.caller)?;
    }
    Ok(callers)
}

/// Returns the state after a turn, or None if the flow may not give the recorded answer or the call may not be skipped.
fn after<C, M: Machine<C>>(
    alloc: Global,
    state: &M,
    turn: Move,
    call: &C,
) -> Result<Option<M>, AllocError>
    ensures { IfOk result (λ after. IfSome after (λ next.
        IsStep M.stepped M.may_skip state.now turn.caller call.now next)) }
{
    if turn.skips {
        if !state.may_skip(call) {
            return Ok(None);
        }
        let copy = state.try_copy(alloc)?;
        return Ok(Some(copy));
    }
    let stepped = state.step(alloc, turn.caller, call)?;
    Ok(stepped)
}

/// Returns whether the order goes through all calls. The order is not trusted.
pub fn goes_through<C: Copy, M: Machine<C>>(
    alloc: Global,
    first: M,
    callers: &[Vec<Timed<C>>],
    order: &[Move],
) -> Result<bool, AllocError>
    ensures { IfOk result (λ yes. IsTrue yes →
        GoesThroughAll M.stepped M.may_skip callers.now first
        (map (λ turn. turn.caller) order.now)) }
{
    let mut state = first;
    let mut placed = none_placed(alloc, callers)?;
    for turn in order {
        let Some(call) = next_call(callers, &placed, turn.caller) else {
            return Ok(false);
        };
        if !may_come_next(callers, &placed, call.begin) {
            return Ok(false);
        }
        let stepped = after(alloc, &state, *turn, &call.call)?;
        let Some(next) = stepped else {
            return Ok(false);
        };
        state = next;
        if !place(&mut placed, turn.caller) {
            return Ok(false);
        }
    }
    Ok(owes_nothing(callers, &placed))
}
