//! The private calls that are made as soon as the flow may give their answers.
ghost use Rattle.std.specs.Prelude.{◌≡◌, ℕ, IfOk, IfSome};
ghost use Rattle.flow_check.specs.Reached.{reached};
ghost use Rattle.flow_check.specs.Settling.{MakesPrivate, Settles};

use crate::candidates::first_private;
use crate::machine::Machine;
use crate::node::Node;
use crate::remaining::{next_call, place};
use crate::timed::Timed;
use std::alloc::{AllocError, Global};

/// The number of private calls that are made at one node. Others are then turns of the search.
pub const MOST_CALLS: usize = 4096;

/// Returns the node after this caller's next call, if that is a private one that ended, and the flow may give its answer.
fn after_private<C: Copy, M: Machine<C>>(
    alloc: Global,
    callers: &[Vec<Timed<C>>],
    node: &Node<M>,
    caller: usize,
) -> Result<Option<Node<M>>, AllocError>
    ensures { IfOk result (λ made. IfSome made (λ after.
        MakesPrivate M.stepped M.is_private callers.now caller (reached node.now) (reached after))) }
{
    let Some(call) = next_call(callers, &node.placed, caller) else {
        return Ok(None);
    };
    if call.end.is_none() {
        return Ok(None);
    }
    if !node.state.is_private(&call.call) {
        return Ok(None);
    }
    let stepped = node.state.step(alloc, caller, &call.call)?;
    let Some(state) = stepped else {
        return Ok(None);
    };
    let mut placed = Vec::from_slice(alloc, node.placed.as_slice())?;
    if !place(&mut placed, caller) {
        return Ok(None);
    }
    Ok(Some(Node { state, placed }))
}

/// Makes the private calls that may come next at this node, and then those that may come next after them.
pub fn settled<C: Copy, M: Machine<C>>(
    alloc: Global,
    callers: &[Vec<Timed<C>>],
    first: Node<M>,
) -> Result<Node<M>, AllocError>
    ensures { IfOk result (λ last.
        Settles M.stepped M.is_private callers.now (reached first) (reached last)) }
{
    let mut node = first;
    for _ in 0..MOST_CALLS {
        let Some(private) = first_private(callers, &node) else {
            return Ok(node);
        };
        let made = after_private(alloc, callers, &node, private.caller)?;
        let Some(after) = made else {
            return Ok(node);
        };
        node = after;
    }
    Ok(node)
}
