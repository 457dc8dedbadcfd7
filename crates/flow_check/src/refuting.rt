//! Checks whether a table shows that no order goes through a record.
ghost use Rattle.std.specs.Prelude.{◌≡◌, ℕ, List, true, Some, IsTrue, IfOk};
ghost use Rattle.flow_check.specs.Records.{IsWellTimed};
ghost use Rattle.flow_check.specs.PrivateCalls.{MayMakePrivate};
ghost use Rattle.flow_check.specs.Twins.{KeepSwapped};
ghost use Rattle.flow_check.specs.Remaining.{GoesThroughAll, none_placed, placing, OwesNothing};
ghost use Rattle.flow_check.specs.Reached.{reached};
ghost use Rattle.flow_check.specs.Tables.{nodes_of, IsInTable, SettlesInTable};
ghost use Rattle.flow_check.specs.Tables.{IsFollowedAt, IsCovered, IsFollowed, IsClosedTable};

use crate::machine::Machine;
use crate::node::Node;
use crate::remaining::{may_come_next, next_call, none_placed, owes_nothing, place};
use crate::settling::settled;
use crate::table::Table;
use crate::timed::Timed;
use crate::twins::has_earlier_twin;
use std::alloc::{AllocError, Global};

/// A record's calls, and a table that may show that no order goes through them. The table is not trusted.
#[derive(Drop)]
struct Claim<'a, C, M> {
    alloc: Global,
    callers: &'a [Vec<Timed<C>>],
    table: &'a Table<M>,
}

impl<'a, C: Copy, M: Machine<C>> Claim<'a, C, M> {
    /// Returns whether the node at this place has this state and these counts of calls.
    fn is_node(&self, place: usize, state: &M, placed: &Vec<u32>) -> Result<bool, AllocError>
        ensures { IfOk result (λ yes. IsTrue yes →
            IsInTable (nodes_of M.read self.now.table.now) state.now placed.now.items) }
    {
        let found = self.table.at(self.alloc, place)?;
        let Some(node) = found else {
            return Ok(false);
        };
        if !node.state.same(state) {
            return Ok(false);
        }
        let yes = node.placed.as_slice() == placed.as_slice();
        Ok(yes)
    }

    /// Returns whether the table has this state with these counts of calls, after private calls.
    fn is_settled(&self, state: M, placed: Vec<u32>) -> Result<bool, AllocError>
        ensures { IfOk result (λ yes. IsTrue yes →
            SettlesInTable M.stepped M.may_skip M.is_private self.now.callers.now
            (nodes_of M.read self.now.table.now) state placed.items) }
    {
        let node = settled(self.alloc, self.callers, Node { state, placed })?;
        let Some(at) = self.table.find(&node.state, &node.placed) else {
            return Ok(false);
        };
        let yes = self.is_node(at, &node.state, &node.placed)?;
        Ok(yes)
    }

    /// Returns whether the table has this state after one more call of the caller, and after private calls.
    fn is_placed(&self, node: &Node<M>, caller: usize, after: M) -> Result<bool, AllocError>
        ensures { IfOk result (λ yes. IsTrue yes →
            SettlesInTable M.stepped M.may_skip M.is_private self.now.callers.now
            (nodes_of M.read self.now.table.now) after
            (placing caller node.now.placed.items)) }
    {
        let mut placed = Vec::from_slice(self.alloc, node.placed.as_slice())?;
        if !place(&mut placed, caller) {
            return Ok(false);
        }
        let yes = self.is_settled(after, placed)?;
        Ok(yes)
    }

    /// Returns whether the table has the node that follows if this call is made, or the call may not be made.
    fn is_made_followed(&self, node: &Node<M>, caller: usize, call: &C) -> Result<bool, AllocError>
        ensures { IfOk result (λ yes. IsTrue yes →
            (after : M) → M.stepped node.now.state caller call.now ≡ Some after →
            SettlesInTable M.stepped M.may_skip M.is_private self.now.callers.now
            (nodes_of M.read self.now.table.now) after
            (placing caller node.now.placed.items)) }
    {
        let stepped = node.state.step(self.alloc, caller, call)?;
        let Some(after) = stepped else {
            return Ok(true);
        };
        let yes = self.is_placed(node, caller, after)?;
        Ok(yes)
    }

    /// Returns whether the table has the node that follows if this call is skipped, or the call may not be skipped.
    fn is_skip_followed(&self, node: &Node<M>, caller: usize, call: &C) -> Result<bool, AllocError>
        ensures { IfOk result (λ yes. IsTrue yes → M.may_skip call.now ≡ true →
            SettlesInTable M.stepped M.may_skip M.is_private self.now.callers.now
            (nodes_of M.read self.now.table.now) node.now.state
            (placing caller node.now.placed.items)) }
    {
        if !node.state.may_skip(call) {
            return Ok(true);
        }
        let copy = node.state.try_copy(self.alloc)?;
        let yes = self.is_placed(node, caller, copy)?;
        Ok(yes)
    }

    /// Returns whether the table has the nodes that follow if this caller's next call happens.
    fn is_followed_at(&self, node: &Node<M>, caller: usize) -> Result<bool, AllocError>
        ensures { IfOk result (λ yes. IsTrue yes →
            IsFollowedAt M.stepped M.may_skip M.is_private self.now.callers.now
            (nodes_of M.read self.now.table.now) (reached node.now) caller) }
    {
        let Some(call) = next_call(self.callers, &node.placed, caller) else {
            return Ok(true);
        };
        if !may_come_next(self.callers, &node.placed, call.begin) {
            return Ok(true);
        }
        let made = self.is_made_followed(node, caller, &call.call)?;
        if !made {
            return Ok(false);
        }
        let skipped = self.is_skip_followed(node, caller, &call.call)?;
        Ok(skipped)
    }

    /// Returns whether a call comes before this caller's next one, or the table has what follows that.
    fn is_covered(&self, node: &Node<M>, caller: usize) -> Result<bool, AllocError>
        ensures { IfOk result (λ yes. IsTrue yes →
            IsCovered M.stepped M.may_skip M.is_private self.now.callers.now
            (nodes_of M.read self.now.table.now) M.Swapped (reached node.now) caller) }
    {
        if has_earlier_twin(self.callers, node, caller) {
            return Ok(true);
        }
        let yes = self.is_followed_at(node, caller)?;
        Ok(yes)
    }

    /// Returns whether the table has what is needed of the nodes that follow, whichever caller's next call happens.
    fn is_each_covered(&self, node: &Node<M>) -> Result<bool, AllocError>
        ensures { IfOk result (λ yes. IsTrue yes → (caller : ℕ) →
            IsCovered M.stepped M.may_skip M.is_private self.now.callers.now
            (nodes_of M.read self.now.table.now) M.Swapped (reached node.now) caller) }
    {
        for caller in 0..self.callers.len() {
            let yes = self.is_covered(node, caller)?;
            if !yes {
                return Ok(false);
            }
        }
        Ok(true)
    }

    /// Returns whether the table has the nodes that follow this one, and this one is not an end.
    fn is_followed(&self, node: &Node<M>) -> Result<bool, AllocError>
        ensures { IfOk result (λ yes. IsTrue yes →
            IsFollowed M.stepped M.may_skip M.is_private self.now.callers.now
            (nodes_of M.read self.now.table.now) M.Swapped (reached node.now)
            × (OwesNothing self.now.callers.now node.now.placed.items → ⊥)) }
    {
        if owes_nothing(self.callers, &node.placed) {
            return Ok(false);
        }
        let each = self.is_each_covered(node)?;
        Ok(each)
    }

    /// Returns whether the table is closed.
    fn is_closed(&self) -> Result<bool, AllocError>
        ensures { IfOk result (λ yes. IsTrue yes →
            IsClosedTable M.stepped M.may_skip M.is_private self.now.callers.now
            (nodes_of M.read self.now.table.now) M.Swapped) }
    {
        for place in 0..self.table.len() {
            let found = self.table.at(self.alloc, place)?;
            let Some(node) = found else {
                return Ok(false);
            };
            let yes = self.is_followed(&node)?;
            if !yes {
                return Ok(false);
            }
        }
        Ok(true)
    }

    /// Returns whether the table has the state before any call, after private calls.
    fn begins(&self, first: &M) -> Result<bool, AllocError>
        ensures { IfOk result (λ yes. IsTrue yes →
            SettlesInTable M.stepped M.may_skip M.is_private self.now.callers.now
            (nodes_of M.read self.now.table.now) first.now
            (none_placed self.now.callers.now)) }
    {
        let placed = none_placed(self.alloc, self.callers)?;
        let copy = first.try_copy(self.alloc)?;
        let yes = self.is_settled(copy, placed)?;
        Ok(yes)
    }
}

/// Returns whether the table shows that no order goes through the calls. The table is not trusted.
pub fn refutes<C: Copy, M: Machine<C>>(
    alloc: Global,
    first: &M,
    callers: &[Vec<Timed<C>>],
    table: &Table<M>,
) -> Result<bool, AllocError>
    requires well { IsWellTimed callers.now }
    requires early { MayMakePrivate
        M.stepped M.may_skip M.IsSound M.is_private M.Ahead first.now }
    requires swapped { KeepSwapped M.stepped M.may_skip M.Swapped }
    ensures { IfOk result (λ yes. IsTrue yes →
        (order : List ℕ) → GoesThroughAll M.stepped M.may_skip callers.now first.now order → ⊥) }
{
    let claim = Claim {
        alloc,
        callers,
        table,
    };
    let yes = claim.begins(first)?;
    if !yes {
        return Ok(false);
    }
    let closed = claim.is_closed()?;
    Ok(closed)
}
