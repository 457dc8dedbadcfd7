//! Taking all that a subscriber can receive now.
ghost use Rattle.std.specs.Prelude.{ℕ, Result, IsOk};
ghost use Rattle.std.specs.Result.{OnErr};
ghost use Rattle.flow_law.specs.flow.Draining.{DrainsBy, IsFull};
ghost use Rattle.flow_law.specs.declared.fault.FlowFault.{FlowFault};
ghost use Rattle.flow_law.specs.declared.outcome.Next.{Next};
ghost use Rattle.flow_core.specs.SubId.{number_of};
ghost use Rattle.flow_core.specs.SharedCore as shared;
ghost use Rattle.flow_core.specs.StateCore as state;

use crate::shared::SharedCore;
use crate::state::StateCore;
use crate::sub_id::SubId;
use flow_law::{Drained, FlowFault, FlowValue, Next};
use std::alloc::Allocator;

/// What draining needs from a flow.
trait TakesNext {
    type Item: FlowValue;

    /// What one `next` of the subscriber of this number does.
    ghost nexts: { ℕ → Self → Result (Next Self.Item) FlowFault → Self → Type 0 };

    fn take_next(&mut self, id: SubId) -> Result<Next<Self::Item>, FlowFault>
        ensures nexts { nexts (number_of id) self.old result self.new }
        ensures given { Self.Item.IsAlwaysCopied → IsOk result };
}

impl<T: FlowValue, A: Allocator + Copy> TakesNext for SharedCore<T, A> {
    type Item = T;

    ghost nexts = { shared.SharedCoreNexts };

    fn take_next(&mut self, id: SubId) -> Result<Next<T>, FlowFault> {
        self.next(id)
    }
}

impl<T: FlowValue, A: Allocator + Copy> TakesNext for StateCore<T, A> {
    type Item = T;

    ghost nexts = { state.StateCoreNexts };

    fn take_next(&mut self, id: SubId) -> Result<Next<T>, FlowFault> {
        self.next(id)
    }
}

/// Calls `next` until it has no value or `most` values were taken. Reserves room for each value before taking it.
fn take_all<S: TakesNext, B: Allocator>(
    core: &mut S,
    id: SubId,
    most: usize,
    values: &mut Vec<S::Item, B>,
) -> Result<Drained, FlowFault>
    ensures drains { DrainsBy
        (S.nexts (number_of id)) most core.old values.old.items result values.new.items core.new }
    ensures full { S.Item.IsAlwaysCopied → OnErr result (IsFull values.new) }
{
    for _ in 0..most {
        if values.reserve(1).is_err() {
            return Err(FlowFault::OutOfMemory);
        }
        match core.take_next(id)? {
            Next::Value(value) => values.push_reserved(value),
            Next::Empty => return Ok(Drained::Empty),
            Next::Gone => return Ok(Drained::Gone),
        }
    }
    Ok(Drained::Most)
}

impl<T: FlowValue, A: Allocator + Copy> SharedCore<T, A> {
    /// Appends the values that the subscriber can receive now, at most `most`, to the list, as if by calls of `next`.
    /// `Ok` says why it stopped.
    ///
    /// # Errors
    /// `OutOfMemory` if the list cannot grow or a copy is refused. The next value is still in the flow, the values
    /// before it are in the list, and a later call continues.
    pub fn drain<B: Allocator>(
        &mut self,
        id: SubId,
        most: usize,
        values: &mut Vec<T, B>,
    ) -> Result<Drained, FlowFault>
        ensures documented { DrainsBy (shared.SharedCoreNexts (number_of id)) most
            self.old values.old.items result values.new.items self.new }
        ensures full { T.IsAlwaysCopied → OnErr result (IsFull values.new) }
    {
        let taken = self.take_held(id, most, values);
        take_all(self, id, most - taken, values)
    }
}

impl<T: FlowValue, A: Allocator + Copy> StateCore<T, A> {
    /// Appends what the subscriber can receive now, which is at most one value, to the list. `Ok` says why it stopped.
    /// It lets a state flow be used in place of a shared flow.
    pub fn drain<B: Allocator>(
        &mut self,
        id: SubId,
        most: usize,
        values: &mut Vec<T, B>,
    ) -> Result<Drained, FlowFault>
        ensures documented { DrainsBy (state.StateCoreNexts (number_of id)) most
            self.old values.old.items result values.new.items self.new }
        ensures full { T.IsAlwaysCopied → OnErr result (IsFull values.new) }
    {
        take_all(self, id, most, values)
    }
}
