//! The next value of a subscriber, by one look-up.
ghost use Rattle.std.specs.Prelude.{◌≡◌, ◌-◌, ◌≤◌, length, IfSome, IsOk};
ghost use Rattle.flow_law.specs.flow.SharedFlow as flow;
ghost use Rattle.flow_containers.specs.Receiving.{SubscriberReceives};

use crate::subscribers::Subscribers;
use circular_buffer::HeapCircularBuffer;
use flow_law::{FlowFault, FlowValue};
use std::alloc::Allocator;

/// What one subscriber receives.
#[derive(Drop)]
pub enum Received<T> {
    /// No subscriber has this number.
    Gone,
    /// The first of the subscriber's own values.
    Own(T),
    /// A copy of an emitted value, which the subscriber has now passed. The flag is `true` if this was the first value
    /// that the flow holds, and no other subscriber is at its position.
    Emitted(T, bool),
    /// The subscriber has received all values.
    Empty,
}

impl<T: FlowValue, A: Allocator> Subscribers<T, A> {
    /// Returns what a subscriber receives next. `values` are the last emitted values.
    #[inline]
    pub fn receive(
        &mut self,
        number: u64,
        key: usize,
        values: &HeapCircularBuffer<T, A>,
    ) -> Result<Received<T>, FlowFault>
        requires held { length values.now.items ≤ self.old.emitted }
        requires kept { IfSome (flow.position_of number self.old.list)
            (λ position. self.old.emitted - length values.now.items ≤ position) }
        ensures receives { SubscriberReceives number values.now.items self.old result self.new }
        ensures given { T.IsAlwaysCopied → IsOk result }
    {
        let Some(row) = self.members.get_mut(number, key) else {
            return Ok(Received::Gone);
        };
        if let Some(value) = row.own.pop_front() {
            return Ok(Received::Own(value));
        }
        let position = row.position.max(self.floor);
        let first = self.counts.emitted() - values.len() as u64;
        let Some(value) = values.get((position - first) as usize) else {
            return Ok(Received::Empty);
        };
        match value.try_copy() {
            Ok(copy) => {
                let others = self.counts.move_on(position);
                row.position = position + 1;
                Ok(Received::Emitted(copy, (position == first) & (others == 0)))
            }
            Err(fault) => Err(fault),
        }
    }
}
