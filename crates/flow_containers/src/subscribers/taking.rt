//! Taking several emitted values for a subscriber at once.
ghost use Rattle.std.specs.Prelude.{◌≡◌, ◌+◌, ◌-◌, ◌<◌, ◌≤◌, ◌++◌, length, take, drop, IfSome};
ghost use Rattle.std.specs.Vec.{vec_len, vec_capacity};
ghost use Rattle.flow_law.specs.flow.SharedFlow as flow;
ghost use Rattle.flow_containers.specs.Receiving.{TakesSome};

use crate::subscribers::Subscribers;
use circular_buffer::HeapCircularBuffer;
use flow_law::FlowValue;
use std::alloc::Allocator;

/// Appends copies of at most `most` values to the list, in order from the place `from`. Returns how many: fewer if
/// there are no more or a copy is refused, and 0 if the list gets no memory.
fn copy_to<T: FlowValue, A: Allocator, B: Allocator>(
    values: &HeapCircularBuffer<T, A>,
    from: usize,
    most: usize,
    list: &mut Vec<T, B>,
) -> usize
    requires { from ≤ length values.now.items }
    ensures most { result ≤ most }
    ensures within { from + result ≤ length values.now.items }
    ensures copied { list.new.items ≡ list.old.items ++ take result (drop from values.now.items) }
    ensures room { (vec_len list.new ≡ vec_len list.old + result) ×
        (vec_capacity list.old ≤ vec_capacity list.new) }
{
    let count = most.min(values.len() - from);
    if list.reserve(count).is_err() {
        return 0;
    }
    for taken in 0..count {
        let Some(value) = values.get(from + taken) else {
            return taken;
        };
        match value.try_copy() {
            Ok(copy) => list.push_reserved(copy),
            Err(_fault) => return taken,
        }
    }
    count
}

impl<T: FlowValue, A: Allocator> Subscribers<T, A> {
    /// Appends copies of the emitted values that a subscriber receives next, at most `most`, to the list. Returns how
    /// many: none if the subscriber has own values left. `values` are the last emitted values.
    #[inline]
    pub fn take<B: Allocator>(
        &mut self,
        number: u64,
        key: usize,
        most: usize,
        values: &HeapCircularBuffer<T, A>,
        list: &mut Vec<T, B>,
    ) -> usize
        requires held { length values.now.items ≤ self.old.emitted }
        requires kept { IfSome (flow.position_of number self.old.list)
            (λ position. self.old.emitted - length values.now.items ≤ position) }
        ensures most { result ≤ most }
        ensures none { result ≡ 0 → (list.new.items ≡ list.old.items) × (self.new ≡ self.old) }
        ensures some { 0 < result →
            TakesSome number values.now.items self.old
            list.old.items result list.new.items self.new }
        ensures room { (vec_len list.new ≡ vec_len list.old + result) ×
            (vec_capacity list.old ≤ vec_capacity list.new) }
    {
        let Some(row) = self.members.get_mut(number, key) else {
            return 0;
        };
        if row.own.len() > 0 {
            return 0;
        }
        let position = row.position.max(self.floor);
        let first = self.counts.emitted() - values.len() as u64;
        let count = copy_to(values, (position - first) as usize, most, list);
        if count > 0 {
            self.counts.leave(position);
            self.counts.enter(position + count as u64);
            row.position = position + count as u64;
        }
        count
    }
}
