//! Taking several values for a subscriber at once.
ghost use Rattle.std.specs.Prelude.{◌≡◌, ◌+◌, ◌≤◌, Ok};
ghost use Rattle.std.specs.Vec.{vec_len, vec_capacity};
ghost use Rattle.flow_law.specs.flow.Draining.{DrainsBy};
ghost use Rattle.flow_law.specs.declared.outcome.Drained.TheVariants.{Most};
ghost use Rattle.flow_core.specs.SubId.{number_of};
ghost use Rattle.flow_core.specs.SharedCore.{SharedCoreNexts};

use super::SharedCore;
use crate::sub_id::SubId;
use flow_law::FlowValue;
use std::alloc::Allocator;

impl<T: FlowValue, A: Allocator + Copy> SharedCore<T, A> {
    /// Appends values that the subscriber can receive, at most `most`, to the list, if no value is queued. Returns how
    /// many; `next` returns the others.
    ///
    /// It looks the subscriber up once, moves it once, and trims the ring once.
    pub(crate) fn take_held<B: Allocator>(
        &mut self,
        id: SubId,
        most: usize,
        values: &mut Vec<T, B>,
    ) -> usize
        ensures most { result ≤ most }
        ensures taken { DrainsBy (SharedCoreNexts (number_of id)) result
            self.old values.old.items (Ok Most) values.new.items self.new }
        ensures room { (vec_len values.new ≡ vec_len values.old + result) ×
            (vec_capacity values.old ≤ vec_capacity values.new) }
    {
        if self.queue.len() > 0 {
            return 0;
        }
        let taken = self
            .subscribers
            .take(id.number, id.key, most, &self.values, values);
        if taken == 0 {
            return 0;
        }
        self.trim();
        taken
    }
}
