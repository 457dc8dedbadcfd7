//! The calls of a shared core that give values, end a subscription or empty the replay cache.
ghost use Rattle.std.specs.Prelude.{IsOk};
ghost use Rattle.flow_law.specs.flow.Standing.{Conforms};
ghost use Rattle.flow_law.specs.declared.call.SharedCall.TheVariants as call;
ghost use Rattle.flow_law.specs.declared.call.SharedReply.TheVariants as reply;
ghost use Rattle.flow_core.specs.SubId.{number_of};
ghost use Rattle.flow_core.specs.SharedCore.{next_reply, cache_reply};

use crate::copies::copies;
use crate::shared::SharedCore;
use crate::sub_id::SubId;
use flow_containers::Received;
use flow_law::{FlowFault, FlowValue, Next};
use std::alloc::Allocator;

impl<T: FlowValue, A: Allocator + Copy> SharedCore<T, A> {
    /// Returns the next value of a subscriber: its own first values come first, then the emitted ones.
    ///
    /// A received value makes room, so queued values may then be emitted.
    ///
    /// # Errors
    /// `OutOfMemory` if the value could not be copied; a later call returns it.
    #[inline]
    pub fn next(&mut self, id: SubId) -> Result<Next<T>, FlowFault>
        ensures documented { Conforms self.old
            (call.TakeNext (number_of id)) (next_reply result) self.new }
        ensures given { T.IsAlwaysCopied → IsOk result }
    {
        match self.subscribers.receive(id.number, id.key, &self.values) {
            Ok(Received::Own(value)) => Ok(Next::Value(value)),
            Ok(Received::Emitted(value, was_last)) => {
                self.settle_after(was_last);
                Ok(Next::Value(value))
            }
            Ok(Received::Empty) => Ok(Next::Empty),
            Ok(Received::Gone) => Ok(Next::Gone),
            Err(fault) => Err(fault),
        }
    }

    /// Ends a subscription, and returns whether it was active. Emissions that waited only for it are done.
    pub fn unsubscribe(&mut self, id: SubId) -> bool
        ensures documented { Conforms self.old (call.Unsubscribe (number_of id))
            (reply.Tested result) self.new }
    {
        let was_there = self.subscribers.remove(id.number, id.key);
        self.settle();
        was_there
    }

    /// Returns the replay cache: copies of at most `replay` values. A new subscriber receives them first, unless a
    /// value is being offered. The only error is `OutOfMemory`.
    pub fn replay_cache(&self) -> Result<Vec<T, A>, FlowFault>
        ensures documented { Conforms self.now call.ReplayCache (cache_reply result) self.now }
    {
        match copies(self.alloc, &self.values, self.place_of(self.cache_start())) {
            Ok(cache) => Ok(cache),
            Err(fault) => Err(fault),
        }
    }

    /// Empties the replay cache. Present subscribers still receive the values that they have not received.
    pub fn reset_replay_cache(&mut self)
        ensures documented { Conforms self.old call.ResetReplayCache reply.Reset self.new }
    {
        self.reset_mark = self.subscribers.emitted();
        self.trim();
    }
}
