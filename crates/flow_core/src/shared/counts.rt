//! The numbers of subscribers and values of a shared core.
ghost use Rattle.std.specs.Prelude.{◌≡◌, ◌+◌, ◌≤◌, max, length, option_map, slice_get};
ghost use Rattle.flow_law.specs.flow.SharedFlow.{lag_of};
ghost use Rattle.flow_law.specs.flow.Standing.{StandsFor, Conforms, held, needed};
ghost use Rattle.flow_law.specs.declared.states.SharedFlowState.{SharedFlowState};
ghost use Rattle.flow_law.specs.declared.call.SharedCall.TheVariants as call;
ghost use Rattle.flow_law.specs.declared.call.SharedReply.TheVariants as reply;
ghost use Rattle.flow_core.specs.SubId.{number_of};

use crate::shared::SharedCore;
use crate::sub_id::SubId;
use flow_law::FlowValue;
use std::alloc::Allocator;

impl<T: FlowValue, A: Allocator + Copy> SharedCore<T, A> {
    /// Returns the number of subscribers.
    pub fn subscription_count(&self) -> u64
        ensures documented { Conforms self.now call.SubscriptionCount
            (reply.Counted result) self.now }
    {
        self.subscribers.len() as u64
    }

    /// Returns how many values the flow keeps: those that a present or a new subscriber may still receive.
    ///
    /// There are at most `replay + extra` of them, or one if both are 0. Queued values and own first values do not
    /// count.
    pub fn held(&self) -> usize
        ensures held { (s : SharedFlowState T) → StandsFor self.now s → result ≡ held s }
        ensures most { result ≤ max (self.now.config.replay + self.now.config.extra) 1 }
    {
        self.values.len()
    }

    /// Returns a value that the flow keeps: the one at place 0 is the oldest that a present or a new subscriber may still
    /// receive.
    pub fn held_value(&self, place: usize) -> Option<&T>
        ensures held { (s : SharedFlowState T) → StandsFor self.now s →
            option_map (λ value. value.now) result ≡ slice_get (needed s) place }
    {
        self.values.get(place)
    }

    /// Returns how many values were emitted since the flow was made. Queued values, values that were dropped instead of
    /// being emitted, and own first values do not count.
    pub fn emission_count(&self) -> u64
        ensures emitted { (s : SharedFlowState T) →
            StandsFor self.now s → result ≡ length s.emitted }
    {
        self.subscribers.emitted()
    }

    /// Returns how many emitted values a subscriber has not received yet, or `None` if no subscriber has this number.
    /// Its own first values do not count.
    ///
    /// The lag is at most `replay + extra`, or 1 if both are 0. If a subscriber's lag is that great, `overflow`
    /// decides: emitters wait, the subscriber loses the oldest emitted value that it has not received, or new values
    /// are dropped.
    pub fn lag(&self, id: SubId) -> Option<u64>
        ensures lag { (s : SharedFlowState T) →
            StandsFor self.now s → result ≡ lag_of (number_of id) s }
    {
        self.subscribers.lag(id.number, id.key)
    }
}
