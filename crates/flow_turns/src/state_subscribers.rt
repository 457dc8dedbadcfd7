//! The subscribers of a sharing over a state flow of one thread.
ghost use Rattle.std.specs.Prelude.{◌≡◌, ℕ, List, IsOk};
ghost use Rattle.flow_law.specs.flow.Standing.{StateConforms};
ghost use Rattle.flow_law.specs.declared.call.StateCall.TheVariants as call;
ghost use Rattle.flow_law.specs.declared.call.StateReply.TheVariants as reply;
ghost use Rattle.flow_core.specs.StateCore.{state_subscribe_reply, state_next_reply};
ghost use Rattle.flow_core.specs.SubId.{number_of};
ghost use Rattle.flow_turns.specs.StateHub.{state_core_of};
ghost use Rattle.flow_turns.specs.SharingViews.{hub_of};
ghost use Rattle.flow_turns.specs.WithCore.{with_state_core};

use crate::sharing::Sharing;
use crate::state_hub::StateHub;
use flow_cold::Cold;
use flow_core::SubId;
use flow_law::{FlowFault, Next};
use std::alloc::Allocator;

impl<C: Cold, A: Allocator + Copy> Sharing<C, StateHub<C::Item, A>> {
    /// Subscribes to the state flow of a `StateHub`, as `StateCore::subscribe`. The next turn counts the subscriber.
    ///
    /// # Errors
    /// `Exhausted` if the flow has issued as many numbers as its limit allows, and `OutOfMemory`.
    pub fn subscribe(&mut self) -> Result<SubId, FlowFault>
        ensures documented { (name : List ℕ)
            → StateConforms (state_core_of (hub_of self.old))
            (call.Subscribe name) (state_subscribe_reply result)
            (state_core_of (hub_of self.new)) }
        ensures rest { self.new ≡ with_state_core self.old (state_core_of (hub_of self.new)) }
    {
        self.hub.core.subscribe()
    }

    /// Receives the next value of a subscriber of a `StateHub`, as `StateCore::next`.
    ///
    /// # Errors
    /// `OutOfMemory` if the value could not be copied: a later call returns it.
    pub fn next(&mut self, id: SubId) -> Result<Next<C::Item>, FlowFault>
        ensures documented { StateConforms
            (state_core_of (hub_of self.old)) (call.TakeNext (number_of id))
            (state_next_reply result) (state_core_of (hub_of self.new)) }
        ensures given { C.Item.IsAlwaysCopied → IsOk result }
        ensures rest { self.new ≡ with_state_core self.old (state_core_of (hub_of self.new)) }
    {
        self.hub.core.next(id)
    }

    /// Ends a subscription of a `StateHub`, as `StateCore::unsubscribe`. Returns whether the subscription existed. The
    /// next turn does not count it.
    pub fn unsubscribe(&mut self, id: SubId) -> bool
        ensures documented { StateConforms
            (state_core_of (hub_of self.old)) (call.Unsubscribe (number_of id))
            (reply.Answered result) (state_core_of (hub_of self.new)) }
        ensures rest { self.new ≡ with_state_core self.old (state_core_of (hub_of self.new)) }
    {
        self.hub.core.unsubscribe(id)
    }
}
