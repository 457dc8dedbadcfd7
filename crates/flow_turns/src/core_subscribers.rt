//! The subscribers of a sharing over a shared flow of one thread.
ghost use Rattle.std.specs.Prelude.{◌≡◌, ℕ, List, [], IsOk};
ghost use Rattle.flow_law.specs.flow.Standing.{Conforms};
ghost use Rattle.flow_law.specs.declared.call.SharedCall.TheVariants as call;
ghost use Rattle.flow_law.specs.declared.call.SharedReply.TheVariants as reply;
ghost use Rattle.flow_core.specs.SharedCore.{subscribe_reply, next_reply};
ghost use Rattle.flow_core.specs.SubId.{number_of};
ghost use Rattle.flow_turns.specs.CoreHub.{core_of};
ghost use Rattle.flow_turns.specs.SharingViews.{hub_of};
ghost use Rattle.flow_turns.specs.WithCore.{with_core};

use crate::core_hub::CoreHub;
use crate::sharing::Sharing;
use flow_cold::Cold;
use flow_core::SubId;
use flow_law::{FlowFault, Next};
use std::alloc::Allocator;

impl<C: Cold, A: Allocator + Copy> Sharing<C, CoreHub<C::Item, A>> {
    /// Subscribes to the shared flow of a `CoreHub`, as `SharedCore::subscribe`. The next turn counts the subscriber.
    ///
    /// # Errors
    /// `Exhausted` if the flow has issued as many numbers as its limit allows, and `OutOfMemory`.
    pub fn subscribe(&mut self) -> Result<SubId, FlowFault>
        ensures documented { (name : List ℕ)
            → Conforms (core_of (hub_of self.old)) (call.Subscribe name []) (subscribe_reply result)
            (core_of (hub_of self.new)) }
        ensures rest { self.new ≡ with_core self.old (core_of (hub_of self.new)) }
    {
        self.hub.core.subscribe()
    }

    /// Receives the next value of a subscriber of a `CoreHub`, as `SharedCore::next`.
    ///
    /// # Errors
    /// `OutOfMemory` if the value could not be copied: a later call returns it.
    pub fn next(&mut self, id: SubId) -> Result<Next<C::Item>, FlowFault>
        ensures documented { Conforms (core_of (hub_of self.old)) (call.TakeNext (number_of id))
            (next_reply result) (core_of (hub_of self.new)) }
        ensures given { C.Item.IsAlwaysCopied → IsOk result }
        ensures rest { self.new ≡ with_core self.old (core_of (hub_of self.new)) }
    {
        self.hub.core.next(id)
    }

    /// Ends a subscription of a `CoreHub`, as `SharedCore::unsubscribe`. Returns whether the subscription existed. The
    /// next turn does not count it.
    pub fn unsubscribe(&mut self, id: SubId) -> bool
        ensures documented { Conforms (core_of (hub_of self.old)) (call.Unsubscribe (number_of id))
            (reply.Tested result) (core_of (hub_of self.new)) }
        ensures rest { self.new ≡ with_core self.old (core_of (hub_of self.new)) }
    {
        self.hub.core.unsubscribe(id)
    }
}
