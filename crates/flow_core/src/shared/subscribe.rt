//! New subscribers of a shared flow.
ghost use Rattle.std.specs.Prelude.{◌≡◌, ℕ, List, [], IfErr};
ghost use Rattle.flow_law.specs.history.History.{fault_alone};
ghost use Rattle.flow_law.specs.flow.Standing.{Conforms};
ghost use Rattle.flow_law.specs.declared.call.SharedCall.TheVariants as call;
ghost use Rattle.flow_core.specs.SharedCore.{subscribe_reply};

use super::SharedCore;
use crate::sub_id::SubId;
use flow_law::{FlowFault, FlowValue, Refused};
use std::alloc::Allocator;

impl<T: FlowValue, A: Allocator + Copy> SharedCore<T, A> {
    /// Adds a subscriber. It receives the replay cache first, or the value that is being offered, and then what is
    /// emitted.
    ///
    /// A subscriber that does not read blocks emitters or loses values, depending on `overflow`, until `unsubscribe`.
    ///
    /// # Errors
    /// `Exhausted` if the flow has issued as many numbers as its limit allows, else `OutOfMemory`.
    pub fn subscribe(&mut self) -> Result<SubId, FlowFault>
        ensures documented { (name : List ℕ)
            → Conforms self.old (call.Subscribe name []) (subscribe_reply result) self.new }
    {
        match self.subscribe_with(Vec::new(self.alloc)) {
            Ok(id) => Ok(id),
            Err(refused) => Err(refused.fault),
        }
    }

    /// Adds a subscriber. It receives these values before any value of the flow (`onSubscription`).
    ///
    /// They take no number, are in no replay cache, are never dropped, and block no emitter. An error returns them.
    pub fn subscribe_with(&mut self, first: Vec<T, A>) -> Result<SubId, Refused<Vec<T, A>>>
        ensures documented { (name : List ℕ)
            → Conforms self.old (call.Subscribe name first.items)
            (subscribe_reply (fault_alone result)) self.new }
        ensures handed_back { IfErr result (λ refused. refused.value ≡ first) }
    {
        if self.issued == self.config.limit {
            return Err(Refused {
                value: first,
                fault: FlowFault::Exhausted,
            });
        }
        let number = self.issued + 1;
        let position = self.entry();
        match self.subscribers.push(number, first, position) {
            Ok(key) => {
                self.issued = number;
                Ok(SubId { number, key })
            }
            Err(first) => Err(Refused {
                value: first,
                fault: FlowFault::OutOfMemory,
            }),
        }
    }
}
