//! A shared core behind a gate, and as one of the kinds of flow.
ghost use Rattle.flow_law.specs.flow.SharedFlow.{first_state};
ghost use Rattle.flow_law.specs.flow.SharedHistory.{shared_flow};
ghost use Rattle.flow_law.specs.flow.Standing.{StandsFor, StandsForHistory};
ghost use Rattle.flow_law.proofs.SharedLawful.{shared_lawful};
ghost use Rattle.flow_law.proofs.SharedSleeping.{shared_sleeping};

use crate::kind::{FlowCore, ReaderCalls, Signs, SubscriberCalls};
use crate::shared::SharedCore;
use crate::sub_id::SubId;
use flow_law::{
    FlowFault, FlowValue, Guarded, Next, Said, SharedCall, SharedFlowState, SharedReply,
};
use std::alloc::Allocator;

impl<T: FlowValue, A: Allocator + Copy> Guarded for SharedCore<T, A> {
    type Said = Said<SharedCall<T>, SharedReply<T>>;

    ghost stands = { λ start core h. StandsForHistory shared_flow StandsFor
        (first_state start.config) core h };
}

impl<T: FlowValue, A: Allocator + Copy> FlowCore for SharedCore<T, A> {
    type Item = T;

    type State = SharedFlowState<T>;

    type Call = SharedCall<T>;

    type Reply = SharedReply<T>;

    ghost kind = { shared_flow };

    ghost first = { λ core. first_state core.config };

    ghost stands_as = { StandsFor };

    ghost sleeping = { shared_sleeping };

    ghost lawful = { shared_lawful };

    ghost stands_so = { λ start core h stood. stood };

    ghost stands_then = { λ start core h stood. stood };
}

impl<T: FlowValue, A: Allocator + Copy> ReaderCalls for SharedCore<T, A> {
    fn next(&mut self, id: SubId) -> Result<Next<T>, FlowFault> {
        SharedCore::next(self, id)
    }

    fn unsubscribe(&mut self, id: SubId) -> bool {
        SharedCore::unsubscribe(self, id)
    }

    fn signs(&self) -> Signs {
        Signs {
            mark: SharedCore::emission_count(self),
            first_waiting: SharedCore::first_waiting(self),
            subscribers: SharedCore::subscription_count(self),
            last_subscriber: self.subscribers.last(),
        }
    }
}

impl<T: FlowValue, A: Allocator + Copy> SubscriberCalls for SharedCore<T, A> {
    fn subscribe(&mut self) -> Result<SubId, FlowFault> {
        SharedCore::subscribe(self)
    }

    fn take_held<B: Allocator>(&mut self, id: SubId, most: usize, values: &mut Vec<T, B>) -> usize {
        SharedCore::take_held(self, id, most, values)
    }

    fn subscription_count(&self) -> u64 {
        SharedCore::subscription_count(self)
    }
}
