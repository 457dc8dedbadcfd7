//! A state core behind a gate, and as one of the kinds of flow.
ghost use Rattle.std.specs.Prelude.{◌≡◌};
ghost use Rattle.flow_law.specs.flow.StateFlow.{state_flow};
ghost use Rattle.flow_law.specs.flow.Standing.{StandsForHistory};
ghost use Rattle.flow_law.proofs.StateLawful.{state_lawful};
ghost use Rattle.flow_law.proofs.StateSleeping.{state_sleeping};

use crate::kind::{FlowCore, ReaderCalls, Signs, SubscriberCalls};
use crate::state::StateCore;
use crate::sub_id::SubId;
use flow_law::{FlowFault, FlowValue, Guarded, Next, Said, StateCall, StateFlowState, StateReply};
use std::alloc::Allocator;

impl<T: FlowValue, A: Allocator + Copy> Guarded for StateCore<T, A> {
    type Said = Said<StateCall<T>, StateReply<T>>;

    ghost stands = { λ start core h. StandsForHistory state_flow (λ c s. c ≡ s) start core h };
}

impl<T: FlowValue, A: Allocator + Copy> FlowCore for StateCore<T, A> {
    type Item = T;

    type State = StateFlowState<T>;

    type Call = StateCall<T>;

    type Reply = StateReply<T>;

    ghost kind = { state_flow };

    ghost first = { λ core. core };

    ghost stands_as = { λ core s. core ≡ s };

    ghost sleeping = { state_sleeping };

    ghost lawful = { state_lawful };

    ghost stands_so = { λ start core h stood. stood };

    ghost stands_then = { λ start core h stood. stood };
}

impl<T: FlowValue, A: Allocator + Copy> ReaderCalls for StateCore<T, A> {
    fn next(&mut self, id: SubId) -> Result<Next<T>, FlowFault> {
        StateCore::next(self, id)
    }

    fn unsubscribe(&mut self, id: SubId) -> bool {
        StateCore::unsubscribe(self, id)
    }

    /// Values of a state flow are not counted, and no emission into it waits.
    fn signs(&self) -> Signs {
        Signs {
            mark: 0,
            first_waiting: None,
            subscribers: StateCore::subscription_count(self),
            last_subscriber: self.subscribers.last(),
        }
    }
}

impl<T: FlowValue, A: Allocator + Copy> SubscriberCalls for StateCore<T, A> {
    fn subscribe(&mut self) -> Result<SubId, FlowFault> {
        StateCore::subscribe(self)
    }

    /// Takes nothing: a subscriber can receive one value at most, so `next` is as fast.
    fn take_held<B: Allocator>(
        &mut self,
        _id: SubId,
        _most: usize,
        _values: &mut Vec<T, B>,
    ) -> usize {
        0
    }

    fn subscription_count(&self) -> u64 {
        StateCore::subscription_count(self)
    }
}
