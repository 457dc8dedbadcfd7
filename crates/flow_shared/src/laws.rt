//! The laws of what a token or a handle has seen.
ghost use Rattle.std.specs.Prelude.{◌≡◌, IsSome};
ghost use Rattle.flow_law.specs.laws.Current.{IsThere};
ghost use Rattle.flow_law.specs.flow.SharedFlow.{position_of};
ghost use Rattle.flow_law.specs.flow.SharedHistory.{state_after};
ghost use Rattle.flow_law.specs.flow.StateFlow.{state_after_all};
ghost use Rattle.flow_shared.specs.SeenLaws.{SharedLaws, StateLaws};

use crate::flow::Flow;
use crate::handles::{FlowCaller, FlowReader};
use crate::shared::{Seat, Subscription};
use crate::state::{StateSeat, StateSubscription};
use flow_core::{SharedCore, StateCore};
use flow_law::FlowValue;
use std::alloc::Allocator;

impl<T: FlowValue, A: Allocator + Copy> Flow<SharedCore<T, A>, A> {
    /// Proves the laws of shared flows for what the seat has seen, whichever caller made the flow. It makes no call of
    /// the flow, changes nothing and does not wait.
    ///
    /// Call it on a lent flow, to conclude what a subscriber received or missed, how long an emission waits, or that no
    /// value waits in the queue.
    pub fn seen(&self, seat: &mut Seat<T, A>)
        requires { seat.old.table_id ≡ self.now.table_id }
        ensures unchanged { seat.new ≡ seat.old }
        ensures laws { SharedLaws self.now.first seat.new.knows.seen }
    {
        self.look(seat);
    }

    /// Proves the laws of shared flows for what the subscription has seen, as `seen` does.
    pub fn seen_by_subscription(&self, subscription: &mut Subscription<T, A>)
        requires { subscription.old.token.table_id ≡ self.now.table_id }
        ensures unchanged { subscription.new ≡ subscription.old }
        ensures laws { SharedLaws self.now.first subscription.new.token.knows.seen }
        // After this history the flow has its subscriber.
        ensures subscribed { IsSome (position_of subscription.new.number
            (state_after self.now.first.config subscription.new.token.knows.seen).subscribers) }
    {
        self.seen(&mut subscription.seat);
    }
}

impl<T: FlowValue, A: Allocator + Copy> Flow<StateCore<T, A>, A> {
    /// Proves the laws of state flows for what the seat has seen, as `seen` of a shared flow does.
    ///
    /// Call it on a lent flow, to conclude what a subscriber received, or that it reaches the current value.
    pub fn seen(&self, seat: &mut StateSeat<T, A>)
        requires { seat.old.table_id ≡ self.now.table_id }
        ensures unchanged { seat.new ≡ seat.old }
        ensures laws { StateLaws self.now.first seat.new.knows.seen }
    {
        self.look(seat);
    }

    /// Proves the laws of state flows for what the subscription has seen, as `seen` does.
    pub fn seen_by_subscription(&self, subscription: &mut StateSubscription<T, A>)
        requires { subscription.old.token.table_id ≡ self.now.table_id }
        ensures unchanged { subscription.new ≡ subscription.old }
        ensures laws { StateLaws self.now.first subscription.new.token.knows.seen }
        // After this history the flow has its subscriber.
        ensures subscribed { IsThere subscription.new.number
            (state_after_all self.now.first subscription.new.token.knows.seen) }
    {
        self.seen(&mut subscription.seat);
    }
}

impl<T: FlowValue, A: Allocator + Copy> FlowCaller<SharedCore<T, A>, A> {
    /// Proves the laws of shared flows for what the caller has seen, as `seen` of a flow does.
    pub fn seen(&mut self)
        ensures unchanged { self.new ≡ self.old }
        ensures laws { SharedLaws self.new.flow.first self.new.token.knows.seen }
    {
        self.flow.seen(&mut self.seat);
    }
}

impl<T: FlowValue, A: Allocator + Copy> FlowCaller<StateCore<T, A>, A> {
    /// Proves the laws of state flows for what the caller has seen, as `seen` of a flow does.
    pub fn seen(&mut self)
        ensures unchanged { self.new ≡ self.old }
        ensures laws { StateLaws self.new.flow.first self.new.token.knows.seen }
    {
        self.flow.seen(&mut self.seat);
    }
}

impl<T: FlowValue, A: Allocator + Copy> FlowReader<SharedCore<T, A>, A> {
    /// Proves the laws of shared flows for what the subscription has seen, as `seen` of a flow does.
    pub fn seen(&mut self)
        ensures unchanged { self.new ≡ self.old }
        ensures laws { SharedLaws self.new.flow.first self.new.subscription.token.knows.seen }
        ensures subscribed { IsSome (position_of self.new.subscription.number
            (state_after self.new.flow.first.config
            self.new.subscription.token.knows.seen).subscribers) }
    {
        self.flow.seen_by_subscription(&mut self.subscription);
    }
}

impl<T: FlowValue, A: Allocator + Copy> FlowReader<StateCore<T, A>, A> {
    /// Proves the laws of state flows for what the subscription has seen, as `seen` of a flow does.
    pub fn seen(&mut self)
        ensures unchanged { self.new ≡ self.old }
        ensures laws { StateLaws self.new.flow.first self.new.subscription.token.knows.seen }
        ensures subscribed { IsThere self.new.subscription.number
            (state_after_all self.new.flow.first self.new.subscription.token.knows.seen) }
    {
        self.flow.seen_by_subscription(&mut self.subscription);
    }
}
