//! Meetings, after which two callers have seen the same history, and the laws of what a token has seen.
ghost use Rattle.std.specs.Prelude.{◌≡◌, ℕ, None, IsSome};
ghost use Rattle.flow_law.specs.history.History.{IsHistory};
ghost use Rattle.flow_law.specs.laws.Lagging.{EachLags};
ghost use Rattle.flow_law.specs.laws.Laws.{Delivers, NoIdleQueue};
ghost use Rattle.flow_law.specs.history.RealTime.{InRealTime, IsTimed};
ghost use Rattle.flow_law.specs.laws.Replaying.{EachReplays};
ghost use Rattle.flow_law.specs.flow.SharedFlow.{position_of};
ghost use Rattle.flow_law.specs.flow.SharedHistory.{shared_flow, state_after};
ghost use Rattle.flow_law.specs.history.Tokens.{MeetsIn};
ghost use Rattle.flow_law.specs.laws.Waiting.{EachWaits};
ghost use Rattle.flow_word_shared.specs.Rule.{IsStart};
ghost use Rattle.flow_word_shared.specs.Tokens.{ring_token, IsHolding};
ghost use Rattle.flow_word_shared.specs.View.{began_as, only};

use crate::plays::{Blank, LookBack, Meet, Observe, Part};
use crate::token::{WordFlow, WordFlowSeat, WordFlowSubscription};
use crate::view::RingKnown;
use atomic_table::Seat;
use flow_law::{Sequence, Words};
use std::mem;

impl<T: Words> WordFlow<T> {
    fn meet_by(
        &self,
        one: &mut Seat<(), Sequence<RingKnown<T>>>,
        other: &mut Seat<(), Sequence<RingKnown<T>>>,
    )
        requires flow { ((ring_token one.old).table_id ≡ self.now.table_id)
            × ((ring_token other.old).table_id ≡ self.now.table_id) }
        requires idle { IsHolding None one.old × IsHolding None other.old }
        ensures met { MeetsIn shared_flow self.now.first (ring_token one.old) (ring_token other.old)
            (ring_token one.new) (ring_token other.new) }
        ensures idle { IsHolding None one.new × IsHolding None other.new }
        ensures began { IsStart (only one.old.me.0).start
            × (began_as (only one.old.me.0).start ≡ self.now.first) }
        ensures reads { (only one.new.me.0).reads ≡ (only one.old.me.0).reads }
    {
        let shared = &self.table.shared;
        let blank = shared.split_seat::<Blank>(one);
        let taken = mem::replace(other, blank);
        shared.join_seat::<Meet>(one, taken);
        shared.load::<Observe>(one, 0);
        *other = shared.split_seat::<Part>(one);
    }

    /// Lets two seats meet: both have then seen the same history, which has all calls so far. It makes no call of the
    /// flow.
    ///
    /// Call it if a caller relies on what the other one did, for instance after a thread has ended and returned its
    /// seat.
    pub fn meet(&self, one: &mut WordFlowSeat<T>, other: &mut WordFlowSeat<T>)
        requires { (one.old.table_id ≡ self.now.table_id) ×
            (other.old.table_id ≡ self.now.table_id) }
        ensures { MeetsIn shared_flow self.now.first one.old other.old one.new other.new }
    {
        self.meet_by(&mut one.seat, &mut other.seat);
    }

    /// Lets a subscription and a seat meet, as `meet` does.
    pub fn meet_subscription(
        &self,
        subscription: &mut WordFlowSubscription<T>,
        seat: &mut WordFlowSeat<T>,
    )
        requires { (subscription.old.token.table_id ≡ self.now.table_id)
            × (seat.old.table_id ≡ self.now.table_id) }
        ensures met { MeetsIn shared_flow self.now.first subscription.old.token seat.old
            subscription.new.token seat.new }
        ensures number { subscription.new.number ≡ subscription.old.number }
    {
        self.meet_by(&mut subscription.seat, &mut seat.seat);
    }

    fn look_back(&self, seat: &mut Seat<(), Sequence<RingKnown<T>>>)
        requires flow { (ring_token seat.old).table_id ≡ self.now.table_id }
        requires idle { IsHolding None seat.old }
        ensures began { began_as (only seat.old.me.0).start ≡ self.now.first }
        ensures same { (seat.new.me ≡ seat.old.me) × (seat.new.table_id ≡ seat.old.table_id) }
        ensures history { IsHistory shared_flow self.now.first (ring_token seat.new).knows.seen }
        ensures timed { IsTimed (ring_token seat.new).knows.seen }
    {
        self.table.shared.load::<LookBack>(seat, 0);
    }

    /// Proves the laws of shared flows for what the seat has seen, whichever caller made the flow. It makes no call of
    /// the flow and changes nothing.
    ///
    /// Call it on a lent flow, to conclude what a subscriber received or missed.
    pub fn seen(&self, seat: &mut WordFlowSeat<T>)
        requires { seat.old.table_id ≡ self.now.table_id }
        ensures unchanged { seat.new ≡ seat.old }
        // It is a history of the flow, from its first state on.
        ensures history { IsHistory shared_flow self.now.first seat.new.knows.seen }
        ensures in_real_time { InRealTime seat.new.knows.seen }
        ensures delivered { (u : ℕ) → Delivers u self.now.first.config seat.new.knows.seen }
        ensures no_idle_queue { NoIdleQueue
            (state_after self.now.first.config seat.new.knows.seen) }
        ensures admitted { EachWaits self.now.first.config seat.new.knows.seen }
        ensures lagged { EachLags self.now.first.config seat.new.knows.seen }
        ensures replayed { EachReplays self.now.first.config seat.new.knows.seen }
    {
        self.look_back(&mut seat.seat);
    }

    /// Proves the laws of shared flows for what the subscription has seen, as `seen` does.
    pub fn seen_by_subscription(&self, subscription: &mut WordFlowSubscription<T>)
        requires { subscription.old.token.table_id ≡ self.now.table_id }
        ensures unchanged { subscription.new ≡ subscription.old }
        ensures history { IsHistory shared_flow self.now.first subscription.new.token.knows.seen }
        ensures in_real_time { InRealTime subscription.new.token.knows.seen }
        ensures delivered { (u : ℕ) →
            Delivers u self.now.first.config subscription.new.token.knows.seen }
        ensures no_idle_queue { NoIdleQueue
            (state_after self.now.first.config subscription.new.token.knows.seen) }
        ensures admitted { EachWaits self.now.first.config subscription.new.token.knows.seen }
        ensures lagged { EachLags self.now.first.config subscription.new.token.knows.seen }
        ensures replayed { EachReplays self.now.first.config subscription.new.token.knows.seen }
        // After this history the flow has its subscriber.
        ensures subscribed { IsSome (position_of subscription.new.number
            (state_after self.now.first.config subscription.new.token.knows.seen).subscribers) }
    {
        self.look_back(&mut subscription.seat);
    }
}
