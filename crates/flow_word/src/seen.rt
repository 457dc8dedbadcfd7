//! The laws of what a token has seen.
ghost use Rattle.std.specs.Prelude.{◌≡◌, ℕ};
ghost use Rattle.flow_law.specs.laws.Conflation.{Conflates};
ghost use Rattle.flow_law.specs.laws.Current.{Converges};
ghost use Rattle.flow_law.specs.history.RealTime.{InRealTime, IsTimed};
ghost use Rattle.flow_law.specs.flow.StateFlow.{IsStateHistory};
ghost use Rattle.flow_word.specs.Handles.{IsThereAfter};
ghost use Rattle.flow_word.specs.Tokens.{token_of, HasOneToken};
ghost use Rattle.flow_word.specs.View.{begun};

use crate::plays::Look;
use crate::token::{WordSeat, WordState, WordSubscription};
use crate::view::Known;
use atomic_table::Seat;
use flow_law::{Packed, Sequence};

impl<T: Packed> WordState<T> {
    fn look(&self, seat: &mut Seat<(), Sequence<Known<T>>>)
        requires flow { (token_of seat.old).table_id ≡ self.now.table_id }
        requires idle { HasOneToken seat.old }
        ensures same { (seat.new.me ≡ seat.old.me) × (seat.new.table_id ≡ seat.old.table_id) }
        ensures began { begun T.value_of (token_of seat.old).table_id.start ≡ self.now.first }
        ensures history { IsStateHistory self.now.first (token_of seat.new).knows.seen }
        ensures timed { IsTimed (token_of seat.new).knows.seen }
    {
        self.table.shared.load::<Look>(seat, 0);
    }

    /// Proves the laws of state flows for what the seat has seen, whichever caller made the flow. It makes no call of
    /// the flow and changes nothing.
    ///
    /// Call it on a lent flow, to conclude what a subscriber received, or that it reaches the current value.
    pub fn seen(&self, seat: &mut WordSeat<T>)
        requires { seat.old.table_id ≡ self.now.table_id }
        ensures unchanged { seat.new ≡ seat.old }
        // It is a history of the flow, from its first state on.
        ensures history { IsStateHistory self.now.first seat.new.knows.seen }
        ensures in_real_time { InRealTime seat.new.knows.seen }
        ensures conflated { Conflates self.now.first.value seat.new.knows.seen }
        ensures current { (u : ℕ) → Converges u self.now.first seat.new.knows.seen }
    {
        self.look(&mut seat.seat);
    }

    /// Proves the laws of state flows for what the subscription has seen, as `seen` does.
    pub fn seen_by_subscription(&self, subscription: &mut WordSubscription<T>)
        requires { subscription.old.token.table_id ≡ self.now.table_id }
        ensures unchanged { subscription.new ≡ subscription.old }
        ensures history { IsStateHistory self.now.first subscription.new.token.knows.seen }
        ensures in_real_time { InRealTime subscription.new.token.knows.seen }
        ensures conflated { Conflates self.now.first.value subscription.new.token.knows.seen }
        ensures current { (u : ℕ) → Converges u self.now.first subscription.new.token.knows.seen }
        // After this history the flow has its subscriber.
        ensures subscribed { IsThereAfter self.now.first
            subscription.new.token.knows.seen subscription.new.number }
    {
        self.look(&mut subscription.seat);
    }
}
