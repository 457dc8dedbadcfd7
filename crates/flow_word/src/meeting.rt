//! Meetings, after which two callers have seen the same history.
ghost use Rattle.std.specs.Prelude.{◌≡◌};
ghost use Rattle.flow_law.specs.flow.StateFlow.{state_flow};
ghost use Rattle.flow_law.specs.history.Tokens.{MeetsIn};
ghost use Rattle.flow_word.specs.View.{begun, only_in_view};
ghost use Rattle.flow_word.specs.Tokens.{token_of, HasOneToken};

use crate::plays::{Blank, Meet, Observe, Part};
use crate::token::{WordSeat, WordState, WordSubscription};
use crate::view::Known;
use atomic_table::Seat;
use flow_law::{Packed, Sequence};
use std::mem;

impl<T: Packed> WordState<T> {
    fn meet_by(
        &self,
        one: &mut Seat<(), Sequence<Known<T>>>,
        other: &mut Seat<(), Sequence<Known<T>>>,
    )
        requires flow { ((token_of one.old).table_id ≡ self.now.table_id)
            × ((token_of other.old).table_id ≡ self.now.table_id) }
        requires idle { HasOneToken one.old × HasOneToken other.old }
        ensures met { MeetsIn state_flow self.now.first (token_of one.old) (token_of other.old)
            (token_of one.new) (token_of other.new) }
        ensures idle { HasOneToken one.new × HasOneToken other.new }
        ensures began { begun T.value_of (only_in_view one.old.me.0).start ≡ self.now.first }
        ensures subscriber { (only_in_view one.new.me.0).subscriber ≡ (only_in_view one.old.me.0).subscriber }
    {
        let shared = &self.table.shared;
        let blank = shared.split_seat::<Blank>(one);
        let taken = mem::replace(other, blank);
        shared.join_seat::<Meet>(one, taken);
        shared.load::<Observe>(one, 0);
        *other = shared.split_seat::<Part>(one);
    }

    /// Lets two seats meet: both have then seen the same history, which has all calls so far. It makes no call of the
    /// flow.
    ///
    /// Call it if a caller relies on what the other one did, for instance after a thread has ended and returned its
    /// seat.
    pub fn meet(&self, one: &mut WordSeat<T>, other: &mut WordSeat<T>)
        requires { (one.old.table_id ≡ self.now.table_id) ×
            (other.old.table_id ≡ self.now.table_id) }
        ensures { MeetsIn state_flow self.now.first one.old other.old one.new other.new }
    {
        self.meet_by(&mut one.seat, &mut other.seat);
    }

    /// Lets a subscription and a seat meet, as `meet` does.
    pub fn meet_subscription(&self, subscription: &mut WordSubscription<T>, seat: &mut WordSeat<T>)
        requires { (subscription.old.token.table_id ≡ self.now.table_id)
            × (seat.old.table_id ≡ self.now.table_id) }
        ensures met { MeetsIn state_flow self.now.first subscription.old.token seat.old
            subscription.new.token seat.new }
        ensures number { subscription.new.number ≡ subscription.old.number }
    {
        self.meet_by(&mut subscription.seat, &mut seat.seat);
    }
}
