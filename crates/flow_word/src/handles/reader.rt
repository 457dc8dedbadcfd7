//! A subscription that is bound to its word state.
ghost use Rattle.std.specs.Prelude.{◌≡◌, ℕ, Ok};
ghost use Rattle.std.specs.Arc.{arc_value};
ghost use Rattle.flow_law.specs.laws.Conflation.{Conflates};
ghost use Rattle.flow_law.specs.laws.Current.{Converges};
ghost use Rattle.flow_law.specs.history.Handles.{read_by, next_of};
ghost use Rattle.flow_law.specs.flow.StateFlow.{IsStateHistory, state_flow};
ghost use Rattle.flow_law.specs.history.RealTime.{InRealTime};
ghost use Rattle.flow_law.specs.history.Tokens.{NextsIn, UnsubscribesIn};
ghost use Rattle.flow_word.specs.Handles.{IsThereAfter};

use super::setter::WordSetter;
use crate::token::{WordState, WordSubscription};
use flow_law::{Next, Packed};
use std::marker::Model;
use std::sync::Arc;

/// A subscription, and its word state. Contracts see both.
///
/// # Dropping
/// Dropping the reader ends its subscription, as `unsubscribe` does. The last handle drops the flow.
pub struct WordReader<T: Packed> {
    pub(crate) flow: Arc<WordState<T>>,
    pub(crate) subscription: WordSubscription<T>,
}

impl<T: Packed> Drop for WordReader<T> {
    fn drop(self) {
        let Self { flow, subscription } = self;
        let _seat = flow.unsubscribe(subscription);
    }
}

impl<T: Packed> Model for WordReader<T> {
    ghost use Rattle.std.specs.Prelude.{◌≡◌};
    ghost use Rattle.std.specs.Arc.{arc_value};
    ghost use Rattle.flow_law.specs.history.Handles.{read_by};
    ghost use Rattle.flow_word.specs.Handles.{ReaderOfWord};

    ghost Value = { ReaderOfWord T };

    ghost view = { λ r. read_by (arc_value r.flow) r.subscription };

    ghost invariant = { λ r. r.subscription.token.table_id ≡ (arc_value r.flow).table_id };
}

impl<T: Packed> WordReader<T> {
    /// Binds a subscription to its flow.
    pub fn new(flow: Arc<WordState<T>>, subscription: WordSubscription<T>) -> WordReader<T>
        requires { subscription.token.table_id ≡ (arc_value flow).table_id }
        ensures { result ≡ read_by (arc_value flow) subscription }
    {
        WordReader { flow, subscription }
    }

    /// Takes the current value, or returns `None` if the subscriber got that value last.
    ///
    /// A slow subscriber skips values and gets the most recent one.
    pub fn next(&mut self) -> Option<T>
        ensures flow { self.new.flow ≡ self.old.flow }
        ensures called { NextsIn state_flow self.old.flow.first self.old.subscription
            (Ok (next_of result)) self.new.subscription }
        ensures number { self.new.subscription.number ≡ self.old.subscription.number }
    {
        match self.flow.next(&mut self.subscription) {
            Next::Value(value) => Some(value),
            Next::Empty | Next::Gone => None,
        }
    }

    /// Ends the subscription, and returns a setter with its seat.
    pub fn unsubscribe(self) -> WordSetter<T>
        ensures flow { result.flow ≡ self.flow }
        ensures left { UnsubscribesIn state_flow
            self.flow.first self.subscription result.token }
    {
        let WordReader { flow, subscription } = self;
        let seat = flow.unsubscribe(subscription);
        WordSetter::new(flow, seat)
    }

    /// Proves the laws of state flows for what the subscription has seen. It makes no call of the flow and changes
    /// nothing.
    pub fn seen(&mut self)
        ensures unchanged { self.new ≡ self.old }
        ensures history { IsStateHistory
            self.new.flow.first self.new.subscription.token.knows.seen }
        ensures in_real_time { InRealTime self.new.subscription.token.knows.seen }
        ensures conflated { Conflates self.new.flow.first.value
            self.new.subscription.token.knows.seen }
        ensures current { (u : ℕ) →
            Converges u self.new.flow.first self.new.subscription.token.knows.seen }
        ensures subscribed { IsThereAfter self.new.flow.first self.new.subscription.token.knows.seen
            self.new.subscription.number }
    {
        self.flow.seen_by_subscription(&mut self.subscription);
    }

    /// Returns the subscription, for the flow's own calls.
    pub fn into_subscription(self) -> WordSubscription<T>
        ensures subscription { result ≡ self.subscription }
        ensures flow { result.token.table_id ≡ self.flow.table_id }
    {
        let WordReader {
            flow: _,
            subscription,
        } = self;
        subscription
    }
}
