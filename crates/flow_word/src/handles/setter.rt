//! A seat that is bound to its word state.
ghost use Rattle.std.specs.Prelude.{◌≡◌, ℕ, IfOk};
ghost use Rattle.std.specs.Arc.{arc_value};
ghost use Rattle.flow_law.specs.laws.Conflation.{Conflates};
ghost use Rattle.flow_law.specs.laws.Current.{Converges};
ghost use Rattle.flow_law.specs.history.Growth.{makes, child};
ghost use Rattle.flow_law.specs.history.HandleFaults.{answer_by, limit_fault};
ghost use Rattle.flow_law.specs.history.Handles.{called_by, SubscribesBound};
ghost use Rattle.flow_law.specs.flow.StateFlow.{IsStateHistory, state_flow};
ghost use Rattle.flow_law.specs.history.Tokens.{MeetsIn, knowing};
ghost use Rattle.flow_law.specs.history.Promise.{CallsAtOnceIn};
ghost use Rattle.flow_law.specs.history.RealTime.{InRealTime};
ghost use Rattle.flow_law.specs.declared.call.StateCall.TheVariants as call;
ghost use Rattle.flow_law.specs.declared.call.StateReply.TheVariants as reply;

use super::reader::WordReader;
use crate::token::{WordSeat, WordState};
use flow_law::{Exhausted, OutOfMemory, Packed};
use flow_sleepers::one_more_owner;
use std::alloc::Global;
use std::marker::Model;
use std::sync::{Arc, Wait};

/// A seat, and its word state. Contracts see both.
///
/// # Dropping
/// Dropping it drops its seat: no call is made under its name any more, and the flow does not change. The last handle
/// drops the flow.
pub struct WordSetter<T: Packed> {
    pub(crate) flow: Arc<WordState<T>>,
    pub(crate) seat: WordSeat<T>,
}

// Not derived, for the reason given at `WordSeat`.
impl<T: Packed> Drop for WordSetter<T> {
    fn drop(self) {
        let Self { flow: _, seat: _ } = self;
    }
}

impl<T: Packed> Model for WordSetter<T> {
    ghost use Rattle.std.specs.Prelude.{◌≡◌};
    ghost use Rattle.std.specs.Arc.{arc_value};
    ghost use Rattle.flow_law.specs.history.Handles.{called_by};
    ghost use Rattle.flow_word.specs.Handles.{CallerOfWord};

    ghost Value = { CallerOfWord T };

    ghost view = { λ c. called_by (arc_value c.flow) c.seat };

    ghost invariant = { λ c. c.seat.table_id ≡ (arc_value c.flow).table_id };
}

impl<T: Packed> WordState<T> {
    /// Binds a seat to its flow, and puts the flow into memory that its handles own together: dropping the last one
    /// drops the flow. `another` and `subscribe` make more of them.
    ///
    /// # Errors
    /// `OutOfMemory`. The flow and the seat are dropped.
    pub fn into_setter(self, alloc: Global, seat: WordSeat<T>) -> Result<WordSetter<T>, OutOfMemory>
        requires { seat.table_id ≡ self.table_id }
        ensures { IfOk result (λ setter. setter ≡ called_by self seat) }
    {
        match Arc::new(alloc, self) {
            Ok(flow) => Ok(WordSetter::new(flow, seat)),
            Err(_failed) => Err(OutOfMemory),
        }
    }
}

impl<T: Packed> WordSetter<T> {
    /// Binds a seat to its flow.
    pub fn new(flow: Arc<WordState<T>>, seat: WordSeat<T>) -> WordSetter<T>
        requires { seat.table_id ≡ (arc_value flow).table_id }
        ensures { result ≡ called_by (arc_value flow) seat }
    {
        WordSetter { flow, seat }
    }

    /// Makes one more caller through this one. Call it for each thread, before the thread starts. It waits while the flow
    /// has 2^63 owners.
    pub fn another<R: Wait>(&mut self, rt: &R) -> WordSetter<T>
        ensures flow { (self.new.flow ≡ self.old.flow) × (result.flow ≡ self.old.flow) }
        ensures maker { self.new.token ≡ knowing self.old.token (makes self.old.token.knows) }
        ensures made { result.token ≡ knowing self.old.token (child self.old.token.knows) }
    {
        let flow = one_more_owner(rt, &self.flow);
        let made = self.flow.seat(&mut self.seat);
        WordSetter::new(flow, made)
    }

    /// Subscribes. The reader gets the current value first.
    ///
    /// If another caller subscribes or unsubscribes at the same moment, it yields to other threads and tries again.
    pub fn subscribe<R: Wait>(&mut self, rt: &R) -> Result<WordReader<T>, Exhausted>
        ensures flow { self.new.flow ≡ self.old.flow }
        ensures subscribed { SubscribesBound state_flow call.Subscribe self.old
            (answer_by limit_fault result) self.new.token }
    {
        let flow = one_more_owner(rt, &self.flow);
        match self.flow.subscribe(rt, &mut self.seat) {
            Ok(subscription) => Ok(WordReader::new(flow, subscription)),
            Err(_fault) => Err(Exhausted),
        }
    }

    /// Returns the current value.
    ///
    /// Another caller may set the value right after. Call `update` or `compare_and_set` to set a value that depends on
    /// the current one.
    pub fn value(&mut self) -> T
        ensures flow { self.new.flow ≡ self.old.flow }
        ensures called { CallsAtOnceIn state_flow self.old.flow.first self.old.token call.GetValue
            (reply.Got result) self.new.token }
    {
        self.flow.value(&mut self.seat)
    }

    /// Sets the current value. Setting a value that is equal to the current one does nothing: no subscriber gets it
    /// again.
    pub fn set(&mut self, value: T)
        ensures flow { self.new.flow ≡ self.old.flow }
        ensures called { CallsAtOnceIn state_flow self.old.flow.first self.old.token
            (call.Set value)
            reply.Done self.new.token }
    {
        self.flow.set(&mut self.seat, value);
    }

    /// Sets the value to `update` if it is equal to `expect`, and returns whether it was. Both happen in one event.
    ///
    /// If the result is `false`, the value was another one: read it and try again, as `update` does.
    pub fn compare_and_set(&mut self, expect: T, update: T) -> bool
        ensures flow { self.new.flow ≡ self.old.flow }
        ensures called { CallsAtOnceIn state_flow self.old.flow.first self.old.token
            (call.CompareAndSet expect update) (reply.Answered result) self.new.token }
    {
        self.flow.compare_and_set(&mut self.seat, expect, update)
    }

    /// Counts the subscribers. A subscription whose token was dropped still counts; one whose handle was dropped has
    /// ended.
    pub fn subscription_count(&mut self) -> u64
        ensures flow { self.new.flow ≡ self.old.flow }
        ensures counted { CallsAtOnceIn state_flow
            self.old.flow.first self.old.token call.SubscriptionCount
            (reply.Counted result) self.new.token }
    {
        self.flow.subscription_count(&mut self.seat)
    }

    /// Joins what two callers of one flow have seen: afterwards both have seen the same history, with all calls so far.
    pub fn meet(&mut self, other: &mut WordSetter<T>)
        requires { other.old.flow.table_id ≡ self.old.flow.table_id }
        ensures flow { (self.new.flow ≡ self.old.flow) × (other.new.flow ≡ other.old.flow) }
        ensures met { MeetsIn state_flow self.old.flow.first self.old.token other.old.token
            self.new.token other.new.token }
    {
        self.flow.meet(&mut self.seat, &mut other.seat);
    }

    /// Joins what a caller and a reader of one flow have seen, as `meet` does.
    pub fn meet_reader(&mut self, reader: &mut WordReader<T>)
        requires { reader.old.flow.table_id ≡ self.old.flow.table_id }
        ensures flow { (self.new.flow ≡ self.old.flow) × (reader.new.flow ≡ reader.old.flow) }
        ensures met { MeetsIn state_flow self.old.flow.first
            reader.old.subscription.token self.old.token
            reader.new.subscription.token self.new.token }
        ensures number { reader.new.subscription.number ≡ reader.old.subscription.number }
    {
        self.flow
            .meet_subscription(&mut reader.subscription, &mut self.seat);
    }

    /// Proves the laws of state flows for what the caller has seen. It makes no call of the flow and changes nothing.
    pub fn seen(&mut self)
        ensures unchanged { self.new ≡ self.old }
        ensures history { IsStateHistory self.new.flow.first self.new.token.knows.seen }
        ensures in_real_time { InRealTime self.new.token.knows.seen }
        ensures conflated { Conflates self.new.flow.first.value self.new.token.knows.seen }
        ensures current { (u : ℕ) → Converges u self.new.flow.first self.new.token.knows.seen }
    {
        self.flow.seen(&mut self.seat);
    }

    /// Returns the seat, for the flow's own calls.
    pub fn into_seat(self) -> WordSeat<T>
        ensures token { result ≡ self.token }
        ensures flow { result.table_id ≡ self.flow.table_id }
    {
        let WordSetter { flow: _, seat } = self;
        seat
    }
}
