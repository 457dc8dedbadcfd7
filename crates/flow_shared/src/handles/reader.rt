//! A subscription bound to its flow.
ghost use Rattle.std.specs.Prelude.{◌≡◌, IsOk, IfErr};
ghost use Rattle.std.specs.Arc.{arc_value};
ghost use Rattle.std.specs.Result.{OnErr};
ghost use Rattle.flow_law.specs.declared.errors.TryNextError.TheVariants as try_next;
ghost use Rattle.flow_law.specs.flow.Draining.{DrainsBy, IsFull};
ghost use Rattle.flow_law.specs.history.Growth.{makes, child};
ghost use Rattle.flow_law.specs.history.HandleFaults.{answer_by, memory_fault, try_next_fault};
ghost use Rattle.flow_law.specs.history.Handles.{read_by, next_in};
ghost use Rattle.flow_law.specs.history.Tokens.{knowing};
ghost use Rattle.flow_shared.specs.Calls.{NextsOf, NextsNow, Unsubscribes, UnsubscribesNow};
ghost use Rattle.flow_shared.specs.BoundReplies.{drained_by, left_by, left_flow};

use super::caller::FlowCaller;
use super::try_next_error;
use crate::calling::Sleepless;
use crate::drain::DrainEnd;
use crate::dropping::TRIES;
use crate::flow::Flow;
use crate::token::FlowSubscription;
use flow_core::{ReaderCalls, SharedCore, StateCore, SubscriberCalls};
use flow_law::{Next, OutOfMemory, TryNextError};
use flow_sleepers::one_more_owner;
use std::alloc::{Allocator, Global};
use std::marker::Model;
use std::sync::{Arc, Wait};

/// A subscription and its flow. Contracts see both.
///
/// # Dropping
/// Dropping the reader ends its subscription, as `unsubscribe` does, without waiting. If other callers hold the flow at
/// each of many tries, the subscription stays in the flow. The last handle drops the flow.
pub struct FlowReader<S: ReaderCalls, A: Allocator + Copy = Global> {
    pub(crate) flow: Arc<Flow<S, A>, A>,
    pub(crate) subscription: FlowSubscription<S, A>,
}

/// A subscription to a shared flow.
pub type Reader<T, A = Global> = FlowReader<SharedCore<T, A>, A>;

/// A subscription to a state flow.
pub type StateReader<T, A = Global> = FlowReader<StateCore<T, A>, A>;

impl<S: ReaderCalls + Drop, A: Allocator + Copy> Drop for FlowReader<S, A> {
    fn drop(self) {
        let Self { flow, subscription } = self;
        let _ended = flow.unsubscribe_within(subscription, TRIES);
    }
}

impl<S: ReaderCalls, A: Allocator + Copy> Model for FlowReader<S, A> {
    ghost use Rattle.std.specs.Prelude.{◌≡◌};
    ghost use Rattle.std.specs.Arc.{arc_value};
    ghost use Rattle.atomic_table.specs.Seated.{TableId};
    ghost use Rattle.flow_law.specs.declared.history.Said.{Said};
    ghost use Rattle.flow_law.specs.history.Handles.{ReaderOf, read_by};

    ghost Value = { ReaderOf TableId S.State (Said S.Call S.Reply) };

    ghost view = { λ r. read_by (arc_value r.flow) r.subscription };

    ghost invariant = { λ r. r.subscription.token.table_id ≡ (arc_value r.flow).table_id };
}

impl<S: ReaderCalls + Drop, A: Allocator + Copy> FlowReader<S, A> {
    /// Binds a subscription to its flow.
    pub fn new(flow: Arc<Flow<S, A>, A>, subscription: FlowSubscription<S, A>) -> FlowReader<S, A>
        requires { subscription.token.table_id ≡ (arc_value flow).table_id }
        ensures { result ≡ read_by (arc_value flow) subscription }
    {
        FlowReader { flow, subscription }
    }

    /// Takes the next value, or returns `None` if the subscriber has received all values.
    ///
    /// # Errors
    /// `OutOfMemory` if the value could not be copied: a later call returns it.
    ///
    /// In a shared flow this makes room, so queued values may be emitted. A slow subscriber of a state flow skips
    /// values and gets the most recent one.
    pub fn next<R: Wait>(&mut self, rt: &R) -> Result<Option<S::Item>, OutOfMemory>
        ensures flow { self.new.flow ≡ self.old.flow }
        ensures called { NextsOf S.kind self.old.flow self.old.subscription
            (next_in (answer_by memory_fault result)) self.new.subscription }
        ensures given { S.Item.IsAlwaysCopied → IsOk result }
    {
        self.next_asleep(rt, &mut Sleepless)
    }

    /// Takes the next value if no other caller holds the flow; otherwise returns `Busy`.
    pub fn try_next(&mut self) -> Result<Option<S::Item>, TryNextError>
        ensures flow { self.new.flow ≡ self.old.flow }
        ensures called { NextsNow S.kind self.old.flow self.old.subscription
            (next_in (answer_by try_next_fault result)) self.new.subscription }
        ensures given { S.Item.IsAlwaysCopied → IfErr result (λ error. error ≡ try_next.Busy) }
    {
        match self.flow.next_now(&mut self.subscription) {
            Ok(Next::Value(value)) => Ok(Some(value)),
            Ok(_) => Ok(None),
            Err(fault) => Err(try_next_error(fault)),
        }
    }

    /// Ends the subscription, and returns a caller with its seat. Emitters that waited only for it stop waiting.
    pub fn unsubscribe<R: Wait>(self, rt: &R) -> FlowCaller<S, A>
        ensures flow { result.flow ≡ self.flow }
        ensures left { Unsubscribes S.kind self.flow self.subscription result.token }
    {
        let FlowReader { flow, subscription } = self;
        let seat = flow.unsubscribe(rt, subscription);
        FlowCaller::new(flow, seat)
    }

    /// Ends the subscription if no other caller holds the flow; otherwise returns the reader.
    pub fn try_unsubscribe(self) -> Result<FlowCaller<S, A>, FlowReader<S, A>>
        ensures flow { left_flow result ≡ self.flow }
        ensures left { UnsubscribesNow S.kind self.flow self.subscription
            (left_by result) }
    {
        let FlowReader { flow, subscription } = self;
        match flow.unsubscribe_now(subscription) {
            Ok(seat) => Ok(FlowCaller::new(flow, seat)),
            Err(back) => Err(FlowReader::new(flow, back)),
        }
    }

    /// Returns the subscription, for the flow's own calls.
    pub fn into_subscription(self) -> FlowSubscription<S, A>
        ensures subscription { result ≡ self.subscription }
        ensures flow { result.token.table_id ≡ self.flow.table_id }
    {
        let FlowReader {
            flow: _,
            subscription,
        } = self;
        subscription
    }
}

impl<S: ReaderCalls + Drop, A: Allocator + Copy> FlowReader<S, A> {
    /// Makes a caller of the same flow through the seat of this subscription. It waits while the flow has 2^63 owners.
    pub fn another<R: Wait>(&mut self, rt: &R) -> FlowCaller<S, A>
        ensures flow { (self.new.flow ≡ self.old.flow) × (result.flow ≡ self.old.flow) }
        ensures maker { self.new.subscription.token
            ≡ knowing self.old.subscription.token (makes self.old.subscription.token.knows) }
        ensures number { self.new.subscription.number ≡ self.old.subscription.number }
        ensures made { result.token ≡ knowing self.old.subscription.token
            (child self.old.subscription.token.knows) }
    {
        let flow = one_more_owner(rt, &self.flow);
        let made = self.flow.seat_by(&mut self.subscription);
        FlowCaller::new(flow, made)
    }
}

impl<S: SubscriberCalls + Drop, A: Allocator + Copy> FlowReader<S, A> {
    /// Appends the values that the subscriber can receive now, at most `most`, to the list.
    ///
    /// # Errors
    /// `OutOfMemory` if the list cannot grow or a value could not be copied. The next value is still in the flow, the
    /// values before it are in the list, and a later call continues.
    pub fn drain<R: Wait, B: Allocator>(
        &mut self,
        rt: &R,
        most: usize,
        values: &mut Vec<S::Item, B>,
    ) -> Result<DrainEnd, OutOfMemory>
        ensures flow { self.new.flow ≡ self.old.flow }
        ensures drained { DrainsBy
            (NextsOf S.kind self.old.flow) most self.old.subscription values.old.items
            (drained_by (answer_by memory_fault result)) values.new.items self.new.subscription }
        ensures number { self.new.subscription.number ≡ self.old.subscription.number }
        ensures full { S.Item.IsAlwaysCopied → OnErr result (IsFull values.new) }
    {
        self.flow.drain(rt, &mut self.subscription, most, values)
    }
}
