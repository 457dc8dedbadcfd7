//! A subscription that is bound to its flow.
ghost use Rattle.std.specs.Prelude.{◌≡◌, ◌≢◌, ℕ, Ok, IsSome};
ghost use Rattle.std.specs.Arc.{arc_value};
ghost use Rattle.std.specs.Result.{OnErr};
ghost use Rattle.flow_law.specs.declared.outcome.Drained.TheVariants.{Gone};
ghost use Rattle.flow_law.specs.declared.outcome.Next.TheVariants as no_more;
ghost use Rattle.flow_law.specs.flow.Draining.{DrainsBy, IsFull};
ghost use Rattle.flow_law.specs.history.Growth.{makes, child};
ghost use Rattle.flow_law.specs.history.HandleFaults.{answer_by, busy_fault, memory_fault};
ghost use Rattle.flow_law.specs.history.Handles.{read_by, next_of, next_in};
ghost use Rattle.flow_law.specs.history.History.{IsHistory};
ghost use Rattle.flow_law.specs.laws.Lagging.{EachLags};
ghost use Rattle.flow_law.specs.laws.Laws.{Delivers, NoIdleQueue};
ghost use Rattle.flow_law.specs.history.RealTime.{InRealTime};
ghost use Rattle.flow_law.specs.laws.Replaying.{EachReplays};
ghost use Rattle.flow_law.specs.flow.SharedFlow.{position_of};
ghost use Rattle.flow_law.specs.flow.SharedHistory.{shared_flow, state_after};
ghost use Rattle.flow_law.specs.history.Tokens.{NextsIn, UnsubscribesIn, knowing};
ghost use Rattle.flow_law.specs.laws.Waiting.{EachWaits};
ghost use Rattle.flow_word_shared.specs.Answers.{WordFlowNexts, WordNextsNow};

use super::emitter::WordEmitter;
use crate::token::{WordFlow, WordFlowSubscription};
use flow_law::{Busy, Drained, Next, OutOfMemory, Words};
use flow_sleepers::one_more_owner;
use std::alloc::Allocator;
use std::marker::Model;
use std::sync::{Arc, Wait};

/// A subscription, and its flow. Contracts see both.
///
/// # Dropping
/// Dropping the reader ends its subscription, as `unsubscribe` does. The last handle drops the flow.
pub struct WordFlowReader<T: Words> {
    pub(crate) flow: Arc<WordFlow<T>>,
    pub(crate) subscription: WordFlowSubscription<T>,
}

impl<T: Words> Drop for WordFlowReader<T> {
    fn drop(self) {
        let Self { flow, subscription } = self;
        let _seat = flow.unsubscribe(subscription);
    }
}

impl<T: Words> Model for WordFlowReader<T> {
    ghost use Rattle.std.specs.Prelude.{◌≡◌};
    ghost use Rattle.std.specs.Arc.{arc_value};
    ghost use Rattle.flow_law.specs.history.Handles.{read_by};
    ghost use Rattle.flow_word_shared.specs.Handles.{WordFlowReaderOf};

    ghost Value = { WordFlowReaderOf T };

    ghost view = { λ r. read_by (arc_value r.flow) r.subscription };

    ghost invariant = { λ r. r.subscription.token.table_id ≡ (arc_value r.flow).table_id };
}

/// Returns the value, if `next` gave one.
fn given<T>(next: Next<T>) -> Option<T>
    requires { next ≢ no_more.Gone }
    ensures { next_of result ≡ next }
{
    match next {
        Next::Value(value) => Some(value),
        Next::Empty => None,
        Next::Gone => unreachable!(),
    }
}

impl<T: Words> WordFlowReader<T> {
    /// Binds a subscription to its flow.
    pub fn new(flow: Arc<WordFlow<T>>, subscription: WordFlowSubscription<T>) -> WordFlowReader<T>
        requires { subscription.token.table_id ≡ (arc_value flow).table_id }
        ensures { result ≡ read_by (arc_value flow) subscription }
    {
        WordFlowReader { flow, subscription }
    }

    /// Takes the next value, or returns `None` if the subscriber has received all values.
    ///
    /// The reader waits for no other caller. Under `DropOldest` it misses the oldest values if it is more than a buffer
    /// behind, and reads again if emitters have overwritten all that it read. Under `DropLatest` it misses no emitted value.
    pub fn next<R: Wait>(&mut self, rt: &R) -> Option<T>
        ensures flow { self.new.flow ≡ self.old.flow }
        ensures called { NextsIn shared_flow self.old.flow.first self.old.subscription
            (Ok (next_of result)) self.new.subscription }
        ensures number { self.new.subscription.number ≡ self.old.subscription.number }
    {
        match self.flow.next(rt, &mut self.subscription) {
            Next::Value(value) => Some(value),
            Next::Empty | Next::Gone => None,
        }
    }

    /// Takes the next value, and reads once: returns `Busy` if emitters have overwritten the value meanwhile. Under
    /// `DropLatest` they never do.
    pub fn try_next(&mut self) -> Result<Option<T>, Busy>
        ensures flow { self.new.flow ≡ self.old.flow }
        ensures called { WordNextsNow self.old.flow.first self.old.subscription
            (next_in (answer_by busy_fault result)) self.new.subscription }
    {
        match self.flow.next_now(&mut self.subscription) {
            Ok(next) => return Ok(given(next)),
            Err(_busy) => return Err(Busy),
        }
    }

    /// Appends the values that the subscriber can receive now, at most `most`, to the list, as if by calls of `next`. `Ok`
    /// says why it stopped: it took as many, or there are no more.
    ///
    /// # Errors
    /// `OutOfMemory` if the list cannot grow. The next value is still in the flow, the values before it are in the list,
    /// and a later call continues.
    pub fn drain<R: Wait, B: Allocator>(
        &mut self,
        rt: &R,
        most: usize,
        values: &mut Vec<T, B>,
    ) -> Result<Drained, OutOfMemory>
        ensures flow { self.new.flow ≡ self.old.flow }
        ensures drained { DrainsBy (WordFlowNexts self.old.flow.first) most
            self.old.subscription values.old.items (answer_by memory_fault result)
            values.new.items self.new.subscription }
        ensures number { self.new.subscription.number ≡ self.old.subscription.number }
        ensures live { result ≢ Ok Gone }
        ensures full { OnErr result (IsFull values.new) }
    {
        match self.flow.drain(rt, &mut self.subscription, most, values) {
            Ok(end) => return Ok(end),
            Err(_fault) => return Err(OutOfMemory),
        }
    }

    /// Makes a caller of the same flow through the seat of this subscription. It waits while the flow has 2^63 owners.
    pub fn another<R: Wait>(&mut self, rt: &R) -> WordEmitter<T>
        ensures flow { (self.new.flow ≡ self.old.flow) × (result.flow ≡ self.old.flow) }
        ensures maker { self.new.subscription.token
            ≡ knowing self.old.subscription.token (makes self.old.subscription.token.knows) }
        ensures number { self.new.subscription.number ≡ self.old.subscription.number }
        ensures made { result.token ≡ knowing self.old.subscription.token
            (child self.old.subscription.token.knows) }
    {
        let flow = one_more_owner(rt, &self.flow);
        let made = self.flow.seat_by(&mut self.subscription);
        WordEmitter::new(flow, made)
    }

    /// Ends the subscription, and returns an emitter with its seat.
    pub fn unsubscribe(self) -> WordEmitter<T>
        ensures flow { result.flow ≡ self.flow }
        ensures left { UnsubscribesIn shared_flow
            self.flow.first self.subscription result.token }
    {
        let WordFlowReader { flow, subscription } = self;
        let seat = flow.unsubscribe(subscription);
        WordEmitter::new(flow, seat)
    }

    /// Proves the laws of shared flows for what the subscription has seen. It makes no call of the flow and changes
    /// nothing.
    pub fn seen(&mut self)
        ensures unchanged { self.new ≡ self.old }
        ensures history { IsHistory shared_flow
            self.new.flow.first self.new.subscription.token.knows.seen }
        ensures in_real_time { InRealTime self.new.subscription.token.knows.seen }
        ensures delivered { (u : ℕ) →
            Delivers u self.new.flow.first.config self.new.subscription.token.knows.seen }
        ensures no_idle_queue { NoIdleQueue
            (state_after self.new.flow.first.config self.new.subscription.token.knows.seen) }
        ensures admitted { EachWaits
            self.new.flow.first.config self.new.subscription.token.knows.seen }
        ensures lagged { EachLags
            self.new.flow.first.config self.new.subscription.token.knows.seen }
        ensures replayed { EachReplays
            self.new.flow.first.config self.new.subscription.token.knows.seen }
        ensures subscribed { IsSome (position_of self.new.subscription.number
            (state_after self.new.flow.first.config
            self.new.subscription.token.knows.seen).subscribers) }
    {
        self.flow.seen_by_subscription(&mut self.subscription);
    }

    /// Returns the subscription, for the flow's own calls.
    pub fn into_subscription(self) -> WordFlowSubscription<T>
        ensures subscription { result ≡ self.subscription }
        ensures flow { result.token.table_id ≡ self.flow.table_id }
    {
        let WordFlowReader {
            flow: _,
            subscription,
        } = self;
        subscription
    }
}
