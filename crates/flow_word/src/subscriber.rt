//! The calls of subscribers.
ghost use Rattle.std.specs.Prelude.{◌≡◌, ◌≢◌, None, Ok, IfSome, IfErr};
ghost use Rattle.flow_law.specs.declared.call.StateCall.TheVariants as call;
ghost use Rattle.flow_law.specs.declared.call.StateReply.TheVariants as reply;
ghost use Rattle.flow_law.specs.declared.fault.FlowFault.TheVariants.{Exhausted};
ghost use Rattle.flow_law.specs.declared.outcome.Next.TheVariants.{Gone};
ghost use Rattle.flow_law.specs.flow.StateFlow.{state_flow, state_after_all};
ghost use Rattle.flow_law.specs.history.Tokens.{SubscribesIn, NextsIn, UnsubscribesIn};
ghost use Rattle.flow_law.specs.history.Promise.{CallsAtOnceIn};

use crate::plays::{Count, Enter, FindRoom, Leave, Make, ReadBy, Receive};
use crate::token::{WordSeat, WordState, WordSubscription};
use flow_law::{FlowFault, Next, Packed};
use std::sync::Wait;
use std::thread;

/// What a subscription adds to the counts: one number, and one subscriber.
const ENTRY: u64 = (1 << 32) + 1;

/// The subscribers of a flow, and the subscriptions that it has accepted since it was made.
#[derive(Clone, Copy, Debug, PartialEq, Eq)]
pub struct SubscriberCounts {
    pub subscribers: u64,
    pub accepted: u64,
}

impl<T: Packed> WordState<T> {
    /// Tries to subscribe once. Returns `None` if another caller changed the counts in between.
    fn try_subscribe(
        &self,
        seat: &mut WordSeat<T>,
    ) -> Option<Result<WordSubscription<T>, FlowFault>>
        requires { seat.old.table_id ≡ self.now.table_id }
        ensures subscribed { IfSome result (λ r.
            SubscribesIn state_flow self.now.first call.Subscribe seat.old r seat.new) }
        ensures refused { IfSome result (λ r. IfErr r (λ fault. fault ≡ Exhausted)) }
        ensures lost { result ≡ None → seat.new ≡ seat.old }
    {
        let word = self.table.shared.load::<FindRoom>(&mut seat.seat, 1);
        let issued = word / (1 << 32);
        if issued >= u64::from(self.limit) {
            return Some(Err(FlowFault::Exhausted));
        }
        let found = self
            .table
            .shared
            .compare_exchange::<Enter>(&mut seat.seat, 1, word, word + ENTRY);
        if found != word {
            return None;
        }
        self.watchers.wake();
        Some(Ok(WordSubscription {
            seat: self.table.shared.split_seat::<Make>(&mut seat.seat),
            number: issued + 1,
            last: None,
            has_left_waker: false,
        }))
    }

    /// Subscribes. The subscriber gets the current value first.
    ///
    /// The subscription has a seat of its own, made through this one. If another caller subscribes or unsubscribes at
    /// the same moment, yields the thread and tries again.
    ///
    /// # Errors
    /// `Exhausted` if the flow has issued as many numbers as its limit allows.
    pub fn subscribe<R: Wait>(
        &self,
        rt: &R,
        seat: &mut WordSeat<T>,
    ) -> Result<WordSubscription<T>, FlowFault>
        requires { seat.old.table_id ≡ self.now.table_id }
        ensures subscribed { SubscribesIn state_flow
            self.now.first call.Subscribe seat.old result seat.new }
        ensures refused { IfErr result (λ fault. fault ≡ Exhausted) }
    {
        for _ in rt.forever() {
            if let Some(answer) = self.try_subscribe(seat) {
                return answer;
            }
            thread::yield_now();
        }
        unreachable!()
    }

    /// Returns the current value, or `Empty` if the subscriber got that value last.
    ///
    /// A slow subscriber skips values and gets the most recent one.
    pub fn next(&self, subscription: &mut WordSubscription<T>) -> Next<T>
        requires { subscription.old.token.table_id ≡ self.now.table_id }
        ensures called { NextsIn state_flow self.now.first subscription.old
            (Ok result) subscription.new }
        ensures number { subscription.new.number ≡ subscription.old.number }
        ensures live { result ≢ Gone }
    {
        let word = self.table.shared.load::<Receive>(&mut subscription.seat, 0);
        let last = subscription.last.replace(word);
        if last == Some(word) {
            Next::Empty
        } else {
            Next::Value(T::unpack(word))
        }
    }

    /// Returns what `value` returns, through the seat of a subscription. The subscriber does not receive the value by
    /// it.
    pub(crate) fn value_by(&self, subscription: &mut WordSubscription<T>) -> T
        requires { subscription.old.token.table_id ≡ self.now.table_id }
        ensures called { CallsAtOnceIn state_flow
            self.now.first subscription.old.token call.GetValue
            (reply.Got result) subscription.new.token }
        ensures number { subscription.new.number ≡ subscription.old.number }
    {
        T::unpack(self.table.shared.load::<ReadBy>(&mut subscription.seat, 0))
    }

    /// Ends the subscription, and returns its seat, for other calls. A waker that a task left by a future or a stream of
    /// the subscription is removed, and the task is woken.
    pub fn unsubscribe(&self, subscription: WordSubscription<T>) -> WordSeat<T>
        requires { subscription.token.table_id ≡ self.now.table_id }
        ensures { UnsubscribesIn state_flow self.now.first subscription result }
    {
        let WordSubscription {
            mut seat,
            number,
            last: _,
            has_left_waker,
        } = subscription;
        self.table.shared.fetch_sub::<Leave>(&mut seat, 1, 1);
        self.watchers.wake();
        if has_left_waker {
            self.readers.remove(number);
        }
        WordSeat { seat }
    }

    /// Counts the subscribers. A dropped subscription still counts: only `unsubscribe` ends one.
    pub fn subscription_count(&self, seat: &mut WordSeat<T>) -> u64
        requires { seat.old.table_id ≡ self.now.table_id }
        ensures { CallsAtOnceIn state_flow self.now.first seat.old call.SubscriptionCount
            (reply.Counted result) seat.new }
    {
        self.counts(seat).subscribers
    }

    /// Counts the subscribers as `subscription_count` does, and the subscriptions that the flow has accepted in all.
    pub fn counts(&self, seat: &mut WordSeat<T>) -> SubscriberCounts
        requires { seat.old.table_id ≡ self.now.table_id }
        ensures counted { CallsAtOnceIn state_flow self.now.first seat.old call.SubscriptionCount
            (reply.Counted result.subscribers) seat.new }
        ensures accepted { (state_after_all self.now.first seat.new.knows.seen).issued
            ≡ result.accepted }
    {
        let word = self.table.shared.load::<Count>(&mut seat.seat, 1);
        SubscriberCounts {
            subscribers: word % (1 << 32),
            accepted: word / (1 << 32),
        }
    }
}
