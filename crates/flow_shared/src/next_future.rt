//! The next value of a subscription to a shared flow, as a future that is polled again.
ghost use Rattle.std.specs.Prelude.{◌≡◌, ⊤, true, Some, None};
ghost use Rattle.futures.specs.Task.{Covers, Keeps};
ghost use Rattle.futures.specs.Poll.{IfReady, OnPending};
ghost use Rattle.flow_shared.specs.Futures.{OneEach};
ghost use Rattle.flow_shared.specs.NextFutures.{Receiving, receiving, IsTo, NextPolls, SaysReceived, held_by_next, token_after_next, given_by, ReceivedRefusedIfDue, GivesReceived};

use crate::calling::{AtOnce, Sleepless};
use crate::dropping::TRIES;
use crate::shared::{SharedFlow, Subscription};
use flow_law::{FlowFault, FlowValue, Next};
use flow_sleepers::Waiter;
use futures::Future;
use futures::task::{Context, Poll};
use std::alloc::{Allocator, Global};
use std::marker::Model;

/// The output of a `NextFuture`: its subscription, with a value or an error.
pub type Received<T, A = Global> = (Subscription<T, A>, Result<T, FlowFault>);

/// A future that waits for the next value of a subscriber (a collector of a `SharedFlow` suspends until there is one),
/// and gives it with the subscription.
///
/// A poll makes one call of the flow that does not wait, `next_now`. Each pending poll (there is no value yet, or
/// another caller was inside) asks to be polled again; `ReceiveFuture` is woken instead. After `Ready` a poll is
/// pending and calls nothing. The output is a value, or `OutOfMemory`: the value is then still in the flow.
///
/// # Dropping
/// Dropping the future ends its subscription, as dropping a `Reader` does. Call `into_subscription` to keep it.
pub struct NextFuture<'a, T: FlowValue, A: Allocator + Copy = Global> {
    flow: &'a SharedFlow<T, A>,
    subscription: Option<Subscription<T, A>>,
}

impl<T: FlowValue, A: Allocator + Copy> Drop for NextFuture<'_, T, A> {
    fn drop(self) {
        let Self { flow, subscription } = self;
        if let Some(subscription) = subscription {
            let _ended = flow.unsubscribe_within(subscription, TRIES);
        }
    }
}

impl<'a, T: FlowValue, A: Allocator + Copy> Model for NextFuture<'a, T, A> {
    ghost Value = { Receiving T };

    ghost view = { λ f. receiving f.flow.now f.subscription };

    ghost invariant = { λ f. IsTo f.flow.now.table_id f.subscription };
}

/// Asks to be polled again if there is no answer yet.
pub(crate) fn again_if_pending<X>(polled: Poll<X>, cx: &mut Context<'_>) -> Poll<X>
    ensures same { result ≡ polled }
    ensures asked { OnPending result (cx.new.is_woken ≡ true) }
    ensures registered { OnPending result (Covers cx.new (λ _. ⊥)) }
    ensures kept { Keeps cx.old cx.new }
{
    match polled {
        Poll::Ready(answer) => Poll::Ready(answer),
        Poll::Pending => cx.yield_now(),
    }
}

/// Returns what a future gives for this answer of the flow: nothing if it has to ask again.
fn given_by<T: FlowValue>(answer: Result<Next<T>, FlowFault>) -> Option<Result<T, FlowFault>>
    ensures { result ≡ given_by answer }
{
    match answer {
        Ok(Next::Value(value)) => Some(Ok(value)),
        Ok(Next::Empty | Next::Gone) | Err(FlowFault::Busy) => None,
        Err(fault) => Some(Err(fault)),
    }
}

impl<'a, T: FlowValue, A: Allocator + Copy> NextFuture<'a, T, A> {
    /// Returns a future that waits for the subscription's next value. Nothing is received before it is polled.
    pub fn new(flow: &'a SharedFlow<T, A>, subscription: Subscription<T, A>) -> NextFuture<'a, T, A>
        requires { subscription.token.table_id ≡ flow.now.table_id }
        ensures { result ≡ receiving flow.now (Some subscription) }
    {
        NextFuture {
            flow,
            subscription: Some(subscription),
        }
    }

    /// Ends the future, and returns the subscription, or `None` after `Ready`, when the output had it.
    pub fn into_subscription(self) -> Option<Subscription<T, A>>
        ensures { result ≡ self.entry.subscription }
    {
        let NextFuture {
            flow: _,
            subscription,
        } = self;
        subscription
    }

    /// Calls `next` of this subscription. If there is nothing to receive, the caller sleeps or asks again.
    fn ask<W: Waiter<A>>(
        &mut self,
        subscription: Subscription<T, A>,
        waiter: &mut W,
    ) -> Poll<Received<T, A>>
        requires { (self.old.subscription ≡ None)
            × (subscription.token.table_id ≡ self.old.flow.table_id) }
        ensures flow { self.new.flow ≡ self.old.flow }
        ensures polls { NextPolls self.old.flow (Some subscription) result self.new.subscription }
        ensures at { IfReady result (λ r. r.0.token.table_id ≡ self.old.flow.table_id) }
        ensures armed { OnPending result (W.is_armed waiter.new) }
        ensures kept { W.keeps waiter.old waiter.new }
    {
        let mut subscription = subscription;
        let answer = self.flow.next_by(&AtOnce, &mut subscription, waiter);
        match given_by(answer) {
            Some(given) => Poll::Ready((subscription, given)),
            None => {
                self.subscription = Some(subscription);
                Poll::Pending
            }
        }
    }

    /// Makes the one call of a poll.
    fn call<W: Waiter<A>>(&mut self, waiter: &mut W) -> Poll<Received<T, A>>
        ensures flow { self.new.flow ≡ self.old.flow }
        ensures polls { NextPolls self.old.flow self.old.subscription result self.new.subscription }
        ensures at { IfReady result (λ r. r.0.token.table_id ≡ self.old.flow.table_id) }
        ensures armed { OnPending result (W.is_armed waiter.new) }
        ensures kept { W.keeps waiter.old waiter.new }
    {
        match self.subscription.take() {
            Some(subscription) => self.ask(subscription, waiter),
            None => {
                waiter.ask_again();
                Poll::Pending
            }
        }
    }

    /// Polls with this waiter, and proves what a poll promises about the whole run.
    pub(crate) fn advance<W: Waiter<A>>(&mut self, waiter: &mut W) -> Poll<Received<T, A>>
        ensures value { IfReady result (GivesReceived self.old) }
        ensures same { OnPending result
            ((x : _) → GivesReceived self.new x → GivesReceived self.old x) }
        ensures armed { OnPending result (W.is_armed waiter.new) }
        ensures kept { W.keeps waiter.old waiter.new }
        ensures flow { self.new.flow ≡ self.old.flow }
        ensures polls { NextPolls self.old.flow self.old.subscription result self.new.subscription }
        ensures refused { IfReady result ReceivedRefusedIfDue }
        ensures one { OneEach SaysReceived self.old.flow (held_by_next self.old.subscription)
            result (token_after_next result self.new.subscription) }
    {
        self.call(waiter)
    }
}

impl<'a, T: FlowValue, A: Allocator + Copy> Future for NextFuture<'a, T, A> {
    type Output = Received<T, A>;

    ghost gives = { λ f received. GivesReceived f received };

    fn poll(&mut self, cx: &mut Context<'_>) -> Poll<Received<T, A>>
        ensures flow { self.new.flow ≡ self.old.flow }
        ensures polls { NextPolls self.old.flow self.old.subscription result self.new.subscription }
        ensures asked { OnPending result (cx.new.is_woken ≡ true) }
        ensures one { OneEach SaysReceived self.old.flow (held_by_next self.old.subscription) result
            (token_after_next result self.new.subscription) }
        ensures refused { IfReady result ReceivedRefusedIfDue }
        // The clauses of the trait.
        ensures value { IfReady result (GivesReceived self.old) }
        ensures again { OnPending result ⊤ }
        ensures same { OnPending result
            ((x : _) → GivesReceived self.new x → GivesReceived self.old x) }
        ensures registered { OnPending result (Covers cx.new (λ _. ⊥)) }
        ensures kept { Keeps cx.old cx.new }
    {
        again_if_pending(self.advance(&mut Sleepless), cx)
    }
}
