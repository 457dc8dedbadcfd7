//! The calls of subscribers, for every kind of flow.
ghost use Rattle.std.specs.Prelude.{◌≡◌, ◌≢◌, ◌⊎◌, ℕ, true, Ok, IsOk, IfErr, ⊤};
ghost use Rattle.flow_law.specs.history.History.{replied};
ghost use Rattle.flow_law.specs.declared.fault.FlowFault.TheVariants.{OutOfMemory, Exhausted};
ghost use Rattle.flow_law.specs.declared.outcome.Next.TheVariants.{Gone};
ghost use Rattle.flow_core.specs.SubId.{number_of};
ghost use Rattle.flow_shared.specs.Calls.{Nexts, NextsBy, NextsNow, Unsubscribes, Counts, CountsNow, Subscribes};
ghost use Rattle.flow_shared.specs.CoreCalls.{IsWait, after_next};

use crate::calling::{AtOnce, Entry, Sleepless, Waiting};
use crate::core_call::{CoreCall, Made, Then};
use crate::flow::Flow;
use crate::token::{FlowSeat, FlowSubscription};
use crate::watcher::Count;
use flow_core::{FlowCore, ReaderCalls, SubId, SubscriberCalls};
use flow_law::{FlowFault, Next, Touch};
use flow_sleepers::Waiter;
use std::alloc::Allocator;
use std::sync::Wait;

#[derive(Drop)]
struct Subscribe;

impl<S: SubscriberCalls> CoreCall<S> for Subscribe {
    type Answer = Result<SubId, FlowFault>;

    ghost call = { λ c name. S.kind.subscribe name };

    ghost reply = { λ answer. replied S.kind (λ id. S.kind.subscribed (number_of id)) answer };

    #[inline(always)]
    fn run(self, core: &mut S) -> Made<Result<SubId, FlowFault>> {
        Made::quiet(core.subscribe())
    }
}

#[derive(Drop)]
pub(crate) struct TakeNext {
    pub(crate) id: SubId,
}

impl<S: ReaderCalls> CoreCall<S> for TakeNext {
    type Answer = Result<Next<S::Item>, FlowFault>;

    ghost call = { λ c name. S.kind.take_next (number_of c.id) };

    ghost reply = { λ answer. replied S.kind S.kind.received answer };

    ghost also = { λ c answer. S.Item.IsAlwaysCopied → IsOk answer };

    ghost then = { λ c answer. after_next (number_of c.id) answer };

    #[inline(always)]
    fn run(self, core: &mut S) -> Made<Result<Next<S::Item>, FlowFault>> {
        let number = self.id.number();
        let answer = core.next(self.id);
        let then = Then::after_next(number, &answer);
        Made::before(answer, then)
    }
}

#[derive(Drop)]
pub(crate) struct Unsubscribe {
    pub(crate) id: SubId,
}

impl<S: ReaderCalls> CoreCall<S> for Unsubscribe {
    type Answer = bool;

    ghost call = { λ c name. S.kind.unsubscribe (number_of c.id) };

    ghost reply = { λ answer. S.kind.tested answer };

    #[inline(always)]
    fn run(self, core: &mut S) -> Made<bool> {
        let touches = Touch::Subscriber(self.id.number());
        Made::touching(core.unsubscribe(self.id), touches)
    }
}

impl<S: SubscriberCalls + Drop, A: Allocator + Copy> Flow<S, A> {
    /// Adds a subscriber. In a shared flow it receives the replay cache first, or the value that is being offered; in a
    /// state flow it receives the current value first.
    ///
    /// The subscription has a seat of its own, made through this one. A subscriber that does not read blocks the
    /// emitters of a shared flow or loses values, depending on `overflow`, until `unsubscribe`.
    ///
    /// # Errors
    /// `Exhausted` if the flow has issued as many numbers as its limit allows, else `OutOfMemory`.
    pub fn subscribe<R: Wait>(
        &self,
        rt: &R,
        seat: &mut FlowSeat<S, A>,
    ) -> Result<FlowSubscription<S, A>, FlowFault>
        requires { seat.old.table_id ≡ self.now.table_id }
        ensures subscribed { Subscribes S.kind self.now S.kind.subscribe seat.old result seat.new }
        ensures refused { IfErr result (λ fault. (fault ≡ OutOfMemory) ⊎ (fault ≡ Exhausted)) }
    {
        let id = self.call(rt, seat, Subscribe, &mut Sleepless)?;
        let made = self.seat(seat);
        Ok(FlowSubscription { seat: made, id })
    }
}

impl<S: ReaderCalls + Drop, A: Allocator + Copy> Flow<S, A> {
    /// Returns what the subscriber receives next, or `Empty` if it has received all values. The only error is
    /// `OutOfMemory`; a later call returns the value.
    ///
    /// In a shared flow this makes room, so queued values may be emitted. A slow subscriber of a state flow skips
    /// values and gets the most recent one.
    pub fn next<R: Wait>(
        &self,
        rt: &R,
        subscription: &mut FlowSubscription<S, A>,
    ) -> Result<Next<S::Item>, FlowFault>
        requires { subscription.old.token.table_id ≡ self.now.table_id }
        ensures called { Nexts S.kind self.now subscription.old result subscription.new }
        ensures number { subscription.new.number ≡ subscription.old.number }
        ensures live { result ≢ Ok Gone }
        ensures refused { IfErr result (λ fault. fault ≡ OutOfMemory) }
        ensures given { S.Item.IsAlwaysCopied → IsOk result }
    {
        self.next_asleep(rt, subscription, &mut Sleepless)
    }

    /// Returns what `next` returns if no other caller is inside; otherwise the error is `Busy`.
    pub fn next_now(
        &self,
        subscription: &mut FlowSubscription<S, A>,
    ) -> Result<Next<S::Item>, FlowFault>
        requires { subscription.old.token.table_id ≡ self.now.table_id }
        ensures called { NextsNow S.kind self.now subscription.old result subscription.new }
        ensures given { S.Item.IsAlwaysCopied → IfErr result (λ fault. fault ≡ FlowFault.Busy) }
    {
        self.next_by(&AtOnce, subscription, &mut Sleepless)
    }

    /// Returns what `next` returns. If there is nothing to receive, the caller sleeps.
    #[inline(always)]
    pub(crate) fn next_asleep<R: Wait, W: Waiter<A>>(
        &self,
        rt: &R,
        subscription: &mut FlowSubscription<S, A>,
        waiter: &mut W,
    ) -> Result<Next<S::Item>, FlowFault>
        requires { subscription.old.token.table_id ≡ self.now.table_id }
        ensures called { Nexts S.kind self.now subscription.old result subscription.new }
        ensures number { subscription.new.number ≡ subscription.old.number }
        ensures live { result ≢ Ok Gone }
        ensures refused { IfErr result (λ fault. fault ≡ OutOfMemory) }
        ensures given { S.Item.IsAlwaysCopied → IsOk result }
        ensures armed { IsWait result → W.is_armed waiter.new }
    {
        self.next_by(&Waiting(rt), subscription, waiter)
    }

    /// Returns what `next` returns, or `Busy` if another caller is inside and this one does not wait for that. If there
    /// is nothing to receive, the caller sleeps.
    #[inline(always)]
    pub(crate) fn next_by<E: Entry, W: Waiter<A>>(
        &self,
        entry: &E,
        subscription: &mut FlowSubscription<S, A>,
        waiter: &mut W,
    ) -> Result<Next<S::Item>, FlowFault>
        requires { subscription.old.token.table_id ≡ self.now.table_id }
        ensures called { NextsBy S.kind self.now E.is_at_once subscription.old result subscription.new }
        ensures given { S.Item.IsAlwaysCopied → IfErr result (λ fault. E.is_at_once × (fault ≡ FlowFault.Busy)) }
        ensures armed { IsWait result → W.is_armed waiter.new }
        ensures kept { W.keeps waiter.old waiter.new }
    {
        let id = subscription.id;
        let tried = self.call_by(entry, &mut subscription.seat, TakeNext { id }, waiter);
        tried.unwrap_or(Err(FlowFault::Busy))
    }

    /// Ends the subscription, and returns its seat, for other calls. Emissions that waited only for it are done.
    pub fn unsubscribe<R: Wait>(
        &self,
        rt: &R,
        subscription: FlowSubscription<S, A>,
    ) -> FlowSeat<S, A>
        requires { subscription.token.table_id ≡ self.now.table_id }
        ensures { Unsubscribes S.kind self.now subscription result }
    {
        let FlowSubscription { mut seat, id } = subscription;
        let _was_there = self.call(rt, &mut seat, Unsubscribe { id }, &mut Sleepless);
        seat
    }

    /// Counts the subscribers. A dropped subscription still counts: only `unsubscribe` ends one.
    pub fn subscription_count<R: Wait>(&self, rt: &R, seat: &mut FlowSeat<S, A>) -> u64
        requires { seat.old.table_id ≡ self.now.table_id }
        ensures { Counts S.kind self.now seat.old result seat.new }
    {
        self.call(rt, seat, Count::new(), &mut Sleepless)
            .subscribers
    }

    /// Counts the subscribers if no other caller is inside; otherwise returns `Busy`.
    pub fn count_now(&self, seat: &mut FlowSeat<S, A>) -> Result<u64, FlowFault>
        requires { seat.old.table_id ≡ self.now.table_id }
        ensures { CountsNow S.kind self.now seat.old result seat.new }
    {
        match self.call_by(&AtOnce, seat, Count::new(), &mut Sleepless) {
            Ok(signs) => Ok(signs.subscribers),
            Err(_call) => Err(FlowFault::Busy),
        }
    }
}
