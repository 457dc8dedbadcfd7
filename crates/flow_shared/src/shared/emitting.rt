//! Emitting into a shared flow, and what becomes of an emission that waits.
ghost use Rattle.std.specs.Prelude.{◌≡◌, IfErr, IfOk};
ghost use Rattle.flow_law.specs.declared.fault.FlowFault.TheVariants.{Exhausted};
ghost use Rattle.flow_law.specs.declared.call.SharedCall.TheVariants as call;
ghost use Rattle.flow_law.specs.declared.call.SharedReply.TheVariants as reply;
ghost use Rattle.flow_core.specs.SharedCore.{try_emit_reply};
ghost use Rattle.flow_shared.specs.SharedReplies.{SharedCalls, Emits, EmitsNow, EmitsBy, Polls, PollsNow, PollsBy, CancelsNow, EmitRefusedIfDue, EmitIsWait, PollIsWait};

use super::Seat;
use super::shared_calls::{Cancel, Emit as EmitCall, Poll, TryEmit};
use crate::calling::{AtOnce, Entry, Sleepless, Waiting};
use crate::flow::Flow;
use crate::token::{Emission, Emitted, Polled, PolledNow};
use flow_core::SharedCore;
use flow_law::{Emit, FlowFault, FlowValue, Refused};
use flow_sleepers::Waiter;
use std::alloc::Allocator;
use std::sync::Wait;

impl<T: FlowValue, A: Allocator + Copy> Flow<SharedCore<T, A>, A> {
    /// Emits a value if it need not wait for subscribers, and returns `true` if the flow took it or, under
    /// `DropLatest`, dropped it. If `emit` would wait, it returns `false`, drops the value and changes nothing.
    pub fn try_emit<R: Wait>(
        &self,
        rt: &R,
        seat: &mut Seat<T, A>,
        value: T,
    ) -> Result<bool, Refused<T>>
        requires { seat.old.table_id ≡ self.now.table_id }
        ensures called { SharedCalls self.now seat.old
            (call.TryEmit value) (try_emit_reply result) seat.new }
        ensures refused { IfErr result (λ refused. refused.fault ≡ Exhausted) }
        ensures handed_back { IfErr result (λ refused. refused.value ≡ value) }
    {
        self.call(rt, seat, TryEmit { value }, &mut Sleepless)
    }

    /// Emits a value, or queues it.
    ///
    /// A queued emission keeps the seat: a caller that waits makes no other call through it. `poll_emit` then returns
    /// whether the emission still waits, and `cancel` ends the wait.
    pub fn emit<R: Wait>(&self, rt: &R, seat: Seat<T, A>, value: T) -> Emitted<T, A>
        requires { seat.table_id ≡ self.now.table_id }
        ensures emits { Emits self.now seat value result }
        ensures refused { EmitRefusedIfDue result }
    {
        self.emit_by(&Waiting(rt), seat, value, &mut Sleepless)
    }

    /// Emits a value as `emit` does if no other caller is inside; otherwise returns it with `Busy`.
    pub fn emit_now(&self, seat: Seat<T, A>, value: T) -> Emitted<T, A>
        requires { seat.table_id ≡ self.now.table_id }
        ensures { EmitsNow self.now seat value result }
    {
        self.emit_by(&AtOnce, seat, value, &mut Sleepless)
    }

    /// Emits a value, or queues it: the body of every `emit` that takes a seat. If the emission waits, the caller
    /// sleeps.
    #[inline(always)]
    pub(crate) fn emit_by<E: Entry, W: Waiter<A>>(
        &self,
        entry: &E,
        seat: Seat<T, A>,
        value: T,
        waiter: &mut W,
    ) -> Emitted<T, A>
        requires { seat.table_id ≡ self.now.table_id }
        ensures emits { EmitsBy self.now E.is_at_once seat value result }
        ensures armed { EmitIsWait result → W.is_armed waiter.new }
        ensures kept { W.keeps waiter.old waiter.new }
    {
        let mut seat = seat;
        match self.call_by(entry, &mut seat, EmitCall { value }, waiter) {
            Ok(Ok(Emit::Done)) => Emitted::Done(seat),
            Ok(Ok(Emit::Queued(number))) => Emitted::Queued(Emission { seat, number }),
            Ok(Err(Refused { value, fault })) => Emitted::Refused(seat, value, fault),
            Err(EmitCall { value }) => Emitted::Refused(seat, value, FlowFault::Busy),
        }
    }

    /// Returns whether the emission still waits. If it does not, the flow has taken its value, and the answer has its
    /// seat. Without a buffer every subscriber has then received it or left.
    pub fn poll_emit<R: Wait>(&self, rt: &R, emission: Emission<T, A>) -> Polled<T, A>
        requires { emission.token.table_id ≡ self.now.table_id }
        ensures { Polls self.now emission result }
    {
        match self.poll_by(&Waiting(rt), emission, &mut Sleepless) {
            PolledNow::Done(seat) => Polled::Done(seat),
            PolledNow::Waiting(emission) => Polled::Waiting(emission),
            PolledNow::Busy(_emission) => unreachable!(),
        }
    }

    /// Polls an emission as `poll_emit` does if no other caller is inside; otherwise returns it as `Busy`.
    pub fn poll_now(&self, emission: Emission<T, A>) -> PolledNow<T, A>
        requires { emission.token.table_id ≡ self.now.table_id }
        ensures { PollsNow self.now emission result }
    {
        self.poll_by(&AtOnce, emission, &mut Sleepless)
    }

    /// Polls an emission: the body of every poll. If the emission waits, the caller sleeps.
    #[inline(always)]
    pub(crate) fn poll_by<E: Entry, W: Waiter<A>>(
        &self,
        entry: &E,
        emission: Emission<T, A>,
        waiter: &mut W,
    ) -> PolledNow<T, A>
        requires { emission.token.table_id ≡ self.now.table_id }
        ensures polls { PollsBy self.now E.is_at_once emission result }
        ensures armed { PollIsWait result → W.is_armed waiter.new }
        ensures kept { W.keeps waiter.old waiter.new }
    {
        let Emission { mut seat, number } = emission;
        match self.call_by(entry, &mut seat, Poll { number }, waiter) {
            Ok(false) => PolledNow::Done(seat),
            Ok(true) => PolledNow::Waiting(Emission { seat, number }),
            Err(_call) => PolledNow::Busy(Emission { seat, number }),
        }
    }

    /// Cancels an emission, and returns whether it waited.
    ///
    /// A queued value is never emitted. An offered one is withdrawn from the subscribers that have not received it.
    pub fn cancel<R: Wait>(&self, rt: &R, emission: Emission<T, A>) -> (Seat<T, A>, bool)
        requires { emission.token.table_id ≡ self.now.table_id }
        ensures { SharedCalls self.now emission.token (call.Cancel emission.number)
            (reply.Tested result.1) result.0 }
    {
        let Emission { mut seat, number } = emission;
        let was_waiting = self.call(rt, &mut seat, Cancel { number }, &mut Sleepless);
        (seat, was_waiting)
    }

    /// Cancels an emission as `cancel` does if no other caller is inside; otherwise returns it.
    pub fn cancel_now(&self, emission: Emission<T, A>) -> Result<(Seat<T, A>, bool), Emission<T, A>>
        requires { emission.token.table_id ≡ self.now.table_id }
        ensures { CancelsNow self.now emission result }
    {
        let Emission { mut seat, number } = emission;
        match self.call_by(&AtOnce, &mut seat, Cancel { number }, &mut Sleepless) {
            Ok(was_waiting) => Ok((seat, was_waiting)),
            Err(_call) => Err(Emission { seat, number }),
        }
    }
}
