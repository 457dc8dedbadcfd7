//! Emissions whose threads sleep while they wait, for as long as it takes or within a time limit.
ghost use Rattle.std.specs.Prelude.{◌≡◌, IfErr};
ghost use Rattle.flow_law.specs.history.History.{IsEmission};
ghost use Rattle.flow_law.specs.flow.SharedHistory.{shared_flow};
ghost use Rattle.flow_sleepers.specs.Waiters.{IsReadyToWait};
ghost use Rattle.flow_shared.specs.EmitFutures.{EmitEnds};
ghost use Rattle.flow_shared.specs.Sending.{Sends, SendEndsBy, EndsInTime, SendsInTime};
ghost use Rattle.flow_shared.specs.SharedReplies.{IsEmitFault};

use super::Seat;
use super::shared_calls::{Cancel, Emit as EmitCall, Poll};
use crate::calling::Sleepless;
use crate::flow::Flow;
use flow_core::SharedCore;
use flow_law::{Emit, FlowValue, Refused};
use flow_sleepers::{Limit, ThreadWaiter};
use std::alloc::Allocator;
use std::sync::Wait;
use std::time::Clock;

/// How a `send_timeout` ended.
#[derive(Clone, Copy, Debug, PartialEq, Eq)]
pub enum SendEnd {
    /// The emission is done.
    Done,
    /// The time was up first, and the emission was cancelled.
    Cancelled,
}

impl<T: FlowValue, A: Allocator + Copy> Flow<SharedCore<T, A>, A> {
    /// Waits until the emission of this number is done. The thread sleeps before each poll.
    fn await_end<R: Wait>(
        &self,
        rt: &R,
        seat: &mut Seat<T, A>,
        number: u64,
        waiter: &mut ThreadWaiter<A>,
    )
        requires flow { seat.old.table_id ≡ self.now.table_id }
        requires emission { IsEmission shared_flow seat.old.knows number }
        requires ready { IsReadyToWait waiter.old }
        ensures ends { EmitEnds self.now number seat.old seat.new }
        ensures flow { seat.new.table_id ≡ self.now.table_id }
    {
        for _ in rt.forever() {
            waiter.wait(rt);
            if !self.call(rt, seat, Poll { number }, waiter) {
                return;
            }
        }
        unreachable!()
    }

    /// Emits a value through a seat that its caller keeps, and waits until the emission is done.
    pub(crate) fn send<R: Wait>(
        &self,
        rt: &R,
        seat: &mut Seat<T, A>,
        value: T,
    ) -> Result<(), Refused<T>>
        requires { seat.old.table_id ≡ self.now.table_id }
        ensures sent { Sends self.now value seat.old result seat.new }
        ensures refused { IfErr result (λ refused. IsEmitFault refused.fault) }
        ensures handed_back { IfErr result (λ refused. refused.value ≡ value) }
        ensures flow { seat.new.table_id ≡ self.now.table_id }
    {
        let mut waiter = ThreadWaiter::new();
        match self.call(rt, seat, EmitCall { value }, &mut waiter)? {
            Emit::Done => Ok(()),
            Emit::Queued(number) => {
                self.await_end(rt, seat, number, &mut waiter);
                Ok(())
            }
        }
    }

    /// Cancels the emission of this number, whose time is up. If it no longer waited, it is done.
    fn end_wait<R: Wait>(&self, rt: &R, seat: &mut Seat<T, A>, number: u64) -> SendEnd
        requires flow { seat.old.table_id ≡ self.now.table_id }
        requires emission { IsEmission shared_flow seat.old.knows number }
        ensures ends { SendEndsBy self.now number seat.old result seat.new }
        ensures flow { seat.new.table_id ≡ self.now.table_id }
    {
        if self.call(rt, seat, Cancel { number }, &mut Sleepless) {
            SendEnd::Cancelled
        } else {
            SendEnd::Done
        }
    }

    /// Waits until the emission of this number is done, and cancels it when the time is up. The thread sleeps before
    /// each poll.
    fn await_end_within<R: Wait + Clock>(
        &self,
        rt: &R,
        seat: &mut Seat<T, A>,
        number: u64,
        waiter: &mut ThreadWaiter<A>,
        limit: &Limit,
    ) -> SendEnd
        requires flow { seat.old.table_id ≡ self.now.table_id }
        requires emission { IsEmission shared_flow seat.old.knows number }
        requires ready { IsReadyToWait waiter.old }
        ensures ends { EndsInTime self.now number seat.old result seat.new }
        ensures flow { seat.new.table_id ≡ self.now.table_id }
    {
        for _ in rt.forever() {
            if !waiter.wait_within(rt, limit) {
                return self.end_wait(rt, seat, number);
            }
            if !self.call(rt, seat, Poll { number }, waiter) {
                return SendEnd::Done;
            }
        }
        unreachable!()
    }

    /// Emits a value through a seat that its caller keeps, and waits until the emission is done or the time is up.
    pub(crate) fn send_within<R: Wait + Clock>(
        &self,
        rt: &R,
        seat: &mut Seat<T, A>,
        value: T,
        limit: &Limit,
    ) -> Result<SendEnd, Refused<T>>
        requires { seat.old.table_id ≡ self.now.table_id }
        ensures sent { SendsInTime self.now value seat.old result seat.new }
        ensures refused { IfErr result (λ refused. IsEmitFault refused.fault) }
        ensures handed_back { IfErr result (λ refused. refused.value ≡ value) }
        ensures flow { seat.new.table_id ≡ self.now.table_id }
    {
        let mut waiter = ThreadWaiter::new();
        match self.call(rt, seat, EmitCall { value }, &mut waiter)? {
            Emit::Done => Ok(SendEnd::Done),
            Emit::Queued(number) => Ok(self.await_end_within(rt, seat, number, &mut waiter, limit)),
        }
    }
}
