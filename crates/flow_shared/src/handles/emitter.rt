//! Emitting into a shared flow through a handle.
ghost use Rattle.std.specs.Prelude.{◌≡◌, IfOk, IfErr};
ghost use Rattle.flow_law.specs.history.HandleFaults.{answer_by, handed_by, busy_fault, emit_now_fault, limit_fault, memory_fault, number_fault};
ghost use Rattle.flow_law.specs.history.Handles.{called_by, SubscribesBound};
ghost use Rattle.flow_law.specs.history.History.{fault_alone};
ghost use Rattle.flow_law.specs.flow.SharedHistory.{shared_flow};
ghost use Rattle.flow_law.specs.declared.call.SharedCall.TheVariants as call;
ghost use Rattle.flow_law.specs.declared.call.SharedReply.TheVariants as reply;
ghost use Rattle.flow_core.specs.SharedCore.{try_emit_reply, cache_reply};
ghost use Rattle.flow_shared.specs.SharedReplies.{SharedCalls, Emits, EmitsNow, ResetsNow};
ghost use Rattle.flow_shared.specs.BoundReplies.{emitted_by, emitted_flow};
ghost use Rattle.flow_shared.specs.Sending.{Sends, SendsInTime};

use super::bound_emission::{BoundEmission, EmitAnswer};
use super::caller::FlowCaller;
use super::reader::FlowReader;
use super::{emit_now_error, number_error};
use crate::flow::Flow;
use crate::shared::{Seat, SendEnd};
use crate::token::Emitted;
use flow_core::SharedCore;
use flow_law::{
    Busy, EmitNowError, Exhausted, FlowValue, NumberError, OutOfMemory, Refused, Rejected,
};
use flow_sleepers::{Limit, one_more_owner};
use std::alloc::{Allocator, Global};
use std::sync::{Arc, Wait};
use std::time::{Clock, Duration};

/// A caller of a shared flow.
pub type Emitter<T, A = Global> = FlowCaller<SharedCore<T, A>, A>;

impl<T: FlowValue, A: Allocator + Copy> Flow<SharedCore<T, A>, A> {
    /// Binds a seat to its flow, and puts the flow into memory that its handles own together: dropping the last one
    /// drops the flow. `another` and `subscribe` make more of them.
    ///
    /// # Errors
    /// `OutOfMemory`. The flow and the seat are dropped.
    pub fn into_emitter(self, alloc: A, seat: Seat<T, A>) -> Result<Emitter<T, A>, OutOfMemory>
        requires { seat.table_id ≡ self.table_id }
        ensures { IfOk result (λ emitter. emitter ≡ called_by self seat) }
    {
        match Arc::new(alloc, self) {
            Ok(flow) => Ok(FlowCaller::new(flow, seat)),
            Err(_failed) => Err(OutOfMemory),
        }
    }
}

impl<T: FlowValue, A: Allocator + Copy> FlowCaller<SharedCore<T, A>, A> {
    /// Emits a value if it need not wait for room, and returns `true` if the flow took it or, under `DropLatest`,
    /// dropped it. If `emit` would wait, it returns `false`, drops the value and does not change the flow.
    ///
    /// It waits while another caller holds the flow.
    ///
    /// # Errors
    /// `Exhausted` if the flow has issued as many numbers as its limit allows. The error has the value.
    ///
    /// # Source
    /// `MutableSharedFlow.tryEmit`.
    pub fn try_emit<R: Wait>(&mut self, rt: &R, value: T) -> Result<bool, Rejected<T, Exhausted>>
        ensures flow { self.new.flow ≡ self.old.flow }
        ensures called { SharedCalls self.old.flow self.old.token (call.TryEmit value)
            (try_emit_reply (handed_by limit_fault result)) self.new.token }
        ensures handed_back { IfErr result (λ rejected. rejected.value ≡ value) }
    {
        match self.flow.try_emit(rt, &mut self.seat, value) {
            Ok(taken) => Ok(taken),
            Err(Refused { value, fault: _ }) => Err(Rejected {
                value,
                error: Exhausted,
            }),
        }
    }

    /// Emits a value, and waits until the emission is done. The thread asks several times, and yields in between; then
    /// it sleeps, and the call that ends the emission wakes it. If there is no memory for its waker, it asks again.
    ///
    /// # Errors
    /// `Exhausted` if the flow has issued as many numbers as its limit allows, `OutOfMemory` if the value would have to
    /// wait and there is no memory for it. Nothing was emitted, and the error has the value.
    ///
    /// # Source
    /// `MutableSharedFlow.emit`, which suspends.
    pub fn send<R: Wait>(&mut self, rt: &R, value: T) -> Result<(), Rejected<T, NumberError>>
        ensures flow { self.new.flow ≡ self.old.flow }
        ensures sent { Sends self.old.flow value self.old.token
            (handed_by number_fault result) self.new.token }
        ensures handed_back { IfErr result (λ rejected. rejected.value ≡ value) }
    {
        match self.flow.send(rt, &mut self.seat, value) {
            Ok(()) => Ok(()),
            Err(Refused { value, fault }) => Err(Rejected {
                value,
                error: number_error(fault),
            }),
        }
    }

    /// Emits a value as `send` does, and cancels the emission if it is not done within `limit`. If the clock cannot be
    /// read, an emission that has to wait is cancelled.
    ///
    /// A cancelled value is lost for the subscribers that have not received it.
    ///
    /// # Errors
    /// As `send`. Nothing was emitted, and the error has the value.
    ///
    /// # Source
    /// `withTimeoutOrNull` around `MutableSharedFlow.emit`.
    pub fn send_timeout<R: Wait + Clock>(
        &mut self,
        rt: &R,
        value: T,
        limit: Duration,
    ) -> Result<SendEnd, Rejected<T, NumberError>>
        ensures flow { self.new.flow ≡ self.old.flow }
        ensures sent { SendsInTime self.old.flow value self.old.token
            (handed_by number_fault result) self.new.token }
        ensures handed_back { IfErr result (λ rejected. rejected.value ≡ value) }
    {
        let limit = Limit::new(rt, limit);
        match self.flow.send_within(rt, &mut self.seat, value, &limit) {
            Ok(end) => Ok(end),
            Err(Refused { value, fault }) => Err(Rejected {
                value,
                error: number_error(fault),
            }),
        }
    }

    /// Returns the replay cache: copies of at most `replay` values.
    ///
    /// # Errors
    /// `OutOfMemory` if there is no memory for the list or for a copy. The flow is not changed.
    pub fn replay_cache<R: Wait>(&mut self, rt: &R) -> Result<Vec<T, A>, OutOfMemory>
        ensures flow { self.new.flow ≡ self.old.flow }
        ensures called { SharedCalls self.old.flow self.old.token call.ReplayCache
            (cache_reply (answer_by memory_fault result)) self.new.token }
    {
        let values = self.flow.replay_cache(rt, &mut self.seat);
        values.map_err(|_fault| OutOfMemory)
    }

    /// Empties the replay cache. Present subscribers still receive the values that they have not received.
    pub fn reset_replay_cache<R: Wait>(&mut self, rt: &R)
        ensures flow { self.new.flow ≡ self.old.flow }
        ensures called { SharedCalls self.old.flow self.old.token
            call.ResetReplayCache reply.Reset self.new.token }
    {
        self.flow.reset_replay_cache(rt, &mut self.seat);
    }

    /// Empties the replay cache if no other caller holds the flow; otherwise returns `Busy`.
    pub fn try_reset_replay_cache(&mut self) -> Result<(), Busy>
        ensures flow { self.new.flow ≡ self.old.flow }
        ensures called { ResetsNow self.old.flow self.old.token
            (answer_by busy_fault result) self.new.token }
    {
        let reset = self.flow.reset_now(&mut self.seat);
        reset.map_err(|_busy| Busy)
    }
}

impl<T: FlowValue, A: Allocator + Copy> FlowCaller<SharedCore<T, A>, A> {
    /// Subscribes. The reader gets these values before any value of the flow (`onSubscription`). An error returns them.
    pub fn subscribe_with<R: Wait>(
        &mut self,
        rt: &R,
        first: Vec<T, A>,
    ) -> Result<FlowReader<SharedCore<T, A>, A>, Rejected<Vec<T, A>, NumberError>>
        ensures flow { self.new.flow ≡ self.old.flow }
        ensures subscribed { SubscribesBound shared_flow
            (λ name. call.Subscribe name first.items) self.old
            (fault_alone (handed_by number_fault result)) self.new.token }
        ensures handed_back { IfErr result (λ rejected. rejected.value ≡ first) }
    {
        let flow = one_more_owner(rt, &self.flow);
        match self.flow.subscribe_with(rt, &mut self.seat, first) {
            Ok(subscription) => Ok(FlowReader::new(flow, subscription)),
            Err(Refused { value, fault }) => Err(Rejected {
                value,
                error: number_error(fault),
            }),
        }
    }
}

impl<T: FlowValue, A: Allocator + Copy> FlowCaller<SharedCore<T, A>, A> {
    /// Emits a value, or queues it. Poll a queued emission until it is done, or cancel it; dropping it cancels it.
    ///
    /// # Errors
    /// `Refused`, with the emitter and the value: `Exhausted`, or `OutOfMemory` if the value would have to wait and
    /// there is no memory for it.
    pub fn emit<R: Wait>(self, rt: &R, value: T) -> EmitAnswer<T, NumberError, A>
        ensures flow { emitted_flow result ≡ self.flow }
        ensures emits { Emits self.flow self.token value
            (emitted_by number_fault result) }
    {
        let (flow, seat) = self.into_parts();
        match flow.emit(rt, seat, value) {
            Emitted::Done(seat) => EmitAnswer::Done(FlowCaller::new(flow, seat)),
            Emitted::Queued(emission) => EmitAnswer::Queued(BoundEmission::new(flow, emission)),
            Emitted::Refused(seat, value, fault) => EmitAnswer::Refused(
                FlowCaller::new(flow, seat),
                Rejected {
                    value,
                    error: number_error(fault),
                },
            ),
        }
    }

    /// Emits a value as `emit` does if no other caller holds the flow; otherwise the error is `Busy`.
    pub fn emit_now(self, value: T) -> EmitAnswer<T, EmitNowError, A>
        ensures flow { emitted_flow result ≡ self.flow }
        ensures emits { EmitsNow self.flow self.token value
            (emitted_by emit_now_fault result) }
    {
        let (flow, seat) = self.into_parts();
        match flow.emit_now(seat, value) {
            Emitted::Done(seat) => EmitAnswer::Done(FlowCaller::new(flow, seat)),
            Emitted::Queued(emission) => EmitAnswer::Queued(BoundEmission::new(flow, emission)),
            Emitted::Refused(seat, value, fault) => EmitAnswer::Refused(
                FlowCaller::new(flow, seat),
                Rejected {
                    value,
                    error: emit_now_error(fault),
                },
            ),
        }
    }
}
