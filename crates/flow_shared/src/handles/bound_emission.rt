//! A waiting emission bound to its flow.
ghost use Rattle.std.specs.Prelude.{◌≡◌};
ghost use Rattle.std.specs.Arc.{arc_value};
ghost use Rattle.flow_law.specs.declared.call.SharedCall.TheVariants as call;
ghost use Rattle.flow_law.specs.declared.call.SharedReply.TheVariants as reply;
ghost use Rattle.flow_shared.specs.SharedReplies.{SharedCalls, Polls, PollsNow, CancelsNow};
ghost use Rattle.flow_shared.specs.BoundEmissions.{queued_by};
ghost use Rattle.flow_shared.specs.BoundReplies.{own_polled, polled_flow, polled_now_by, polled_now_flow, cancelled_by, cancelled_flow};

use super::caller::FlowCaller;
use super::emitter::Emitter;
use crate::dropping::TRIES;
use crate::shared::SharedFlow;
use crate::token::{Emission, Polled, PolledNow};
use flow_core::SharedCore;
use flow_law::{FlowValue, Rejected};
use std::alloc::{Allocator, Global};
use std::marker::Model;
use std::sync::{Arc, Wait};

/// A suspended emission and its flow. It has its emitter's seat.
///
/// # Dropping
/// Dropping it cancels the emission, as `cancel` does, without waiting. If other callers hold the flow at each of many
/// tries, its value stays queued or offered.
pub struct BoundEmission<T: FlowValue, A: Allocator + Copy = Global> {
    flow: Arc<SharedFlow<T, A>, A>,
    emission: Emission<T, A>,
}

impl<T: FlowValue, A: Allocator + Copy> Drop for BoundEmission<T, A> {
    fn drop(self) {
        let Self { flow, emission } = self;
        let _ended = flow.cancel_within(emission, TRIES);
    }
}

impl<T: FlowValue, A: Allocator + Copy> Model for BoundEmission<T, A> {
    ghost use Rattle.std.specs.Prelude.{◌≡◌};
    ghost use Rattle.std.specs.Arc.{arc_value};
    ghost use Rattle.flow_shared.specs.BoundEmissions.{EmissionOf, queued_by};

    ghost Value = { EmissionOf T };

    ghost view = { λ e. queued_by (arc_value e.flow) e.emission };

    ghost invariant = { λ e. e.emission.token.table_id ≡ (arc_value e.flow).table_id };
}

/// The answer of `emit` and `emit_now` of an emitter.
#[derive(Drop)]
pub enum EmitAnswer<T: FlowValue, E, A: Allocator + Copy = Global> {
    Done(Emitter<T, A>),
    /// The emitter has to wait for room.
    Queued(BoundEmission<T, A>),
    /// Nothing was emitted.
    Refused(Emitter<T, A>, Rejected<T, E>),
}

/// The answer of `poll` of an emission.
#[derive(Drop)]
pub enum PollAnswer<T: FlowValue, A: Allocator + Copy = Global> {
    Done(Emitter<T, A>),
    Waiting(BoundEmission<T, A>),
}

impl<T: FlowValue, A: Allocator + Copy> BoundEmission<T, A> {
    /// Binds an emission to its flow.
    pub fn new(flow: Arc<SharedFlow<T, A>, A>, emission: Emission<T, A>) -> BoundEmission<T, A>
        requires { emission.token.table_id ≡ (arc_value flow).table_id }
        ensures { result ≡ queued_by (arc_value flow) emission }
    {
        BoundEmission { flow, emission }
    }

    /// Returns whether the emission still waits. If it does not, the flow has taken its value, and the answer has its
    /// emitter. Without a buffer every subscriber has then received it or left.
    pub fn poll<R: Wait>(self, rt: &R) -> PollAnswer<T, A>
        ensures flow { polled_flow result ≡ self.flow }
        ensures polls { Polls self.flow self.emission (own_polled result) }
    {
        let BoundEmission { flow, emission } = self;
        match flow.poll_emit(rt, emission) {
            Polled::Done(seat) => PollAnswer::Done(FlowCaller::new(flow, seat)),
            Polled::Waiting(emission) => PollAnswer::Waiting(BoundEmission::new(flow, emission)),
        }
    }

    /// Polls the emission if no other caller holds the flow; otherwise returns the emission.
    pub fn try_poll(self) -> Result<PollAnswer<T, A>, BoundEmission<T, A>>
        ensures flow { polled_now_flow result ≡ self.flow }
        ensures polls { PollsNow self.flow self.emission (polled_now_by result) }
    {
        let BoundEmission { flow, emission } = self;
        match flow.poll_now(emission) {
            PolledNow::Done(seat) => Ok(PollAnswer::Done(FlowCaller::new(flow, seat))),
            PolledNow::Waiting(emission) => {
                Ok(PollAnswer::Waiting(BoundEmission::new(flow, emission)))
            }
            PolledNow::Busy(emission) => Err(BoundEmission::new(flow, emission)),
        }
    }

    /// Ends the wait of the emission, and returns its emitter and whether it waited.
    ///
    /// A queued value is lost. An offered value is withdrawn from the subscribers that have not received it.
    pub fn cancel<R: Wait>(self, rt: &R) -> (Emitter<T, A>, bool)
        ensures flow { result.0.flow ≡ self.flow }
        ensures cancelled { SharedCalls self.flow self.emission.token
            (call.Cancel self.emission.number) (reply.Tested result.1) result.0.token }
    {
        let BoundEmission { flow, emission } = self;
        let (seat, was_waiting) = flow.cancel(rt, emission);
        (FlowCaller::new(flow, seat), was_waiting)
    }

    /// Ends the wait if no other caller holds the flow; otherwise returns the emission.
    pub fn try_cancel(self) -> Result<(Emitter<T, A>, bool), BoundEmission<T, A>>
        ensures flow { cancelled_flow result ≡ self.flow }
        ensures cancelled { CancelsNow self.flow self.emission (cancelled_by result) }
    {
        let BoundEmission { flow, emission } = self;
        match flow.cancel_now(emission) {
            Ok((seat, was_waiting)) => Ok((FlowCaller::new(flow, seat), was_waiting)),
            Err(back) => Err(BoundEmission::new(flow, back)),
        }
    }

    /// Returns the emission, for the flow's own calls.
    pub fn into_emission(self) -> Emission<T, A>
        ensures emission { result ≡ self.emission }
        ensures flow { result.token.table_id ≡ self.flow.table_id }
    {
        let BoundEmission { flow: _, emission } = self;
        emission
    }
}
