//! The tokens of flows: seats, subscriptions and emissions that wait, and the answers that give a caller its token back.
ghost use Rattle.flow_law.specs.declared.call.SharedCall.{SharedCall};
ghost use Rattle.flow_law.specs.declared.call.SharedReply.{SharedReply};
ghost use Rattle.flow_law.specs.declared.history.Said.{Said};
ghost use Rattle.flow_law.specs.history.History.{IsEmission, IsSubscription};
ghost use Rattle.flow_law.specs.flow.SharedHistory.{shared_flow};
ghost use Rattle.flow_law.specs.history.Tokens.{numbered_token};
ghost use Rattle.flow_gate.specs.Tokens.{GateToken, IsIdle, idle_seat};
ghost use Rattle.flow_shared.specs.Calls.{GateNumbered};
ghost use Rattle.flow_core.specs.SubId.{number_of};

use crate::attended::Attended;
use flow_core::{FlowCore, SharedCore, SubId};
use flow_law::{FlowFault, FlowValue};
use std::alloc::{Allocator, Global};
use std::marker::Model;

/// A seat at a flow, by which a caller calls it. Contracts see the history that it has seen.
///
/// After a seat is dropped, no call is made under its name. The flow does not change.
pub struct FlowSeat<S: FlowCore, A: Allocator + Copy = Global> {
    pub(crate) seat: flow_gate::Seat<Attended<S, A>>,
}

impl<S: FlowCore, A: Allocator + Copy> Drop for FlowSeat<S, A> {
    fn drop(self) {
        self.into_inner().end();
    }
}

impl<S: FlowCore, A: Allocator + Copy> FlowSeat<S, A> {
    ghost use Rattle.std.specs.Prelude.{◌≡◌};

    /// Returns the seat at the gate.
    pub(crate) fn into_inner(self) -> flow_gate::Seat<Attended<S, A>>
        ensures { result ≡ idle_seat self }
    {
        let Self { seat } = self;
        seat
    }
}

impl<S: FlowCore, A: Allocator + Copy> Model for FlowSeat<S, A> {
    ghost Value = { GateToken (Said S.Call S.Reply) };

    ghost view = { λ s. s.seat.token };

    ghost invariant = { λ s. IsIdle s.seat };
}

/// A subscription to a flow: a seat of its own, and its number.
///
/// A dropped subscription stays and is counted: it may block the emitters of a shared flow, and costs a state flow one
/// value. Its seat is lost. Call `unsubscribe` to end it.
#[derive(Drop)]
pub struct FlowSubscription<S: FlowCore, A: Allocator + Copy = Global> {
    pub(crate) seat: FlowSeat<S, A>,
    pub(crate) id: SubId,
}

impl<S: FlowCore, A: Allocator + Copy> Model for FlowSubscription<S, A> {
    ghost Value = { GateNumbered (Said S.Call S.Reply) };

    ghost view = { λ s. numbered_token s.seat (number_of s.id) };

    ghost invariant = { λ s. IsSubscription S.kind s.seat.knows (number_of s.id) };
}

/// A suspended emission: the seat of its emitter, and the number of its value.
///
/// # Dropping
/// A dropped emission stays queued or offered, and its seat is lost. Call `cancel` to end its wait.
#[derive(Drop)]
pub struct Emission<T: FlowValue, A: Allocator + Copy = Global> {
    pub(crate) seat: FlowSeat<SharedCore<T, A>, A>,
    pub(crate) number: u64,
}

impl<T: FlowValue, A: Allocator + Copy> Model for Emission<T, A> {
    ghost Value = { GateNumbered (Said (SharedCall T) (SharedReply T)) };

    ghost view = { λ e. numbered_token e.seat e.number };

    ghost invariant = { λ e. IsEmission shared_flow e.seat.knows e.number };
}

/// The answer of `emit` and `emit_now`.
#[derive(Drop)]
pub enum Emitted<T: FlowValue, A: Allocator + Copy = Global> {
    Done(FlowSeat<SharedCore<T, A>, A>),
    /// The emitter has to wait: `poll_emit` returns whether it still waits, and `cancel` ends the wait.
    Queued(Emission<T, A>),
    /// Nothing was emitted. Only `emit_now` returns `FlowFault::Busy`.
    Refused(FlowSeat<SharedCore<T, A>, A>, T, FlowFault),
}

/// The answer of `poll_emit`.
#[derive(Drop)]
pub enum Polled<T: FlowValue, A: Allocator + Copy = Global> {
    Done(FlowSeat<SharedCore<T, A>, A>),
    Waiting(Emission<T, A>),
}

/// The answer of `poll_now`.
#[derive(Drop)]
pub enum PolledNow<T: FlowValue, A: Allocator + Copy = Global> {
    Done(FlowSeat<SharedCore<T, A>, A>),
    Waiting(Emission<T, A>),
    /// Another caller was inside. The emission is unchanged.
    Busy(Emission<T, A>),
}
