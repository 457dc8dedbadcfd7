//! Emitting a value into a shared flow, as a future that is polled again.
ghost use Rattle.std.specs.Prelude.{◌≡◌, ⊤, true};
ghost use Rattle.futures.specs.Task.{Covers, Keeps};
ghost use Rattle.futures.specs.Poll.{IfReady, OnPending};
ghost use Rattle.flow_shared.specs.declared.emit_future.EmitStage.TheVariants.{Fresh, Waiting, Ended};
ghost use Rattle.flow_shared.specs.Futures.{OneEach};
ghost use Rattle.flow_shared.specs.EmitFutures.{Emitting, emitting_at, HoldsOf, EmitPolls, SaysSent, held_by_emit, token_after_emit, KeepsCount, SentRefusedIfDue, sent_token, GivesSent, FutureCancels};

use crate::calling::{AtOnce, Sleepless};
use crate::dropping::TRIES;
use crate::next_future::again_if_pending;
use crate::shared::{Seat, SharedFlow};
use crate::token::{Emission, Emitted, PolledNow};
use flow_law::{FlowFault, FlowValue};
use flow_sleepers::Waiter;
use futures::Future;
use futures::task::{Context, Poll};
use std::alloc::{Allocator, Global};
use std::marker::Model;
use std::mem;
use std::sync::Wait;

/// The output of an `EmitFuture`: its seat and, if the flow refused it, the value.
#[derive(Drop)]
pub enum Sent<T: FlowValue, A: Allocator + Copy = Global> {
    /// The flow took the value (under `DropLatest` it may have dropped it), and the emitter need not wait.
    Done(Seat<T, A>),
    /// `Exhausted` if the flow has issued as many numbers as its limit allows, or `OutOfMemory`. Nothing was emitted,
    /// and this has the value.
    Refused(Seat<T, A>, T, FlowFault),
}

/// The stage of an `EmitFuture`.
#[derive(Drop)]
pub enum EmitStage<T: FlowValue, A: Allocator + Copy = Global> {
    /// The value was not emitted yet.
    Fresh(Seat<T, A>, T),
    /// The value was emitted, and waits in the flow.
    Waiting(Emission<T, A>),
    /// The future was ready.
    Ended,
}

/// A future that emits a value once, and is ready when the emitter need not wait any more (`MutableSharedFlow.emit`,
/// which suspends).
///
/// A poll makes one call of the flow that does not wait: `emit_now`, and later `poll_now` of the emission. Each pending
/// poll asks to be polled again; `SendFuture` is woken instead. After `Ready` a poll is pending and calls nothing.
///
/// # Dropping
/// Dropping the future cancels its emission if that waits, as dropping a `BoundEmission` does, and loses its seat. Call
/// `cancel` to get the seat back.
pub struct EmitFuture<'a, T: FlowValue, A: Allocator + Copy = Global> {
    flow: &'a SharedFlow<T, A>,
    stage: EmitStage<T, A>,
}

impl<T: FlowValue, A: Allocator + Copy> Drop for EmitFuture<'_, T, A> {
    fn drop(self) {
        let Self { flow, stage } = self;
        if let EmitStage::Waiting(emission) = stage {
            let _ended = flow.cancel_within(emission, TRIES);
        }
    }
}

impl<'a, T: FlowValue, A: Allocator + Copy> Model for EmitFuture<'a, T, A> {
    ghost Value = { Emitting T A };

    ghost view = { λ f. emitting_at f.flow.now f.stage };

    ghost invariant = { λ f. HoldsOf f.flow.now.table_id f.stage };
}

impl<'a, T: FlowValue, A: Allocator + Copy> EmitFuture<'a, T, A> {
    /// Returns a future that emits this value through this seat. Nothing is emitted before it is polled.
    pub fn new(flow: &'a SharedFlow<T, A>, seat: Seat<T, A>, value: T) -> EmitFuture<'a, T, A>
        requires { seat.table_id ≡ flow.now.table_id }
        ensures { result ≡ emitting_at flow.now (Fresh seat value) }
    {
        EmitFuture::at(flow, EmitStage::Fresh(seat, value))
    }

    /// Returns the future at this stage.
    pub(crate) fn at(flow: &'a SharedFlow<T, A>, stage: EmitStage<T, A>) -> EmitFuture<'a, T, A>
        requires { HoldsOf flow.now.table_id stage }
        ensures { result ≡ emitting_at flow.now stage }
    {
        EmitFuture { flow, stage }
    }

    /// Returns the stage without the flow. An emission that waits stays in the flow.
    pub(crate) fn into_stage(self) -> EmitStage<T, A>
        ensures stage { result ≡ self.entry.stage }
        ensures at { HoldsOf self.entry.flow.table_id result }
    {
        let EmitFuture { flow: _, stage } = self;
        stage
    }

    /// Ends the future, and returns its seat, with `true` if the value was not emitted yet (after no polls, or only
    /// busy ones) or its emission still waited. Returns `None` after `Ready`, when the output had the seat.
    ///
    /// A value that was not emitted, or is queued, is dropped. An offered one is withdrawn from the subscribers that
    /// have not received it.
    pub fn cancel<R: Wait>(self, rt: &R) -> Option<(Seat<T, A>, bool)>
        ensures { FutureCancels self.entry result }
    {
        let EmitFuture { flow, stage } = self;
        match stage {
            EmitStage::Fresh(seat, _value) => Some((seat, true)),
            EmitStage::Waiting(emission) => Some(flow.cancel(rt, emission)),
            EmitStage::Ended => None,
        }
    }
}

impl<'a, T: FlowValue, A: Allocator + Copy> Future for EmitFuture<'a, T, A> {
    type Output = Sent<T, A>;

    ghost gives = { λ f sent. GivesSent f sent };

    fn poll(&mut self, cx: &mut Context<'_>) -> Poll<Sent<T, A>>
        ensures flow { self.new.flow ≡ self.old.flow }
        ensures polls { EmitPolls self.old.flow self.old.stage result self.new.stage }
        ensures one { OneEach SaysSent self.old.flow
            (held_by_emit self.old.stage) result (token_after_emit result self.new.stage) }
        ensures asked { OnPending result (cx.new.is_woken ≡ true) }
        ensures count { KeepsCount self.old.stage result self.new.stage }
        ensures refused { IfReady result SentRefusedIfDue }
        // The clauses of the trait.
        ensures value { IfReady result (GivesSent self.old) }
        ensures again { OnPending result ⊤ }
        ensures same { OnPending result ((x : _) → GivesSent self.new x → GivesSent self.old x) }
        ensures registered { OnPending result (Covers cx.new (λ _. ⊥)) }
        ensures kept { Keeps cx.old cx.new }
    {
        again_if_pending(self.advance(&mut Sleepless), cx)
    }
}

impl<'a, T: FlowValue, A: Allocator + Copy> EmitFuture<'a, T, A> {
    /// Emits the value, at the first poll that is not busy.
    fn emit<W: Waiter<A>>(&mut self, seat: Seat<T, A>, value: T, waiter: &mut W) -> Poll<Sent<T, A>>
        requires { (self.old.stage ≡ Ended) × (seat.table_id ≡ self.old.flow.table_id) }
        ensures flow { self.new.flow ≡ self.old.flow }
        ensures polls { EmitPolls self.old.flow (Fresh seat value) result self.new.stage }
        ensures at { IfReady result (λ s. (sent_token s).table_id ≡ self.old.flow.table_id) }
        ensures armed { OnPending result (W.is_armed waiter.new) }
        ensures kept { W.keeps waiter.old waiter.new }
    {
        match self.flow.emit_by(&AtOnce, seat, value, waiter) {
            Emitted::Done(seat) => Poll::Ready(Sent::Done(seat)),
            Emitted::Queued(emission) => {
                self.stage = EmitStage::Waiting(emission);
                Poll::Pending
            }
            Emitted::Refused(seat, value, FlowFault::Busy) => {
                self.stage = EmitStage::Fresh(seat, value);
                Poll::Pending
            }
            Emitted::Refused(seat, value, fault) => Poll::Ready(Sent::Refused(seat, value, fault)),
        }
    }

    /// Asks whether the emission still waits.
    fn ask<W: Waiter<A>>(&mut self, emission: Emission<T, A>, waiter: &mut W) -> Poll<Sent<T, A>>
        requires { (self.old.stage ≡ Ended) × (emission.token.table_id ≡ self.old.flow.table_id) }
        ensures flow { self.new.flow ≡ self.old.flow }
        ensures polls { EmitPolls self.old.flow (Waiting emission) result self.new.stage }
        ensures at { IfReady result (λ s. (sent_token s).table_id ≡ self.old.flow.table_id) }
        ensures armed { OnPending result (W.is_armed waiter.new) }
        ensures kept { W.keeps waiter.old waiter.new }
    {
        match self.flow.poll_by(&AtOnce, emission, waiter) {
            PolledNow::Done(seat) => Poll::Ready(Sent::Done(seat)),
            PolledNow::Waiting(left) | PolledNow::Busy(left) => {
                self.stage = EmitStage::Waiting(left);
                Poll::Pending
            }
        }
    }

    /// Makes the one call of a poll. If the emission waits, the caller sleeps or asks again.
    fn call<W: Waiter<A>>(&mut self, waiter: &mut W) -> Poll<Sent<T, A>>
        ensures flow { self.new.flow ≡ self.old.flow }
        ensures polls { EmitPolls self.old.flow self.old.stage result self.new.stage }
        ensures at { IfReady result (λ s. (sent_token s).table_id ≡ self.old.flow.table_id) }
        ensures armed { OnPending result (W.is_armed waiter.new) }
        ensures kept { W.keeps waiter.old waiter.new }
    {
        match mem::replace(&mut self.stage, EmitStage::Ended) {
            EmitStage::Fresh(seat, value) => self.emit(seat, value, waiter),
            EmitStage::Waiting(emission) => self.ask(emission, waiter),
            EmitStage::Ended => {
                waiter.ask_again();
                Poll::Pending
            }
        }
    }

    /// Polls with this waiter, and proves what a poll promises about the whole run.
    pub(crate) fn advance<W: Waiter<A>>(&mut self, waiter: &mut W) -> Poll<Sent<T, A>>
        ensures value { IfReady result (GivesSent self.old) }
        ensures same { OnPending result ((x : _) → GivesSent self.new x → GivesSent self.old x) }
        ensures armed { OnPending result (W.is_armed waiter.new) }
        ensures kept { W.keeps waiter.old waiter.new }
        ensures flow { self.new.flow ≡ self.old.flow }
        ensures polls { EmitPolls self.old.flow self.old.stage result self.new.stage }
        ensures one { OneEach SaysSent self.old.flow
            (held_by_emit self.old.stage) result (token_after_emit result self.new.stage) }
        ensures count { KeepsCount self.old.stage result self.new.stage }
        ensures refused { IfReady result SentRefusedIfDue }
    {
        self.call(waiter)
    }
}
