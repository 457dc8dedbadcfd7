//! Emitting a value through an emitter, as a future that is woken.
ghost use Rattle.std.specs.Prelude.{◌≡◌, ⊤, Some};
ghost use Rattle.std.specs.Arc.{arc_value};
ghost use Rattle.futures.specs.Poll.{IfReady, OnPending};
ghost use Rattle.futures.specs.Task.{Covers, Keeps};
ghost use Rattle.flow_shared.specs.declared.emit_future.EmitStage.TheVariants.{Fresh};
ghost use Rattle.flow_shared.specs.EmitFutures.{Emitting, emitting_at, HoldsOf, SentRefusedIfDue, sent_token};
ghost use Rattle.flow_shared.specs.SendFutures.{sent_by, PollsSend, SendsOnce, KeepsSendCount, GivesSend, SendCancels};

use crate::dropping::TRIES;
use crate::emit_future::{EmitFuture, EmitStage, Sent};
use crate::handles::{Emitter, FlowCaller, number_error};
use crate::shared::SharedFlow;
use flow_core::SharedCore;
use flow_law::{FlowValue, NumberError, Rejected};
use futures::Future;
use futures::task::{Context, Poll};
use std::alloc::{Allocator, Global};
use std::marker::Model;
use std::sync::{Arc, Wait};

/// An emission of a future, and its flow.
struct Sending<T: FlowValue, A: Allocator + Copy> {
    flow: Arc<SharedFlow<T, A>, A>,
    stage: EmitStage<T, A>,
}

impl<T: FlowValue, A: Allocator + Copy> Drop for Sending<T, A> {
    fn drop(self) {
        let Self { flow, stage } = self;
        if let EmitStage::Waiting(emission) = stage {
            let _ended = flow.cancel_within(emission, TRIES);
        }
    }
}

impl<T: FlowValue, A: Allocator + Copy> Sending<T, A> {
    fn into_parts(self) -> (Arc<SharedFlow<T, A>, A>, EmitStage<T, A>)
        ensures flow { arc_value result.0 ≡ self.flow }
        ensures stage { result.1 ≡ self.stage }
        ensures at { HoldsOf self.flow.table_id result.1 }
    {
        let Sending { flow, stage } = self;
        (flow, stage)
    }
}

impl<T: FlowValue, A: Allocator + Copy> Model for Sending<T, A> {
    ghost use Rattle.std.specs.Arc.{arc_value};
    ghost use Rattle.flow_shared.specs.EmitFutures.{Emitting, emitting_at, HoldsOf};

    ghost Value = { Emitting T A };

    ghost view = { λ s. emitting_at (arc_value s.flow) s.stage };

    ghost invariant = { λ s. HoldsOf (arc_value s.flow).table_id s.stage };
}

/// What a `SendFuture` gives: the emitter, and the value if it was refused.
pub type SendAnswer<T, A = Global> = (Emitter<T, A>, Result<(), Rejected<T, NumberError>>);

/// A future that emits a value once, and is ready when the emitter need not wait any more (`MutableSharedFlow.emit`,
/// which suspends). Its output is the emitter, with the value if the flow refused it: `Exhausted` if the flow has issued
/// as many numbers as its limit allows, or `OutOfMemory`. Nothing was emitted then.
///
/// A poll makes one call of the flow that does not wait: `emit`, and later `poll` of the emission. If the emission
/// waits, it leaves the task's waker inside the flow; the call that ends the emission removes it, and wakes the task.
/// If another caller is inside the flow, or memory for the waker is refused, the task asks to be polled again. After
/// `Ready` a poll is pending and calls nothing.
///
/// # Dropping
/// Dropping the future cancels its emission if that waits, as dropping a `BoundEmission` does, and drops its emitter.
/// Call `cancel` to get the emitter back.
#[derive(Drop)]
pub struct SendFuture<T: FlowValue, A: Allocator + Copy = Global> {
    sending: Option<Sending<T, A>>,
}

impl<T: FlowValue, A: Allocator + Copy> Model for SendFuture<T, A> {
    ghost use Rattle.std.specs.Prelude.{Option};
    ghost use Rattle.flow_shared.specs.EmitFutures.{Emitting};

    ghost Value = { Option (Emitting T A) };

    ghost view = { λ f. f.sending };
}

impl<T: FlowValue, A: Allocator + Copy> Emitter<T, A> {
    /// Returns a future that emits a value, and is woken when its emission is done. Nothing is emitted before it is
    /// polled.
    pub fn into_send(self, value: T) -> SendFuture<T, A>
        ensures { result ≡ Some (emitting_at self.flow (Fresh self.token value)) }
    {
        let (flow, seat) = self.into_parts();
        let stage = EmitStage::Fresh(seat, value);
        SendFuture {
            sending: Some(Sending { flow, stage }),
        }
    }
}

/// Returns what a future gives whose emission has ended.
fn answer<T: FlowValue, A: Allocator + Copy>(
    flow: Arc<SharedFlow<T, A>, A>,
    sent: Sent<T, A>,
) -> SendAnswer<T, A>
    requires at { (sent_token sent).table_id ≡ (arc_value flow).table_id }
    requires due { SentRefusedIfDue sent }
    ensures flow { result.0.flow ≡ arc_value flow }
    ensures sent { sent_by result ≡ sent }
{
    match sent {
        Sent::Done(seat) => (FlowCaller::new(flow, seat), Ok(())),
        Sent::Refused(seat, value, fault) => {
            let error = number_error(fault);
            (FlowCaller::new(flow, seat), Err(Rejected { value, error }))
        }
    }
}

impl<T: FlowValue, A: Allocator + Copy> SendFuture<T, A> {
    /// Ends the future, and returns its emitter, with `true` if the value was not emitted yet (after no polls, or only
    /// busy ones) or its emission still waited. Returns `None` after `Ready`, when the output had the emitter.
    ///
    /// A value that was not emitted, or is queued, is dropped. An offered one is withdrawn from the subscribers that
    /// have not received it.
    pub fn cancel<R: Wait>(self, rt: &R) -> Option<(Emitter<T, A>, bool)>
        ensures { SendCancels self result }
    {
        let SendFuture { sending } = self;
        let (flow, stage) = sending?.into_parts();
        let (seat, waited) = match stage {
            EmitStage::Fresh(seat, _value) => (seat, true),
            EmitStage::Waiting(emission) => flow.cancel(rt, emission),
            EmitStage::Ended => return None,
        };
        Some((FlowCaller::new(flow, seat), waited))
    }
}

impl<T: FlowValue, A: Allocator + Copy> Future for SendFuture<T, A> {
    type Output = SendAnswer<T, A>;

    ghost gives = { λ f given. GivesSend f given };

    fn poll(&mut self, cx: &mut Context<'_>) -> Poll<SendAnswer<T, A>>
        ensures polls { PollsSend self.old result self.new }
        ensures one { SendsOnce self.old result self.new }
        ensures count { KeepsSendCount self.old result self.new }
        // The clauses of the trait. A pending poll has left its waker, or asked to be polled again (`registered`).
        ensures value { IfReady result (GivesSend self.old) }
        ensures again { OnPending result ⊤ }
        ensures same { OnPending result ((x : _) → GivesSend self.new x → GivesSend self.old x) }
        ensures registered { OnPending result (Covers cx.new (λ _. ⊥)) }
        ensures kept { Keeps cx.old cx.new }
    {
        let (flow, stage) = match self.sending.take() {
            Some(sending) => sending.into_parts(),
            None => return cx.yield_now(),
        };
        let mut emission = EmitFuture::at(&*flow, stage);
        let polled = emission.advance(cx);
        let stage = emission.into_stage();
        match polled {
            Poll::Ready(sent) => Poll::Ready(answer(flow, sent)),
            Poll::Pending => {
                self.sending = Some(Sending { flow, stage });
                Poll::Pending
            }
        }
    }
}
