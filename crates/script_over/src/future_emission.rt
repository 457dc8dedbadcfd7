//! An emission into a shared flow, as a future. Emissions are by turns an `EmitFuture`, which asks to be polled again,
//! and a `SendFuture`, which is woken.

use crate::call::Call;
use crate::polled::{Polled, new_task, poll_if_woken};
use crate::refused::{Outcome, answered, flow_refused, number_refused};
use crate::said::Said;
use crate::seated::Seated;
use crate::token::{Host, Reply, Token, gone, left, not_asked};
use flow_script::{Answer, FlowStep};
use flow_shared::{EmitFuture, SendFuture, Sent};
use futures::Future;
use futures::task::{Context, Poll};
use futures::test::MockTask;

/// A future that emits.
#[derive(Drop)]
pub enum EmissionFuture<'a> {
    Asks(EmitFuture<'a, i64>),
    Sleeps(SendFuture<i64>),
}

/// An emission, before and after its first poll.
#[derive(Drop)]
pub enum FutureEmission<'a> {
    Fresh(Seated<'a>),
    Pending(EmissionFuture<'a>, MockTask),
}

impl<'a> Polled for EmissionFuture<'a> {
    /// Why the value was refused, if it was.
    type Output = Result<(), Outcome>;

    fn poll_once(self, cx: &mut Context<'_>) -> Result<Result<(), Outcome>, EmissionFuture<'a>> {
        match self {
            EmissionFuture::Asks(mut future) => match future.poll(cx) {
                Poll::Ready(Sent::Done(_seat)) => Ok(Ok(())),
                Poll::Ready(Sent::Refused(_seat, _value, fault)) => {
                    Ok(Err(flow_refused(fault).map(Said::Answer)))
                }
                Poll::Pending => Err(EmissionFuture::Asks(future)),
            },
            EmissionFuture::Sleeps(mut future) => match future.poll(cx) {
                Poll::Ready((_emitter, sent)) => {
                    Ok(sent.map_err(|rejected| number_refused(rejected.error)))
                }
                Poll::Pending => Err(EmissionFuture::Sleeps(future)),
            },
        }
    }
}

/// Polls an emission, with the answers if it is done and if it waits.
fn poll<'a>(
    emitting: EmissionFuture<'a>,
    task: MockTask,
    done: Answer,
    waits: Answer,
) -> Reply<FutureEmission<'a>> {
    match poll_if_woken(&task, emitting) {
        Ok(Ok(())) => gone(answered(done)),
        Ok(Err(refused)) => gone(refused),
        Err(emitting) => left(FutureEmission::Pending(emitting, task), answered(waits)),
    }
}

/// Makes a future that emits a value, and polls it.
fn emit<'a, R: Host>(seated: Seated<'a>, rt: &R, value: i64) -> Reply<FutureEmission<'a>> {
    match new_task(rt) {
        Ok(task) => poll(
            seated.into_emitting(rt, value),
            task,
            Answer::Done,
            Answer::Queued,
        ),
        Err(refused) => gone(Err(refused)),
    }
}

/// Cancels an emission. Returns whether it still waited.
fn cancel<R: Host>(emitting: EmissionFuture<'_>, rt: &R) -> bool {
    match emitting {
        EmissionFuture::Asks(future) => match future.cancel(rt) {
            Some((_seat, was_waiting)) => was_waiting,
            None => false,
        },
        EmissionFuture::Sleeps(future) => match future.cancel(rt) {
            Some((_emitter, was_waiting)) => was_waiting,
            None => false,
        },
    }
}

/// Makes a call of an emission that waits.
fn call_pending<'a, R: Host>(
    emitting: EmissionFuture<'a>,
    task: MockTask,
    rt: &R,
    step: FlowStep,
) -> Reply<FutureEmission<'a>> {
    match step {
        FlowStep::Poll(_) => poll(emitting, task, Answer::Waits(false), Answer::Waits(true)),
        FlowStep::Cancel(_) => gone(answered(Answer::Tested(cancel(emitting, rt)))),
        _ => not_asked(FutureEmission::Pending(emitting, task)),
    }
}

impl<'a> Token for FutureEmission<'a> {
    fn call<R: Host>(self, rt: &R, call: Call) -> Reply<Self> {
        let Call::Step(step) = call else {
            return not_asked(self);
        };
        match self {
            FutureEmission::Fresh(seated) => match step {
                FlowStep::Emit(value) => emit(seated, rt, value),
                _ => not_asked(FutureEmission::Fresh(seated)),
            },
            FutureEmission::Pending(emitting, task) => call_pending(emitting, task, rt, step),
        }
    }
}
