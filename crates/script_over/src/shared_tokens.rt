//! The tokens of a shared flow, which are its handles.

use crate::call::Call;
use crate::refused::{Outcome, answered, exhausted, number_refused};
use crate::token::{Host, MakesTokens, Reply, Token, gone, left, not_asked};
use flow_core::SubscriberCalls;
use flow_law::{Next, OutOfMemory};
use flow_script::{Answer, FlowStep};
use flow_shared::{BoundEmission, EmitAnswer, Emitter, FlowReader, PollAnswer, Reader};
use std::alloc::AllocError;
use std::sync::Wait;

/// Makes a call of an emitter that has no name.
pub fn call_emitter<R: Wait>(emitter: &mut Emitter<i64>, rt: &R, call: Call) -> Outcome {
    match call {
        Call::Step(FlowStep::TryEmit(value)) => match emitter.try_emit(rt, value) {
            Ok(taken) => answered(Answer::Tested(taken)),
            Err(rejected) => exhausted(rejected.error),
        },
        Call::Step(FlowStep::Cache) => match emitter.replay_cache(rt) {
            Ok(values) => answered(Answer::Cached(values)),
            Err(OutOfMemory) => Err(AllocError),
        },
        Call::Step(FlowStep::Count) => answered(Answer::Counted(emitter.subscription_count(rt))),
        Call::Step(FlowStep::Reset) => {
            emitter.reset_replay_cache(rt);
            answered(Answer::Reset)
        }
        _ => answered(Answer::NoFlow),
    }
}

impl Token for Emitter<i64> {
    fn call<R: Host>(self, rt: &R, call: Call) -> Reply<Self> {
        let mut emitter = self;
        let outcome = call_emitter(&mut emitter, rt, call);
        left(emitter, outcome)
    }
}

/// Returns the answer of a reader that took a value, or found none.
pub fn received(value: Option<i64>) -> Outcome {
    match value {
        Some(value) => answered(Answer::Received(Next::Value(value))),
        None => answered(Answer::Received(Next::Empty)),
    }
}

/// Returns the outcome of a future that has received.
pub fn waited(value: Result<i64, OutOfMemory>) -> Outcome {
    match value {
        Ok(value) => received(Some(value)),
        Err(OutOfMemory) => Err(AllocError),
    }
}

/// Takes the next value of a reader.
pub fn next<R: Wait, S: SubscriberCalls<Item = i64> + Drop>(
    reader: &mut FlowReader<S>,
    rt: &R,
) -> Outcome {
    match reader.next(rt) {
        Ok(value) => received(value),
        Err(OutOfMemory) => Err(AllocError),
    }
}

/// A subscriber of a shared flow, before and after it has subscribed.
#[derive(Drop)]
pub enum SharedSubscriber {
    Fresh(Emitter<i64>),
    Subscribed(Reader<i64>),
}

/// Subscribes, with first values of its own if the call has some.
fn subscribed<R: Wait>(
    emitter: &mut Emitter<i64>,
    rt: &R,
    call: Call,
) -> Result<Reader<i64>, Outcome> {
    match call {
        Call::SubscribeWith(first) => match emitter.subscribe_with(rt, first) {
            Ok(reader) => Ok(reader),
            Err(rejected) => Err(number_refused(rejected.error)),
        },
        Call::Step(_) => emitter.subscribe(rt).map_err(number_refused),
    }
}

impl Token for SharedSubscriber {
    fn call<R: Host>(self, rt: &R, call: Call) -> Reply<Self> {
        match self {
            SharedSubscriber::Fresh(mut emitter) => match subscribed(&mut emitter, rt, call) {
                Ok(reader) => left(
                    SharedSubscriber::Subscribed(reader),
                    answered(Answer::Subscribed),
                ),
                Err(outcome) => gone(outcome),
            },
            SharedSubscriber::Subscribed(mut reader) => match call {
                Call::Step(FlowStep::Next(_)) => {
                    let outcome = next(&mut reader, rt);
                    left(SharedSubscriber::Subscribed(reader), outcome)
                }
                Call::Step(FlowStep::Unsubscribe(_)) => {
                    let _emitter = reader.unsubscribe(rt);
                    gone(answered(Answer::Tested(true)))
                }
                _ => not_asked(SharedSubscriber::Subscribed(reader)),
            },
        }
    }
}

/// An emission into a shared flow, before and after it has been made.
#[derive(Drop)]
pub enum SharedEmission {
    Fresh(Emitter<i64>),
    Waiting(BoundEmission<i64>),
}

fn emit<R: Wait>(emitter: Emitter<i64>, rt: &R, value: i64) -> Reply<SharedEmission> {
    match emitter.emit(rt, value) {
        EmitAnswer::Done(_emitter) => gone(answered(Answer::Done)),
        EmitAnswer::Queued(emission) => {
            left(SharedEmission::Waiting(emission), answered(Answer::Queued))
        }
        EmitAnswer::Refused(_emitter, rejected) => gone(number_refused(rejected.error)),
    }
}

fn poll<R: Wait>(emission: BoundEmission<i64>, rt: &R) -> Reply<SharedEmission> {
    match emission.poll(rt) {
        PollAnswer::Done(_emitter) => gone(answered(Answer::Waits(false))),
        PollAnswer::Waiting(emission) => left(
            SharedEmission::Waiting(emission),
            answered(Answer::Waits(true)),
        ),
    }
}

/// Makes a call of an emission that waits.
fn call_waiting<R: Wait>(
    emission: BoundEmission<i64>,
    rt: &R,
    step: FlowStep,
) -> Reply<SharedEmission> {
    match step {
        FlowStep::Poll(_) => poll(emission, rt),
        FlowStep::Cancel(_) => {
            let (_emitter, was_waiting) = emission.cancel(rt);
            gone(answered(Answer::Tested(was_waiting)))
        }
        _ => not_asked(SharedEmission::Waiting(emission)),
    }
}

impl Token for SharedEmission {
    fn call<R: Host>(self, rt: &R, call: Call) -> Reply<Self> {
        let Call::Step(step) = call else {
            return not_asked(self);
        };
        match self {
            SharedEmission::Fresh(emitter) => match step {
                FlowStep::Emit(value) => emit(emitter, rt, value),
                _ => not_asked(SharedEmission::Fresh(emitter)),
            },
            SharedEmission::Waiting(emission) => call_waiting(emission, rt, step),
        }
    }
}

impl MakesTokens for Emitter<i64> {
    type Caller = Emitter<i64>;

    type Subscriber = SharedSubscriber;

    type Emission = SharedEmission;

    fn caller<R: Wait>(&mut self, rt: &R) -> Emitter<i64> {
        self.another(rt)
    }

    fn subscriber<R: Wait>(&mut self, rt: &R) -> SharedSubscriber {
        SharedSubscriber::Fresh(self.another(rt))
    }

    fn emission<R: Wait>(&mut self, rt: &R) -> SharedEmission {
        SharedEmission::Fresh(self.another(rt))
    }
}
