//! The tokens of a shared flow that is read without a lock, which are its handles.

use crate::call::Call;
use crate::refused::{Outcome, answered, exhausted, number_refused};
use crate::shared_tokens::received;
use crate::token::{Host, MakesTokens, Reply, Token, gone, left, not_asked};
use flow_law::OutOfMemory;
use flow_script::{Answer, FlowStep};
use flow_word_shared::{WordEmitter, WordFlowReader};
use std::alloc::AllocError;
use std::sync::Wait;

/// Emits a value. The emission never waits.
fn emit<R: Wait>(emitter: &mut WordEmitter<i64>, rt: &R, value: i64) -> Outcome {
    match emitter.emit(rt, value) {
        Ok(()) => answered(Answer::Done),
        Err(rejected) => exhausted(rejected.error),
    }
}

/// Makes a call of an emitter that has no name.
fn call_emitter<R: Wait>(emitter: &mut WordEmitter<i64>, rt: &R, step: FlowStep) -> Outcome {
    match step {
        FlowStep::TryEmit(value) => match emitter.try_emit(rt, value) {
            Ok(taken) => answered(Answer::Tested(taken)),
            Err(rejected) => exhausted(rejected.error),
        },
        FlowStep::Cache => match emitter.replay_cache(rt) {
            Ok(values) => answered(Answer::Cached(values)),
            Err(OutOfMemory) => Err(AllocError),
        },
        FlowStep::Count => answered(Answer::Counted(emitter.subscription_count())),
        FlowStep::Reset => {
            emitter.reset_replay_cache(rt);
            answered(Answer::Reset)
        }
        _ => answered(Answer::NoFlow),
    }
}

/// An emitter that has emitted for a name is gone: no emission waits, so none is polled or cancelled.
impl Token for WordEmitter<i64> {
    fn call<R: Host>(self, rt: &R, call: Call) -> Reply<Self> {
        let mut emitter = self;
        match call {
            Call::Step(FlowStep::Emit(value)) => gone(emit(&mut emitter, rt, value)),
            Call::Step(step) => {
                let outcome = call_emitter(&mut emitter, rt, step);
                left(emitter, outcome)
            }
            Call::SubscribeWith(_) => not_asked(emitter),
        }
    }
}

/// A subscriber of a shared flow that is read without a lock, before and after it has subscribed.
#[derive(Drop)]
pub enum WordFlowSubscriber {
    Fresh(WordEmitter<i64>),
    Subscribed(WordFlowReader<i64>),
}

impl Token for WordFlowSubscriber {
    fn call<R: Host>(self, rt: &R, call: Call) -> Reply<Self> {
        match self {
            WordFlowSubscriber::Fresh(mut emitter) => match emitter.subscribe(rt) {
                Ok(reader) => left(
                    WordFlowSubscriber::Subscribed(reader),
                    answered(Answer::Subscribed),
                ),
                Err(error) => gone(number_refused(error)),
            },
            WordFlowSubscriber::Subscribed(mut reader) => match call {
                Call::Step(FlowStep::Next(_)) => {
                    let outcome = received(reader.next(rt));
                    left(WordFlowSubscriber::Subscribed(reader), outcome)
                }
                Call::Step(FlowStep::Unsubscribe(_)) => {
                    let _emitter = reader.unsubscribe();
                    gone(answered(Answer::Tested(true)))
                }
                _ => not_asked(WordFlowSubscriber::Subscribed(reader)),
            },
        }
    }
}

impl MakesTokens for WordEmitter<i64> {
    type Caller = WordEmitter<i64>;

    type Subscriber = WordFlowSubscriber;

    type Emission = WordEmitter<i64>;

    fn caller<R: Wait>(&mut self, rt: &R) -> WordEmitter<i64> {
        self.another(rt)
    }

    fn subscriber<R: Wait>(&mut self, rt: &R) -> WordFlowSubscriber {
        WordFlowSubscriber::Fresh(self.another(rt))
    }

    fn emission<R: Wait>(&mut self, rt: &R) -> WordEmitter<i64> {
        self.another(rt)
    }
}
