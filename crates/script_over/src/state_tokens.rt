//! The tokens of a state flow, which are its handles.

use crate::call::Call;
use crate::refused::{Outcome, answered, number_refused};
use crate::shared_tokens::next;
use crate::token::{Host, MakesTokens, Reply, Token, gone, left, not_asked};
use flow_law::{FlowFault, OutOfMemory};
use flow_script::{Answer, FlowStep};
use flow_shared::{Setter, StateReader};
use std::alloc::AllocError;
use std::sync::Wait;

/// Makes a call on the value of a state flow.
fn call_on_value<R: Wait>(setter: &mut Setter<i64>, rt: &R, step: FlowStep) -> Outcome {
    match step {
        FlowStep::Value => match setter.value(rt) {
            Ok(value) => answered(Answer::Got(value)),
            Err(OutOfMemory) => Err(AllocError),
        },
        FlowStep::Set(value) => {
            setter.set(rt, value);
            answered(Answer::Set)
        }
        FlowStep::CompareAndSet(expect, update) => {
            answered(Answer::Tested(setter.compare_and_set(rt, &expect, update)))
        }
        FlowStep::TryEmit(value) => answered(Answer::Tested(setter.try_emit(rt, value))),
        _ => answered(Answer::NoFlow),
    }
}

/// Makes a call of a setter that has no name.
fn call_setter<R: Wait>(setter: &mut Setter<i64>, rt: &R, step: FlowStep) -> Outcome {
    match step {
        FlowStep::Cache => match setter.replay_cache(rt) {
            Ok(values) => answered(Answer::Cached(values)),
            Err(OutOfMemory) => Err(AllocError),
        },
        FlowStep::Count => answered(Answer::Counted(setter.subscription_count(rt))),
        FlowStep::Reset => match setter.reset_replay_cache(rt) {
            Ok(()) => answered(Answer::Reset),
            Err(_unsupported) => answered(Answer::Refused(FlowFault::Unsupported)),
        },
        other => call_on_value(setter, rt, other),
    }
}

impl Token for Setter<i64> {
    fn call<R: Host>(self, rt: &R, call: Call) -> Reply<Self> {
        let mut setter = self;
        let Call::Step(step) = call else {
            return not_asked(setter);
        };
        let outcome = call_setter(&mut setter, rt, step);
        left(setter, outcome)
    }
}

/// A subscriber of a state flow, before and after it has subscribed.
#[derive(Drop)]
pub enum StateSubscriber {
    Fresh(Setter<i64>),
    Subscribed(StateReader<i64>),
}

impl Token for StateSubscriber {
    fn call<R: Host>(self, rt: &R, call: Call) -> Reply<Self> {
        match self {
            StateSubscriber::Fresh(mut setter) => match setter.subscribe(rt) {
                Ok(reader) => left(
                    StateSubscriber::Subscribed(reader),
                    answered(Answer::Subscribed),
                ),
                Err(error) => gone(number_refused(error)),
            },
            StateSubscriber::Subscribed(mut reader) => match call {
                Call::Step(FlowStep::Next(_)) => {
                    let outcome = next(&mut reader, rt);
                    left(StateSubscriber::Subscribed(reader), outcome)
                }
                Call::Step(FlowStep::Unsubscribe(_)) => {
                    let _setter = reader.unsubscribe(rt);
                    gone(answered(Answer::Tested(true)))
                }
                _ => not_asked(StateSubscriber::Subscribed(reader)),
            },
        }
    }
}

/// A state flow has no emission that waits.
impl MakesTokens for Setter<i64> {
    type Caller = Setter<i64>;

    type Subscriber = StateSubscriber;

    type Emission = Setter<i64>;

    fn caller<R: Wait>(&mut self, rt: &R) -> Setter<i64> {
        self.another(rt)
    }

    fn subscriber<R: Wait>(&mut self, rt: &R) -> StateSubscriber {
        StateSubscriber::Fresh(self.another(rt))
    }

    fn emission<R: Wait>(&mut self, rt: &R) -> Setter<i64> {
        self.another(rt)
    }
}
