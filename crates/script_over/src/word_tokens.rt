//! The tokens of a state flow without a lock, which are its handles. The flow has no replay cache, and its `try_emit` is
//! `set`, which takes every value.

use crate::call::Call;
use crate::refused::{Outcome, answered, exhausted};
use crate::said::Said;
use crate::shared_tokens::received;
use crate::token::{Host, MakesTokens, Reply, Token, gone, left, not_asked};
use flow_script::{Answer, FlowStep};
use flow_word::{WordReader, WordSetter};
use std::sync::Wait;

/// Makes a call of a setter that has no name.
fn call_setter(setter: &mut WordSetter<i64>, step: FlowStep) -> Outcome {
    match step {
        FlowStep::Value => answered(Answer::Got(setter.value())),
        FlowStep::Set(value) => {
            setter.set(value);
            answered(Answer::Set)
        }
        FlowStep::CompareAndSet(expect, update) => {
            answered(Answer::Tested(setter.compare_and_set(expect, update)))
        }
        FlowStep::Count => answered(Answer::Counted(setter.subscription_count())),
        FlowStep::TryEmit(value) => {
            setter.set(value);
            answered(Answer::Tested(true))
        }
        FlowStep::Cache => Ok(Said::NoCall("cache")),
        FlowStep::Reset => Ok(Said::NoCall("reset")),
        _ => answered(Answer::NoFlow),
    }
}

impl Token for WordSetter<i64> {
    fn call<R: Host>(self, _rt: &R, call: Call) -> Reply<Self> {
        let mut setter = self;
        let Call::Step(step) = call else {
            return not_asked(setter);
        };
        let outcome = call_setter(&mut setter, step);
        left(setter, outcome)
    }
}

/// A subscriber of a state flow without a lock, before and after it has subscribed.
#[derive(Drop)]
pub enum WordSubscriber {
    Fresh(WordSetter<i64>),
    Subscribed(WordReader<i64>),
}

impl Token for WordSubscriber {
    fn call<R: Host>(self, rt: &R, call: Call) -> Reply<Self> {
        match self {
            WordSubscriber::Fresh(mut setter) => match setter.subscribe(rt) {
                Ok(reader) => left(
                    WordSubscriber::Subscribed(reader),
                    answered(Answer::Subscribed),
                ),
                Err(error) => gone(exhausted(error)),
            },
            WordSubscriber::Subscribed(mut reader) => match call {
                Call::Step(FlowStep::Next(_)) => {
                    let outcome = received(reader.next());
                    left(WordSubscriber::Subscribed(reader), outcome)
                }
                Call::Step(FlowStep::Unsubscribe(_)) => {
                    let _setter = reader.unsubscribe();
                    gone(answered(Answer::Tested(true)))
                }
                _ => not_asked(WordSubscriber::Subscribed(reader)),
            },
        }
    }
}

/// A state flow has no emission that waits.
impl MakesTokens for WordSetter<i64> {
    type Caller = WordSetter<i64>;

    type Subscriber = WordSubscriber;

    type Emission = WordSetter<i64>;

    fn caller<R: Wait>(&mut self, rt: &R) -> WordSetter<i64> {
        self.another(rt)
    }

    fn subscriber<R: Wait>(&mut self, rt: &R) -> WordSubscriber {
        WordSubscriber::Fresh(self.another(rt))
    }

    fn emission<R: Wait>(&mut self, rt: &R) -> WordSetter<i64> {
        self.another(rt)
    }
}
