//! A subscriber of a state flow that receives by the future of `into_changed`.

use crate::call::Call;
use crate::polled::{Polled, new_task, poll_if_woken};
use crate::refused::{answered, number_refused};
use crate::shared_tokens::{received, waited};
use crate::token::{Host, MakesTokens, Reply, Token, gone, left, not_asked};
use flow_core::StateCore;
use flow_law::OutOfMemory;
use flow_script::{Answer, FlowStep};
use flow_shared::{ReceiveFuture, Setter, StateReader};
use futures::Future;
use futures::task::{Context, Poll};
use futures::test::MockTask;
use std::sync::Wait;

/// Makes the tokens of a state flow whose subscribers receive by futures.
#[derive(Drop)]
pub struct ChangedMaker {
    pub setter: Setter<i64>,
}

/// A future of a subscriber.
#[derive(Drop)]
pub struct Changed {
    future: ReceiveFuture<StateCore<i64>>,
}

/// A subscriber, before and after it has subscribed, and while its future is pending.
#[derive(Drop)]
pub enum ChangedSubscriber {
    Fresh(Setter<i64>),
    Subscribed(StateReader<i64>),
    Pending(Changed, MockTask),
}

impl Polled for Changed {
    type Output = (StateReader<i64>, Result<i64, OutOfMemory>);

    fn poll_once(self, cx: &mut Context<'_>) -> Result<Self::Output, Changed> {
        let Changed { mut future } = self;
        match future.poll(cx) {
            Poll::Ready(given) => Ok(given),
            Poll::Pending => Err(Changed { future }),
        }
    }
}

/// Polls a future of a subscriber.
fn poll(changed: Changed, task: MockTask) -> Reply<ChangedSubscriber> {
    match poll_if_woken(&task, changed) {
        Ok((reader, value)) => left(ChangedSubscriber::Subscribed(reader), waited(value)),
        Err(changed) => left(ChangedSubscriber::Pending(changed, task), received(None)),
    }
}

/// Makes a future that receives, and polls it.
fn begin_next<R: Host>(reader: StateReader<i64>, rt: &R) -> Reply<ChangedSubscriber> {
    match new_task(rt) {
        Ok(task) => {
            let future = reader.into_changed();
            poll(Changed { future }, task)
        }
        Err(refused) => gone(Err(refused)),
    }
}

/// Ends a subscription.
fn leave<R: Host>(reader: StateReader<i64>, rt: &R) -> Reply<ChangedSubscriber> {
    let _setter = reader.unsubscribe(rt);
    gone(answered(Answer::Tested(true)))
}

/// Ends a subscription that a pending future has.
fn leave_pending<R: Host>(changed: Changed, rt: &R) -> Reply<ChangedSubscriber> {
    let Changed { future } = changed;
    match future.into_reader() {
        Some(reader) => leave(reader, rt),
        None => gone(answered(Answer::Tested(false))),
    }
}

/// Subscribes.
fn subscribe<R: Host>(setter: Setter<i64>, rt: &R) -> Reply<ChangedSubscriber> {
    let mut setter = setter;
    match setter.subscribe(rt) {
        Ok(reader) => left(
            ChangedSubscriber::Subscribed(reader),
            answered(Answer::Subscribed),
        ),
        Err(error) => gone(number_refused(error)),
    }
}

/// Makes a call of a subscriber that has no pending future.
fn call_subscribed<R: Host>(
    reader: StateReader<i64>,
    rt: &R,
    call: Call,
) -> Reply<ChangedSubscriber> {
    match call {
        Call::Step(FlowStep::Next(_)) => begin_next(reader, rt),
        Call::Step(FlowStep::Unsubscribe(_)) => leave(reader, rt),
        _ => not_asked(ChangedSubscriber::Subscribed(reader)),
    }
}

/// Makes a call of a subscriber that has a pending future.
fn call_pending<R: Host>(
    changed: Changed,
    task: MockTask,
    rt: &R,
    call: Call,
) -> Reply<ChangedSubscriber> {
    match call {
        Call::Step(FlowStep::Next(_)) => poll(changed, task),
        Call::Step(FlowStep::Unsubscribe(_)) => leave_pending(changed, rt),
        _ => not_asked(ChangedSubscriber::Pending(changed, task)),
    }
}

impl Token for ChangedSubscriber {
    fn call<R: Host>(self, rt: &R, call: Call) -> Reply<Self> {
        match self {
            ChangedSubscriber::Fresh(setter) => subscribe(setter, rt),
            ChangedSubscriber::Subscribed(reader) => call_subscribed(reader, rt, call),
            ChangedSubscriber::Pending(changed, task) => call_pending(changed, task, rt, call),
        }
    }
}

/// A state flow has no emission that waits.
impl MakesTokens for ChangedMaker {
    type Caller = Setter<i64>;

    type Subscriber = ChangedSubscriber;

    type Emission = Setter<i64>;

    fn caller<R: Wait>(&mut self, rt: &R) -> Setter<i64> {
        self.setter.another(rt)
    }

    fn subscriber<R: Wait>(&mut self, rt: &R) -> ChangedSubscriber {
        ChangedSubscriber::Fresh(self.setter.another(rt))
    }

    fn emission<R: Wait>(&mut self, rt: &R) -> Setter<i64> {
        self.setter.another(rt)
    }
}
