//! A subscriber of a shared flow that receives by futures: by turns by a `NextFuture`, which asks to be polled again,
//! and by a `ReceiveFuture`, which is woken.
ghost use Rattle.std.specs.Prelude.{◌≡◌, IfSome};
ghost use Rattle.std.specs.Arc.{arc_value};
ghost use Rattle.std.proofs.Props.{props};

use crate::call::Call;
use crate::polled::{Polled, new_task, poll_if_woken};
use crate::refused::{Outcome, answered, flow_refused};
use crate::said::Said;
use crate::seated::Seated;
use crate::shared_tokens::{received, waited};
use crate::token::{Host, Reply, Token, gone, left, not_asked};
use flow_core::SharedCore;
use flow_law::FlowFault;
use flow_script::{Answer, FlowStep};
use flow_shared::{NextFuture, Reader, ReceiveFuture, SharedFlow, Subscription};
use flow_sleepers::one_more_owner;
use futures::Future;
use futures::task::{Context, Poll};
use futures::test::MockTask;
use std::sync::Arc;

/// A subscription, and its flow.
#[derive(Drop)]
pub struct Subscribed<'a> {
    flow: &'a Arc<SharedFlow<i64>>,
    subscription: Subscription<i64>,
    /// Whether the next future is one that is woken.
    is_odd: bool,
    ghost of_flow: { subscription.token.table_id ≡ (arc_value flow.now).table_id },
}

/// A future that asks to be polled again, and its flow.
#[derive(Drop)]
pub struct AskingNext<'a> {
    flow: &'a Arc<SharedFlow<i64>>,
    future: NextFuture<'a, i64>,
    ghost of_flow: { future.flow.table_id ≡ (arc_value flow.now).table_id },
}

/// A future that is woken, and its flow.
#[derive(Drop)]
pub struct WokenNext<'a> {
    flow: &'a Arc<SharedFlow<i64>>,
    future: ReceiveFuture<SharedCore<i64>>,
    ghost of_flow: { IfSome future (λ reader.
        reader.flow.table_id ≡ (arc_value flow.now).table_id) } by { Prim.hlevel props },
}

/// A future of a subscriber.
#[derive(Drop)]
pub enum NextOf<'a> {
    Asks(AskingNext<'a>),
    Sleeps(WokenNext<'a>),
}

/// A subscriber, before and after it has subscribed, and while a future of it is pending.
#[derive(Drop)]
pub enum FutureSubscriber<'a> {
    Fresh(Seated<'a>),
    Subscribed(Subscribed<'a>),
    Pending(NextOf<'a>, MockTask),
}

/// A subscription, and what is said of what it has received.
type Given<'a> = (Subscribed<'a>, Outcome);

impl<'a> AskingNext<'a> {
    fn poll(self, cx: &mut Context<'_>) -> Result<Given<'a>, AskingNext<'a>> {
        let AskingNext { flow, mut future } = self;
        match future.poll(cx) {
            Poll::Ready((subscription, value)) => {
                let subscribed = Subscribed {
                    flow,
                    subscription,
                    is_odd: true,
                };
                Ok((subscribed, outcome_of(value)))
            }
            Poll::Pending => Err(AskingNext { flow, future }),
        }
    }

    fn into_subscribed(self) -> Option<Subscribed<'a>> {
        let AskingNext { flow, future } = self;
        let subscription = future.into_subscription()?;
        Some(Subscribed {
            flow,
            subscription,
            is_odd: true,
        })
    }
}

impl<'a> WokenNext<'a> {
    fn poll(self, cx: &mut Context<'_>) -> Result<Given<'a>, WokenNext<'a>> {
        let WokenNext { flow, mut future } = self;
        match future.poll(cx) {
            Poll::Ready((reader, value)) => {
                let subscribed = Subscribed {
                    flow,
                    subscription: reader.into_subscription(),
                    is_odd: false,
                };
                Ok((subscribed, waited(value)))
            }
            Poll::Pending => Err(WokenNext { flow, future }),
        }
    }

    fn into_subscribed(self) -> Option<Subscribed<'a>> {
        let WokenNext { flow, future } = self;
        let reader = future.into_reader()?;
        Some(Subscribed {
            flow,
            subscription: reader.into_subscription(),
            is_odd: false,
        })
    }
}

impl<'a> Polled for NextOf<'a> {
    type Output = Given<'a>;

    fn poll_once(self, cx: &mut Context<'_>) -> Result<Given<'a>, NextOf<'a>> {
        match self {
            NextOf::Asks(asking) => asking.poll(cx).map_err(NextOf::Asks),
            NextOf::Sleeps(sleeping) => sleeping.poll(cx).map_err(NextOf::Sleeps),
        }
    }
}

impl<'a> Subscribed<'a> {
    /// Makes a future that receives.
    fn into_next<R: Host>(self, rt: &R) -> NextOf<'a> {
        let Subscribed {
            flow,
            subscription,
            is_odd,
        } = self;
        if is_odd {
            let reader = Reader::new(one_more_owner(rt, flow), subscription);
            let future = reader.into_receive();
            NextOf::Sleeps(WokenNext { flow, future })
        } else {
            let future = NextFuture::new(flow, subscription);
            NextOf::Asks(AskingNext { flow, future })
        }
    }

    /// Ends the subscription.
    fn unsubscribe<R: Host>(self, rt: &R) {
        let Subscribed {
            flow,
            subscription,
            is_odd: _,
        } = self;
        let _seat = flow.unsubscribe(rt, subscription);
    }
}

impl<'a> Seated<'a> {
    /// Subscribes.
    fn subscribe<R: Host>(self, rt: &R) -> Result<Subscribed<'a>, Outcome> {
        let Seated {
            flow,
            mut seat,
            is_odd,
        } = self;
        match flow.subscribe(rt, &mut seat) {
            Ok(subscription) => Ok(Subscribed {
                flow,
                subscription,
                is_odd,
            }),
            Err(fault) => Err(flow_refused(fault).map(Said::Answer)),
        }
    }

    /// Subscribes with first values of its own.
    fn subscribe_with<R: Host>(self, rt: &R, first: Vec<i64>) -> Result<Subscribed<'a>, Outcome> {
        let Seated {
            flow,
            mut seat,
            is_odd,
        } = self;
        match flow.subscribe_with(rt, &mut seat, first) {
            Ok(subscription) => Ok(Subscribed {
                flow,
                subscription,
                is_odd,
            }),
            Err(refused) => Err(flow_refused(refused.fault).map(Said::Answer)),
        }
    }
}

/// Returns the outcome of a future that has received.
fn outcome_of(value: Result<i64, FlowFault>) -> Outcome {
    match value {
        Ok(value) => received(Some(value)),
        Err(fault) => flow_refused(fault).map(Said::Answer),
    }
}

/// Polls a future of a subscriber.
fn poll<'a>(next: NextOf<'a>, task: MockTask) -> Reply<FutureSubscriber<'a>> {
    match poll_if_woken(&task, next) {
        Ok((subscribed, outcome)) => left(FutureSubscriber::Subscribed(subscribed), outcome),
        Err(next) => left(FutureSubscriber::Pending(next, task), received(None)),
    }
}

/// Makes a future that receives, and polls it.
fn begin_next<'a, R: Host>(subscribed: Subscribed<'a>, rt: &R) -> Reply<FutureSubscriber<'a>> {
    match new_task(rt) {
        Ok(task) => poll(subscribed.into_next(rt), task),
        Err(refused) => gone(Err(refused)),
    }
}

/// Ends a subscription that a pending future has.
fn leave<'a, R: Host>(next: NextOf<'a>, rt: &R) -> Reply<FutureSubscriber<'a>> {
    let subscribed = match next {
        NextOf::Asks(asking) => asking.into_subscribed(),
        NextOf::Sleeps(sleeping) => sleeping.into_subscribed(),
    };
    match subscribed {
        Some(subscribed) => {
            subscribed.unsubscribe(rt);
            gone(answered(Answer::Tested(true)))
        }
        None => gone(answered(Answer::Tested(false))),
    }
}

/// Subscribes.
fn subscribe<'a, R: Host>(seated: Seated<'a>, rt: &R, call: Call) -> Reply<FutureSubscriber<'a>> {
    let made = match call {
        Call::SubscribeWith(first) => seated.subscribe_with(rt, first),
        Call::Step(_) => seated.subscribe(rt),
    };
    match made {
        Ok(subscribed) => left(
            FutureSubscriber::Subscribed(subscribed),
            answered(Answer::Subscribed),
        ),
        Err(outcome) => gone(outcome),
    }
}

/// Makes a call of a subscriber that has no pending future.
fn call_subscribed<'a, R: Host>(
    subscribed: Subscribed<'a>,
    rt: &R,
    call: Call,
) -> Reply<FutureSubscriber<'a>> {
    match call {
        Call::Step(FlowStep::Next(_)) => begin_next(subscribed, rt),
        Call::Step(FlowStep::Unsubscribe(_)) => {
            subscribed.unsubscribe(rt);
            gone(answered(Answer::Tested(true)))
        }
        _ => not_asked(FutureSubscriber::Subscribed(subscribed)),
    }
}

/// Makes a call of a subscriber that has a pending future.
fn call_pending<'a, R: Host>(
    next: NextOf<'a>,
    task: MockTask,
    rt: &R,
    call: Call,
) -> Reply<FutureSubscriber<'a>> {
    match call {
        Call::Step(FlowStep::Next(_)) => poll(next, task),
        Call::Step(FlowStep::Unsubscribe(_)) => leave(next, rt),
        _ => not_asked(FutureSubscriber::Pending(next, task)),
    }
}

impl<'a> Token for FutureSubscriber<'a> {
    fn call<R: Host>(self, rt: &R, call: Call) -> Reply<Self> {
        match self {
            FutureSubscriber::Fresh(seated) => subscribe(seated, rt, call),
            FutureSubscriber::Subscribed(subscribed) => call_subscribed(subscribed, rt, call),
            FutureSubscriber::Pending(next, task) => call_pending(next, task, rt, call),
        }
    }
}
