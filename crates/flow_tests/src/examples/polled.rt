//! Futures over a flow without a buffer, polled by hand and awaited.
ghost use Rattle.std.specs.Prelude.{◌≡◌};

use crate::awaiting::send;
use crate::compare::compare;
use crate::flows::{new_flow, new_subscription};
use crate::host::Host;
use flow_law::Config;
use flow_shared::{EmitFuture, NextFuture, Seat, Sent, SharedFlow, Subscription};
use futures::Future;
use futures::executor::block_on;
use futures::test::MockTask;
use std::sync::Wait;
use std::thread::join;

/// Polls a future. Checks that it is pending and asks to be polled again, and returns it.
fn asks_again<R: Host, F>(rt: &R, future: F) -> F
where
    F: Future<Output: Drop>,
    requires { F.can_poll future }
{
    let mut future = future;
    let task = MockTask::new(rt).expect(rt, "a task");
    compare(rt, "pending", task.poll(&mut future).is_pending(), true);
    compare(rt, "it asks to be polled again", task.is_woken(), true);
    future
}

/// Cancels an emission. Returns whether it still waited, or `None` if there was nothing to cancel.
fn cancelled<R: Wait>(rt: &R, emit: EmitFuture<'_, i64>) -> Option<bool> {
    match emit.cancel(rt) {
        Some((_seat, was_waiting)) => Some(was_waiting),
        None => None,
    }
}

/// The emission of 7 is pending, and still waits when it is cancelled. There is nothing to receive after that, and the
/// future returns its subscription.
#[test]
fn a_cancelled_emission_is_not_received(rt: HostRuntime) {
    let (flow, mut seat) = new_flow(&rt, rt.alloc(), Config::new());
    let _first = new_subscription(&rt, &flow, &mut seat);
    let own = flow.seat(&mut seat);
    let emit = asks_again(&rt, EmitFuture::new(&flow, own, 7));
    compare(&rt, "cancelled", cancelled(&rt, emit), Some(true));
    let subscription = new_subscription(&rt, &flow, &mut seat);
    let next = asks_again(&rt, NextFuture::new(&flow, subscription));
    let is_given_back = next.into_subscription().is_some();
    compare(&rt, "the subscription is given back", is_given_back, true);
}

/// Emits 7. Returns whether the emission was done.
fn sends<R: Host>(rt: &R, flow: &SharedFlow<i64>, seat: Seat<i64>) -> bool
    requires { seat.table_id ≡ flow.now.table_id }
{
    matches!(send(rt, flow, seat, 7), Ok(Sent::Done(_)))
}

/// Receives the next value. Returns `None` if memory is refused.
fn receives<R: Host>(rt: &R, flow: &SharedFlow<i64>, subscription: Subscription<i64>) -> Option<i64>
    requires { subscription.token.table_id ≡ flow.now.table_id }
{
    match block_on(rt, NextFuture::new(flow, subscription)) {
        Ok((_subscription, received)) => received.ok(),
        Err(_) => None,
    }
}

/// An emitter on one thread and a subscriber on another wait for each other.
#[test]
fn an_emission_and_its_receiver_are_awaited(rt: HostRuntime) {
    let (flow, mut seat) = new_flow(&rt, rt.alloc(), Config::new());
    let subscription = new_subscription(&rt, &flow, &mut seat);
    let done = join(
        &rt,
        || sends(&rt, &flow, seat),
        || receives(&rt, &flow, subscription),
    );
    compare(&rt, "sent and received", done, (true, Some(7)));
}
