//! Futures of an emitter and of readers of one shared flow, on one thread, and a flow that ends while a task sleeps.
ghost use Rattle.std.specs.Prelude.{◌≡◌};

use crate::compare::compare;
use crate::flows::{new_emitter, new_owned_flow, new_reader};
use crate::handle_calls::next;
use crate::host::Host;
use flow_core::SharedCore;
use flow_law::{Config, OutOfMemory};
use flow_shared::{Emitter, Reader, ReceiveFuture};
use futures::Future;
use futures::future::{ready, select};
use futures::task::Poll;
use futures::test::MockTask;
use std::process::Abort;
use std::sync::{Arc, Wait};

/// Polls a future once, and drops it. Returns whether it waited.
fn poll_and_drop<R: Host, F: Future<Output: Drop> + Drop>(rt: &R, mut future: F) -> bool
    requires { F.can_poll future }
{
    let task = MockTask::new(rt).expect(rt, "a task");
    task.poll(&mut future).is_pending()
}

/// Polls a future that sends this value, and drops it. Returns whether it waited.
fn poll_send<R: Host>(rt: &R, emitter: &mut Emitter<i64>, value: i64) -> bool {
    poll_and_drop(rt, emitter.another(rt).into_send(value))
}

/// Returns a future of a new reader, which receives a value.
fn new_future<R: Wait + Abort>(rt: &R, emitter: &mut Emitter<i64>) -> ReceiveFuture<SharedCore<i64>>
    ensures { emitter.new.flow ≡ emitter.old.flow }
{
    new_reader(rt, emitter).into_receive()
}

/// Returns what was received, if the future did not wait.
fn received(poll: Poll<(Reader<i64>, Result<i64, OutOfMemory>)>) -> Option<i64> {
    match poll {
        Poll::Ready((_reader, received)) => received.ok(),
        Poll::Pending => None,
    }
}

/// Polls a future of a new reader, and drops it. Returns what it received.
fn poll_receive<R: Host>(rt: &R, emitter: &mut Emitter<i64>) -> Option<i64> {
    let task = MockTask::new(rt).expect(rt, "a task");
    received(task.poll(&mut new_future(rt, emitter)))
}

/// Drops a future of a new reader before it is polled, since another future wins a `select`. Returns whether that one
/// won at once.
fn lose_select<R: Host>(rt: &R, emitter: &mut Emitter<i64>) -> bool {
    !poll_and_drop(rt, select(ready(7), new_future(rt, emitter)))
}

/// A future that waits for a value ends its subscription when it is dropped, after a poll, or before its first poll if
/// it loses a `select`. A value that one future sends is received by another one.
#[test]
fn a_dropped_future_ends_its_subscription(rt: HostRuntime) {
    let mut emitter = new_emitter(&rt, rt.alloc(), Config::new().replay(1));
    let mut reader = new_reader(&rt, &mut emitter);
    compare(&rt, "no value", poll_receive(&rt, &mut emitter), None);
    compare(&rt, "subscribers", emitter.subscription_count(&rt), 1);
    compare(&rt, "it loses", lose_select(&rt, &mut emitter), true);
    compare(&rt, "subscribers", emitter.subscription_count(&rt), 1);
    compare(&rt, "6 waits", poll_send(&rt, &mut emitter, 6), false);
    compare(&rt, "a value", poll_receive(&rt, &mut emitter), Some(6));
    compare(&rt, "next", next(&rt, &mut reader), Ok(Some(6)));
}

/// Without a buffer no reader receives the value of a dropped future.
#[test]
fn a_dropped_future_that_sends_is_cancelled(rt: HostRuntime) {
    let mut emitter = new_emitter(&rt, rt.alloc(), Config::new());
    let mut reader = new_reader(&rt, &mut emitter);
    compare(&rt, "5 waits", poll_send(&rt, &mut emitter, 5), true);
    compare(&rt, "next", next(&rt, &mut reader), Ok(None));
}

/// Polls a future, and takes the subscription out of it; its waker stays in the flow. Returns whether the future was
/// pending and still had its reader.
fn poll_and_leave(task: &MockTask, mut future: ReceiveFuture<SharedCore<i64>>) -> bool {
    let waits = task.poll(&mut future).is_pending();
    let subscription = future
        .into_reader()
        .map(|reader| reader.into_subscription());
    waits & subscription.is_some()
}

/// Leaves the waker of a new task in the flow, and returns the task.
fn leave_waker<R: Host>(rt: &R, emitter: &mut Emitter<i64>) -> MockTask
    ensures { emitter.new.flow ≡ emitter.old.flow }
{
    let task = MockTask::new(rt).expect(rt, "a task");
    let future = new_future(rt, emitter);
    compare(rt, "the future waits", poll_and_leave(&task, future), true);
    compare(rt, "woken before the end", task.is_woken(), false);
    task
}

/// A flow that is closed wakes the tasks whose wakers it has.
#[test]
fn the_end_of_a_flow_wakes_its_sleepers(rt: HostRuntime) {
    let (flow, mut emitter) = new_owned_flow(&rt, rt.alloc(), Config::new());
    let task = leave_waker(&rt, &mut emitter);
    let seat = emitter.into_seat();
    let flow = Arc::into_inner(flow).expect(&rt, "no other owner");
    compare(&rt, "woken by its handles", task.is_woken(), false);
    compare(&rt, "the flow is closed", flow.close(seat).is_some(), true);
    compare(&rt, "woken by the end", task.is_woken(), true);
}

/// The last handle drops its flow, which wakes these tasks too.
#[test]
fn the_last_handle_drops_its_flow(rt: HostRuntime) {
    let mut emitter = new_emitter(&rt, rt.alloc(), Config::new());
    let task = leave_waker(&rt, &mut emitter);
    let last = emitter.another(&rt);
    drop(emitter);
    compare(&rt, "woken before the last", task.is_woken(), false);
    drop(last);
    compare(&rt, "woken by the last", task.is_woken(), true);
}
