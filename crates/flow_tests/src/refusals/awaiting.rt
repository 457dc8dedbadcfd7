//! Futures, and calls that do not wait for other callers, that are refused memory: for an emission that waits, and for
//! the copy of a value.
ghost use Rattle.std.specs.Prelude.{◌≡◌};

use crate::compare::compare;
use crate::refusals::flows::small;
use crate::values::boxed;
use flow_law::{Boxed, FlowFault};
use flow_refusals::Refusing;
use flow_shared::{EmitFuture, Emitted, NextFuture, Seat, Sent, SharedFlow, Subscription};
use futures::task::Poll;
use futures::test::MockTask;
use std::alloc::{Allocator, Global};
use std::process::Abort;
use std::sync::Wait;

type BoxFlow<A> = SharedFlow<Boxed<i64, A>, A>;

type BoxSeat<A> = Seat<Boxed<i64, A>, A>;

type BoxSubscription<A> = Subscription<Boxed<i64, A>, A>;

/// Emits 3, which waits. It is first refused, as a call and as a future, and each future asks for memory once.
fn emits<R: Abort, A: Allocator + Copy>(
    rt: &R,
    task: &MockTask,
    flow: &BoxFlow<A>,
    seat: BoxSeat<A>,
    value: Boxed<i64, A>,
    refusing: &Refusing<Global>,
)
    requires { seat.table_id ≡ flow.now.table_id }
{
    refusing.refuse(1);
    let Emitted::Refused(seat, value, fault) = flow.emit_now(seat, value) else {
        panic!(rt; "emit_now is not refused")
    };
    compare(rt, "emit_now", fault, FlowFault::OutOfMemory);
    refusing.refuse(1);
    let polled = task.poll(&mut EmitFuture::new(flow, seat, value));
    let Poll::Ready(Sent::Refused(seat, value, fault)) = polled else {
        panic!(rt; "EmitFuture is not refused")
    };
    compare(rt, "EmitFuture", fault, FlowFault::OutOfMemory);
    compare(rt, "handed back", *value.value(), 3);
    refusing.refuse(2);
    let polled = task.poll(&mut EmitFuture::new(flow, seat, value));
    compare(rt, "it waits", polled.is_pending(), true);
    compare(rt, "one request alone", refusing.is_waiting(), true);
}

/// Polls a future that receives, which is ready. Returns its subscription, and what it received.
fn poll_next<R: Abort, A: Allocator + Copy>(
    rt: &R,
    task: &MockTask,
    flow: &BoxFlow<A>,
    subscription: BoxSubscription<A>,
) -> (BoxSubscription<A>, Result<Boxed<i64, A>, FlowFault>)
    requires { subscription.token.table_id ≡ flow.now.table_id }
    ensures { result.0.token.table_id ≡ flow.entry.now.table_id }
{
    match task.poll(&mut NextFuture::new(flow, subscription)) {
        Poll::Ready(received) => received,
        Poll::Pending => panic!(rt; "it is done"),
    }
}

/// Receives 1. It is first refused, as a call and as a future, and each future asks for memory once.
fn receives<R: Abort, A: Allocator + Copy>(
    rt: &R,
    task: &MockTask,
    flow: &BoxFlow<A>,
    subscription: BoxSubscription<A>,
    refusing: &Refusing<Global>,
)
    requires { subscription.token.table_id ≡ flow.now.table_id }
{
    let mut subscription = subscription;
    refusing.refuse(1);
    let refused = flow.next_now(&mut subscription).err();
    compare(rt, "next_now", refused, Some(FlowFault::OutOfMemory));
    refusing.refuse(1);
    let (subscription, refused) = poll_next(rt, task, flow, subscription);
    let refused = refused.err();
    compare(rt, "NextFuture", refused, Some(FlowFault::OutOfMemory));
    refusing.refuse(2);
    let (_subscription, received) = poll_next(rt, task, flow, subscription);
    let received = received.map(|value| *value.value());
    compare(rt, "the first value", received, Ok(1));
    compare(rt, "one request alone", refusing.is_waiting(), true);
}

/// Returns a flow into which 1 and 2 were emitted, a seat of it, and a subscriber that has received neither.
fn full_flow<R: Wait + Abort, A: Allocator + Copy>(
    rt: &R,
    memory: A,
) -> (BoxFlow<A>, BoxSeat<A>, BoxSubscription<A>)
    ensures { (result.1.table_id ≡ result.0.table_id) ×
        (result.2.token.table_id ≡ result.0.table_id) }
{
    let made = SharedFlow::<Boxed<i64, A>, A>::new(memory, small());
    let (flow, mut seat) = made.expect(rt, "a flow");
    let subscribed = flow.subscribe(rt, &mut seat);
    let subscription = subscribed.expect(rt, "a subscription");
    let taken = flow.try_emit(rt, &mut seat, boxed(rt, memory, 1));
    compare(rt, "try_emit 1", taken, Ok(true));
    let taken = flow.try_emit(rt, &mut seat, boxed(rt, memory, 2));
    compare(rt, "try_emit 2", taken, Ok(true));
    (flow, seat, subscription)
}

/// Emits a third value, which waits, and receives the first one.
fn play<R: Wait + Abort, A: Allocator + Copy>(
    rt: &R,
    task: &MockTask,
    memory: A,
    refusing: &Refusing<Global>,
) {
    let (flow, seat, subscription) = full_flow(rt, memory);
    emits(rt, task, &flow, seat, boxed(rt, memory, 3), refusing);
    receives(rt, task, &flow, subscription, refusing);
}

#[test]
fn calls_at_once_and_futures_are_refused(rt: HostRuntime) {
    let memory = Refusing::new(rt.alloc());
    let task = MockTask::new(&rt).expect(&rt, "a task");
    play(&rt, &task, &memory, &memory);
}
