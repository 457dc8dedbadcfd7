//! Two threads that set a state flow at once, or emit one after the other.
ghost use Rattle.std.specs.Prelude.{◌≡◌};

use crate::compare::{compare, compare_any};
use crate::flows::{new_flow, new_state_flow, new_subscription};
use crate::host::Host;
use crate::reading::set_and_read;
use flow_law::Next::{Empty, Value};
use flow_law::{Config, Next};
use flow_shared::{Seat, SharedFlow, StateFlow, StateSeat, Subscription};
use std::process::Abort;
use std::sync::Wait;
use std::thread::join;

/// Sets a value, and reads the current one: a value that one of the two threads set.
fn reads_what_was_set<R: Wait + Abort>(
    rt: &R,
    flow: &StateFlow<i64>,
    seat: &mut StateSeat<i64>,
    value: i64,
)
    requires { seat.old.table_id ≡ flow.now.table_id }
{
    let found = set_and_read(rt, flow, seat, value);
    compare_any(rt, "what a thread read", found, &[Ok(9), Ok(4)]);
}

/// Sets 9 and 4 from two threads at once. Checks that each thread reads one of these.
fn set_from_two_threads<R: Host>(rt: &R, flow: &StateFlow<i64>, seat: &mut StateSeat<i64>)
    requires { seat.old.table_id ≡ flow.now.table_id }
{
    let mut other = flow.seat(seat);
    let ((), ()) = join(
        rt,
        || reads_what_was_set(rt, flow, seat, 9),
        || reads_what_was_set(rt, flow, &mut other, 4),
    );
}

/// The core of a closed flow has the value that was set last.
#[test]
fn a_thread_reads_what_it_set_or_what_another_set(rt: HostRuntime) {
    let (flow, mut seat) = new_state_flow(&rt, rt.alloc(), 0, u64::MAX);
    let mut own = flow.seat(&mut seat);
    set_from_two_threads(&rt, &flow, &mut own);
    let core = flow.close(seat).expect(&rt, "no caller is inside");
    compare_any(&rt, "the state", core.value(), &[Ok(9), Ok(4)]);
}

/// Emits a value that the flow takes, and returns the seat.
fn emit<R: Wait + Abort>(rt: &R, flow: &SharedFlow<i64>, seat: Seat<i64>, value: i64) -> Seat<i64>
    requires { seat.table_id ≡ flow.now.table_id }
    ensures { result.table_id ≡ flow.now.table_id }
{
    let mut seat = seat;
    compare(rt, "taken", flow.try_emit(rt, &mut seat, value), Ok(true));
    seat
}

/// Sends the seat to a new thread, which emits the value. Returns the seat once that thread has ended.
fn emit_on_a_thread<R: Host>(
    rt: &R,
    flow: &SharedFlow<i64>,
    seat: Seat<i64>,
    value: i64,
) -> Seat<i64>
    requires { seat.table_id ≡ flow.now.table_id }
    ensures { result.table_id ≡ flow.now.table_id }
{
    let (seat, ()) = join(rt, || emit(rt, flow, seat, value), || ());
    seat
}

/// The flow, once it is closed, has the values that both threads emitted, and no subscriber.
#[test]
fn a_seat_goes_to_two_threads_in_turn(rt: HostRuntime) {
    let (flow, seat) = new_flow(&rt, rt.alloc(), Config::new().replay(2));
    let seat = emit_on_a_thread(&rt, &flow, seat, 1);
    let seat = emit_on_a_thread(&rt, &flow, seat, 2);
    let core = flow.close(seat).expect(&rt, "no caller is inside");
    let cache = core.replay_cache().expect(&rt, "memory");
    compare(&rt, "the cache", cache.as_slice(), [1, 2].as_slice());
    let left = (core.subscription_count(), core.held());
    compare(&rt, "subscribers, and values kept", left, (0, 2));
}

/// Lets the seat and the subscription meet, and takes the next two values.
fn meet_and_read<R: Wait + Abort>(
    rt: &R,
    flow: &SharedFlow<i64>,
    seat: Seat<i64>,
    subscription: &mut Subscription<i64>,
) -> [Next<i64>; 2]
    requires seat { seat.table_id ≡ flow.now.table_id }
    requires subscription { subscription.old.token.table_id ≡ flow.now.table_id }
{
    let mut seat = seat;
    flow.meet_subscription(subscription, &mut seat);
    let first = flow.next(rt, subscription).expect(rt, "memory");
    [first, flow.next(rt, subscription).expect(rt, "memory")]
}

/// A thread emits 8 and ends. Its seat meets a subscription, which then receives 8.
#[test]
fn a_subscriber_that_met_a_thread_receives_its_value(rt: HostRuntime) {
    let (flow, mut seat) = new_flow(&rt, rt.alloc(), Config::new().extra(4));
    let mut subscription = new_subscription(&rt, &flow, &mut seat);
    let seat = emit_on_a_thread(&rt, &flow, seat, 8);
    let read = meet_and_read(&rt, &flow, seat, &mut subscription);
    compare(&rt, "the next two values", read, [Value(8), Empty]);
}

/// A state flow that no caller has changed gives its first value to `close`.
#[test]
fn a_closed_state_flow_has_its_first_value(rt: HostRuntime) {
    let (flow, seat) = new_state_flow(&rt, rt.alloc(), 5, u64::MAX);
    let core = flow.close(seat).expect(&rt, "no caller is inside");
    compare(&rt, "the value of the closed flow", core.value(), Ok(5));
}
