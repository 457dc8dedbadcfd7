//! Threads that sleep by watchers: two watchers of one emission, and watchers of two flows with one number.
ghost use Rattle.std.specs.Prelude.{◌≡◌};

use crate::compare::compare;
use crate::flows::new_flow;
use crate::host::Host;
use flow_law::{Config, FlowFault, Next};
use flow_shared::{Emission, Emitted, PolledNow, Seat, SharedFlow, Subscription, Watcher};
use std::process::Abort;
use std::sync::Wait;
use std::thread::{Threads, join, sleep};
use std::time::{Clock, Duration, Instant};

/// Sleeps for at most 20 seconds. Returns whether the thread was woken before that.
fn is_woken<R: Host>(rt: &R, watcher: &mut Watcher) -> bool {
    let start = Instant::now(rt).expect(rt, "the clock");
    watcher.sleep(rt, Some(Duration::from_secs(20)));
    let slept = start.elapsed(rt).expect(rt, "the clock");
    slept < Duration::from_secs(15)
}

/// Emits a value that has to wait.
fn emission_of<R: Wait + Abort>(
    rt: &R,
    flow: &SharedFlow<i64>,
    seat: Seat<i64>,
    value: i64,
) -> Emission<i64>
    requires { seat.table_id ≡ flow.now.table_id }
    ensures { result.token.table_id ≡ flow.now.table_id }
{
    match flow.emit(rt, seat, value) {
        Emitted::Queued(emission) => emission,
        _ => panic!(rt; "the emission does not wait"),
    }
}

/// Polls an emission that waits.
fn poll_waiting<R: Abort>(
    rt: &R,
    flow: &SharedFlow<i64>,
    emission: Emission<i64>,
    watcher: &mut Watcher,
) -> Emission<i64>
    requires { emission.token.table_id ≡ flow.now.table_id }
    ensures { result.token.table_id ≡ flow.now.table_id }
{
    match flow.poll_watched(emission, watcher) {
        PolledNow::Waiting(emission) => emission,
        _ => panic!(rt; "the emission does not wait"),
    }
}

/// Makes room for an emission that waits, a while after the other thread has gone to sleep.
fn make_room<R: Wait + Clock>(
    rt: &R,
    flow: &SharedFlow<i64>,
    subscription: &mut Subscription<i64>,
) -> Result<Next<i64>, FlowFault>
    requires { subscription.old.token.table_id ≡ flow.now.table_id }
{
    sleep(rt, Duration::from_millis(100));
    flow.next(rt, subscription)
}

/// Polls an emission by two watchers, one after the other, and sleeps by the second one until the emission ends.
fn sleep_by_second<R: Host>(
    rt: &R,
    flow: &SharedFlow<i64>,
    seat: &mut Seat<i64>,
    subscription: &mut Subscription<i64>,
)
    requires seat { seat.old.table_id ≡ flow.now.table_id }
    requires subscription { subscription.old.token.table_id ≡ flow.now.table_id }
{
    let own = flow.seat(seat);
    let emission = emission_of(rt, flow, own, 2);
    let (mut first, mut second) = (flow.watcher(), flow.watcher());
    first.watch(rt);
    let emission = poll_waiting(rt, flow, emission, &mut first);
    first.unwatch();
    second.watch(rt);
    compare(rt, "count", flow.count_watched(seat, &mut second), Ok(1));
    let emission = poll_waiting(rt, flow, emission, &mut second);
    let woken = join(
        rt,
        || is_woken(rt, &mut second),
        || make_room(rt, flow, subscription),
    );
    compare(rt, "woken, and received", woken, (true, Ok(Next::Value(1))));
    let is_done = matches!(flow.poll_now(emission), PolledNow::Done(_));
    compare(rt, "the emission is done", is_done, true);
}

/// The end of an emission wakes a thread that polled it by a second watcher.
#[test]
fn the_end_of_an_emission_wakes_each_watcher(rt: HostRuntime) {
    let (flow, mut seat) = new_flow(&rt, rt.alloc(), Config::new().extra(1));
    let mut subscription = flow.subscribe(&rt, &mut seat).expect(&rt, "a subscription");
    compare(&rt, "try_emit", flow.try_emit(&rt, &mut seat, 1), Ok(true));
    sleep_by_second(&rt, &flow, &mut seat, &mut subscription);
}

/// Subscribes a while after the other thread has gone to sleep.
fn subscribe<R: Wait + Clock>(
    rt: &R,
    flow: &SharedFlow<i64>,
    seat: &mut Seat<i64>,
) -> Option<FlowFault>
    requires { seat.old.table_id ≡ flow.now.table_id }
{
    sleep(rt, Duration::from_millis(100));
    flow.subscribe(rt, seat).err()
}

/// Counts the subscribers by the flow's watcher and by one of another flow, and sleeps by the latter.
fn sleep_by_anothers<R: Host>(
    rt: &R,
    flow: &SharedFlow<i64>,
    seat: &mut Seat<i64>,
    anothers: &mut Watcher,
)
    requires { seat.old.table_id ≡ flow.now.table_id }
{
    let mut own = flow.watcher();
    own.watch(rt);
    compare(rt, "by its own", flow.count_watched(seat, &mut own), Ok(0));
    anothers.watch(rt);
    compare(rt, "another's", flow.count_watched(seat, anothers), Ok(0));
    let woken = join(rt, || is_woken(rt, anothers), || subscribe(rt, flow, seat));
    compare(rt, "woken, and why not subscribed", woken, (true, None));
}

/// A watcher of one flow is woken at another flow, too, where a watcher of the same number sleeps.
#[test]
fn a_watcher_of_another_flow_is_woken(rt: HostRuntime) {
    let (home, mut seat) = new_flow(&rt, rt.alloc(), Config::new());
    let mut watcher = home.watcher();
    watcher.watch(&rt);
    let count = home.count_watched(&mut seat, &mut watcher);
    compare(&rt, "subscribers of its own flow", count, Ok(0));
    let (flow, mut seat) = new_flow(&rt, rt.alloc(), Config::new());
    sleep_by_anothers(&rt, &flow, &mut seat, &mut watcher);
}
