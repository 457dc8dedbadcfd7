//! Three threads whose emissions wait for room while the only subscriber unsubscribes: all three emissions end.
use crate::compare::{compare, compare_any};
use crate::flows::{new_emitter, new_reader};
use crate::handle_calls::{pause, send, try_emit};
use crate::host::Host;
use flow_law::Config;
use flow_shared::{Emitter, Reader};
use std::alloc::Global;
use std::sync::{Barrier, Wait};
use std::thread::join;
use std::time::Clock;

const TIMES: u32 = 20;

/// Sends a value, which the flow takes.
fn sends<R: Host>(rt: &R, start: &Barrier, emitter: &mut Emitter<i64>, value: i64) {
    let _order = start.wait(rt);
    compare(rt, "send", send(rt, emitter, value), Ok(()));
}

/// Unsubscribes. In every second run the emitters have fallen asleep before.
fn leave<R: Wait + Clock>(rt: &R, start: &Barrier, run: u32, reader: Reader<i64>) {
    let _order = start.wait(rt);
    if run % 2 == 0 {
        pause(rt);
    }
    let _emitter = reader.unsubscribe(rt);
}

/// Sends 2 and 3 from two threads.
fn send_two<R: Host>(rt: &R, start: &Barrier, second: &mut Emitter<i64>, third: &mut Emitter<i64>) {
    let ((), ()) = join(
        rt,
        || sends(rt, start, second, 2),
        || sends(rt, start, third, 3),
    );
}

/// Sends 4 from one thread, and unsubscribes in another one.
fn send_and_leave<R: Host>(
    rt: &R,
    start: &Barrier,
    run: u32,
    fourth: &mut Emitter<i64>,
    reader: Reader<i64>,
) {
    let ((), ()) = join(
        rt,
        || sends(rt, start, fourth, 4),
        || leave(rt, start, run, reader),
    );
}

/// Sends 2, 3 and 4 while the subscriber leaves. Returns when all three emissions have ended.
fn send_beside_leaving<R: Host>(rt: &R, run: u32, emitter: &mut Emitter<i64>, reader: Reader<i64>) {
    let start = Barrier::new(4);
    let (mut second, mut third) = (emitter.another(rt), emitter.another(rt));
    let ((), ()) = join(
        rt,
        || send_two(rt, &start, &mut second, &mut third),
        || send_and_leave(rt, &start, run, emitter, reader),
    );
}

/// The subscriber has not received 1, so that there is no room. After it has left, the cache has one of the three
/// values that waited.
fn leave_once<R: Host>(rt: &R, alloc: Global, run: u32) {
    let mut emitter = new_emitter(rt, alloc, Config::new().replay(1));
    let reader = new_reader(rt, &mut emitter);
    compare(rt, "try_emit", try_emit(rt, &mut emitter, 1), Ok(true));
    send_beside_leaving(rt, run, &mut emitter, reader);
    compare(rt, "subscribers", emitter.subscription_count(rt), 0);
    let mut cache = emitter.replay_cache(rt).expect(rt, "memory");
    compare(rt, "values in the cache", cache.len(), 1);
    let waited = [Some(2), Some(3), Some(4)];
    compare_any(rt, "one that waited", cache.pop(), &waited);
}

#[test]
fn waiting_emissions_end_when_the_subscriber_leaves(rt: HostRuntime) {
    for run in 0..TIMES {
        leave_once(&rt, rt.alloc(), run);
    }
}
