//! Word flows that drop the latest values, whose readers have places: what no script says, and calls that race on two
//! threads. `tests/cases/dropping.toml` has further rows of one thread.
use crate::compare::{compare, compare_any, rises};
use crate::handle_calls::begin;
use crate::host::Host;
use crate::races::{EACH, ONCE, race_until};
use crate::word_flows::{Closing, new_word_flow_reader};
use flow_law::{Config, Drained, NumberError, Overflow, Words};
use flow_word_shared::{WordEmitter, WordFlow, WordFlowReader};
use std::alloc::Global;
use std::process::Abort;
use std::sync::{Barrier, Wait};
use std::thread;
use std::thread::join;

/// How many values an emitter emits in one race.
const VALUES: i64 = 500;

/// Returns the owner that closes a new flow, which drops the latest values, and the flow's first emitter.
pub(super) fn new_flow<T: Words>(
    rt: &impl Abort,
    alloc: Global,
    extra: u32,
    readers: u32,
) -> (Closing<T>, WordEmitter<T>) {
    let config = Config::new().extra(extra).overflow(Overflow::DropLatest);
    let made = WordFlow::for_subscribers(alloc, config, readers);
    let (flow, seat) = made.expect(rt, "a flow");
    Closing::new(rt, alloc, flow, seat)
}

/// The flow has a place for one reader. It is free again once its reader has left. While that one is a full buffer behind,
/// values are dropped.
#[test]
fn a_place_is_free_after_its_reader_has_left(rt: HostRuntime) {
    let (closing, mut emitter) = new_flow(&rt, rt.alloc(), 1, 1);
    for value in 1..=3 {
        let mut reader = new_word_flow_reader(&rt, &mut emitter);
        let refused = emitter.subscribe(&rt).err();
        compare(&rt, "a second", refused, Some(NumberError::OutOfMemory));
        compare(&rt, "emit", emitter.emit(&rt, value), Ok(()));
        compare(&rt, "dropped", emitter.try_emit(&rt, 9), Ok(true));
        compare(&rt, "subscribers", emitter.subscription_count(), 1);
        let mut values = Vec::new(rt.alloc());
        let end = reader.drain(&rt, 9, &mut values);
        compare(&rt, "drain", end, Ok(Drained::Empty));
        compare(&rt, "drained", values.as_slice(), &[value]);
        compare(&rt, "try_emit", emitter.try_emit(&rt, 8), Ok(true));
        compare(&rt, "try_next", reader.try_next(), Ok(Some(8)));
        compare(&rt, "try_next of none", reader.try_next(), Ok(None));
        drop(reader);
        compare(&rt, "none", emitter.subscription_count(), 0);
    }
    drop(emitter);
    compare(&rt, "emitted", closing.close(&rt).emitted(), 6);
}

/// Emits values, once the other threads have begun. The flow takes or drops each.
fn emit_beside<R: Wait + Abort>(rt: &R, start: &Barrier, emitter: &mut WordEmitter<i64>) {
    let _order = start.wait(rt);
    for value in 1..=VALUES {
        compare(rt, "try_emit", emitter.try_emit(rt, value), Ok(true));
    }
}

/// Reads beside an emitter. Values must rise. Returns how many it received.
fn read_beside<R: Wait + Abort>(rt: &R, start: &Barrier, reader: &mut WordFlowReader<i64>) -> u64 {
    let _order = start.wait(rt);
    let mut last = 0i64;
    let mut count = 0u64;
    for _ in 0..VALUES {
        if let Some(value) = reader.next(rt) {
            rises(rt, "next", &mut last, value);
            count = count.wrapping_add(1);
        }
    }
    count
}

/// Receives what is left. Returns how many values that are.
fn rest_of<R: Wait>(rt: &R, reader: &mut WordFlowReader<i64>) -> u64 {
    let mut count = 0u64;
    for _ in rt.forever() {
        match reader.next(rt) {
            Some(_) => count = count.wrapping_add(1),
            None => return count,
        }
    }
    count
}

/// Emits into a small buffer beside two readers. Each gets all values that the flow has taken. Returns whether these were
/// more than a buffer and fewer than all.
fn race_readers<R: Host>(rt: &R, alloc: Global) -> bool {
    let (closing, mut emitter) = new_flow(rt, alloc, 4, 2);
    let mut one = new_word_flow_reader(rt, &mut emitter);
    let mut other = new_word_flow_reader(rt, &mut emitter);
    let start = Barrier::new(3);
    let ((first, second), ()) = join(
        rt,
        || {
            join(
                rt,
                || read_beside(rt, &start, &mut one),
                || read_beside(rt, &start, &mut other),
            )
        },
        || emit_beside(rt, &start, &mut emitter),
    );
    let first = first.wrapping_add(rest_of(rt, &mut one));
    let second = second.wrapping_add(rest_of(rt, &mut other));
    drop(one);
    drop(other);
    drop(emitter);
    let taken = closing.close(rt).emitted();
    compare(rt, "received by each", (first, second), (taken, taken));
    taken > 4 && taken < VALUES as u64
}

#[test]
fn readers_get_all_values_that_were_not_dropped(rt: HostRuntime) {
    race_until(&rt, ONCE, |_run| race_readers(&rt, rt.alloc()));
}

/// Ends a subscription.
fn leave<R: Wait>(rt: &R, start: &Barrier, run: u32, reader: WordFlowReader<i64>) {
    begin(rt, start, run);
    drop(reader);
}

/// Emits 2, which the flow takes or drops.
fn emit_two<R: Host>(rt: &R, start: &Barrier, run: u32, emitter: &mut WordEmitter<i64>) {
    begin(rt, start, run);
    compare(rt, "try_emit 2", emitter.try_emit(rt, 2), Ok(true));
}

/// Emits beside the end of the subscription for which there is no room. Returns whether the value was taken.
fn race_leave<R: Host>(rt: &R, alloc: Global, run: u32) -> bool {
    let (closing, mut emitter) = new_flow(rt, alloc, 1, 1);
    let reader = new_word_flow_reader(rt, &mut emitter);
    compare(rt, "try_emit 1", emitter.try_emit(rt, 1), Ok(true));
    let start = Barrier::new(2);
    let ((), ()) = join(
        rt,
        || leave(rt, &start, run, reader),
        || emit_two(rt, &start, run.wrapping_add(2), &mut emitter),
    );
    compare(rt, "subscribers", emitter.subscription_count(), 0);
    drop(emitter);
    let emitted = closing.close(rt).emitted();
    compare_any(rt, "emitted", emitted, &[1, 2]);
    emitted == 2
}

#[test]
fn a_value_is_dropped_before_the_slow_reader_leaves_and_taken_after(rt: HostRuntime) {
    race_until(&rt, EACH, |run| race_leave(&rt, rt.alloc(), run));
}

/// How often a subscriber that stays for a while yields.
const STAYS: u32 = 100;

/// Subscribes, and leaves, at once or in every second run after a while. Returns whether there was a place.
fn subscribe_once<R: Host>(
    rt: &R,
    start: &Barrier,
    run: u32,
    emitter: &mut WordEmitter<i64>,
) -> bool {
    begin(rt, start, run);
    match emitter.subscribe(rt) {
        Ok(reader) => {
            if run % 2 == 1 {
                for _ in 0..STAYS {
                    thread::yield_now();
                }
            }
            drop(reader);
            true
        }
        Err(refused) => {
            compare(rt, "refused", refused, NumberError::OutOfMemory);
            false
        }
    }
}

/// Two subscribers race for one place. Returns whether both found one.
fn race_place<R: Host>(rt: &R, alloc: Global, run: u32) -> bool {
    let (_closing, mut one) = new_flow::<i64>(rt, alloc, 1, 1);
    let mut other = one.another(rt);
    let start = Barrier::new(2);
    let found = join(
        rt,
        || subscribe_once(rt, &start, run, &mut one),
        || subscribe_once(rt, &start, run.wrapping_add(2), &mut other),
    );
    compare_any(
        rt,
        "found",
        found,
        &[(true, true), (true, false), (false, true)],
    );
    compare(rt, "subscribers", one.subscription_count(), 0);
    found == (true, true)
}

#[test]
fn two_readers_race_for_one_place(rt: HostRuntime) {
    race_until(&rt, EACH, |run| race_place(&rt, rt.alloc(), run));
}

/// Emits beside a new reader. The reader gets 2 only if it subscribed first.
fn race_subscribe<R: Host>(rt: &R, alloc: Global, run: u32) -> bool {
    let (_closing, mut emitter) = new_flow(rt, alloc, 1, 1);
    let mut other = emitter.another(rt);
    let start = Barrier::new(2);
    let ((at_once, mut reader), ()) = join(
        rt,
        || {
            begin(rt, &start, run);
            let mut reader = new_word_flow_reader(rt, &mut emitter);
            let at_once = reader.next(rt);
            (at_once, reader)
        },
        || emit_two(rt, &start, run.wrapping_add(2), &mut other),
    );
    let received = (at_once, reader.next(rt));
    let wanted = [(None, None), (Some(2), None), (None, Some(2))];
    compare_any(rt, "received", received, &wanted);
    received != (None, None)
}

#[test]
fn a_value_comes_before_or_after_a_new_word_flow_reader(rt: HostRuntime) {
    race_until(&rt, EACH, |run| race_subscribe(&rt, rt.alloc(), run));
}
