//! Views that only read, and iterators over the values of a reader.
use crate::compare::compare;
use crate::flows::{new_emitter, new_reader, new_setter};
use crate::handle_calls::try_emit;
use crate::host::Host;
use flow_law::{Config, NumberError};
use flow_shared::{Reader, SharedView, StateView};
use std::process::Abort;
use std::sync::Wait;
use std::time::Duration;

/// Returns the sum of the values up to and with `last`.
pub fn sum_to<R: Wait + Abort>(rt: &R, reader: &mut Reader<i64>, last: i64) -> i64 {
    let mut sum = 0i64;
    for value in reader.values(rt) {
        let value = value.expect(rt, "a value");
        sum = sum.wrapping_add(value);
        if value == last {
            break;
        }
    }
    sum
}

/// Returns the sum of the values that come within some milliseconds.
fn sum_within<R: Host>(rt: &R, reader: &mut Reader<i64>, millis: u64) -> i64 {
    let mut sum = 0i64;
    for value in reader.values_until(rt, Duration::from_millis(millis)) {
        sum = sum.wrapping_add(value.expect(rt, "a value"));
    }
    sum
}

/// An iterator receives the values in order, and leaves the later ones in the flow. One with a limit ends when the time
/// is up, and at once if there is no time.
#[test]
fn an_iterator_receives_the_values(rt: HostRuntime) {
    let mut emitter = new_emitter(&rt, rt.alloc(), Config::new().extra(16));
    let mut reader = new_reader(&rt, &mut emitter);
    for value in 1..8 {
        compare(&rt, "room", try_emit(&rt, &mut emitter, value), Ok(true));
    }
    compare(&rt, "1 to 3", sum_to(&rt, &mut reader, 3), 6);
    compare(&rt, "no time", sum_within(&rt, &mut reader, 0), 0);
    compare(&rt, "4 to 7", sum_within(&rt, &mut reader, 20), 22);
    compare(&rt, "none left", sum_within(&rt, &mut reader, 1), 0);
}

/// Subscribes through a view of a shared flow, and receives by each call of its reader.
fn read_shared<R: Host>(rt: &R, view: &mut SharedView<i64>) {
    let mut reader = view.subscribe(rt).expect(rt, "a reader");
    compare(rt, "receive", reader.receive(rt), Ok(1));
    compare(rt, "next", reader.next(rt), Ok(Some(2)));
    compare(rt, "value", reader.values(rt).next(), Some(Ok(3)));
    let millis = Duration::from_millis(1);
    let value = reader.values_until(rt, millis).next();
    compare(rt, "in time", value, Some(Ok(4)));
    compare(rt, "no more", reader.receive_timeout(rt, millis), Ok(None));
    let mut back = reader.unsubscribe(rt);
    let cache = back.replay_cache(rt).expect(rt, "a list");
    compare(rt, "cache", cache.as_slice(), [1, 2, 3, 4].as_slice());
}

/// A view of a shared flow subscribes and receives, as an emitter's reader does. The limit of the flow counts for it.
#[test]
fn a_view_reads_a_shared_flow(rt: HostRuntime) {
    let mut emitter = new_emitter(&rt, rt.alloc(), Config::new().replay(4).limit(6));
    for value in 1..5 {
        compare(&rt, "room", try_emit(&rt, &mut emitter, value), Ok(true));
    }
    let mut view = emitter.view(&rt);
    read_shared(&rt, &mut view);
    let mut other = view.another(&rt);
    let _reader = other.subscribe(&rt).expect(&rt, "a reader");
    compare(&rt, "subscribers", emitter.subscription_count(&rt), 1);
    let refused = view.subscribe(&rt).err();
    compare(&rt, "the limit", refused, Some(NumberError::Exhausted));
}

/// Subscribes through a view of a state flow, and receives its state.
fn read_state<R: Host>(rt: &R, view: &mut StateView<i64>) {
    compare(rt, "value", view.value(rt), Ok(7));
    let mut reader = view.subscribe(rt).expect(rt, "a reader");
    compare(rt, "changed", reader.changed(rt), Ok(7));
    let millis = Duration::from_millis(1);
    let late = reader.changed_timeout(rt, millis);
    compare(rt, "not changed", late, Ok(None));
    let found = reader.wait_for(rt, |value| *value == 7);
    compare(rt, "wait_for", found, Ok(7));
}

/// A view of a state flow reads the state and subscribes.
#[test]
fn a_view_reads_a_state_flow(rt: HostRuntime) {
    let mut setter = new_setter(&rt, rt.alloc(), 7, 2);
    read_state(&rt, &mut setter.view(&rt));
    compare(&rt, "after it", setter.subscription_count(&rt), 0);
}
