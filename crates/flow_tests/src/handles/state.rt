//! Handles of state flows.
use crate::compare::compare;
use crate::flows::{new_setter, new_state_reader};
use crate::handle_calls::next_of;
use crate::handles::states::{Reads, Sets};
use crate::host::Host;
use flow_law::{OutOfMemory, Unsupported};
use flow_shared::{DrainEnd, Setter, StateReader};
use futures::executor::block_on;
use std::process::Abort;
use std::sync::Wait;
use std::time::Duration;

impl Sets for Setter<i64> {
    type Reader = StateReader<i64>;

    fn reader<R: Wait + Abort>(&mut self, rt: &R) -> StateReader<i64> {
        new_state_reader(rt, self)
    }

    fn put<R: Wait>(&mut self, rt: &R, value: i64) {
        self.set(rt, value);
    }
}

impl Reads for StateReader<i64> {
    fn take<R: Wait + Abort>(&mut self, rt: &R) -> Option<i64> {
        self.next(rt).expect(rt, "memory")
    }

    fn wait<R: Wait + Abort>(&mut self, rt: &R) -> i64 {
        self.changed(rt).expect(rt, "memory")
    }

    fn wait_in_time<R: Host>(&mut self, rt: &R, limit: Duration) -> Option<i64> {
        self.changed_timeout(rt, limit).expect(rt, "memory")
    }

    fn wait_above<R: Wait + Abort>(&mut self, rt: &R, least: i64) -> i64 {
        let found = self.wait_for(rt, |value: &i64| *value > least);
        found.expect(rt, "memory")
    }

    fn wait_above_in_time<R: Host>(&mut self, rt: &R, limit: Duration, least: i64) -> Option<i64> {
        let found = self.wait_for_timeout(rt, limit, |value: &i64| *value > least);
        found.expect(rt, "memory")
    }

    fn await_one<R: Host>(self, rt: &R) -> Option<(i64, Option<i64>)> {
        let (mut reader, value) = block_on(rt, self.into_changed()).ok()?;
        Some((value.ok()?, reader.next(rt).ok()?))
    }

    fn stream_one<R: Host>(self, rt: &R) -> Option<i64> {
        next_of(rt, self.into_stream(), 1).pop()?.ok()
    }
}

/// Adds one. Fails with `OutOfMemory` if the sum is above 7.
fn one_more(value: &i64) -> Result<i64, OutOfMemory> {
    if *value < 7 {
        Ok(value.wrapping_add(1))
    } else {
        Err(OutOfMemory)
    }
}

/// A function that fails leaves the value as it is.
#[test]
fn a_state_flow_is_updated(rt: HostRuntime) {
    let mut setter = new_setter(&rt, rt.alloc(), 4, 0);
    compare(&rt, "update", setter.update(&rt, one_more), Ok(()));
    let before = setter.get_and_update(&rt, one_more);
    compare(&rt, "get_and_update", before, Ok(5));
    let after = setter.update_and_get(&rt, one_more);
    compare(&rt, "update_and_get", after, Ok(7));
    let failed = setter.update(&rt, one_more);
    compare(&rt, "a failed update", failed, Err(OutOfMemory));
    let before = setter.get_and_update(&rt, one_more);
    compare(&rt, "a failed get_and_update", before, Err(OutOfMemory));
    let after = setter.update_and_get(&rt, one_more);
    compare(&rt, "a failed update_and_get", after, Err(OutOfMemory));
    compare(&rt, "value", setter.value(&rt), Ok(7));
}

/// Calls that do not wait for other callers answer as the others.
#[test]
fn calls_at_once_of_a_state_flow(rt: HostRuntime) {
    let mut setter = new_setter(&rt, rt.alloc(), 7, 1);
    let mut reader = new_state_reader(&rt, &mut setter);
    compare(&rt, "try_set", setter.try_set(2), Ok(()));
    compare(&rt, "try_emit", setter.try_emit(&rt, 3), true);
    let reset = setter.reset_replay_cache(&rt);
    compare(&rt, "reset_replay_cache", reset, Err(Unsupported));
    compare(&rt, "next", reader.next(&rt), Ok(Some(3)));
    compare(&rt, "try_next", reader.try_next(), Ok(None));
    setter.seen();
    reader.seen();
    setter.set(&rt, 5);
    let mut values = Vec::new(rt.alloc());
    let drained = reader.drain(&rt, 9, &mut values);
    compare(&rt, "drain", drained, Ok(DrainEnd::Empty));
    compare(&rt, "the values", values.as_slice(), [5].as_slice());
}

/// A stream that is dropped ends its subscription, and `try_unsubscribe` ends that of a reader. A new reader receives
/// the state, and a future that was not polled returns its reader.
#[test]
fn a_dropped_stream_of_a_state_ends_its_subscription(rt: HostRuntime) {
    let mut setter = new_setter(&rt, rt.alloc(), 7, 2);
    let stream = new_state_reader(&rt, &mut setter).into_stream();
    compare(&rt, "subscribers", setter.subscription_count(&rt), 1);
    drop(stream);
    compare(&rt, "after the drop", setter.subscription_count(&rt), 0);
    let future = new_state_reader(&rt, &mut setter).into_changed();
    let mut reader = future.into_reader().expect(&rt, "a reader");
    compare(&rt, "next", reader.next(&rt), Ok(Some(7)));
    compare(&rt, "unsubscribed", reader.try_unsubscribe().is_ok(), true);
    compare(&rt, "after it", setter.subscription_count(&rt), 0);
}
