//! What holds of the handles of state flows and of word states alike. Each state begins with the value 7.
use crate::compare::{compare, rises};
use crate::flows::{new_setter, new_word_setter};
use crate::handle_calls::{an_hour, pause};
use crate::host::Host;
use std::process::Abort;
use std::sync::Wait;
use std::thread::join;
use std::time::{Clock, Duration};

/// A handle that sets a state.
pub trait Sets: Send + Drop {
    type Reader: Reads;

    fn reader<R: Wait + Abort>(&mut self, rt: &R) -> Self::Reader;

    fn put<R: Wait>(&mut self, rt: &R, value: i64);
}

/// A handle that reads a state.
pub trait Reads: Send + Drop {
    /// Receives the value, if the subscriber has not received it yet.
    fn take<R: Wait + Abort>(&mut self, rt: &R) -> Option<i64>;

    /// Waits for a value that the subscriber has not received yet.
    fn wait<R: Wait + Abort>(&mut self, rt: &R) -> i64;

    fn wait_in_time<R: Host>(&mut self, rt: &R, limit: Duration) -> Option<i64>;

    /// Waits for a value that is greater than this one.
    fn wait_above<R: Wait + Abort>(&mut self, rt: &R, least: i64) -> i64;

    fn wait_above_in_time<R: Host>(&mut self, rt: &R, limit: Duration, least: i64) -> Option<i64>;

    /// Awaits a change by a future, and then takes the next value, if there is one.
    fn await_one<R: Host>(self, rt: &R) -> Option<(i64, Option<i64>)>;

    /// Returns the first item of the reader's stream.
    fn stream_one<R: Host>(self, rt: &R) -> Option<i64>;
}

/// `StateFlow.first { }` tests the current value first, whether or not the reader has received it.
fn waits_for_a_value<R: Host, S: Sets>(rt: &R, setter: &mut S) {
    let mut reader = setter.reader(rt);
    compare(rt, "wait_for above 6", reader.wait_above(rt, 6), 7);
    compare(rt, "next after it", reader.take(rt), None);
    compare(rt, "wait_for the same", reader.wait_above(rt, 6), 7);
    setter.put(rt, 9);
    compare(rt, "changed", reader.wait(rt), 9);
    let found = reader.wait_above_in_time(rt, an_hour(), 8);
    compare(rt, "wait_for_timeout above 8", found, Some(9));
    compare(rt, "next after it", reader.take(rt), None);
    setter.put(rt, 10);
    compare(rt, "wait_for above 8", reader.wait_above(rt, 8), 10);
    let found = reader.wait_above_in_time(rt, Duration::from_millis(0), 10);
    compare(rt, "wait_for_timeout above 10", found, None);
}

/// Like `withTimeoutOrNull`: null if no value that is waited for is there in time, and otherwise the value.
fn waits_in_time<R: Host, S: Sets>(rt: &R, setter: &mut S) {
    let mut reader = setter.reader(rt);
    let limit = Duration::from_millis(1);
    compare(rt, "changed", reader.wait_in_time(rt, limit), Some(7));
    compare(rt, "not changed", reader.wait_in_time(rt, limit), None);
    setter.put(rt, 8);
    let found = reader.wait_above_in_time(rt, limit, 8);
    compare(rt, "wait_for_timeout above 8", found, None);
    setter.put(rt, 9);
    let found = reader.wait_above_in_time(rt, limit, 8);
    compare(rt, "wait_for_timeout of 9", found, Some(9));
    let at_once = Duration::from_millis(0);
    compare(rt, "not changed", reader.wait_in_time(rt, at_once), None);
}

fn waits<R: Host, S: Sets>(rt: &R, setter: &mut S) {
    waits_for_a_value(rt, setter);
    setter.put(rt, 7);
    waits_in_time(rt, setter);
}

#[test]
fn waits_of_state_flows(rt: HostRuntime) {
    waits(&rt, &mut new_setter(&rt, rt.alloc(), 7, 2));
}

#[test]
fn waits_of_word_states(rt: HostRuntime) {
    waits(&rt, &mut new_word_setter(&rt, rt.alloc(), 7, 2));
}

/// Returns a new reader that has received 7.
fn reader_of_seven<R: Wait + Abort, S: Sets>(rt: &R, setter: &mut S) -> S::Reader {
    setter.put(rt, 7);
    let mut reader = setter.reader(rt);
    compare(rt, "the first value", reader.take(rt), Some(7));
    reader
}

/// Sets the value when the other thread has fallen asleep.
fn put_late<R: Wait + Clock, S: Sets>(rt: &R, setter: &mut S, value: i64) {
    pause(rt);
    setter.put(rt, value);
}

/// A reader sleeps until the value changes.
fn a_change_wakes_a_thread<R: Host, S: Sets>(rt: &R, setter: &mut S) {
    let mut reader = reader_of_seven(rt, setter);
    let ((), came) = join(rt, || put_late(rt, setter, 8), || reader.wait(rt));
    compare(rt, "changed on another thread", came, 8);
}

fn put_three<R: Wait + Clock, S: Sets>(rt: &R, setter: &mut S) {
    put_late(rt, setter, 8);
    put_late(rt, setter, 9);
    put_late(rt, setter, 10);
}

/// `StateFlow.first { it > 9 }` is 10 if the values are set one after the other, up to 10.
fn a_thread_waits_for_a_value<R: Host, S: Sets>(rt: &R, setter: &mut S) {
    let mut reader = reader_of_seven(rt, setter);
    let ((), came) = join(rt, || put_three(rt, setter), || reader.wait_above(rt, 9));
    compare(rt, "wait_for on another thread", came, 10);
}

fn put_many<R: Wait, S: Sets>(rt: &R, setter: &mut S) {
    for value in 8..=2_000 {
        setter.put(rt, value);
    }
}

/// Receives changes until the state is 2000. Each value is greater than the one before.
fn follow<R: Wait + Abort, D: Reads>(rt: &R, reader: &mut D) {
    let mut last = 0i64;
    for _ in rt.forever() {
        rises(rt, "changed", &mut last, reader.wait(rt));
        if last == 2_000 {
            return;
        }
    }
    unreachable!()
}

/// A reader skips values, and receives none twice.
fn a_thread_follows<R: Host, S: Sets>(rt: &R, setter: &mut S) {
    let mut reader = reader_of_seven(rt, setter);
    let ((), ()) = join(rt, || put_many(rt, setter), || follow(rt, &mut reader));
}

/// A task sleeps in the executor until the other thread sets a value.
fn a_change_wakes_a_task<R: Host, S: Sets>(rt: &R, setter: &mut S) {
    let reader = reader_of_seven(rt, setter);
    let ((), came) = join(rt, || put_late(rt, setter, 8), || reader.await_one(rt));
    compare(rt, "the future's, the next", came, Some((8, None)));
}

/// `drop(1).take(1)` of a state that begins with 7 and is set to 8 gives 8.
fn a_change_wakes_a_stream<R: Host, S: Sets>(rt: &R, setter: &mut S) {
    let reader = reader_of_seven(rt, setter);
    let ((), came) = join(rt, || put_late(rt, setter, 8), || reader.stream_one(rt));
    compare(rt, "the stream's item", came, Some(8));
}

fn meet<R: Host, S: Sets>(rt: &R, setter: &mut S) {
    a_change_wakes_a_thread(rt, setter);
    a_thread_waits_for_a_value(rt, setter);
    a_thread_follows(rt, setter);
    a_change_wakes_a_task(rt, setter);
    a_change_wakes_a_stream(rt, setter);
}

#[test]
fn two_threads_meet_at_state_flows(rt: HostRuntime) {
    meet(&rt, &mut new_setter(&rt, rt.alloc(), 7, 5));
}

#[test]
fn two_threads_meet_at_word_states(rt: HostRuntime) {
    meet(&rt, &mut new_word_setter(&rt, rt.alloc(), 7, 5));
}
