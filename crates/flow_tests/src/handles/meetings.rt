//! An emitter and a reader of a shared flow, each on a thread of its own. A wait has a limit of an hour, which no test
//! takes: a sleeper that is not woken fails.
use crate::compare::compare;
use crate::flows::{new_emitter, new_reader};
use crate::handle_calls::{an_hour, cancel_late, emission_of, next_of, pause, receive, send};
use crate::handles::shared::meet;
use crate::host::Host;
use flow_law::{Config, OutOfMemory};
use flow_shared::{Emitter, Reader, SendEnd};
use std::process::Abort;
use std::sync::Wait;
use std::thread::join;
use std::time::Clock;

/// Sends a value, which the flow takes.
fn sends<R: Host>(rt: &R, emitter: &mut Emitter<i64>, value: i64) {
    let sent = emitter.send_timeout(rt, value, an_hour());
    compare(rt, "send_timeout", sent, Ok(SendEnd::Done));
}

/// Sends a value to a reader that has fallen asleep.
fn sends_late<R: Host>(rt: &R, emitter: &mut Emitter<i64>, value: i64) {
    pause(rt);
    sends(rt, emitter, value);
}

/// Unsubscribes, or drops the reader.
fn leave<R: Wait + Clock>(rt: &R, reader: Reader<i64>, is_dropped: bool) {
    pause(rt);
    if is_dropped {
        drop(reader);
    } else {
        drop(reader.unsubscribe(rt));
    }
}

/// Sends a value to a reader that leaves without it.
fn send_to_one_that_leaves<R: Host>(rt: &R, emitter: &mut Emitter<i64>, is_dropped: bool) {
    let reader = new_reader(rt, emitter);
    let ((), ()) = join(
        rt,
        || sends(rt, emitter, 7),
        || leave(rt, reader, is_dropped),
    );
    compare(rt, "subscribers", emitter.subscription_count(rt), 0);
}

/// Without a buffer `emit` suspends until each subscriber has received the value, or has left.
#[test]
fn a_wait_ends_when_the_subscriber_leaves(rt: HostRuntime) {
    let mut emitter = new_emitter(&rt, rt.alloc(), Config::new());
    send_to_one_that_leaves(&rt, &mut emitter, false);
    send_to_one_that_leaves(&rt, &mut emitter, true);
}

/// Returns the next value that comes in time, if any.
fn receive_in_time<R: Host>(rt: &R, reader: &mut Reader<i64>) -> Result<Option<i64>, OutOfMemory> {
    reader.receive_timeout(rt, an_hour())
}

/// A value that comes while a thread waits for it is received, although it was not there at the first call.
#[test]
fn a_value_that_comes_in_time_is_received(rt: HostRuntime) {
    let mut emitter = new_emitter(&rt, rt.alloc(), Config::new().extra(1));
    let mut reader = new_reader(&rt, &mut emitter);
    let ((), received) = join(
        &rt,
        || sends_late(&rt, &mut emitter, 7),
        || receive_in_time(&rt, &mut reader),
    );
    compare(&rt, "received", received, Ok(Some(7)));
}

/// Cancels an emission of 1, behind which another one waits, and receives 2.
fn cancel_and_receive<R: Host>(rt: &R, reader: &mut Reader<i64>) {
    let was_waiting = cancel_late(rt, &mut reader.another(rt), 1);
    compare(rt, "1 waited", was_waiting, true);
    let received = receive_in_time(rt, reader);
    compare(rt, "the next value", received, Ok(Some(2)));
}

/// The subscriber receives only 2, since 1 was cancelled.
#[test]
fn a_value_behind_a_cancelled_one_is_received(rt: HostRuntime) {
    let mut emitter = new_emitter(&rt, rt.alloc(), Config::new());
    let mut reader = new_reader(&rt, &mut emitter);
    let ((), ()) = join(
        &rt,
        || sends_late(&rt, &mut emitter, 2),
        || cancel_and_receive(&rt, &mut reader),
    );
}

/// Meets another reader, drops it and an emission of 6, and sends 7.
fn drop_and_send<R: Host>(rt: &R, emitter: &mut Emitter<i64>) {
    pause(rt);
    meet(rt, emitter);
    drop(emission_of(rt, emitter, 6));
    sends(rt, emitter, 7);
}

/// Returns the next value, or the one after it if the next one is 6.
fn receive_seven<R: Wait>(rt: &R, reader: &mut Reader<i64>) -> Result<i64, OutOfMemory> {
    match receive(rt, reader) {
        Ok(6) => receive(rt, reader),
        received => received,
    }
}

/// A reader sleeps while another reader and an emission are dropped, and receives the next value: 6 or 7, since a
/// subscriber may receive an offered value before it is cancelled.
#[test]
fn a_drop_leaves_a_sleeper_asleep(rt: HostRuntime) {
    let mut emitter = new_emitter(&rt, rt.alloc(), Config::new());
    let mut reader = new_reader(&rt, &mut emitter);
    let ((), received) = join(
        &rt,
        || drop_and_send(&rt, &mut emitter),
        || receive_seven(&rt, &mut reader),
    );
    compare(&rt, "7, perhaps after 6", received, Ok(7));
}

/// Sends the numbers from 1 to 2000.
fn send_many<R: Wait + Abort>(rt: &R, emitter: &mut Emitter<i64>) {
    for value in 1..=2_000 {
        compare(rt, "send", send(rt, emitter, value), Ok(()));
    }
}

/// Receives the numbers from 1 to 2000; makes and drops another reader before each.
fn receive_many<R: Wait + Abort>(rt: &R, reader: &mut Reader<i64>) {
    let mut emitter = reader.another(rt);
    for value in 1..=2_000 {
        drop(new_reader(rt, &mut emitter));
        compare(rt, "receive", receive(rt, reader), Ok(value));
    }
}

/// Each emission waits for every subscriber, and the other readers end only by a drop.
#[test]
fn readers_come_and_go_beside_emissions(rt: HostRuntime) {
    let mut emitter = new_emitter(&rt, rt.alloc(), Config::new());
    let mut reader = new_reader(&rt, &mut emitter);
    let ((), ()) = join(
        &rt,
        || send_many(&rt, &mut emitter),
        || receive_many(&rt, &mut reader),
    );
    compare(&rt, "subscribers", emitter.subscription_count(&rt), 1);
}

/// Sends 1, and 2 once the reader has fallen asleep again.
fn send_slowly<R: Host>(rt: &R, emitter: &mut Emitter<i64>) {
    sends_late(rt, emitter, 1);
    sends_late(rt, emitter, 2);
}

/// Returns the first two items of the reader's stream.
fn stream_two<R: Host>(rt: &R, reader: Reader<i64>) -> Vec<Result<i64, OutOfMemory>> {
    next_of(rt, reader.into_stream(), 2)
}

/// `take(2).toList()` of a flow that emits 1 and 2 is `[1, 2]`.
#[test]
fn a_stream_gives_what_is_sent(rt: HostRuntime) {
    let mut emitter = new_emitter(&rt, rt.alloc(), Config::new().extra(2));
    let reader = new_reader(&rt, &mut emitter);
    let ((), given) = join(
        &rt,
        || send_slowly(&rt, &mut emitter),
        || stream_two(&rt, reader),
    );
    compare(&rt, "stream", given.as_slice(), [Ok(1), Ok(2)].as_slice());
}
