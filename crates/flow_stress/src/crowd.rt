//! Threads of a crowd: some send values, and others receive all of them. They sleep while there is no room, or no
//! value.
use crate::arguments::CrowdSize;
use crate::crew::Turn;
use crate::found::{Found, NOTHING};
use crate::order::{Gets, Order, value_of};
use crate::subscriber::Subscriber;
use flow_core::SharedCore;
use flow_shared::{Emitter, Reader, SendEnd};
use rand_core::utils::NextWord;
use rand_pcg::Pcg32;
use std::sync::Wait;
use std::thread::{sleep, yield_now};
use std::time::{Clock, Duration};

/// How long a call with a time limit waits, in microseconds.
pub const LIMIT: u64 = 20;

/// How long a pause takes, in microseconds. A waiting thread tries 32 times before it sleeps, which takes less.
const PAUSE: u64 = 200;

/// Now and then yields, or pauses for so long that waiting threads fall asleep.
pub fn pause_at_random<R: Wait + Clock>(rt: &R, dice: &mut Pcg32) {
    let word = dice.next_word();
    if word % 256 == 0 {
        sleep(rt, Duration::from_micros(PAUSE));
    } else if word % 8 == 0 {
        yield_now();
    }
}

/// Sends a value, with a time limit or without one. Returns whether it was sent.
fn is_sent<R: Wait + Clock>(
    rt: &R,
    emitter: &mut Emitter<u64>,
    value: u64,
    is_limited: bool,
) -> bool {
    if is_limited {
        return matches!(
            emitter.send_timeout(rt, value, Duration::from_micros(LIMIT)),
            Ok(SendEnd::Done)
        );
    }
    emitter.send(rt, value).is_ok()
}

/// Sends a value. Tries again after its time limit, or if memory is refused: the readers make room meanwhile.
///
/// Without a buffer it sends without a time limit: some readers may already have received a value that still waits.
fn send<R: Wait + Clock>(
    rt: &R,
    emitter: &mut Emitter<u64>,
    value: u64,
    has_room: bool,
    dice: &mut Pcg32,
) {
    for _ in rt.forever() {
        pause_at_random(rt, dice);
        let is_limited = has_room && dice.next_word() % 32 == 0;
        if is_sent(rt, emitter, value, is_limited) {
            return;
        }
    }
    unreachable!()
}

/// Sends all values of the emitter of this number.
fn send_all<R: Wait + Clock>(
    rt: &R,
    emitter: &mut Emitter<u64>,
    number: u32,
    size: CrowdSize,
    dice: &mut Pcg32,
) {
    for place in 0..size.share_of(number) {
        let value = value_of(number, u64::from(place));
        send(rt, emitter, value, size.capacity > 0, dice);
    }
}

/// Receives a value, with a time limit or without one. Returns None at the limit, or if memory is refused.
fn received<R: Wait + Clock>(rt: &R, reader: &mut Reader<u64>, is_limited: bool) -> Option<u64> {
    if is_limited {
        return reader
            .receive_timeout(rt, Duration::from_micros(LIMIT))
            .ok()?;
    }
    reader.receive(rt).ok()
}

/// Receives the next value. Now and then a try has a time limit.
fn receive<R: Wait + Clock>(rt: &R, reader: &mut Reader<u64>, dice: &mut Pcg32) -> u64 {
    for _ in rt.forever() {
        pause_at_random(rt, dice);
        let is_limited = dice.next_word() % 32 == 0;
        if let Some(value) = received(rt, reader, is_limited) {
            return value;
        }
    }
    unreachable!()
}

/// Receives all values. Checks that it got all values of each emitter, in order, and nothing else.
fn receive_all<R: Wait + Clock>(
    rt: &R,
    reader: &mut Reader<u64>,
    values: u32,
    dice: &mut Pcg32,
) -> Found {
    let mut order = Order::new(Gets::All);
    for _ in 0..values {
        order.add(receive(rt, reader, dice));
    }
    let is_all = matches!(reader.next(rt), Ok(None));
    order.found.check(is_all);
    order.found
}

/// Receives all values, and unsubscribes. Returns None if there is no subscription.
fn receive_and_leave<R: Wait + Clock>(
    rt: &R,
    subscriber: &mut Subscriber<SharedCore<u64>>,
    values: u32,
    dice: &mut Pcg32,
) -> Option<Found> {
    let Some(reader) = &mut subscriber.reader else {
        return None;
    };
    let found = receive_all(rt, reader, values, dice);
    subscriber.unsubscribe(rt);
    Some(found)
}

/// Does the work of one thread of a crowd. Returns None if memory is refused.
pub fn work_in_crowd<R: Wait + Clock>(
    rt: &R,
    subscriber: &mut Subscriber<SharedCore<u64>>,
    size: CrowdSize,
    turn: &mut Turn,
) -> Option<Found> {
    let Some(number) = turn.number.checked_sub(size.readers) else {
        return receive_and_leave(rt, subscriber, size.values, &mut turn.dice);
    };
    send_all(rt, &mut subscriber.caller, number, size, &mut turn.dice);
    Some(NOTHING)
}
