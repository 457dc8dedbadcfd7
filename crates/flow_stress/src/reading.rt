//! A thread that subscribes to a shared flow, reads and unsubscribes, again and again.
use crate::crew::Turn;
use crate::found::{Found, NOTHING};
use crate::order::{Gets, Order};
use crate::subscriber::Subscriber;
use flow_core::SharedCore;
use flow_law::TryNextError;
use rand_core::utils::NextWord;
use rand_pcg::Pcg32;
use std::sync::Wait;
use std::thread::yield_now;

/// How many calls of `next` a subscription makes.
const CALLS: u32 = 64;

/// The most further subscriptions that a reader without a value makes.
const LATE: u32 = 20_000;

/// Takes the next value without waiting; there is none while another caller is inside the flow. Returns None if memory
/// is refused, or if there is no subscription.
fn try_next(subscriber: &mut Subscriber<SharedCore<u64>>) -> Option<Option<u64>> {
    let Some(reader) = &mut subscriber.reader else {
        return None;
    };
    match reader.try_next() {
        Ok(next) => Some(next),
        Err(TryNextError::Busy) => Some(None),
        Err(TryNextError::OutOfMemory) => None,
    }
}

/// Reads by the calls that the dice choose. Returns None if memory is refused.
fn read<R: Wait>(
    rt: &R,
    subscriber: &mut Subscriber<SharedCore<u64>>,
    dice: &mut Pcg32,
) -> Option<Found> {
    let mut order = Order::new(Gets::Following);
    for _ in 0..CALLS {
        let next = if dice.next_word() % 2 == 0 {
            subscriber.next(rt)?
        } else {
            try_next(subscriber)?
        };
        match next {
            Some(value) => order.add(value),
            None => yield_now(),
        }
    }
    Some(order.found)
}

/// Subscribes, reads and unsubscribes. Returns None if memory is refused.
fn read_once<R: Wait>(
    rt: &R,
    subscriber: &mut Subscriber<SharedCore<u64>>,
    dice: &mut Pcg32,
) -> Option<Found> {
    subscriber.subscribe(rt)?;
    let found = read(rt, subscriber, dice)?;
    subscriber.unsubscribe(rt);
    Some(found)
}

/// Makes the calls of all rounds, by one subscription after another. Subscribes again until it has read a value, since
/// the flow replays what was emitted. Returns None if memory is refused.
pub fn read_all<R: Wait>(
    rt: &R,
    subscriber: &mut Subscriber<SharedCore<u64>>,
    turn: &mut Turn,
) -> Option<Found> {
    let mut found = NOTHING;
    let usual = turn.rounds / CALLS;
    for number in 0..usual.saturating_add(LATE) {
        if number >= usual && found.read > 0 {
            break;
        }
        found = found.plus(read_once(rt, subscriber, &mut turn.dice)?);
    }
    let has_read = found.read > 0;
    found.check(has_read);
    Some(found)
}
