//! A thread that emits by futures, and receives from a stream.
use crate::crew::Turn;
use crate::found::Found;
use crate::order::{Gets, Order, value_of};
use flow_core::SharedCore;
use flow_law::OutOfMemory;
use flow_shared::{Emitter, FlowValues};
use futures::executor::block_on;
use futures::{Future, Stream, StreamExt};
use std::alloc::AllocGlobal;
use std::random::RandomSource;
use std::sync::Wait;

/// Waits for a future. Returns None if memory is refused.
fn wait_for<R: Wait + RandomSource + AllocGlobal, F: Future>(rt: &R, future: F) -> Option<F::Output>
    requires { F.can_poll future }
{
    block_on(rt, future).ok()
}

/// Emits a value. Returns None if memory is refused.
fn send<R: Wait + RandomSource + AllocGlobal>(
    rt: &R,
    emitter: &mut Emitter<u64>,
    value: u64,
) -> Option<()> {
    match wait_for(rt, emitter.another(rt).into_send(value)) {
        Some((_emitter, Ok(()))) => Some(()),
        _ => None,
    }
}

/// Receives the next value of a stream. Returns None if memory is refused.
fn receive<R: Wait + RandomSource + AllocGlobal, S: Stream<Item = Result<u64, OutOfMemory>>>(
    rt: &R,
    values: &mut S,
) -> Option<u64>
    requires { S.can_poll values.old }
{
    match wait_for(rt, values.next()) {
        Some(Some(Ok(value))) => Some(value),
        _ => None,
    }
}

/// Emits the values of this emitter, and receives a value after each, its own or another one. Checks that it received
/// one each time. Returns None if memory is refused.
fn exchange<R: Wait + RandomSource + AllocGlobal>(
    rt: &R,
    emitter: &mut Emitter<u64>,
    values: &mut FlowValues<SharedCore<u64>>,
    turn: &Turn,
) -> Option<Found> {
    let mut order = Order::new(Gets::Rising);
    for place in 0..turn.rounds {
        send(rt, emitter, value_of(turn.number, u64::from(place)))?;
        order.add(receive(rt, values)?);
    }
    let has_read_each = order.found.read == u64::from(turn.rounds);
    order.found.check(has_read_each);
    Some(order.found)
}

/// Subscribes, and makes all rounds. Returns None if memory is refused.
pub fn exchange_all<R: Wait + RandomSource + AllocGlobal>(
    rt: &R,
    emitter: &mut Emitter<u64>,
    turn: &Turn,
) -> Option<Found> {
    let Ok(reader) = emitter.subscribe(rt) else {
        return None;
    };
    let mut values = reader.into_stream();
    exchange(rt, emitter, &mut values, turn)
}
