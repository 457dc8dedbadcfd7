//! Calls on handles of shared flows, and of emissions that wait, without contracts, for tests that only compare what is
//! returned.
use crate::host::Host;
use flow_law::{Exhausted, NumberError, OutOfMemory, Rejected};
use flow_shared::{BoundEmission, EmitAnswer, Emitter, PollAnswer, Reader};
use futures::executor::block_on;
use futures::{Stream, StreamExt};
use std::alloc::AllocGlobal;
use std::process::Abort;
use std::random::RandomSource;
use std::sync::{Barrier, Wait};
use std::thread::{sleep, yield_now};
use std::time::{Clock, Duration};

/// Takes the next value, if there is one.
pub fn next<R: Wait>(rt: &R, reader: &mut Reader<i64>) -> Result<Option<i64>, OutOfMemory> {
    reader.next(rt)
}

/// Waits for the next value.
pub fn receive<R: Wait>(rt: &R, reader: &mut Reader<i64>) -> Result<i64, OutOfMemory> {
    reader.receive(rt)
}

/// Emits a value unless it would have to wait for room. Returns whether the flow took it.
pub fn try_emit<R: Wait>(
    rt: &R,
    emitter: &mut Emitter<i64>,
    value: i64,
) -> Result<bool, Rejected<i64, Exhausted>> {
    emitter.try_emit(rt, value)
}

/// Emits a value, and waits until the emission is done.
pub fn send<R: Wait>(
    rt: &R,
    emitter: &mut Emitter<i64>,
    value: i64,
) -> Result<(), Rejected<i64, NumberError>> {
    emitter.send(rt, value)
}

/// A limit that no test reaches.
pub fn an_hour() -> Duration {
    Duration::from_secs(3_600)
}

/// Pauses until another thread has probably fallen asleep.
pub fn pause<R: Clock>(rt: &R) {
    sleep(rt, Duration::from_millis(5));
}

/// Returns the next `count` values of a stream. Its task sleeps in an executor until the flow wakes it.
pub fn next_of<R: Wait + Abort + RandomSource + AllocGlobal, S: Stream<Item: Drop>>(
    rt: &R,
    stream: S,
    count: usize,
) -> Vec<S::Item>
    requires { S.can_poll stream }
{
    match block_on(rt, stream.take(count).collect(rt.alloc())) {
        Ok(Ok(values)) => values,
        _ => panic!(rt; "values"),
    }
}

/// Waits until the other thread has begun. In every fourth run it then yields, so that the other thread can be first.
pub fn begin<R: Wait>(rt: &R, start: &Barrier, run: u32) {
    let _order = start.wait(rt);
    if run % 4 == 0 {
        for _ in 0..20 {
            yield_now();
        }
    }
}

/// Returns the emission. Ends the test unless it has to wait.
pub fn queued<R: Abort, E: Drop>(rt: &R, answer: EmitAnswer<i64, E>) -> BoundEmission<i64> {
    match answer {
        EmitAnswer::Queued(emission) => emission,
        EmitAnswer::Done(_emitter) => panic!(rt; "it waits"),
        EmitAnswer::Refused(_emitter, _rejected) => panic!(rt; "it waits"),
    }
}

/// Emits a value by another handle. Returns the emission, which has to wait.
pub fn emission_of<R: Wait + Abort>(
    rt: &R,
    emitter: &mut Emitter<i64>,
    value: i64,
) -> BoundEmission<i64> {
    queued(rt, emitter.another(rt).emit(rt, value))
}

/// Polls an emission without waiting for other callers, and returns it if it still waits.
pub fn try_poll(emission: BoundEmission<i64>) -> Option<BoundEmission<i64>> {
    match emission.try_poll() {
        Ok(PollAnswer::Waiting(emission)) => Some(emission),
        Ok(PollAnswer::Done(_emitter)) => None,
        Err(_emission) => None,
    }
}

/// Cancels an emission. Returns whether it waited.
pub fn cancel<R: Wait>(rt: &R, emission: BoundEmission<i64>) -> bool {
    let (_emitter, was_waiting) = emission.cancel(rt);
    was_waiting
}

/// Cancels an emission without waiting for other callers. Returns whether it waited.
pub fn try_cancel(emission: BoundEmission<i64>) -> bool {
    match emission.try_cancel() {
        Ok((_emitter, was_waiting)) => was_waiting,
        Err(_emission) => false,
    }
}

/// Emits a value, and cancels its emission once another one waits behind it. Returns whether it waited.
pub fn cancel_late<R: Host>(rt: &R, emitter: &mut Emitter<i64>, value: i64) -> bool {
    let emission = emission_of(rt, emitter, value);
    pause(rt);
    pause(rt);
    cancel(rt, emission)
}
