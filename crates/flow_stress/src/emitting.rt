//! A thread that emits into a shared flow that suspends, by `emit` and by `try_emit`.
use crate::crew::Turn;
use crate::found::{Found, NOTHING};
use crate::order::value_of;
use flow_shared::{BoundEmission, EmitAnswer, Emitter, PollAnswer};
use rand_core::utils::NextWord;
use std::sync::Wait;
use std::thread::yield_now;

/// How often an emission that waits is polled before it is cancelled.
const POLLS: u32 = 100;

/// Polls an emission, and cancels it if it waits too long. Returns whether its value was emitted.
fn is_done_in_time<R: Wait>(rt: &R, emission: BoundEmission<u64>) -> bool {
    let mut emission = emission;
    for _ in 0..POLLS {
        yield_now();
        match emission.poll(rt) {
            PollAnswer::Done(_emitter) => return true,
            PollAnswer::Waiting(back) => emission = back,
        }
    }
    let (_emitter, was_waiting) = emission.cancel(rt);
    !was_waiting
}

/// Emits a value, and waits a while for room. Returns whether it was emitted, or None if memory is refused.
fn emit<R: Wait>(rt: &R, emitter: &mut Emitter<u64>, value: u64) -> Option<bool> {
    match emitter.another(rt).emit(rt, value) {
        EmitAnswer::Done(_emitter) => Some(true),
        EmitAnswer::Queued(emission) => Some(is_done_in_time(rt, emission)),
        EmitAnswer::Refused(_emitter, _rejected) => None,
    }
}

/// Emits once in each round, by the call that the dice choose. Tries a value that was not emitted again in the next
/// round. Returns None if memory is refused.
pub fn emit_all<R: Wait>(rt: &R, emitter: &mut Emitter<u64>, turn: &mut Turn) -> Option<Found> {
    let mut place = 0u64;
    for _ in 0..turn.rounds {
        let value = value_of(turn.number, place);
        let is_emitted = if turn.dice.next_word() % 2 == 0 {
            emit(rt, emitter, value)?
        } else {
            emitter.try_emit(rt, value).ok()?
        };
        if is_emitted {
            place = place.wrapping_add(1);
        } else {
            yield_now();
        }
    }
    Some(NOTHING)
}
