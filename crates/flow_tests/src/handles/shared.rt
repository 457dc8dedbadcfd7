//! Handles of shared flows on one thread.
ghost use Rattle.std.specs.Prelude.{◌≡◌};
ghost use Rattle.std.specs.Arc.{arc_value};

use crate::compare::compare;
use crate::flows::{new_emitter, new_owned_flow, new_reader};
use crate::handle_calls::{
    cancel, emission_of, next, queued, receive, send, try_cancel, try_emit, try_poll,
};
use flow_law::{Config, Exhausted, NumberError, Rejected};
use flow_shared::{BoundEmission, DrainEnd, EmitAnswer, Emitter, Reader, SharedFlow};
use std::alloc::AllocGlobal;
use std::process::Abort;
use std::sync::{Arc, Wait};
use std::time::Duration;

/// Calls that do not wait for other callers answer as the others.
#[test]
fn calls_at_once_answer_as_the_others(rt: HostRuntime) {
    let mut emitter = new_emitter(&rt, rt.alloc(), Config::new().replay(1).extra(1));
    let mut reader = new_reader(&rt, &mut emitter);
    compare(&rt, "try_emit", try_emit(&rt, &mut emitter, 1), Ok(true));
    compare(&rt, "try_next", reader.try_next(), Ok(Some(1)));
    compare(&rt, "try_next of none", reader.try_next(), Ok(None));
    let count = emitter.try_subscription_count();
    compare(&rt, "try_subscription_count", count, Ok(1));
    let reset = emitter.try_reset_replay_cache();
    compare(&rt, "try_reset_replay_cache", reset, Ok(()));
    emitter.seen();
    let cache = emitter.replay_cache(&rt).expect(&rt, "memory");
    compare(&rt, "values in the cache", cache.len(), 0);
}

/// Subscribes, takes the subscription out of its reader, and returns a reader that is bound to it again.
fn bound_again<R: Wait + Abort>(
    rt: &R,
    flow: Arc<SharedFlow<i64>>,
    emitter: &mut Emitter<i64>,
) -> Reader<i64>
    requires { emitter.old.flow ≡ arc_value flow }
{
    Reader::new(flow, new_reader(rt, emitter).into_subscription())
}

/// Lets the emitter meet another emitter and another reader, and drops these.
pub fn meet<R: Wait + Abort>(rt: &R, emitter: &mut Emitter<i64>) {
    let mut other = emitter.another(rt);
    emitter.meet(&mut other);
    let mut reader = new_reader(rt, emitter);
    emitter.meet_reader(&mut reader);
}

/// An emitter that a reader made emits like the first one, and those that were met and dropped count no more.
#[test]
fn a_reader_makes_an_emitter(rt: HostRuntime) {
    let (flow, mut emitter) = new_owned_flow(&rt, rt.alloc(), Config::new().extra(8));
    let mut reader = bound_again(&rt, flow, &mut emitter);
    compare(&rt, "try_emit 1", try_emit(&rt, &mut emitter, 1), Ok(true));
    let taken = try_emit(&rt, &mut reader.another(&rt), 2);
    compare(&rt, "try_emit 2", taken, Ok(true));
    compare(&rt, "the first value", next(&rt, &mut reader), Ok(Some(1)));
    meet(&rt, &mut emitter);
    compare(&rt, "subscribers", emitter.subscription_count(&rt), 1);
    compare(&rt, "the second value", next(&rt, &mut reader), Ok(Some(2)));
}

/// A value that was emitted is received at once. A wait ends in time, like `withTimeoutOrNull`: with the value, or with
/// null if none was emitted.
#[test]
fn a_wait_ends_in_time(rt: HostRuntime) {
    let mut emitter = new_emitter(&rt, rt.alloc(), Config::new().extra(2));
    let mut reader = new_reader(&rt, &mut emitter);
    let limit = Duration::from_millis(1);
    compare(&rt, "send 1", send(&rt, &mut emitter, 1), Ok(()));
    compare(&rt, "send 2", send(&rt, &mut emitter, 2), Ok(()));
    compare(&rt, "the first value", receive(&rt, &mut reader), Ok(1));
    compare(&rt, "the second value", receive(&rt, &mut reader), Ok(2));
    let received = reader.receive_timeout(&rt, limit);
    compare(&rt, "no value in time", received, Ok(None));
    compare(&rt, "send 7", send(&rt, &mut emitter, 7), Ok(()));
    let received = reader.receive_timeout(&rt, limit);
    compare(&rt, "a value in time", received, Ok(Some(7)));
    let received = reader.receive_timeout(&rt, Duration::from_millis(0));
    compare(&rt, "no value at once", received, Ok(None));
}

/// Subscribes with no values, and drops the reader. Returns why it is refused.
fn subscribe_with<R: Wait + AllocGlobal>(
    rt: &R,
    emitter: &mut Emitter<i64>,
) -> Option<NumberError> {
    let refused = emitter.subscribe_with(rt, Vec::new(rt.alloc())).err()?;
    Some(refused.error)
}

/// The two numbers of the flow were issued to two readers.
#[test]
fn a_refusal_hands_the_value_back(rt: HostRuntime) {
    let mut emitter = new_emitter(&rt, rt.alloc(), Config::new().extra(8).limit(2));
    let _reader = new_reader(&rt, &mut emitter);
    compare(&rt, "number 2", subscribe_with(&rt, &mut emitter), None);
    let exhausted = Some(NumberError::Exhausted);
    compare(&rt, "number 3", emitter.subscribe(&rt).err(), exhausted);
    let refused = subscribe_with(&rt, &mut emitter);
    compare(&rt, "number 4", refused, exhausted);
    let (value, error) = (5, Exhausted);
    let refused = Err(Rejected { value, error });
    compare(&rt, "try_emit 5", try_emit(&rt, &mut emitter, 5), refused);
    let (value, error) = (6, NumberError::Exhausted);
    let refused = Err(Rejected { value, error });
    compare(&rt, "send 6", send(&rt, &mut emitter, 6), refused);
}

/// A reader that is dropped is no longer counted, and emitters no longer wait for it.
#[test]
fn a_dropped_reader_ends_its_subscription(rt: HostRuntime) {
    let mut emitter = new_emitter(&rt, rt.alloc(), Config::new().extra(1));
    let mut reader = new_reader(&rt, &mut emitter);
    let other = new_reader(&rt, &mut emitter);
    compare(&rt, "try_emit 1", try_emit(&rt, &mut emitter, 1), Ok(true));
    compare(&rt, "next", next(&rt, &mut reader), Ok(Some(1)));
    compare(&rt, "no room", try_emit(&rt, &mut emitter, 2), Ok(false));
    drop(other);
    compare(&rt, "subscribers", emitter.subscription_count(&rt), 1);
    compare(&rt, "try_emit 2", try_emit(&rt, &mut emitter, 2), Ok(true));
}

/// No reader receives the value of an emission that was dropped, or cancelled.
#[test]
fn a_dropped_emission_is_cancelled(rt: HostRuntime) {
    let mut emitter = new_emitter(&rt, rt.alloc(), Config::new());
    let mut reader = new_reader(&rt, &mut emitter);
    drop(emission_of(&rt, &mut emitter, 4));
    compare(&rt, "next, dropped", next(&rt, &mut reader), Ok(None));
    let emission = queued(&rt, emitter.another(&rt).emit_now(2));
    compare(&rt, "cancel of an emit_now", cancel(&rt, emission), true);
    let emission = try_poll(emission_of(&rt, &mut emitter, 3)).expect(&rt, "it waits");
    compare(&rt, "try_cancel", try_cancel(emission), true);
    compare(&rt, "next, cancelled", next(&rt, &mut reader), Ok(None));
}

/// A drain takes at most the number of values that its caller passes.
#[test]
fn a_reader_drains(rt: HostRuntime) {
    let mut emitter = new_emitter(&rt, rt.alloc(), Config::new().extra(4));
    let mut reader = new_reader(&rt, &mut emitter);
    compare(&rt, "try_emit 1", try_emit(&rt, &mut emitter, 1), Ok(true));
    compare(&rt, "try_emit 2", try_emit(&rt, &mut emitter, 2), Ok(true));
    let mut values = Vec::new(rt.alloc());
    let end = reader.drain(&rt, 1, &mut values);
    compare(&rt, "drain of 1", end, Ok(DrainEnd::Most));
    let end = reader.drain(&rt, 9, &mut values);
    compare(&rt, "drain of 9", end, Ok(DrainEnd::Empty));
    compare(&rt, "the values", values.as_slice(), [1, 2].as_slice());
}

/// Emits 4, takes the emission out of its handle, binds it again and cancels it. Returns whether it waited.
fn is_bound_again<R: Wait>(rt: &R, flow: Arc<SharedFlow<i64>>, emitter: Emitter<i64>) -> bool
    requires { emitter.flow ≡ arc_value flow }
{
    match emitter.emit(rt, 4) {
        EmitAnswer::Queued(emission) => {
            let emission = BoundEmission::new(flow, emission.into_emission());
            emission.cancel(rt).1
        }
        EmitAnswer::Done(_emitter) => false,
        EmitAnswer::Refused(_emitter, _rejected) => false,
    }
}

#[test]
fn an_emission_gives_its_token_back(rt: HostRuntime) {
    let (flow, mut emitter) = new_owned_flow(&rt, rt.alloc(), Config::new());
    let _reader = new_reader(&rt, &mut emitter);
    compare(&rt, "it waited", is_bound_again(&rt, flow, emitter), true);
}
