//! Rounds of calls by one thread at flows that no other thread calls: no call is busy, and none is refused memory.
use crate::compare::compare;
use crate::values::text;
use flow_law::{Config, FlowValue};
use flow_shared::{EmitAnswer, Emitter, Reader, Setter, SharedFlow, StateFlow, StateReader};
use std::alloc::{AllocGlobal, Global};
use std::fmt::Debug;
use std::process::Abort;
use std::sync::Wait;

const ROUNDS: u32 = 10_000;

/// Returns a copy of the value. Ends the test if memory is refused.
fn copy_of<T: FlowValue>(rt: &impl Abort, value: &T) -> T {
    value.try_copy().expect(rt, "memory")
}

/// Emits a value and receives it, by calls that do not wait for other callers and then by others. Returns the emitter.
fn emit_and_receive<R: Wait + Abort, T: FlowValue + PartialEq + Debug>(
    rt: &R,
    emitter: Emitter<T>,
    reader: &mut Reader<T>,
    value: &T,
) -> Emitter<T> {
    let EmitAnswer::Done(mut emitter) = emitter.emit_now(copy_of(rt, value)) else {
        panic!(rt; "emit_now waits or is refused")
    };
    let received = reader.try_next();
    compare(rt, "try_next", received, Ok(Some(copy_of(rt, value))));
    let taken = emitter.try_emit(rt, copy_of(rt, value));
    compare(rt, "try_emit", taken, Ok(true));
    compare(rt, "next", reader.next(rt), Ok(Some(copy_of(rt, value))));
    emitter
}

/// Makes all rounds at a new shared flow with room for one value.
fn play_at_shared_flow<R: Wait + Abort, T: FlowValue + PartialEq + Debug>(
    rt: &R,
    alloc: Global,
    value: &T,
) {
    let made = SharedFlow::new(alloc, Config::new().extra(1));
    let (flow, seat) = made.expect(rt, "a flow");
    let mut emitter = flow.into_emitter(alloc, seat).expect(rt, "memory");
    let mut reader = emitter.subscribe(rt).expect(rt, "a reader");
    for _ in 0..ROUNDS {
        emitter = emit_and_receive(rt, emitter, &mut reader, value);
    }
}

/// Sets each of two values and receives it: the first one by calls that do not wait for other callers.
fn set_and_receive<R: Wait + Abort, T: FlowValue + PartialEq + Debug>(
    rt: &R,
    setter: &mut Setter<T>,
    reader: &mut StateReader<T>,
    values: [&T; 2],
) {
    let set = setter.try_set(copy_of(rt, values[0]));
    compare(rt, "try_set", set, Ok(()));
    let received = reader.try_next();
    compare(rt, "try_next", received, Ok(Some(copy_of(rt, values[0]))));
    setter.set(rt, copy_of(rt, values[1]));
    let received = reader.next(rt);
    compare(rt, "next", received, Ok(Some(copy_of(rt, values[1]))));
    compare(rt, "subscribers", setter.try_subscription_count(), Ok(1));
}

/// Makes all rounds at a new state flow.
fn play_at_state_flow<R: Wait + Abort, T: FlowValue + PartialEq + Debug>(
    rt: &R,
    alloc: Global,
    values: [&T; 2],
) {
    let made = StateFlow::new(alloc, copy_of(rt, values[1]), 1);
    let (flow, seat) = made.expect(rt, "a flow");
    let mut setter = flow.into_setter(alloc, seat).expect(rt, "memory");
    let mut reader = setter.subscribe(rt).expect(rt, "a reader");
    for _ in 0..ROUNDS {
        set_and_receive(rt, &mut setter, &mut reader, values);
    }
}

#[test]
fn alone_no_call_is_busy_or_refused(rt: HostRuntime) {
    play_at_shared_flow(&rt, rt.alloc(), &8i64);
    play_at_state_flow(&rt, rt.alloc(), [&4i64, &9i64]);
}

/// Each copy of a text takes memory.
#[test]
fn alone_no_call_is_busy_or_refused_a_copy(rt: HostRuntime) {
    let (four, nine) = (text(&rt, rt.alloc(), "four"), text(&rt, rt.alloc(), "nine"));
    play_at_shared_flow(&rt, rt.alloc(), &four);
    play_at_state_flow(&rt, rt.alloc(), [&four, &nine]);
}
