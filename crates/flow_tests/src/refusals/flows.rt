//! Worked examples of flows of boxed values, each copy of which takes memory. Each call that `again` makes is refused in
//! some run, and no other call is.
use crate::compare::compare;
use crate::host::{Host, Memory};
use crate::refusals::again::{RefusedCalls, refuse_each};
use crate::values::{are, boxed, boxes, number_in};
use flow_core::{FlowCore, SubscriberCalls};
use flow_law::{Boxed, Config, FlowFault, NumberError, Overflow};
use flow_shared::{
    BoundEmission, EmitAnswer, Emitter, FlowReader, Reader, Setter, SharedFlow, StateFlow,
};
use std::process::Abort;

/// A flow that keeps one value for new subscribers, and one more.
pub fn small() -> Config {
    Config::new().replay(1).extra(1)
}

type BoxEmitter<A> = Emitter<Boxed<i64, A>, A>;

type BoxReader<A> = Reader<Boxed<i64, A>, A>;

type BoxEmission<A> = BoundEmission<Boxed<i64, A>, A>;

/// Returns the first emitter of a new flow.
fn first_emitter<A: Memory>(memory: A, config: Config) -> Result<BoxEmitter<A>, FlowFault> {
    let (flow, seat) = SharedFlow::<Boxed<i64, A>, A>::new(memory, config)?;
    Ok(flow.into_emitter(memory, seat)?)
}

/// Emits a value by another handle. Returns the emission if it waits. A refusal hands the value back.
fn emit<R: Host, A: Memory>(
    rt: &R,
    memory: A,
    emitter: &mut BoxEmitter<A>,
    number: i64,
) -> Result<Option<BoxEmission<A>>, NumberError> {
    match emitter.another(rt).emit(rt, boxed(rt, memory, number)) {
        EmitAnswer::Done(_emitter) => Ok(None),
        EmitAnswer::Queued(emission) => Ok(Some(emission)),
        EmitAnswer::Refused(_emitter, rejected) => {
            compare(rt, "handed back", *rejected.value.value(), number);
            Err(rejected.error)
        }
    }
}

/// Emits a value, which takes no memory.
fn emits<R: Host, A: Memory>(rt: &R, memory: A, emitter: &mut BoxEmitter<A>, number: i64) {
    let taken = emitter.try_emit(rt, boxed(rt, memory, number));
    compare(rt, "try_emit", taken, Ok(true));
}

/// Subscribes with own first values. A refusal hands them back.
fn subscribe_with<R: Host, A: Memory>(
    rt: &R,
    memory: A,
    emitter: &mut BoxEmitter<A>,
    first: &[i64],
) -> Result<BoxReader<A>, NumberError> {
    match emitter.subscribe_with(rt, boxes(rt, memory, first)) {
        Ok(reader) => Ok(reader),
        Err(rejected) => {
            are(rt, "handed back", rejected.value.as_slice(), first);
            Err(rejected.error)
        }
    }
}

/// Receives this value, whose copy takes memory.
fn receives<R: Host, S: FlowCore<Item = Boxed<i64, A>> + SubscriberCalls + Drop, A: Memory>(
    rt: &R,
    calls: &mut RefusedCalls,
    name: &str,
    reader: &mut FlowReader<S, A>,
    number: i64,
) {
    let received = calls.again(rt, name, || reader.next(rt));
    compare(rt, name, number_in(received), Some(number));
}

/// Compares the replay cache, whose copies take memory.
fn caches<R: Host, A: Memory>(
    rt: &R,
    calls: &mut RefusedCalls,
    emitter: &mut BoxEmitter<A>,
    numbers: &[i64],
) {
    let cache = calls.again(rt, "replay_cache", || emitter.replay_cache(rt));
    are(rt, "replay_cache", cache.as_slice(), numbers);
}

/// 3 waits for room, until the subscriber has received 1.
fn slow_subscriber<R: Host, A: Memory>(rt: &R, memory: A, calls: &mut RefusedCalls) {
    let mut emitter = calls.again(rt, "new", || first_emitter(memory, small()));
    let mut reader = calls.again(rt, "subscribe_with", || {
        subscribe_with(rt, memory, &mut emitter, &[])
    });
    emits(rt, memory, &mut emitter, 1);
    emits(rt, memory, &mut emitter, 2);
    let emission = calls.again(rt, "emit 3", || emit(rt, memory, &mut emitter, 3));
    compare(rt, "emit 3 waits", emission.is_some(), true);
    receives(rt, calls, "next 1", &mut reader, 1);
    caches(rt, calls, &mut emitter, &[3]);
    let second = calls.again(rt, "try_next 2", || reader.try_next());
    compare(rt, "try_next 2", number_in(second), Some(2));
    receives(rt, calls, "next 3", &mut reader, 3);
    compare(rt, "try_next of none", reader.try_next(), Ok(None));
    compare(rt, "subscribers", emitter.try_subscription_count(), Ok(1));
    compare(rt, "reset", emitter.try_reset_replay_cache(), Ok(()));
    let cache = emitter.replay_cache(rt).expect(rt, "no copy is made");
    are(rt, "replay_cache after the reset", cache.as_slice(), &[]);
}

#[test]
fn an_emission_that_waits_is_refused(rt: HostRuntime) {
    refuse_each(&rt, |memory, calls| { slow_subscriber(&rt, memory, calls) });
}

/// Own first values come before the replay cache, are moved, and are never dropped.
fn own_first_values<R: Host, A: Memory>(rt: &R, memory: A, calls: &mut RefusedCalls) {
    let config = small().overflow(Overflow::DropOldest);
    let mut emitter = calls.again(rt, "new", || first_emitter(memory, config));
    emits(rt, memory, &mut emitter, 1);
    let mut reader = calls.again(rt, "subscribe_with", || {
        subscribe_with(rt, memory, &mut emitter, &[8, 9])
    });
    for number in 2..=4 {
        let waits = emit(rt, memory, &mut emitter, number).map(|left| left.is_some());
        compare(rt, "emit waits", waits, Ok(false));
    }
    for number in 8..=9 {
        let received = reader.next(rt).expect(rt, "a value that is moved");
        compare(rt, "next, moved", number_in(received), Some(number));
    }
    receives(rt, calls, "next 3", &mut reader, 3);
    receives(rt, calls, "next 4", &mut reader, 4);
    compare(rt, "next of none", reader.next(rt), Ok(None));
    caches(rt, calls, &mut emitter, &[4]);
}

#[test]
fn a_subscription_with_first_values_is_refused(rt: HostRuntime) {
    refuse_each(&rt, |memory, calls| {
        own_first_values(&rt, memory, calls)
    });
}

/// A new subscriber receives the replay cache.
fn replay_cache<R: Host, A: Memory>(rt: &R, memory: A, calls: &mut RefusedCalls) {
    let mut emitter = calls.again(rt, "new", || first_emitter(memory, Config::new().replay(2)));
    let cache = emitter.replay_cache(rt).expect(rt, "no copy is made");
    are(rt, "the first replay_cache", cache.as_slice(), &[]);
    for number in 1..=3 {
        emits(rt, memory, &mut emitter, number);
    }
    caches(rt, calls, &mut emitter, &[2, 3]);
    let mut reader = calls.again(rt, "subscribe_with", || {
        subscribe_with(rt, memory, &mut emitter, &[])
    });
    receives(rt, calls, "next 2", &mut reader, 2);
    receives(rt, calls, "next 3", &mut reader, 3);
    compare(rt, "next of none", reader.next(rt), Ok(None));
}

#[test]
fn a_replay_cache_is_refused(rt: HostRuntime) {
    refuse_each(&rt, |memory, calls| { replay_cache(&rt, memory, calls) });
}

/// There is one subscriber.
fn subscription<R: Host, A: Memory>(rt: &R, memory: A, calls: &mut RefusedCalls) {
    let mut emitter = calls.again(rt, "new", || first_emitter(memory, small()));
    compare(rt, "subscribers", emitter.subscription_count(rt), 0);
    let _reader = calls.again(rt, "subscribe", || emitter.subscribe(rt));
    compare(rt, "subscribers", emitter.subscription_count(rt), 1);
}

#[test]
fn a_subscription_is_refused(rt: HostRuntime) {
    refuse_each(&rt, |memory, calls| { subscription(&rt, memory, calls) });
}

/// Returns the first setter of a new flow that begins with 0.
fn first_setter<A: Memory>(
    rt: &impl Abort,
    memory: A,
) -> Result<Setter<Boxed<i64, A>, A>, FlowFault> {
    let (flow, seat) = StateFlow::new(memory, boxed(rt, memory, 0), u64::MAX)?;
    Ok(flow.into_setter(memory, seat)?)
}

/// A subscriber of a state flow skips 1.
fn state_flow<R: Host, A: Memory>(rt: &R, memory: A, calls: &mut RefusedCalls) {
    let mut setter = calls.again(rt, "new", || first_setter(rt, memory));
    let mut reader = calls.again(rt, "subscribe", || setter.subscribe(rt));
    receives(rt, calls, "next 0", &mut reader, 0);
    setter.set(rt, boxed(rt, memory, 1));
    let set = setter.try_set(boxed(rt, memory, 5));
    compare(rt, "try_set 5", set, Ok(()));
    receives(rt, calls, "next 5", &mut reader, 5);
    compare(rt, "next of none", reader.next(rt), Ok(None));
    let cache = calls.again(rt, "replay_cache", || setter.replay_cache(rt));
    are(rt, "replay_cache", cache.as_slice(), &[5]);
    let value = calls.again(rt, "value", || setter.value(rt));
    compare(rt, "value", *value.value(), 5);
    compare(rt, "subscribers", setter.try_subscription_count(), Ok(1));
}

#[test]
fn a_state_flow_is_refused(rt: HostRuntime) {
    refuse_each(&rt, |memory, calls| { state_flow(&rt, memory, calls) });
}
