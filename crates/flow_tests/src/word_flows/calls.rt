//! Calls of the handles of a word flow that no script makes: calls at once, waits, drains, drops, and the end of a flow.
use crate::compare::compare;
use crate::word_flows::{
    dropping, emit_all, new_word_emitter, new_word_flow, new_word_flow_reader,
};
use flow_law::{Drained, Exhausted, Rejected};
use flow_word_shared::WordFlowReader;
use std::alloc::Global;
use std::process::Abort;
use std::sync::Wait;
use std::time::Duration;

/// The flow issues four numbers: one to the reader, and one to each of three values.
#[test]
fn calls_at_once_and_waits_of_a_word_flow(rt: HostRuntime) {
    let mut emitter = new_word_emitter(&rt, rt.alloc(), dropping(1, 1, 4));
    let mut reader = new_word_flow_reader(&rt, &mut emitter);
    let limit = Duration::from_millis(1);
    compare(&rt, "emit 1", emitter.emit(&rt, 1), Ok(()));
    compare(&rt, "try_next", reader.try_next(), Ok(Some(1)));
    compare(&rt, "try_next of none", reader.try_next(), Ok(None));
    compare(&rt, "emit_now 2", emitter.emit_now(2), Ok(()));
    compare(&rt, "receive", reader.receive(&rt), 2);
    let late = reader.receive_timeout(&rt, limit);
    compare(&rt, "no value in time", late, None);
    compare(&rt, "emit 3", emitter.emit(&rt, 3), Ok(()));
    let (value, error) = (4, Exhausted);
    let refused = Err(Rejected { value, error });
    compare(&rt, "emit 4", emitter.emit(&rt, 4), refused);
    drop(reader);
    compare(&rt, "subscribers", emitter.subscription_count(), 0);
}

/// Drains at most `most` values, and compares them, and why the drain stopped.
fn drains<R: Wait + Abort>(
    rt: &R,
    alloc: Global,
    reader: &mut WordFlowReader<i64>,
    most: usize,
    stopped: Drained,
    values: &[i64],
) {
    let mut drained = Vec::new(alloc);
    let end = reader.drain(rt, most, &mut drained);
    compare(rt, "drain", end, Ok(stopped));
    compare(rt, "the drained values", drained.as_slice(), values);
}

/// A drain takes what there is, at most as many values as it is asked for.
#[test]
fn a_reader_of_a_word_flow_drains(rt: HostRuntime) {
    let alloc = rt.alloc();
    let mut emitter = new_word_emitter(&rt, alloc, dropping(0, 5, u64::MAX));
    let mut reader = new_word_flow_reader(&rt, &mut emitter);
    drains(&rt, alloc, &mut reader, 3, Drained::Empty, &[]);
    emit_all(&rt, &mut emitter, 1, 4);
    drains(&rt, alloc, &mut reader, 0, Drained::Most, &[]);
    drains(&rt, alloc, &mut reader, 1, Drained::Most, &[1]);
    drains(&rt, alloc, &mut reader, 2, Drained::Most, &[2, 3]);
    drains(&rt, alloc, &mut reader, 3, Drained::Empty, &[4]);
    emit_all(&rt, &mut emitter, 5, 10);
    let rest = &[6, 7, 8, 9, 10];
    drains(&rt, alloc, &mut reader, 9, Drained::Empty, rest);
}

/// What the flow has at its end: what other seats did, too.
#[test]
fn a_closed_word_flow_has_its_last_values(rt: HostRuntime) {
    let (closing, mut emitter) = new_word_flow(&rt, rt.alloc(), dropping(2, 1, 9));
    let mut other = emitter.another(&rt);
    let reader = new_word_flow_reader(&rt, &mut other);
    emit_all(&rt, &mut other, 1, 4);
    let _subscription = reader.into_subscription();
    drop(other);
    drop(emitter);
    let closed = closing.close(&rt);
    compare(&rt, "emitted", closed.emitted(), 4);
    compare(&rt, "subscribers", closed.subscription_count(), 1);
    let cache = closed.replay_cache().expect(&rt, "memory");
    compare(&rt, "replay cache", cache.as_slice(), &[3, 4]);
}
