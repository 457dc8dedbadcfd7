//! Calls that race on two threads at a word flow. Each race goes on until each of its outcomes was seen.
use crate::compare::{compare, compare_any, rises};
use crate::handle_calls::begin;
use crate::host::Host;
use crate::races::{EACH, ONCE, race_until};
use crate::word_flows::{
    dropping, emit_all, new_word_emitter, new_word_flow, new_word_flow_reader,
};
use flow_law::{Busy, FlowFault, Refused};
use flow_word_shared::{WordEmitter, WordFlowReader};
use std::alloc::Global;
use std::process::Abort;
use std::sync::{Barrier, Wait};
use std::thread::join;

/// How many calls each thread makes in one race.
const CALLS: i64 = 500;

/// Emits the numbers from 1 to the last one, once the other thread has begun.
fn emit_beside<R: Wait + Abort>(rt: &R, start: &Barrier, emitter: &mut WordEmitter<i64>) {
    let _order = start.wait(rt);
    emit_all(rt, emitter, 1, CALLS);
}

/// Reads while the other thread emits, by attempts that read one cell. Values must rise. Returns how many attempts were
/// overrun.
fn overruns<R: Wait + Abort>(rt: &R, start: &Barrier, reader: &mut WordFlowReader<i64>) -> u32 {
    let _order = start.wait(rt);
    let mut last = 0i64;
    let mut overrun = 0u32;
    for _ in 0..CALLS {
        match reader.try_next() {
            Ok(Some(value)) => rises(rt, "try_next", &mut last, value),
            Ok(None) => {}
            Err(Busy) => overrun = overrun.wrapping_add(1),
        }
    }
    overrun
}

/// Emits into a buffer of one value beside a reader. After the race the reader gets the last value, unless it has it.
/// Returns how many of its attempts were overrun.
fn race_reader<R: Host>(rt: &R, alloc: Global) -> u32 {
    let mut emitter = new_word_emitter(rt, alloc, dropping(0, 1, u64::MAX));
    let mut reader = new_word_flow_reader(rt, &mut emitter);
    let start = Barrier::new(2);
    let (overrun, ()) = join(
        rt,
        || overruns(rt, &start, &mut reader),
        || emit_beside(rt, &start, &mut emitter),
    );
    compare_any(rt, "what is left", reader.next(rt), &[None, Some(CALLS)]);
    compare(rt, "next", reader.next(rt), None);
    overrun
}

#[test]
fn an_overrun_reader_reads_on(rt: HostRuntime) {
    race_until(&rt, ONCE, |_run| race_reader(&rt, rt.alloc()) > 0);
}

/// Emits by attempts. Returns how many values were emitted and how many were not, since the other emitter was faster.
fn attempts<R: Wait + Abort>(
    rt: &R,
    start: &Barrier,
    emitter: &mut WordEmitter<i64>,
) -> (u64, u64) {
    let _order = start.wait(rt);
    let mut emitted = 0u64;
    let mut busy = 0u64;
    for value in 1..=CALLS {
        match emitter.emit_now(value) {
            Ok(()) => emitted = emitted.wrapping_add(1),
            Err(refused) => {
                let fault = FlowFault::Busy;
                compare(rt, "emit_now", refused, Refused { value, fault });
                busy = busy.wrapping_add(1);
            }
        }
    }
    (emitted, busy)
}

/// Emits on two threads by attempts. Returns how many of these failed.
fn race_emitters<R: Host>(rt: &R, alloc: Global) -> u64 {
    let (closing, mut one) = new_word_flow(rt, alloc, dropping(0, 1, u64::MAX));
    let mut other = one.another(rt);
    let start = Barrier::new(2);
    let (first, second) = join(
        rt,
        || attempts(rt, &start, &mut one),
        || attempts(rt, &start, &mut other),
    );
    drop(one);
    drop(other);
    let emitted = first.0.wrapping_add(second.0);
    compare(rt, "emitted", closing.close(rt).emitted(), emitted);
    first.1.wrapping_add(second.1)
}

#[test]
fn an_emission_beside_another_one_is_busy(rt: HostRuntime) {
    race_until(&rt, ONCE, |_run| race_emitters(&rt, rt.alloc()) > 0);
}

/// Subscribes, and reads twice.
fn subscribe_and_read<R: Wait + Abort>(
    rt: &R,
    start: &Barrier,
    run: u32,
    emitter: &mut WordEmitter<i64>,
) -> (Option<i64>, Option<i64>) {
    begin(rt, start, run);
    let mut reader = new_word_flow_reader(rt, emitter);
    (reader.next(rt), reader.next(rt))
}

/// Empties the replay cache.
fn reset<R: Wait>(rt: &R, start: &Barrier, run: u32, emitter: &mut WordEmitter<i64>) {
    begin(rt, start, run);
    emitter.reset_replay_cache(rt);
}

/// Empties the replay cache beside a subscription. The new reader gets 7 if it subscribed first, and an old reader gets it
/// in any case. Returns whether the new reader got it.
fn race_reset<R: Host>(rt: &R, alloc: Global, run: u32) -> bool {
    let mut emitter = new_word_emitter(rt, alloc, dropping(1, 0, u64::MAX));
    let mut old = new_word_flow_reader(rt, &mut emitter);
    let mut other = emitter.another(rt);
    compare(rt, "emit", emitter.emit(rt, 7), Ok(()));
    let start = Barrier::new(2);
    let ((first, second), ()) = join(
        rt,
        || subscribe_and_read(rt, &start, run, &mut emitter),
        || reset(rt, &start, run.wrapping_add(2), &mut other),
    );
    compare(rt, "next of the old reader", old.next(rt), Some(7));
    compare_any(rt, "next of the new reader", first, &[None, Some(7)]);
    compare(rt, "its second next", second, None);
    first == Some(7)
}

#[test]
fn a_reset_comes_before_or_after_a_subscription(rt: HostRuntime) {
    race_until(&rt, EACH, |run| race_reset(&rt, rt.alloc(), run));
}
