//! Readers of a word flow that sleep until a value is emitted.
use crate::compare::compare;
use crate::handle_calls::{next_of, pause};
use crate::host::Host;
use crate::word_flows::{dropping, new_word_emitter, new_word_flow_reader};
use flow_word_shared::{WordEmitter, WordFlowReader, WordReceiveFuture};
use futures::task::Poll;
use futures::test::MockTask;
use std::sync::Wait;
use std::thread::join;

/// Polls once. Returns what the subscriber receives, or `None` if the future is pending.
fn received(task: &MockTask, future: &mut WordReceiveFuture<i64>) -> Option<i64> {
    match task.poll(future) {
        Poll::Ready((_reader, value)) => Some(value),
        Poll::Pending => None,
    }
}

/// Polls a future of a new reader before and after an emission, which wakes its task.
fn follow<R: Host>(rt: &R, emitter: &mut WordEmitter<i64>) {
    let task = MockTask::new(rt).expect(rt, "a task");
    let mut future = new_word_flow_reader(rt, emitter).into_receive();
    for _ in 0..2 {
        compare(rt, "no value yet", received(&task, &mut future), None);
        compare(rt, "woken before the emission", task.is_woken(), false);
    }
    compare(rt, "emit", emitter.emit(rt, 7), Ok(()));
    compare(rt, "woken after the emission", task.is_woken(), true);
    compare(rt, "a value", received(&task, &mut future), Some(7));
    compare(rt, "subscribers", emitter.subscription_count(), 0);
}

/// Drops a future whose task sleeps. The drop ends its subscription, and wakes the task.
fn leave<R: Host>(rt: &R, emitter: &mut WordEmitter<i64>) {
    let task = MockTask::new(rt).expect(rt, "a task");
    let mut future = new_word_flow_reader(rt, emitter).into_receive();
    compare(rt, "poll", received(&task, &mut future), None);
    compare(rt, "subscribers", emitter.subscription_count(), 1);
    drop(future);
    compare(rt, "woken by the drop", task.is_woken(), true);
    compare(rt, "after the drop", emitter.subscription_count(), 0);
}

#[test]
fn an_emission_wakes_the_task_of_a_reader(rt: HostRuntime) {
    let mut emitter = new_word_emitter(&rt, rt.alloc(), dropping(0, 2, u64::MAX));
    follow(&rt, &mut emitter);
    leave(&rt, &mut emitter);
}

/// Emits the numbers from 1 to 3, each after a pause.
fn emit_late<R: Host>(rt: &R, emitter: &mut WordEmitter<i64>) {
    for value in 1..=3 {
        pause(rt);
        compare(rt, "emit", emitter.emit(rt, value), Ok(()));
    }
}

/// Receives three values.
fn receive_three<R: Wait>(rt: &R, reader: &mut WordFlowReader<i64>) -> (i64, i64, i64) {
    (reader.receive(rt), reader.receive(rt), reader.receive(rt))
}

/// Returns the first three items of the reader's stream.
fn stream_three<R: Host>(rt: &R, reader: WordFlowReader<i64>) -> Vec<i64> {
    next_of(rt, reader.into_stream(), 3)
}

/// One reader receives as a thread, and the other one as a stream.
fn receive_twice<R: Host>(
    rt: &R,
    reader: &mut WordFlowReader<i64>,
    other: WordFlowReader<i64>,
) -> ((i64, i64, i64), Vec<i64>) {
    join(rt, || receive_three(rt, reader), || stream_three(rt, other))
}

/// A third thread emits.
#[test]
fn an_emission_wakes_readers_that_sleep(rt: HostRuntime) {
    let mut emitter = new_word_emitter(&rt, rt.alloc(), dropping(0, 4, u64::MAX));
    let mut reader = new_word_flow_reader(&rt, &mut emitter);
    let other = new_word_flow_reader(&rt, &mut emitter);
    let ((), (got, streamed)) = join(
        &rt,
        || emit_late(&rt, &mut emitter),
        || receive_twice(&rt, &mut reader, other),
    );
    compare(&rt, "received by a thread", got, (1, 2, 3));
    compare(&rt, "received by a stream", streamed.as_slice(), &[1, 2, 3]);
}
