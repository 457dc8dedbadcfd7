//! Tasks that sleep until a flow has a value or room for them, polled by hand.
use crate::compare::compare;
use crate::flows::{new_emitter, new_reader};
use crate::handle_calls::next;
use crate::host::Host;
use flow_core::SharedCore;
use flow_law::{Config, NumberError, OutOfMemory, Rejected};
use flow_shared::{Emitter, Reader, ReceiveFuture, SendFuture};
use futures::task::Poll;
use futures::test::MockTask;
use std::process::Abort;
use std::sync::Wait;

/// How an emission ends.
type Sent = Result<(), Rejected<i64, NumberError>>;

/// Polls once. Returns what the subscriber receives, or `None` if the future is pending.
fn received(
    task: &MockTask,
    future: &mut ReceiveFuture<SharedCore<i64>>,
) -> Option<Result<i64, OutOfMemory>> {
    match task.poll(future) {
        Poll::Ready((_reader, received)) => Some(received),
        Poll::Pending => None,
    }
}

/// Polls once. Returns how the emission ended, or `None` if the future is pending.
fn sent(task: &MockTask, future: &mut SendFuture<i64>) -> Option<Sent> {
    match task.poll(future) {
        Poll::Ready((_emitter, sent)) => Some(sent),
        Poll::Pending => None,
    }
}

/// Checks that the subscriber's task sleeps after its first two polls, and that an emission wakes it.
fn is_woken(
    rt: &impl Abort,
    task: &MockTask,
    receive: &mut ReceiveFuture<SharedCore<i64>>,
    emitter_task: &MockTask,
    send: &mut SendFuture<i64>,
) {
    for _ in 0..2 {
        compare(rt, "the reader waits", received(task, receive), None);
        compare(rt, "the reader sleeps", task.is_woken(), false);
    }
    compare(rt, "the emitter waits", sent(emitter_task, send), None);
    compare(rt, "the emitter sleeps", emitter_task.is_woken(), false);
    compare(rt, "the emission wakes the reader", task.is_woken(), true);
    compare(rt, "the reader", received(task, receive), Some(Ok(7)));
}

/// Checks that the emitter's task is woken once each subscriber has received the value.
fn wakes_emitter<R: Wait + Abort>(
    rt: &R,
    task: &MockTask,
    reader: &mut Reader<i64>,
    send: &mut SendFuture<i64>,
) {
    compare(rt, "the emitter sleeps on", task.is_woken(), false);
    compare(rt, "the other reader", next(rt, reader), Ok(Some(7)));
    compare(rt, "the last reader wakes it", task.is_woken(), true);
    compare(rt, "the emission is done", sent(task, send), Some(Ok(())));
}

/// Checks that a subscriber's task sleeps until 7 is emitted, and the emitter's task until that subscriber and a reader
/// have received it.
fn follow<R: Host>(
    rt: &R,
    receive: &mut ReceiveFuture<SharedCore<i64>>,
    reader: &mut Reader<i64>,
    send: &mut SendFuture<i64>,
) {
    let task = MockTask::new(rt).expect(rt, "a task");
    let emitter_task = MockTask::new(rt).expect(rt, "a task");
    is_woken(rt, &task, receive, &emitter_task, send);
    wakes_emitter(rt, &emitter_task, reader, send);
}

/// Makes the futures of two subscribers and an emission.
fn follow_all<R: Host>(rt: &R, emitter: &mut Emitter<i64>) {
    let mut reader = new_reader(rt, emitter);
    let mut receive = new_reader(rt, emitter).into_receive();
    let mut send = emitter.another(rt).into_send(7);
    follow(rt, &mut receive, &mut reader, &mut send);
}

/// Without a buffer a reader sleeps until a value is emitted, and the emitter until each reader has received it.
#[test]
fn a_reader_and_its_emitter_sleep_until_they_go_on(rt: HostRuntime) {
    follow_all(&rt, &mut new_emitter(&rt, rt.alloc(), Config::new()));
}
