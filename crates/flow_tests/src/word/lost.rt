//! Futures and streams of a word state that are dropped while their tasks sleep.
use crate::compare::compare;
use crate::flows::{new_word_reader, new_word_setter};
use crate::host::Host;
use flow_word::{WordReader, WordSetter};
use futures::Stream;
use futures::test::MockTask;
use std::process::Abort;
use std::sync::{Barrier, Wait};
use std::thread::for_each_mut;

/// The number of futures, and of streams, that are lost.
const LOST: u32 = 1_000;

/// The number of numbers that the flow issues.
const NUMBERS: u32 = 100_000;

/// Begins a poll that asks for nothing, so that the task counts as woken only if it is woken after this.
fn sleep_again(task: &MockTask) {
    task.enter(|_cx| ());
}

/// Subscribes, and takes the current value.
fn new_idle_reader<R: Wait + Abort>(rt: &R, setter: &mut WordSetter<i64>) -> WordReader<i64> {
    let mut reader = new_word_reader(rt, setter);
    let _current = reader.next();
    reader
}

/// Polls a future of a change once, and drops it. Returns whether it waited.
fn lose_future(task: &MockTask, reader: WordReader<i64>) -> bool {
    task.poll(&mut reader.into_changed()).is_pending()
}

/// Polls a stream once, and drops it. Returns whether it waited.
fn lose_stream(task: &MockTask, reader: WordReader<i64>) -> bool {
    let mut values = reader.into_stream();
    task.enter(|cx| values.poll_next(cx).is_pending())
}

/// Polls a future once, takes its reader out, and unsubscribes. Returns whether it waited.
fn leave_future(task: &MockTask, reader: WordReader<i64>) -> bool {
    let mut future = reader.into_changed();
    let waits = task.poll(&mut future).is_pending();
    match future.into_reader() {
        Some(reader) => {
            let _setter = reader.unsubscribe();
            waits
        }
        None => false,
    }
}

/// A change wakes no task whose future or stream was dropped, or whose reader has unsubscribed.
#[test]
fn lost_futures_and_streams_leave_no_waker(rt: HostRuntime) {
    let mut setter = new_word_setter(&rt, rt.alloc(), 0, NUMBERS);
    let task = MockTask::new(&rt).expect(&rt, "a task");
    let mut waited = true;
    for _ in 0..LOST {
        waited &= lose_future(&task, new_idle_reader(&rt, &mut setter));
        waited &= lose_stream(&task, new_idle_reader(&rt, &mut setter));
        waited &= leave_future(&task, new_idle_reader(&rt, &mut setter));
    }
    compare(&rt, "each future and stream waited", waited, true);
    sleep_again(&task);
    setter.set(1);
    compare(&rt, "a lost task is woken", task.is_woken(), false);
}

/// A task that still sleeps is woken by the next change, after the futures of others were dropped.
#[test]
fn a_change_wakes_the_task_that_is_left(rt: HostRuntime) {
    let mut setter = new_word_setter(&rt, rt.alloc(), 0, NUMBERS);
    let lost = MockTask::new(&rt).expect(&rt, "a task");
    let left = MockTask::new(&rt).expect(&rt, "a task");
    let before = new_idle_reader(&rt, &mut setter);
    let mut future = new_idle_reader(&rt, &mut setter).into_changed();
    compare(&rt, "left waits", left.poll(&mut future).is_pending(), true);
    compare(&rt, "lost future", lose_future(&lost, before), true);
    let after = new_idle_reader(&rt, &mut setter);
    compare(&rt, "lost stream", lose_stream(&lost, after), true);
    sleep_again(&lost);
    compare(&rt, "woken too early", left.is_woken(), false);
    setter.set(1);
    let woken = (left.is_woken(), lost.is_woken());
    compare(&rt, "woken: left, lost", woken, (true, false));
    compare(&rt, "it waits", left.poll(&mut future).is_pending(), false);
}

/// A caller that loses futures in a thread of its own, beside others.
#[derive(Drop)]
struct Loser {
    setter: WordSetter<i64>,
    task: MockTask,
}

impl Loser {
    fn run<R: Wait + Abort>(&mut self, rt: &R) {
        for _ in 0..LOST {
            let reader = new_idle_reader(rt, &mut self.setter);
            let _waited = lose_future(&self.task, reader);
        }
    }
}

fn new_loser<R: Host>(rt: &R, setter: &mut WordSetter<i64>) -> Loser {
    Loser {
        setter: setter.another(rt),
        task: MockTask::new(rt).expect(rt, "a task"),
    }
}

/// Lets four threads lose futures at the same time. Returns whether a change wakes one of their tasks afterwards.
fn lose_beside<R: Host>(rt: &R, setter: &mut WordSetter<i64>) -> bool {
    let mut losers = [
        new_loser(rt, setter),
        new_loser(rt, setter),
        new_loser(rt, setter),
        new_loser(rt, setter),
    ];
    let start = Barrier::new(4);
    for_each_mut(
        rt,
        &mut losers,
        4,
        &|_, loser| {
            let _order = start.wait(rt);
            loser.run(rt)
        },
    );
    for loser in &losers {
        sleep_again(&loser.task);
    }
    setter.set(1);
    let mut woken = false;
    for loser in &losers {
        woken |= loser.task.is_woken();
    }
    woken
}

/// Where a drop finds the list of sleepers taken by another thread, its waker is removed all the same.
#[test]
fn four_threads_lose_futures(rt: HostRuntime) {
    let mut setter = new_word_setter(&rt, rt.alloc(), 0, NUMBERS);
    compare(&rt, "any is woken", lose_beside(&rt, &mut setter), false);
}
