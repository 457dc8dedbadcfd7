//! Two threads set the value of a word state while threads and tasks sleep until it changes.
use crate::compare::compare;
use crate::flows::{new_word_reader, new_word_setter};
use crate::host::Host;
use flow_word::{ChangedFuture, WordReader, WordSetter};
use futures::task::Poll;
use futures::test::MockTask;
use std::sync::atomic::{AtomicU64, Ordering};
use std::sync::{Barrier, Wait};
use std::thread::{for_each_mut, yield_now};
use std::time::{Clock, Duration, Instant};

/// The number of values that each setter sets.
const VALUES: i64 = 2_000;

/// The last value of the flow: the last setter that ends sets it.
const LAST: i64 = -1;

/// How many seconds a sleeper waits for one change at most. A sleeper that waits as long was forgotten.
const LIMIT: u64 = 20;

/// A task, and the reader whose futures it polls.
#[derive(Drop)]
struct Polling {
    reader: Option<WordReader<i64>>,
    task: MockTask,
}

/// A setter, and the first of the values that it sets.
#[derive(Drop)]
struct Setting {
    setter: WordSetter<i64>,
    first: i64,
}

/// What the thread of a caller does.
#[derive(Drop)]
enum Part {
    /// Sets values that no other setter sets.
    Sets(Setting),
    /// Receives values up to the last one, by `changed_timeout`.
    Sleeps(WordReader<i64>),
    /// Receives values up to the last one, by futures that the task polls when it is woken.
    Polls(Polling),
}

/// A caller in a thread of its own, and whether it did its part in time.
#[derive(Drop)]
struct Caller {
    part: Part,
    in_time: bool,
}

/// Returns whether less than `LIMIT` has passed.
fn is_in_time<C: Clock>(clock: &C, start: Option<Instant>) -> bool {
    match start {
        Some(start) => start
            .elapsed(clock)
            .is_ok_and(|spent| spent < Duration::from_secs(LIMIT)),
        None => false,
    }
}

/// Sets the values, and the last one if the other setter has ended.
fn set_all(setting: &mut Setting, setters: &AtomicU64) -> bool {
    let first = setting.first;
    for k in 0..VALUES {
        setting.setter.set(first.wrapping_add(k));
        yield_now();
    }
    if setters.fetch_sub(1, Ordering::SeqCst) == 1 {
        setting.setter.set(LAST);
    }
    true
}

/// Sleeps until the value changes, again and again. Returns whether it came to the last value, and no wait took too
/// long.
fn sleep_to_last<R: Wait + Clock>(rt: &R, reader: &mut WordReader<i64>) -> bool {
    for _ in 0..u32::MAX {
        let start = Instant::now(rt).ok();
        let value = reader.changed_timeout(rt, Duration::from_secs(LIMIT));
        if !is_in_time(rt, start) {
            return false;
        }
        match value {
            Some(LAST) => return true,
            Some(_) => {}
            None => return false,
        }
    }
    false
}

/// Polls a future each time that its task is woken. Returns what it gave, unless the task was not woken for too long.
fn await_change<C: Clock>(
    clock: &C,
    task: &MockTask,
    mut future: ChangedFuture<i64>,
) -> Option<(WordReader<i64>, i64)> {
    let start = Instant::now(clock).ok();
    for _ in 0..u64::MAX {
        match task.poll(&mut future) {
            Poll::Ready(given) => return Some(given),
            Poll::Pending => {}
        }
        if !await_wake(clock, task, start) {
            return None;
        }
    }
    None
}

/// Waits until the task is woken. Returns `false` if that takes too long.
fn await_wake<C: Clock>(clock: &C, task: &MockTask, start: Option<Instant>) -> bool {
    for _ in 0..u64::MAX {
        if task.is_woken() {
            return true;
        }
        if !is_in_time(clock, start) {
            return false;
        }
        yield_now();
    }
    false
}

/// Awaits changes up to the last value. Returns whether it came to that one, and was woken in time.
fn poll_to_last<C: Clock>(clock: &C, polling: &mut Polling) -> bool {
    let Some(mut reader) = polling.reader.take() else {
        return false;
    };
    for _ in 0..u32::MAX {
        match await_change(clock, &polling.task, reader.into_changed()) {
            Some((_reader, LAST)) => return true,
            Some((left, _value)) => reader = left,
            None => return false,
        }
    }
    false
}

impl Caller {
    fn run<R: Wait + Clock>(&mut self, rt: &R, setters: &AtomicU64) {
        self.in_time = match &mut self.part {
            Part::Sets(setting) => set_all(setting, setters),
            Part::Sleeps(reader) => sleep_to_last(rt, reader),
            Part::Polls(polling) => poll_to_last(rt, polling),
        };
    }
}

fn new_caller(part: Part) -> Caller {
    let in_time = false;
    Caller { part, in_time }
}

fn new_setter<R: Host>(rt: &R, setter: &mut WordSetter<i64>, first: i64) -> Caller {
    let setter = setter.another(rt);
    new_caller(Part::Sets(Setting { setter, first }))
}

fn new_sleeper<R: Host>(rt: &R, setter: &mut WordSetter<i64>) -> Caller {
    new_caller(Part::Sleeps(new_word_reader(rt, setter)))
}

fn new_poller<R: Host>(rt: &R, setter: &mut WordSetter<i64>) -> Caller {
    let task = MockTask::new(rt).expect(rt, "a task");
    let reader = Some(new_word_reader(rt, setter));
    new_caller(Part::Polls(Polling { reader, task }))
}

/// Lets all callers begin at the same time. Returns how many of them were not in time.
fn run<R: Host>(rt: &R, setter: &mut WordSetter<i64>) -> u32 {
    let mut callers = [
        new_setter(rt, setter, 1),
        new_setter(rt, setter, 1_000_000),
        new_sleeper(rt, setter),
        new_sleeper(rt, setter),
        new_poller(rt, setter),
        new_poller(rt, setter),
    ];
    let start = Barrier::new(6);
    let setters = AtomicU64::new(2);
    for_each_mut(
        rt,
        &mut callers,
        6,
        &|_, caller| {
            let _order = start.wait(rt);
            caller.run(rt, &setters)
        },
    );
    let mut late = 0u32;
    for caller in &callers {
        if !caller.in_time {
            late = late.saturating_add(1);
        }
    }
    late
}

/// No thread and no task sleeps on after the last value was set.
#[test]
fn two_setters_wake_all_sleepers(rt: HostRuntime) {
    let mut setter = new_word_setter(&rt, rt.alloc(), 0, 100);
    compare(&rt, "callers that were late", run(&rt, &mut setter), 0);
}
