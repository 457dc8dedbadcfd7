//! Several threads on one word state.
use crate::compare::{compare, compare_any};
use crate::flows::new_word_setter;
use flow_law::Exhausted;
use flow_word::{WordSetter, WordState};
use std::sync::atomic::{AtomicBool, AtomicU32, AtomicU64, Ordering};
use std::sync::{Barrier, Wait};
use std::thread::{for_each_mut, join, yield_now};

/// How often each of four threads counts.
const TIMES: u32 = 1_000;

/// How often a waiting thread checks for a signal.
const LOOKS: u32 = 100_000_000;

/// The number of checks after which a waiting thread yields.
const LOOKS_A_YIELD: u32 = 1_024;

/// Sets a value, and reads the current one.
fn set_and_read<R: Wait>(rt: &R, start: &Barrier, setter: &mut WordSetter<i64>, value: i64) -> i64 {
    let _order = start.wait(rt);
    setter.set(value);
    setter.value()
}

#[test]
fn a_thread_reads_what_it_set_or_what_another_set(rt: HostRuntime) {
    let mut setter = new_word_setter(&rt, rt.alloc(), 0, 0);
    let mut other = setter.another(&rt);
    let start = Barrier::new(2);
    let (first, second) = join(
        &rt,
        || set_and_read(&rt, &start, &mut setter, 9),
        || set_and_read(&rt, &start, &mut other, 4),
    );
    compare_any(&rt, "what the first thread read", first, &[9, 4]);
    compare_any(&rt, "what the second thread read", second, &[9, 4]);
    compare_any(&rt, "the state", setter.value(), &[9, 4]);
}

/// What the function of an update and a `set` in another thread tell each other.
#[derive(Drop)]
struct Signals {
    is_called: AtomicBool,
    is_answered: AtomicBool,
    /// What the function got at its first call.
    first: AtomicU64,
    /// Whether the function saw, at its first call, that the `set` had returned.
    saw_answer: AtomicBool,
}

/// Waits for the flag, for a bounded time. Returns whether it was set.
fn comes(flag: &AtomicBool) -> bool {
    for look in 0..LOOKS {
        if flag.load(Ordering::SeqCst) {
            return true;
        }
        if look % LOOKS_A_YIELD == 0 {
            yield_now();
        }
    }
    false
}

impl Signals {
    /// Adds 1. The first call waits until the `set` has returned.
    fn one_more_slowly(&self, value: u64) -> u64 {
        if !self.is_called.load(Ordering::SeqCst) {
            self.first.store(value, Ordering::SeqCst);
            self.is_called.store(true, Ordering::SeqCst);
            let is_answered = comes(&self.is_answered);
            self.saw_answer.store(is_answered, Ordering::SeqCst);
        }
        value.wrapping_add(1)
    }
}

fn add_slowly<R: Wait>(rt: &R, setter: &mut WordSetter<u64>, signals: &Signals) {
    setter.update(rt, |value| signals.one_more_slowly(value));
}

/// Sets 5 while the function of an update waits. Returns whether the function was called.
fn set_meanwhile(setter: &mut WordSetter<u64>, signals: &Signals) -> bool {
    let is_called = comes(&signals.is_called);
    setter.set(5);
    signals.is_answered.store(true, Ordering::SeqCst);
    is_called
}

/// The function of the update gets 0, the `set` returns while the function waits, and the update then takes the value
/// that was set.
#[test]
fn a_set_does_not_wait_for_an_update(rt: HostRuntime) {
    let (flow, seat) = WordState::new(rt.alloc(), 0u64, 0).expect(&rt, "a flow");
    let mut setter = flow.into_setter(rt.alloc(), seat).expect(&rt, "memory");
    let mut other = setter.another(&rt);
    let signals = Signals {
        is_called: AtomicBool::new(false),
        is_answered: AtomicBool::new(false),
        first: AtomicU64::new(u64::MAX),
        saw_answer: AtomicBool::new(false),
    };
    let ((), is_called) = join(
        &rt,
        || add_slowly(&rt, &mut setter, &signals),
        || set_meanwhile(&mut other, &signals),
    );
    compare(&rt, "the function is called", is_called, true);
    let first = signals.first.load(Ordering::SeqCst);
    compare(&rt, "what the function first got", first, 0);
    let saw_answer = signals.saw_answer.load(Ordering::SeqCst);
    compare(&rt, "set while it waited", saw_answer, true);
    compare(&rt, "the value after the update", setter.value(), 6);
}

/// Adds 1, subscribes and unsubscribes, again and again. Returns how many subscriptions were not refused.
fn count_up<R: Wait>(rt: &R, start: &Barrier, setter: &mut WordSetter<i64>) -> u32 {
    let _order = start.wait(rt);
    let mut subscribed = 0u32;
    for _ in 0..TIMES {
        setter.update(rt, |value| value.wrapping_add(1));
        if let Ok(reader) = setter.subscribe(rt) {
            subscribed = subscribed.wrapping_add(1);
            let _setter = reader.unsubscribe();
        }
    }
    subscribed
}

/// Each thread adds 1 and subscribes a thousand times. No subscription is refused until all numbers are issued, and no
/// subscriber is left.
#[test]
fn four_threads_count(rt: HostRuntime) {
    let mut setter = new_word_setter(&rt, rt.alloc(), 0, 4_000);
    let mut setters = setter.others(&rt, rt.alloc(), 4).expect(&rt, "memory");
    let (start, subscribed) = (Barrier::new(4), AtomicU32::new(0));
    for_each_mut(
        &rt,
        setters.as_mut_slice(),
        4,
        &|_, setter| {
            let count = count_up(&rt, &start, setter);
            let _before = subscribed.fetch_add(count, Ordering::SeqCst);
        },
    );
    compare(&rt, "the value", setter.value(), 4_000);
    let subscribed = subscribed.load(Ordering::SeqCst);
    compare(&rt, "subscriptions", subscribed, 4_000);
    compare(&rt, "subscribers left", setter.subscription_count(), 0);
    let refused = setter.subscribe(&rt).err();
    compare(&rt, "a further subscription", refused, Some(Exhausted));
}
