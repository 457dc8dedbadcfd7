//! A thread at a state flow without a lock: it adds to the value, and subscribes between, or makes calls that are
//! recorded.
use crate::arguments::Job;
use crate::crew::{Caller, Host, Recorded, Turn};
use crate::found::{Found, NOTHING};
use crate::order::are_in_order;
use crate::recorder::record_all;
use crate::recording::{Answer, Call, call_of_state, value_after};
use flow_word::{WordReader, WordSetter};
use rand_core::utils::NextWord;
use std::sync::Wait;
use std::sync::atomic::AtomicU64;
use std::time::Clock;

/// A caller of a state flow without a lock, and its subscription.
#[derive(Drop)]
pub struct WordSubscriber {
    pub setter: WordSetter<u64>,
    pub reader: Option<WordReader<u64>>,
}

impl WordSubscriber {
    /// Returns a caller without a subscription.
    pub fn new(setter: WordSetter<u64>) -> WordSubscriber {
        WordSubscriber {
            setter,
            reader: None,
        }
    }
}

fn one_more(value: u64) -> u64 {
    value.wrapping_add(1)
}

/// Reads the value and adds 1 to it, unless another thread changes it first. Returns the value and how much was added.
fn try_add(setter: &mut WordSetter<u64>) -> (u64, u64) {
    let value = setter.value();
    let is_set = setter.compare_and_set(value, one_more(value));
    (value, u64::from(is_set))
}

/// Subscribes, reads twice, and unsubscribes. Returns whether the values are in order.
fn reads_in_order<R: Wait>(rt: &R, setter: &mut WordSetter<u64>, last: u64) -> bool {
    let Ok(mut reader) = setter.subscribe(rt) else {
        return false;
    };
    let first = reader.next();
    let second = reader.next();
    let _setter = reader.unsubscribe();
    are_in_order(last, first, second)
}

/// Makes rounds of calls that the dice choose. The value must never fall, and an update must raise it.
fn add_all<R: Wait>(rt: &R, setter: &mut WordSetter<u64>, turn: &mut Turn) -> Found {
    let mut last = 0;
    let mut found = NOTHING;
    for _ in 0..turn.rounds {
        match turn.dice.next_word() % 4 {
            0 => {
                let value = setter.update_and_get(rt, one_more);
                found.check(last < value);
                found.added = one_more(found.added);
                last = value;
            }
            1 => found.check(reads_in_order(rt, setter, last)),
            _ => {
                let (value, added) = try_add(setter);
                found.check(last <= value);
                found.added = found.added.wrapping_add(added);
                last = value;
            }
        }
    }
    found
}

/// Sets, reads or changes the value. Returns None for another call.
fn make_of_word<R: Wait>(rt: &R, setter: &mut WordSetter<u64>, call: Call) -> Option<Answer> {
    match call {
        Call::Set(value) => {
            setter.set(value);
            Some(Answer::Done)
        }
        Call::CompareAndSet(expect, value) => {
            Some(Answer::Truth(setter.compare_and_set(expect, value)))
        }
        Call::Update => {
            let old = setter.get_and_update(rt, value_after);
            Some(Answer::Exchange(old, value_after(old)))
        }
        Call::Value => Some(Answer::Value(setter.value())),
        _ => None,
    }
}

impl WordSubscriber {
    fn next(&mut self) -> Option<Answer> {
        match &mut self.reader {
            Some(reader) => Some(Answer::of(reader.next())),
            None => None,
        }
    }
}

impl Caller for WordSubscriber {
    fn another<R: Wait>(&mut self, rt: &R, _job: Job, _number: u32) -> Option<Self> {
        Some(WordSubscriber::new(self.setter.another(rt)))
    }

    fn work<R: Host>(&mut self, rt: &R, turn: &mut Turn, clock: &AtomicU64) -> Option<Found> {
        match turn.job {
            Job::Record => record_all(rt, self, turn, clock),
            _ => Some(add_all(rt, &mut self.setter, turn)),
        }
    }

    /// Checks that no subscriber is left, and that no addition is lost or doubled.
    fn check<R: Wait>(&mut self, _rt: &R, found: &mut Found) -> Option<()> {
        let subscribers = self.setter.subscription_count();
        let value = self.setter.value();
        let added = found.added;
        found.check(subscribers == 0 && value == added);
        Some(())
    }
}

impl Recorded for WordSubscriber {
    fn choose(number: u32, _fresh: u64) -> Call {
        call_of_state(number)
    }

    fn is_subscribed(&self) -> bool {
        self.reader.is_some()
    }

    fn make<R: Wait + Clock>(&mut self, rt: &R, call: Call) -> Option<Answer> {
        match call {
            Call::Subscribe => {
                self.reader = Some(self.setter.subscribe(rt).ok()?);
                Some(Answer::Done)
            }
            Call::Next => self.next(),
            Call::Unsubscribe => {
                let _setter = self.reader.take()?.unsubscribe();
                Some(Answer::Done)
            }
            Call::SubscriptionCount => Some(Answer::Number(self.setter.subscription_count())),
            _ => make_of_word(rt, &mut self.setter, call),
        }
    }
}
