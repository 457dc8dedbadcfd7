//! A thread at a state flow behind a gate: it adds to the value, and subscribes between, or makes calls that are
//! recorded.
use crate::arguments::Job;
use crate::crew::{Caller, Host, Recorded, Turn};
use crate::found::{Found, NOTHING};
use crate::order::are_in_order;
use crate::recorder::record_all;
use crate::recording::{Answer, Call, call_of_state, value_after};
use crate::subscriber::Subscriber;
use flow_core::StateCore;
use flow_law::OutOfMemory;
use flow_shared::Setter;
use rand_core::utils::NextWord;
use std::sync::Wait;
use std::sync::atomic::AtomicU64;
use std::time::Clock;

/// Reads the value and adds 1 to it, unless another thread changes it first. Returns the value and how much was added,
/// or None if memory is refused.
fn try_add<R: Wait>(rt: &R, setter: &mut Setter<u64>) -> Option<(u64, u64)> {
    let value = setter.value(rt).ok()?;
    let is_set = setter.compare_and_set(rt, &value, value.wrapping_add(1));
    Some((value, u64::from(is_set)))
}

/// Subscribes, reads twice, and unsubscribes. Returns whether the values are in order, or None if memory is refused.
fn reads_in_order<R: Wait>(
    rt: &R,
    subscriber: &mut Subscriber<StateCore<u64>>,
    last: u64,
) -> Option<bool> {
    subscriber.subscribe(rt)?;
    let first = subscriber.next(rt)?;
    let second = subscriber.next(rt)?;
    subscriber.unsubscribe(rt);
    Some(are_in_order(last, first, second))
}

/// Makes rounds of calls that the dice choose. The value must never fall. Returns None if memory is refused.
fn add_all<R: Wait>(
    rt: &R,
    subscriber: &mut Subscriber<StateCore<u64>>,
    turn: &mut Turn,
) -> Option<Found> {
    let mut last = 0;
    let mut found = NOTHING;
    for _ in 0..turn.rounds {
        if turn.dice.next_word() % 4 == 0 {
            found.check(reads_in_order(rt, subscriber, last)?);
        } else {
            let (value, added) = try_add(rt, &mut subscriber.caller)?;
            found.check(last <= value);
            found.added = found.added.wrapping_add(added);
            last = value;
        }
    }
    Some(found)
}

fn try_value_after(value: &u64) -> Result<u64, OutOfMemory> {
    Ok(value_after(*value))
}

fn update<R: Wait>(rt: &R, setter: &mut Setter<u64>) -> Option<Answer> {
    let old = setter.get_and_update(rt, try_value_after).ok()?;
    Some(Answer::Exchange(old, value_after(old)))
}

impl Caller for Subscriber<StateCore<u64>> {
    fn another<R: Wait>(&mut self, rt: &R, _job: Job, _number: u32) -> Option<Self> {
        Some(self.another_caller(rt))
    }

    fn work<R: Host>(&mut self, rt: &R, turn: &mut Turn, clock: &AtomicU64) -> Option<Found> {
        match turn.job {
            Job::Record => record_all(rt, self, turn, clock),
            _ => add_all(rt, self, turn),
        }
    }

    /// Checks that no subscriber is left, and that no addition is lost or doubled.
    fn check<R: Wait>(&mut self, rt: &R, found: &mut Found) -> Option<()> {
        let subscribers = self.caller.subscription_count(rt);
        let value = self.caller.value(rt).ok()?;
        let added = found.added;
        found.check(subscribers == 0 && value == added);
        Some(())
    }
}

impl Recorded for Subscriber<StateCore<u64>> {
    fn choose(number: u32, _fresh: u64) -> Call {
        call_of_state(number)
    }

    fn is_subscribed(&self) -> bool {
        self.reader.is_some()
    }

    fn make<R: Wait + Clock>(&mut self, rt: &R, call: Call) -> Option<Answer> {
        match call {
            Call::Set(value) => {
                self.caller.set(rt, value);
                Some(Answer::Done)
            }
            Call::CompareAndSet(expect, value) => Some(Answer::Truth(
                self.caller.compare_and_set(rt, &expect, value),
            )),
            Call::Update => update(rt, &mut self.caller),
            Call::Value => Some(Answer::Value(self.caller.value(rt).ok()?)),
            _ => self.make_of_subscriber(rt, call),
        }
    }
}
