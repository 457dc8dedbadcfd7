//! A thread at a shared flow that is read without a lock: one of a crowd that emits, one that receives all values, or one
//! that makes calls that are recorded.
use crate::arguments::{CrowdSize, Job};
use crate::crew::{Caller, Host, Recorded, Turn};
use crate::crowd::{LIMIT, pause_at_random};
use crate::found::{Found, NOTHING};
use crate::order::{Gets, Order, value_of};
use crate::recorder::record_all;
use crate::recording::{Answer, Call, call_of_shared};
use flow_word_shared::{WordEmitter, WordFlowReader};
use rand_core::utils::NextWord;
use rand_pcg::Pcg32;
use std::sync::Wait;
use std::sync::atomic::AtomicU64;
use std::time::{Clock, Duration};

/// A caller of a word flow, and its subscription.
#[derive(Drop)]
pub struct WordFlowSubscriber {
    pub emitter: WordEmitter<u64>,
    pub reader: Option<WordFlowReader<u64>>,
}

impl WordFlowSubscriber {
    /// Returns a caller without a subscription.
    pub fn new(emitter: WordEmitter<u64>) -> WordFlowSubscriber {
        WordFlowSubscriber {
            emitter,
            reader: None,
        }
    }
}

impl WordFlowSubscriber {
    /// Does the work of one thread of a crowd. Returns None if an emission is refused.
    fn work_in_crowd<R: Wait + Clock>(
        &mut self,
        rt: &R,
        size: CrowdSize,
        turn: &mut Turn,
    ) -> Option<Found> {
        match self.reader.take() {
            Some(mut reader) => Some(receive_all(rt, &mut reader, size.values, &mut turn.dice)),
            None => {
                let number = turn.number.saturating_sub(size.readers);
                emit_all(rt, &mut self.emitter, number, size, &mut turn.dice)
            }
        }
    }

    /// Subscribes, reads or unsubscribes. Returns None if that was refused, or if there is no subscription.
    fn make_of_reader<R: Wait>(&mut self, rt: &R, call: Call) -> Option<Answer> {
        match call {
            Call::Subscribe => {
                self.reader = Some(self.emitter.subscribe(rt).ok()?);
                Some(Answer::Done)
            }
            Call::Next => match &mut self.reader {
                Some(reader) => Some(Answer::of(reader.next(rt))),
                None => None,
            },
            Call::Unsubscribe => {
                let _emitter = self.reader.take()?.unsubscribe();
                Some(Answer::Done)
            }
            _ => None,
        }
    }
}

/// Emits all values of the emitter of this number. Returns None if one was refused.
fn emit_all<R: Wait + Clock>(
    rt: &R,
    emitter: &mut WordEmitter<u64>,
    number: u32,
    size: CrowdSize,
    dice: &mut Pcg32,
) -> Option<Found> {
    for place in 0..size.share_of(number) {
        pause_at_random(rt, dice);
        emitter.emit(rt, value_of(number, u64::from(place))).ok()?;
    }
    Some(NOTHING)
}

/// Receives the next value. Now and then a try has a time limit.
fn receive<R: Wait + Clock>(rt: &R, reader: &mut WordFlowReader<u64>, dice: &mut Pcg32) -> u64 {
    for _ in rt.forever() {
        pause_at_random(rt, dice);
        if dice.next_word() % 32 != 0 {
            return reader.receive(rt);
        }
        if let Some(value) = reader.receive_timeout(rt, Duration::from_micros(LIMIT)) {
            return value;
        }
    }
    unreachable!()
}

/// Receives all values. Checks that it got all values of each emitter, in order, and nothing else.
fn receive_all<R: Wait + Clock>(
    rt: &R,
    reader: &mut WordFlowReader<u64>,
    values: u32,
    dice: &mut Pcg32,
) -> Found {
    let mut order = Order::new(Gets::All);
    for _ in 0..values {
        order.add(receive(rt, reader, dice));
    }
    let is_all = reader.next(rt).is_none();
    order.found.check(is_all);
    order.found
}

impl Caller for WordFlowSubscriber {
    /// Returns another caller. Readers of a crowd subscribe before a thread begins.
    fn another<R: Wait>(&mut self, rt: &R, job: Job, number: u32) -> Option<Self> {
        let mut made = WordFlowSubscriber::new(self.emitter.another(rt));
        if job.reads_at_once(number) {
            made.reader = Some(made.emitter.subscribe(rt).ok()?);
        }
        Some(made)
    }

    /// Does the work of a thread of a crowd, or makes calls that are recorded; another job is none.
    fn work<R: Host>(&mut self, rt: &R, turn: &mut Turn, clock: &AtomicU64) -> Option<Found> {
        match turn.job {
            Job::Crowd(size) => self.work_in_crowd(rt, size, turn),
            Job::Record => record_all(rt, self, turn, clock),
            _ => None,
        }
    }

    /// Checks that no subscriber is left.
    fn check<R: Wait>(&mut self, _rt: &R, found: &mut Found) -> Option<()> {
        found.check(self.emitter.subscription_count() == 0);
        Some(())
    }
}

impl Recorded for WordFlowSubscriber {
    fn choose(number: u32, fresh: u64) -> Call {
        call_of_shared(number, fresh)
    }

    fn is_subscribed(&self) -> bool {
        self.reader.is_some()
    }

    fn make<R: Wait + Clock>(&mut self, rt: &R, call: Call) -> Option<Answer> {
        match call {
            Call::TryEmit(value) => Some(Answer::Truth(self.emitter.try_emit(rt, value).ok()?)),
            Call::Emit(value) => {
                self.emitter.emit(rt, value).ok()?;
                Some(Answer::Done)
            }
            Call::SubscriptionCount => Some(Answer::Number(self.emitter.subscription_count())),
            Call::ReplayCache => {
                let cache = self.emitter.replay_cache(rt).ok()?;
                Some(Answer::of_cache(cache.as_slice()))
            }
            Call::ResetReplayCache => {
                self.emitter.reset_replay_cache(rt);
                Some(Answer::Done)
            }
            _ => self.make_of_reader(rt, call),
        }
    }
}
