//! A thread at a shared flow: it emits or reads, or both, is one of a crowd, or makes calls that are recorded.
use crate::arguments::Job;
use crate::crew::{Caller, Host, Recorded, Turn};
use crate::crowd::work_in_crowd;
use crate::emitting::emit_all;
use crate::exchanging::exchange_all;
use crate::found::Found;
use crate::reading::read_all;
use crate::recorder::record_all;
use crate::recording::{Answer, Call, call_of_shared};
use crate::subscriber::Subscriber;
use flow_core::SharedCore;
use flow_shared::{Emitter, SendEnd};
use std::sync::Wait;
use std::sync::atomic::AtomicU64;
use std::time::{Clock, Duration};

/// How long an `emit` waits before it is cancelled, in microseconds.
const LIMIT: u64 = 100;

fn emit<R: Wait + Clock>(rt: &R, emitter: &mut Emitter<u64>, value: u64) -> Option<Answer> {
    let limit = Duration::from_micros(LIMIT);
    match emitter.send_timeout(rt, value, limit) {
        Ok(SendEnd::Done) => Some(Answer::Done),
        Ok(SendEnd::Cancelled) => Some(Answer::Cancelled),
        Err(_rejected) => None,
    }
}

fn try_emit<R: Wait>(rt: &R, emitter: &mut Emitter<u64>, value: u64) -> Option<Answer> {
    match emitter.try_emit(rt, value) {
        Ok(is_taken) => Some(Answer::Truth(is_taken)),
        Err(_rejected) => None,
    }
}

fn replay_cache<R: Wait>(rt: &R, emitter: &mut Emitter<u64>) -> Option<Answer> {
    let Ok(cache) = emitter.replay_cache(rt) else {
        return None;
    };
    Some(Answer::of_cache(cache.as_slice()))
}

fn reset_replay_cache<R: Wait>(rt: &R, emitter: &mut Emitter<u64>) -> Answer {
    emitter.reset_replay_cache(rt);
    Answer::Done
}

impl Caller for Subscriber<SharedCore<u64>> {
    /// Returns another caller. Readers of a crowd subscribe before a thread begins.
    fn another<R: Wait>(&mut self, rt: &R, job: Job, number: u32) -> Option<Self> {
        if job.reads_at_once(number) {
            self.another_reader(rt)
        } else {
            Some(self.another_caller(rt))
        }
    }

    fn work<R: Host>(&mut self, rt: &R, turn: &mut Turn, clock: &AtomicU64) -> Option<Found> {
        match turn.job {
            Job::Crowd(size) => work_in_crowd(rt, self, size, turn),
            Job::Record => record_all(rt, self, turn, clock),
            Job::Exchange => exchange_all(rt, &mut self.caller, turn),
            _ if turn.number % 2 == 0 => emit_all(rt, &mut self.caller, turn),
            _ => read_all(rt, self, turn),
        }
    }

    /// Checks that no subscriber is left.
    fn check<R: Wait>(&mut self, rt: &R, found: &mut Found) -> Option<()> {
        found.check(self.caller.subscription_count(rt) == 0);
        Some(())
    }
}

impl Recorded for Subscriber<SharedCore<u64>> {
    fn choose(number: u32, fresh: u64) -> Call {
        call_of_shared(number, fresh)
    }

    fn is_subscribed(&self) -> bool {
        self.reader.is_some()
    }

    fn make<R: Wait + Clock>(&mut self, rt: &R, call: Call) -> Option<Answer> {
        match call {
            Call::TryEmit(value) => try_emit(rt, &mut self.caller, value),
            Call::Emit(value) => emit(rt, &mut self.caller, value),
            Call::ReplayCache => replay_cache(rt, &mut self.caller),
            Call::ResetReplayCache => Some(reset_replay_cache(rt, &mut self.caller)),
            _ => self.make_of_subscriber(rt, call),
        }
    }
}
