//! The flows, and the jobs of threads at them.
use crate::arguments::{CrowdSize, Job, RecordedKind, Size};
use crate::crew::{Caller, Turn, found_by_all, run_all, workers};
use crate::found::Found;
use crate::subscriber::Subscriber;
use crate::word::WordSubscriber;
use crate::word_flow::WordFlowSubscriber;
use flow_law::{Config, Overflow};
use flow_shared::{SharedFlow, StateFlow};
use flow_word::WordState;
use flow_word_shared::WordFlow;
use std::alloc::{AllocGlobal, Global};
use std::random::RandomSource;
use std::sync::Wait;
use std::thread::Threads;
use std::time::Clock;

/// The outcome of a job: what was found, and the turns of all threads.
#[derive(Drop)]
pub struct Outcome {
    pub found: Found,
    pub turns: Vec<Turn>,
}

/// Checks a flow that all threads have called, unless their calls were recorded. Returns None if memory is refused.
fn outcome_of<C: Caller, R: Wait>(
    rt: &R,
    first: &mut C,
    job: Job,
    turns: Vec<Turn>,
) -> Option<Outcome> {
    let mut found = found_by_all(&turns);
    if !matches!(job, Job::Record) {
        first.check(rt, &mut found)?;
    }
    Some(Outcome { found, turns })
}

/// Lets all threads call a flow. Returns None if memory or a thread is refused.
fn run<C, R>(rt: &R, alloc: Global, first: C, job: Job, size: Size) -> Option<Outcome>
where
    C: Caller,
    R: Threads + Wait + Clock + RandomSource + AllocGlobal + Sync,
{
    let mut first = first;
    let workers = workers(rt, alloc, &mut first, job, size)?;
    let turns = run_all(rt, alloc, workers)?;
    outcome_of(rt, &mut first, job, turns)
}

/// Does a job at a new shared flow. Returns None if memory or a thread is refused.
fn at_shared<R>(rt: &R, alloc: Global, config: Config, job: Job, size: Size) -> Option<Outcome>
where
    R: Threads + Wait + Clock + RandomSource + AllocGlobal + Sync,
{
    let Ok((flow, seat)) = SharedFlow::new(alloc, config) else {
        return None;
    };
    let first = Subscriber::new(flow.into_emitter(alloc, seat).ok()?);
    run(rt, alloc, first, job, size)
}

/// Does a job at a new state flow behind a gate. Returns None if memory or a thread is refused.
fn at_state<R>(rt: &R, alloc: Global, job: Job, size: Size) -> Option<Outcome>
where
    R: Threads + Wait + Clock + RandomSource + AllocGlobal + Sync,
{
    let Ok((flow, seat)) = StateFlow::new(alloc, 0, u64::MAX) else {
        return None;
    };
    let first = Subscriber::new(flow.into_setter(alloc, seat).ok()?);
    run(rt, alloc, first, job, size)
}

/// Does a job at a new state flow without a lock. Returns None if memory or a thread is refused.
fn at_word<R>(rt: &R, alloc: Global, job: Job, size: Size) -> Option<Outcome>
where
    R: Threads + Wait + Clock + RandomSource + AllocGlobal + Sync,
{
    let Ok((flow, seat)) = WordState::new(alloc, 0, u32::MAX) else {
        return None;
    };
    let first = WordSubscriber::new(flow.into_setter(alloc, seat).ok()?);
    run(rt, alloc, first, job, size)
}

/// Does a job at a new shared flow that is read without a lock. Returns None if memory or a thread is refused.
fn at_word_flow<R>(rt: &R, alloc: Global, config: Config, job: Job, size: Size) -> Option<Outcome>
where
    R: Threads + Wait + Clock + RandomSource + AllocGlobal + Sync,
{
    let Ok((flow, seat)) = WordFlow::new(alloc, config) else {
        return None;
    };
    let first = WordFlowSubscriber::new(flow.into_emitter(alloc, seat).ok()?);
    run(rt, alloc, first, job, size)
}

/// Runs half or a quarter of the threads at one flow after another. Returns None if memory or a thread is refused.
pub fn stress<R>(rt: &R, alloc: Global, size: Size) -> Option<Found>
where
    R: Threads + Wait + Clock + RandomSource + AllocGlobal + Sync,
{
    let suspends = Config::new().replay(2).extra(4);
    let drops = suspends.overflow(Overflow::DropOldest);
    let half = Size {
        threads: size.threads / 2,
        ..size
    };
    let quarter = Size {
        threads: size.threads / 4,
        ..size
    };
    let shared = at_shared(rt, alloc, suspends, Job::Share, half)?.found;
    let dropping = at_shared(rt, alloc, drops, Job::Exchange, quarter)?.found;
    let word = at_word(rt, alloc, Job::Add, quarter)?.found;
    let state = at_state(rt, alloc, Job::Add, quarter)?.found;
    Some(shared.plus(dropping).plus(word).plus(state))
}

/// Lets a crowd send and receive all values through a new flow that suspends. Returns None if memory or a thread is
/// refused.
pub fn crowd<R>(rt: &R, alloc: Global, crowd: CrowdSize) -> Option<Found>
where
    R: Threads + Wait + Clock + RandomSource + AllocGlobal + Sync,
{
    let config = Config::new().extra(crowd.capacity);
    let size = Size {
        seed: crowd.seed,
        threads: crowd.readers.saturating_add(crowd.emitters),
        rounds: crowd.values,
    };
    Some(at_shared(rt, alloc, config, Job::Crowd(crowd), size)?.found)
}

/// Lets a crowd emit and receive all values through a new flow that is read without a lock and keeps as many values as
/// `capacity` says. Returns None if memory or a thread is refused.
pub fn word_crowd<R>(rt: &R, alloc: Global, crowd: CrowdSize) -> Option<Found>
where
    R: Threads + Wait + Clock + RandomSource + AllocGlobal + Sync,
{
    let config = Config::new()
        .extra(crowd.capacity)
        .overflow(Overflow::DropOldest);
    let size = Size {
        seed: crowd.seed,
        threads: crowd.readers.saturating_add(crowd.emitters),
        rounds: crowd.values,
    };
    Some(at_word_flow(rt, alloc, config, Job::Crowd(crowd), size)?.found)
}

fn config_of(kind: RecordedKind) -> Config {
    match kind {
        RecordedKind::Shared => Config::new().replay(1).extra(2),
        RecordedKind::Dropping | RecordedKind::WordFlow => Config::new()
            .replay(1)
            .extra(1)
            .overflow(Overflow::DropOldest),
        _ => Config::new(),
    }
}

/// Records calls of all threads to a new flow of this kind. Returns their turns, or None if memory or a thread is
/// refused.
pub fn record<R>(rt: &R, alloc: Global, kind: RecordedKind, size: Size) -> Option<Vec<Turn>>
where
    R: Threads + Wait + Clock + RandomSource + AllocGlobal + Sync,
{
    let recorded = match kind {
        RecordedKind::Word => at_word(rt, alloc, Job::Record, size),
        RecordedKind::State => at_state(rt, alloc, Job::Record, size),
        RecordedKind::WordFlow => at_word_flow(rt, alloc, config_of(kind), Job::Record, size),
        _ => at_shared(rt, alloc, config_of(kind), Job::Record, size),
    };
    Some(recorded?.turns)
}
