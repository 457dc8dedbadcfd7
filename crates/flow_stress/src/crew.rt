//! Threads that call one flow. They begin once all of them are made.
use crate::arguments::{Job, Size};
use crate::found::{Found, NOTHING};
use crate::recording::{Answer, Call, Entry};
use rand_pcg::Pcg32;
use std::alloc::{AllocGlobal, Global};
use std::random::RandomSource;
use std::sync::Wait;
use std::sync::atomic::{AtomicU64, Ordering};
use std::thread;
use std::thread::{JoinHandle, Scope, Threads, yield_now};
use std::time::Clock;

/// The task of one thread, and the calls that it has recorded. The dice choose its calls.
#[derive(Drop)]
pub struct Turn {
    pub job: Job,
    pub number: u32,
    pub rounds: u32,
    pub dice: Pcg32,
    pub entries: Vec<Entry>,
    pub found: Found,
}

/// The runtime that the work of a thread needs.
pub trait Host: Wait + Clock + RandomSource + AllocGlobal {}

impl<H: Wait + Clock + RandomSource + AllocGlobal> Host for H {}

/// A caller of a flow.
pub trait Caller: Send + Drop {
    /// Returns another caller of the same flow, for the thread of this number. Returns None if memory is refused.
    fn another<R: Wait>(&mut self, rt: &R, job: Job, number: u32) -> Option<Self>;

    /// Does the work of a thread. Returns None if memory is refused.
    fn work<R: Host>(&mut self, rt: &R, turn: &mut Turn, clock: &AtomicU64) -> Option<Found>;

    /// Checks the flow once all threads have ended. Returns None if memory is refused.
    fn check<R: Wait>(&mut self, rt: &R, found: &mut Found) -> Option<()>;
}

/// A caller whose calls can be recorded.
pub trait Recorded: Drop {
    /// Returns the call that this number stands for. No other call emits the value `fresh`.
    fn choose(number: u32, fresh: u64) -> Call;

    fn is_subscribed(&self) -> bool;

    /// Makes a call. Returns None if it was refused, or if it needs a subscription and there is none.
    fn make<R: Wait + Clock>(&mut self, rt: &R, call: Call) -> Option<Answer>;
}

/// One thread's caller, and its task.
#[derive(Drop)]
pub struct Worker<C: Drop> {
    pub caller: C,
    pub turn: Turn,
}

const HELD: u64 = 0;

const BEGIN: u64 = 1;

const END: u64 = 2;

/// Holds threads back until all of them are made. The clock is for those that record their calls.
#[derive(Drop)]
struct Start {
    word: AtomicU64,
    clock: AtomicU64,
}

impl Start {
    /// Lets all threads begin, or end if one of them could not be made.
    fn open(&self, are_made: bool) {
        self.word
            .store(if are_made { BEGIN } else { END }, Ordering::SeqCst);
    }

    /// Waits until the start is open. Returns whether the thread may begin.
    fn wait<R: Wait>(&self, rt: &R) -> bool {
        for _ in rt.forever() {
            let word = self.word.load(Ordering::SeqCst);
            if word != HELD {
                return word == BEGIN;
            }
            yield_now();
        }
        unreachable!()
    }

    /// Does the work of a thread once the start is open. Returns None if no thread may begin, or if memory is refused.
    fn work<C: Caller, R: Host>(&self, rt: &R, worker: Worker<C>) -> Option<Worker<C>> {
        let Worker {
            mut caller,
            mut turn,
        } = worker;
        if !self.wait(rt) {
            return None;
        }
        turn.found = caller.work(rt, &mut turn, &self.clock)?;
        Some(Worker { caller, turn })
    }
}

/// Makes the worker of each thread. Returns None if memory is refused.
pub fn workers<C: Caller, R: Wait>(
    rt: &R,
    alloc: Global,
    first: &mut C,
    job: Job,
    size: Size,
) -> Option<Vec<Worker<C>>> {
    let mut workers = Vec::new(alloc);
    for number in 0..size.threads {
        let turn = Turn {
            job,
            number,
            rounds: size.rounds,
            dice: Pcg32::new(size.seed, u64::from(number)),
            entries: Vec::new(alloc),
            found: NOTHING,
        };
        let caller = first.another(rt, job, number)?;
        workers.push(Worker { caller, turn }).ok()?;
    }
    Some(workers)
}

/// Makes a thread for each worker. Returns None if memory or a thread is refused.
fn make_threads<'s, E, C, R>(
    rt: &'s R,
    alloc: Global,
    scope: &Scope<'s, E>,
    start: &'s Start,
    workers: Vec<Worker<C>>,
) -> Option<Vec<JoinHandle<Option<Worker<C>>>>>
where
    C: Caller + 's,
    R: Wait + Clock + RandomSource + AllocGlobal + Sync,
{
    let mut threads = Vec::new(alloc);
    for worker in workers {
        let thread = scope.spawn(move || start.work(rt, worker)).ok()?;
        threads.push(thread).ok()?;
    }
    Some(threads)
}

/// Waits until all threads have ended. Returns None if memory was refused.
fn join_all<C: Drop, R: Threads>(
    rt: &R,
    alloc: Global,
    threads: Vec<JoinHandle<Option<Worker<C>>>>,
) -> Option<Vec<Worker<C>>> {
    let mut workers = Vec::new(alloc);
    for thread in threads {
        workers.push(thread.join(rt)?).ok()?;
    }
    Some(workers)
}

/// Returns the turns of all workers, and drops their callers. Returns None if memory is refused.
fn turns_of<C: Drop>(alloc: Global, workers: Vec<Worker<C>>) -> Option<Vec<Turn>> {
    let mut turns = Vec::new(alloc);
    for worker in workers {
        let Ok(()) = turns.push(worker.turn) else {
            return None;
        };
    }
    Some(turns)
}

fn run_in<'s, E, C, R>(
    rt: &'s R,
    alloc: Global,
    scope: &Scope<'s, E>,
    start: &'s Start,
    workers: Vec<Worker<C>>,
) -> Option<Vec<Turn>>
where
    C: Caller + 's,
    R: Threads + Wait + Clock + RandomSource + AllocGlobal + Sync,
{
    let threads = make_threads(rt, alloc, scope, start, workers);
    start.open(threads.is_some());
    let Some(workers) = join_all(rt, alloc, threads?) else {
        return None;
    };
    turns_of(alloc, workers)
}

/// Runs each worker in a thread of its own, and returns the turns of all workers. The workers begin once all threads
/// are made, and their callers are dropped once all threads have ended. Returns None if memory is refused, or if a
/// thread is refused: then no worker begins.
pub fn run_all<C, R>(rt: &R, alloc: Global, workers: Vec<Worker<C>>) -> Option<Vec<Turn>>
where
    C: Caller,
    R: Threads + Wait + Clock + RandomSource + AllocGlobal + Sync,
{
    let start = Start {
        word: AtomicU64::new(HELD),
        clock: AtomicU64::new(0),
    };
    let held = &start;
    thread::scope(thread::scope_env(), rt, move |scope| -> Option<Vec<Turn>> {
        run_in(rt, alloc, scope, held, workers)
    })
}

/// Returns the sum of what all threads found.
pub fn found_by_all(turns: &[Turn]) -> Found {
    let mut all = NOTHING;
    for turn in turns {
        all = all.plus(turn.found);
    }
    all
}
