//! Puts flows under the calls of many threads, and prints how many checks failed.
//!
//! ```text
//! flow_stress SEED THREADS ROUNDS
//! flow_stress --crowd SEED EMITTERS READERS CAPACITY VALUES
//! flow_stress --word-crowd SEED EMITTERS READERS CAPACITY VALUES
//! flow_stress --record KIND SEED THREADS ROUNDS
//! ```
//!
//! The last form prints a record of the calls of threads to a flow, which `flow_judge` reads. `arguments.rt` has the
//! kinds of flows. All threads begin once all of them are made.
//!
//! # Calls of every kind
//! Threads call one flow after another. They make their rounds of calls, which the seed chooses:
//! - a shared flow that suspends (replay 2, room for 4 more). A quarter of the threads emit, poll and cancel; as many
//!   subscribe, read by `next` and `try_next`, and unsubscribe. A subscription must receive, of each emitter, every
//!   value that follows the first one it received, in order, none twice;
//! - a shared flow that drops the oldest. A quarter of the threads emit by a `SendFuture`, and then receive from a
//!   stream. Each must receive a value each time, and rising values of each emitter, none twice;
//! - a state flow without a lock. A quarter of the threads add 1, by an update or by a `compare_and_set` from the value
//!   that they read, subscribe, read twice and unsubscribe. The value must never fall, and an update must raise it;
//! - a state flow behind a gate. A quarter of the threads do the same by `compare_and_set`. The value must never fall.
//!
//! At the end no subscriber must be left, each reader must have read a value, and each state flow must have the sum of
//! what all threads added.
//!
//! # A crowd
//! Some threads send VALUES values in all through one shared flow that suspends, and others receive them. They sleep
//! while there is no room, or nothing to receive, and yield now and then, as the seed chooses; a few calls have a time
//! limit, and are made again after it. Each reader must receive all values, each emitter's in its order, none twice,
//! and nothing after them; then it unsubscribes. If a sleeper is not woken, the program does not end.
//!
//! With `--word-crowd` the flow is one that is read without a lock. It keeps CAPACITY values, which must be all, and its
//! emitters never wait.
//!
//! # What is proved
//! Two facts are proved for every schedule. If callers only update a state flow without a lock, no update is lost
//! (`run_count` of flow_program). If threads only emit into a flow that suspends, and each of some others receives as
//! many values as all of these emit, each of them receives all values, each emitter's in its order (`run_crowd` of
//! flow_program). The threads of this program make other calls, too, so all that they do is only tested, and so is that
//! a sleeper is woken.
#![tactic(auto)]

mod arguments;
mod crew;
mod crowd;
mod emitting;
mod exchanging;
mod flows;
mod found;
mod order;
mod reading;
mod recorder;
mod recording;
mod shared;
mod state;
mod subscriber;
mod word;
mod word_flow;

use arguments::{CrowdSize, RecordedKind, Size, Task, task_of};
use flows::{crowd, record, stress, word_crowd};
use found::Found;
use recorder::{write_calls, write_flow};
use std::alloc::AllocGlobal;
use std::env::args;
use std::io::{self, ErrorKind};
use std::process::ExitCode;
use std::random::RandomSource;
use std::sync::Wait;
use std::thread::Threads;
use std::time::Clock;

const WRONG: u8 = 1;

const REFUSED: u8 = 2;

const OUT_OF_MEMORY: u8 = 4;

fn status_of(found: Found) -> u8 {
    if found.wrong == 0 { 0 } else { WRONG }
}

/// Prints what was found, and returns the status.
fn tell(rt: &HostRuntime, size: Size, found: Option<Found>) -> io::Result<u8> {
    let Size {
        seed,
        threads,
        rounds,
    } = size;
    let Some(found) = found else {
        return tell_memory(rt);
    };
    let wrong = found.wrong;
    println!(rt; "seed {seed}, {threads} threads, {rounds} rounds each: {wrong} wrong")?;
    Ok(status_of(found))
}

/// Prints what was found of a crowd, and returns the status.
fn tell_crowd(rt: &HostRuntime, size: CrowdSize, found: Option<Found>) -> io::Result<u8> {
    let CrowdSize {
        seed,
        emitters,
        readers,
        capacity,
        values,
    } = size;
    let Some(found) = found else {
        return tell_memory(rt);
    };
    let wrong = found.wrong;
    println!(rt;
        "seed {seed}, {emitters} emitters, {readers} readers, room for {capacity}, {values} values: {wrong} wrong"
    )?;
    Ok(status_of(found))
}

fn tell_memory(rt: &HostRuntime) -> io::Result<u8> {
    println!(rt; "out of memory")?;
    Ok(OUT_OF_MEMORY)
}

fn read_task(rt: &HostRuntime) -> io::Result<Option<Task>> {
    let words: Vec<String> = args(rt)?.skip(1).collect(rt.alloc())?;
    Ok(task_of(words.as_slice()))
}

fn tell_usage(rt: &HostRuntime) -> io::Result<u8> {
    println!(rt; "usage: flow_stress SEED THREADS ROUNDS")?;
    println!(rt; "       flow_stress --crowd SEED EMITTERS READERS CAPACITY VALUES")?;
    println!(rt; "       flow_stress --word-crowd SEED EMITTERS READERS CAPACITY VALUES")?;
    println!(rt;
        "       flow_stress --record word|state|shared|dropping|rendezvous|word-flow SEED THREADS ROUNDS"
    )?;
    Ok(REFUSED)
}

/// Prints a record of the calls of all threads, and returns the status.
fn tell_record<R: Threads + Wait + Clock + RandomSource + AllocGlobal + Sync>(
    rt: &HostRuntime,
    threads: &R,
    kind: RecordedKind,
    size: Size,
) -> io::Result<u8> {
    let out = &mut rt.stdout();
    write_flow(out, kind)?;
    let Some(turns) = record(threads, rt.alloc(), kind, size) else {
        return Ok(OUT_OF_MEMORY);
    };
    write_calls(out, &turns)?;
    Ok(0)
}

/// Does the task, with threads of `threads`.
fn do_task<R: Threads + Wait + Clock + RandomSource + AllocGlobal + Sync>(
    rt: &HostRuntime,
    threads: &R,
    task: Task,
) -> io::Result<u8> {
    let alloc = rt.alloc();
    match task {
        Task::Stress(size) => tell(rt, size, stress(threads, alloc, size)),
        Task::Crowd(size) => tell_crowd(rt, size, crowd(threads, alloc, size)),
        Task::WordCrowd(size) => tell_crowd(rt, size, word_crowd(threads, alloc, size)),
        Task::Record(kind, size) => tell_record(rt, threads, kind, size),
    }
}

fn main(rt: HostRuntime) -> ExitCode {
    let told = match read_task(&rt) {
        Ok(Some(task)) => do_task(&rt, &rt, task),
        Err(fault) if fault.kind() == ErrorKind::OutOfMemory => tell_memory(&rt),
        _ => tell_usage(&rt),
    };
    ExitCode::from(told.unwrap_or(OUT_OF_MEMORY))
}
