//! Threads at one shared flow: several emit into it, and several subscribers, each in a thread of its own, read all
//! that was emitted. The callers are made first, then their threads; at the end all callers meet.
//!
//! # What is proved
//! If `run_crowd` returns what its subscribers got, each of them got all values of all emitters, each emitter's in its
//! order, for every schedule. Nothing is said of the order between two emitters. If `run_pair` returns what one thread
//! received from another, that is what was sent, whole and in order.
//!
//! Under `BufferOverflow.SUSPEND` no subscriber loses a value. Each thread proves what it did itself. After all callers
//! have met twice, that is all that was done, and the laws of the flow give the rest.
//!
//! # Stopping
//! All subscribe before a thread starts, and the threads that emit start first. If a thread cannot be made, the
//! subscribers without one are dropped: no emitter waits for them, the threads that were made end, and the call returns
//! `OutOfMemory`.
ghost use Rattle.std.specs.Prelude.{◌≡◌, All, IfErr, IfOk, IfSome, vec_len};
ghost use Rattle.flow_program.specs.Crowds.{EachGotAll, GotAll, IsFirst};

mod callers;
mod emitters;
mod pair;
mod receiving;
mod running;
mod sending;
mod size;
mod subscribers;

use crate::crowd::callers::callers_of;
use crate::crowd::running::{Ended, run_threads};
use flow_law::{Config, FlowFault};
use flow_shared::{Emitter, SharedFlow};
pub use pair::run_pair;
pub use size::CrowdSize;
use std::alloc::Global;
use std::sync::Wait;
use std::thread;
use std::thread::{Scope, Threads};

/// Runs a crowd in a scope, through the first caller of its flow. All subscribe before any thread starts, and all
/// callers meet after their threads have ended.
fn run_in<'s, E, R: Threads + Wait + Sync>(
    rt: &'s R,
    alloc: Global,
    scope: &Scope<'s, E>,
    maker: Emitter<u64>,
    size: CrowdSize,
) -> Option<Vec<Vec<u64>>>
    requires { IsFirst maker }
    ensures { IfSome result (EachGotAll size) }
{
    let mut maker = maker;
    let callers = callers_of(rt, alloc, &mut maker, size)?;
    let ended = run_threads(rt, alloc, scope, callers, size)?;
    let Ended {
        mut emitters,
        mut readers,
        got,
    } = ended;
    maker.meet_twice(rt, &mut emitters, &mut readers);
    Some(got)
}

/// Runs a crowd through the first caller of its flow, in a scope of its own.
fn run_with<R: Threads + Wait + Sync>(
    rt: &R,
    alloc: Global,
    maker: Emitter<u64>,
    size: CrowdSize,
) -> Option<Vec<Vec<u64>>>
    requires { IsFirst maker }
    ensures { IfSome result (EachGotAll size) }
{
    thread::scope(
        thread::scope_env(),
        rt,
        move |scope| -> Option<Vec<Vec<u64>>>
            requires { IsFirst maker }
            ensures { IfSome result (EachGotAll size) }
        { run_in(rt, alloc, scope, maker, size) },
    )
}

/// Makes a flow with no replay and room for 16 values, which suspends its emitters. Returns its first caller, or `None`
/// if memory was refused.
fn new_flow(alloc: Global) -> Option<Emitter<u64>>
    ensures { IfSome result IsFirst }
{
    let (flow, seat) = SharedFlow::new(alloc, Config::new().extra(16)).ok()?;
    flow.into_emitter(alloc, seat).ok()
}

/// Runs a crowd at a new flow. `None` if memory or a thread was refused.
fn at_new_flow<R: Threads + Wait + Sync>(
    rt: &R,
    alloc: Global,
    size: CrowdSize,
) -> Option<Vec<Vec<u64>>>
    ensures { IfSome result (EachGotAll size) }
{
    let maker = new_flow(alloc)?;
    run_with(rt, alloc, maker, size)
}

/// Runs a crowd at a new shared flow with no replay and room for 16 values, whose emitters wait for the slowest
/// subscriber (`BufferOverflow.SUSPEND`). Returns what each subscriber got.
///
/// The subscriptions are made before any emitter emits. Emitter i, from 0, emits `values` numbers, from `i * values`
/// on, in order. Each subscriber reads until it has as many values as all emit. The call waits until all threads have
/// ended.
///
/// Each subscriber got all values of all emitters, each emitter's in its order, for every schedule.
///
/// # Errors
/// `OutOfMemory` if there is no memory, or a thread could not be made. What was emitted by then is lost.
pub fn run_crowd<R: Threads + Wait + Sync>(
    rt: &R,
    alloc: Global,
    size: CrowdSize,
) -> Result<Vec<Vec<u64>>, FlowFault>
    ensures count { IfOk result (λ got. vec_len got ≡ size.subscribers) }
    ensures got { IfOk result (λ got. All (λ list. GotAll size list.items) got.items) }
    ensures memory { IfErr result (λ fault. fault ≡ FlowFault.OutOfMemory) }
{
    at_new_flow(rt, alloc, size).ok_or(FlowFault::OutOfMemory)
}
