//! A pair of threads at a shared flow: one sends the numbers from 1 to n, the other receives them.
ghost use Rattle.std.specs.Prelude.{◌≡◌, IfOk, IfErr, IfSome};
ghost use Rattle.flow_program.specs.Crowds.{IsFirst};
ghost use Rattle.flow_program.specs.Numbers.{numbers_from};

use crate::crowd::emitters::start_emitter;
use crate::crowd::new_flow;
use crate::crowd::receiving::receive_all;
use flow_law::FlowFault;
use flow_shared::Emitter;
use std::alloc::Global;
use std::sync::Wait;
use std::thread;
use std::thread::{Scope, Threads};

/// Sends in another thread, receives in this one, and lets both callers meet: a history of the flow then has all that
/// they did, and nothing else. Returns what was received, or `None` if memory or a thread was refused.
fn hand_over<'s, E, R: Threads + Wait + Sync>(
    rt: &'s R,
    alloc: Global,
    scope: &Scope<'s, E>,
    emitter: Emitter<u64>,
    count: u64,
) -> Option<Vec<u64>>
    requires { IsFirst emitter }
    ensures { IfSome result (λ got. got.items ≡ numbers_from 1 count) }
{
    let list = Vec::with_capacity(alloc, count as usize).ok()?;
    let mut emitter = emitter;
    let Ok(mut reader) = emitter.subscribe(rt) else {
        return None;
    };
    let sender = start_emitter(rt, scope, emitter, 1, count)?;
    let got = receive_all(rt, &mut reader, count, list);
    let mut emitter = sender.join(rt);
    emitter.meet_twice(rt, &mut [], &mut [reader]);
    Some(got)
}

/// Hands over the numbers through the flow of this first caller, in a scope of its own.
fn hand_over_in_scope<R: Threads + Wait + Sync>(
    rt: &R,
    alloc: Global,
    emitter: Emitter<u64>,
    count: u64,
) -> Option<Vec<u64>>
    requires { IsFirst emitter }
    ensures { IfSome result (λ got. got.items ≡ numbers_from 1 count) }
{
    thread::scope(
        thread::scope_env(),
        rt,
        move |scope| -> Option<Vec<u64>>
            requires { IsFirst emitter }
            ensures { IfSome result (λ got. got.items ≡ numbers_from 1 count) }
        { hand_over(rt, alloc, scope, emitter, count) },
    )
}

/// Hands over the numbers through a new flow. `None` if memory or a thread was refused.
fn through_new_flow<R: Threads + Wait + Sync>(rt: &R, alloc: Global, count: u64) -> Option<Vec<u64>>
    ensures { IfSome result (λ got. got.items ≡ numbers_from 1 count) }
{
    let emitter = new_flow(alloc)?;
    hand_over_in_scope(rt, alloc, emitter, count)
}

/// Makes a shared flow with no replay and room for 16 values, whose emitter waits for the subscriber
/// (`BufferOverflow.SUSPEND`). One thread sends the numbers from 1 to `count`, the other receives as many values.
///
/// What was received is what was sent, in order, for every schedule.
///
/// # Errors
/// `OutOfMemory` if there is no memory, or no thread can be made.
pub fn run_pair<R: Threads + Wait + Sync>(
    rt: &R,
    alloc: Global,
    count: u64,
) -> Result<Vec<u64>, FlowFault>
    ensures got { IfOk result (λ got. got.items ≡ numbers_from 1 count) }
    ensures memory { IfErr result (λ fault. fault ≡ FlowFault.OutOfMemory) }
{
    through_new_flow(rt, alloc, count).ok_or(FlowFault::OutOfMemory)
}
