//! Threads that count with one state flow, without a lock.
ghost use Rattle.std.specs.Prelude.{◌≡◌, ◌*◌, pos, IfOk, IfErr};
ghost use Rattle.flow_word.specs.Updating.{HasUpdated, plus_one};

mod size;

use flow_law::FlowFault;
use flow_word::{WordSetter, WordState};
pub use size::CountSize;
use std::alloc::Global;
use std::sync::Wait;
use std::thread::{Threads, for_each_mut};

/// Adds one to the value, `updates` times.
fn count_up<R: Wait>(rt: &R, caller: &mut WordSetter<i64>, updates: u32)
    ensures { HasUpdated plus_one updates caller.old caller.new }
{
    for _done in 0..updates {
        caller.update(rt, |value| value.wrapping_add(1));
    }
}

/// Runs threads that add one to a new state flow, all at once (`MutableStateFlow.update`), and returns the final value:
/// no update is lost. If a thread cannot be made, another does its part. If memory is refused, no thread has begun.
pub fn run_count<R: Threads + Wait + Sync>(
    rt: &R,
    alloc: Global,
    size: CountSize,
) -> Result<i64, FlowFault>
    ensures counted { IfOk result (λ value. value ≡ pos (size.threads * size.updates)) }
    ensures memory { IfErr result (λ fault. fault ≡ FlowFault.OutOfMemory) }
{
    let (flow, seat) = WordState::new(alloc, 0, 0)?;
    let mut maker = flow.into_setter(alloc, seat)?;
    let mut callers = maker.others(rt, alloc, size.threads)?;
    let callers = callers.as_mut_slice();
    let count = |_: usize, caller: &mut WordSetter<i64>| count_up(rt, caller, size.updates);
    for_each_mut(rt, callers, 8, &count);
    Ok(maker.final_value(callers))
}
