//! What is left of a record after some of its calls have happened.
ghost use Rattle.std.specs.Prelude.{◌≡◌, IsTrue, IfOk};
ghost use Rattle.flow_check.specs.Records.{is_over_before, recorded};
ghost use Rattle.flow_check.specs.Remaining.{next_call_of, NoneOverBefore, OwesNothing};
ghost use Rattle.flow_check.specs.Remaining.{placing, none_placed};

use crate::timed::Timed;
use std::alloc::{AllocError, Global};

/// Returns a caller's call of this index.
pub fn recorded<C: Copy>(callers: &[Vec<Timed<C>>], caller: usize, index: usize) -> Option<Timed<C>>
    ensures { result ≡ recorded callers.now caller index }
{
    match callers.get(caller) {
        None => None,
        Some(calls) => calls.as_slice().get(index).copied(),
    }
}

/// Returns a caller's first call that has not happened.
pub fn next_call<C: Copy>(
    callers: &[Vec<Timed<C>>],
    placed: &Vec<u32>,
    caller: usize,
) -> Option<Timed<C>>
    ensures { result ≡ next_call_of callers.now placed.now.items caller }
{
    match placed.as_slice().get(caller) {
        None => None,
        Some(index) => recorded(callers, caller, *index as usize),
    }
}

/// Returns whether a call with this end was over before this moment.
pub fn is_over_before(end: Option<u64>, moment: u64) -> bool
    ensures { result ≡ is_over_before end moment }
{
    match end {
        None => false,
        Some(end) => end < moment,
    }
}

/// Returns whether no caller's next call was over before this moment.
pub fn may_come_next<C: Copy>(callers: &[Vec<Timed<C>>], placed: &Vec<u32>, begin: u64) -> bool
    ensures yes { IsTrue result → NoneOverBefore callers.now begin placed.now.items }
    ensures no { NoneOverBefore callers.now begin placed.now.items → IsTrue result }
{
    for other in 0..callers.len() {
        if let Some(call) = next_call(callers, placed, other) {
            if is_over_before(call.end, begin) {
                return false;
            }
        }
    }
    true
}

/// Returns whether every caller's next call is pending.
pub fn owes_nothing<C: Copy>(callers: &[Vec<Timed<C>>], placed: &Vec<u32>) -> bool
    ensures yes { IsTrue result → OwesNothing callers.now placed.now.items }
    ensures no { OwesNothing callers.now placed.now.items → IsTrue result }
{
    for caller in 0..callers.len() {
        if let Some(call) = next_call(callers, placed, caller) {
            if call.end.is_some() {
                return false;
            }
        }
    }
    true
}

/// Counts one more call of this caller, or returns false if it cannot.
pub fn place(placed: &mut Vec<u32>, caller: usize) -> bool
    ensures { IsTrue result → placed.new.items ≡ placing caller placed.old.items }
{
    if caller < placed.len() && placed[caller] < u32::MAX {
        placed[caller] += 1;
        true
    } else {
        false
    }
}

/// Returns the counts of calls before any call: 0 for each caller.
pub fn none_placed<C>(alloc: Global, callers: &[Vec<Timed<C>>]) -> Result<Vec<u32>, AllocError>
    ensures { IfOk result (λ placed. placed.items ≡ none_placed callers.now) }
{
    let mut placed = Vec::new(alloc);
    for _row in callers {
        placed.push(0)?;
    }
    Ok(placed)
}
