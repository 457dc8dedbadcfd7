//! The calls of a record of a state flow, as they are judged.
ghost use Rattle.std.specs.Prelude.{◌≡◌, ◌++◌, map, IfOk, OnOk};
ghost use Rattle.record_judging.specs.StateRows.{only_value, exchange, state_operation};
ghost use Rattle.record_judging.specs.StateRows.{written_state_answer, state_known, state_done};
ghost use Rattle.record_judging.specs.StateRows.{state_part, state_parts, state_row, AreStateCalls};

use crate::words::CallWord;
use crate::written::{WrittenAnswer, WrittenCall};
use flow_check::{StateAnswer, StateEntry, StateOperation, Timed};
use std::alloc::{AllocError, Global};

/// Returns the only value of a list that a state flow replays: no other list is an answer.
fn only_value(values: &[u64]) -> StateAnswer
    ensures { result ≡ only_value values.now }
{
    match values {
        [value] => StateAnswer::Value(*value),
        _ => StateAnswer::Empty,
    }
}

fn state_answer(answer: WrittenAnswer, lists: &[u64]) -> StateAnswer
    ensures { result ≡ written_state_answer lists.now answer }
{
    match answer {
        WrittenAnswer::Done | WrittenAnswer::Cancelled => StateAnswer::Done,
        WrittenAnswer::Empty => StateAnswer::Empty,
        WrittenAnswer::Value(value) => StateAnswer::Value(value),
        WrittenAnswer::Truth(truth) => StateAnswer::Truth(truth),
        WrittenAnswer::Number(number) => StateAnswer::Number(number),
        WrittenAnswer::Exchange(_old, _new) => StateAnswer::Truth(true),
        WrittenAnswer::Values(range) => only_value(range.of(lists)),
    }
}

/// Returns the exchange that an `update` made.
fn exchange(answer: Option<WrittenAnswer>) -> StateOperation
    ensures { result ≡ exchange answer }
{
    match answer {
        Some(WrittenAnswer::Exchange(old, new)) => StateOperation::CompareAndSet(old, new),
        _ => StateOperation::Value,
    }
}

fn state_operation(call: WrittenCall) -> StateOperation
    ensures { result ≡ state_operation call.call call }
{
    match call.call {
        CallWord::Set => StateOperation::Set(call.value),
        CallWord::TryEmit | CallWord::Emit => StateOperation::TryEmit(call.value),
        CallWord::CompareAndSet => StateOperation::CompareAndSet(call.expect, call.value),
        CallWord::Update => exchange(call.answer),
        CallWord::Subscribe => StateOperation::Subscribe,
        CallWord::Next | CallWord::First => StateOperation::Next,
        CallWord::Unsubscribe => StateOperation::Unsubscribe,
        CallWord::SubscriptionCount => StateOperation::SubscriptionCount,
        CallWord::ReplayCache => StateOperation::ReplayCache,
        CallWord::Value | CallWord::ResetReplayCache => StateOperation::Value,
    }
}

/// Makes a part of a call.
fn part_of(
    call: WrittenCall,
    operation: StateOperation,
    answer: Option<StateAnswer>,
) -> Timed<StateEntry>
    ensures { result ≡ state_part call operation answer }
{
    Timed {
        call: StateEntry { operation, answer },
        begin: call.begin,
        end: call.end,
    }
}

/// Returns the answer to a part of a call: `Done`, or `None` if no answer is known.
fn done_of(call: WrittenCall) -> Option<StateAnswer>
    ensures { result ≡ state_done call.answer }
{
    match call.answer {
        Some(_) => Some(StateAnswer::Done),
        None => None,
    }
}

/// Returns what is known of a call's answer. Nothing has to be known of that of a pending or cancelled `first`: a new
/// subscriber of a state flow always receives a value.
fn known_answer(call: WrittenCall, lists: &[u64]) -> Option<StateAnswer>
    ensures { result ≡ state_known lists.now call.answer }
{
    match call.answer {
        None | Some(WrittenAnswer::Cancelled) => None,
        Some(answer) => Some(state_answer(answer, lists)),
    }
}

/// Adds the parts of a call.
fn push_parts(
    row: &mut Vec<Timed<StateEntry>>,
    call: WrittenCall,
    lists: &[u64],
) -> Result<(), AllocError>
    ensures { OnOk result (row.new.items ≡ row.old.items ++ state_parts lists.now call) }
{
    let part = part_of(call, state_operation(call), known_answer(call, lists));
    match call.call {
        CallWord::First => {
            row.push(part_of(call, StateOperation::Subscribe, done_of(call)))?;
            row.push(part)?;
            row.push(part_of(call, StateOperation::Unsubscribe, done_of(call)))?;
            Ok(())
        }
        _ => {
            row.push(part)?;
            Ok(())
        }
    }
}

/// Returns the parts of a caller's calls.
fn state_row(
    alloc: Global,
    calls: &[WrittenCall],
    lists: &[u64],
) -> Result<Vec<Timed<StateEntry>>, AllocError>
    ensures { IfOk result (λ row. row.items ≡ state_row lists.now calls.now) }
{
    let mut row = Vec::new(alloc);
    let mut rest = calls;
    while let Some((first, others)) = rest.split_first() {
        push_parts(&mut row, *first, lists)?;
        rest = others;
    }
    Ok(row)
}

/// Returns the parts of the calls of each caller.
pub fn state_callers(
    alloc: Global,
    rows: &[Vec<WrittenCall>],
    lists: &[u64],
) -> Result<Vec<Vec<Timed<StateEntry>>>, AllocError>
    ensures { IfOk result (λ callers. AreStateCalls lists.now rows.now callers.items) }
{
    let mut callers = Vec::new(alloc);
    for calls in rows {
        let row = state_row(alloc, calls.as_slice(), lists)?;
        callers.push(row)?;
    }
    Ok(callers)
}
