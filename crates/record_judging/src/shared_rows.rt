//! The calls of a record of a shared flow, as they are judged.
ghost use Rattle.std.specs.Prelude.{◌≡◌, ◌++◌, [], ◌∷◌, map, IfOk, OnOk};
ghost use Rattle.record_judging.specs.SharedRows.{plain, plain_operation, plain_answer};
ghost use Rattle.record_judging.specs.SharedRows.{plain_known, plain_last, written_shared_answer};
ghost use Rattle.record_judging.specs.SharedRows.{known_of_first, shared_known, shared_done};
ghost use Rattle.record_judging.specs.SharedRows.{emit_begins};
ghost use Rattle.record_judging.specs.SharedRows.{shared_operation, shared_part, first_parts};
ghost use Rattle.record_judging.specs.SharedRows.{last_operation, last_parts};
ghost use Rattle.record_judging.specs.SharedRows.{shared_entries, shared_row, AreSharedCalls};

use crate::words::CallWord;
use crate::written::{WrittenAnswer, WrittenCall};
use flow_check::{SharedAnswer, SharedEntry, SharedOperation, Timed};
use std::alloc::{AllocError, Global};

fn shared_answer(answer: WrittenAnswer, lists: &[u64]) -> SharedAnswer<'_>
    ensures { plain_answer result ≡ written_shared_answer lists.now answer }
{
    match answer {
        WrittenAnswer::Empty => SharedAnswer::Empty,
        WrittenAnswer::Value(value) => SharedAnswer::Value(value),
        WrittenAnswer::Truth(truth) => SharedAnswer::Truth(truth),
        WrittenAnswer::Number(number) => SharedAnswer::Number(number),
        WrittenAnswer::Values(range) => SharedAnswer::Values(range.of(lists)),
        WrittenAnswer::Done | WrittenAnswer::Cancelled | WrittenAnswer::Exchange(_, _) => {
            SharedAnswer::Done
        }
    }
}

/// Returns what is known of the value that a `first` receives. A pending one may leave, but only after it has received a
/// value; a cancelled one may have left without a value.
fn known_of_first(answer: Option<WrittenAnswer>, lists: &[u64]) -> Option<SharedAnswer<'_>>
    ensures { plain_known result ≡ known_of_first lists.now answer }
{
    match answer {
        None => Some(SharedAnswer::SomeValue),
        Some(WrittenAnswer::Cancelled) => None,
        Some(answer) => Some(shared_answer(answer, lists)),
    }
}

/// Returns what is known of a call's answer.
fn known_answer(call: WrittenCall, lists: &[u64]) -> Option<SharedAnswer<'_>>
    ensures { plain_known result ≡ shared_known lists.now call.call call.answer }
{
    match (call.call, call.answer) {
        (CallWord::First, answer) => known_of_first(answer, lists),
        (_, Some(answer)) => Some(shared_answer(answer, lists)),
        (_, None) => None,
    }
}

/// Returns how an `emit` of this value began: a cancelled one may not have begun.
fn emit_begins(value: u64, answer: Option<WrittenAnswer>) -> SharedOperation<'static>
    ensures { plain_operation result ≡ emit_begins value answer }
{
    match answer {
        Some(WrittenAnswer::Cancelled) => SharedOperation::EmitOrNot(value),
        _ => SharedOperation::Emit(value),
    }
}

fn shared_operation(call: WrittenCall, lists: &[u64]) -> SharedOperation<'_>
    ensures { plain_operation result ≡ shared_operation lists.now call.call call }
{
    match call.call {
        CallWord::TryEmit => SharedOperation::TryEmit(call.value),
        CallWord::Emit => emit_begins(call.value, call.answer),
        CallWord::Subscribe => SharedOperation::Subscribe(call.first.of(lists)),
        CallWord::Next | CallWord::First => SharedOperation::Next,
        CallWord::Unsubscribe => SharedOperation::Unsubscribe,
        CallWord::SubscriptionCount => SharedOperation::SubscriptionCount,
        CallWord::ResetReplayCache => SharedOperation::ResetReplayCache,
        CallWord::ReplayCache
        | CallWord::Value
        | CallWord::Set
        | CallWord::CompareAndSet
        | CallWord::Update => SharedOperation::ReplayCache,
    }
}

/// Makes a part of a call.
fn part_of<'a>(
    call: WrittenCall,
    operation: SharedOperation<'a>,
    answer: Option<SharedAnswer<'a>>,
) -> Timed<SharedEntry<'a>>
    ensures { plain result
        ≡ shared_part call (plain_operation operation.entry) (plain_known answer.entry) }
{
    Timed {
        call: SharedEntry { operation, answer },
        begin: call.begin,
        end: call.end,
    }
}

/// Returns the answer to a part of a call: `Done`, or `None` if no answer is known.
fn done_of(call: WrittenCall) -> Option<SharedAnswer<'static>>
    ensures { plain_known result ≡ shared_done call.answer }
{
    match call.answer {
        Some(_) => Some(SharedAnswer::Done),
        None => None,
    }
}

/// Returns the last part of a call that has several.
fn last_part(call: WrittenCall) -> Option<SharedOperation<'static>>
    ensures { plain_last result ≡ last_operation call.call call.answer }
{
    match (call.call, call.answer) {
        (CallWord::First, _) => Some(SharedOperation::Unsubscribe),
        (CallWord::Emit, Some(WrittenAnswer::Cancelled)) => Some(SharedOperation::EmitCancelled),
        (CallWord::Emit, Some(_)) => Some(SharedOperation::EmitReturned),
        _ => None,
    }
}

/// Adds the part with which a `first` subscribes.
#[tactic(auto, using(crate::proofs::Rows::part_pushed))]
fn push_first<'a>(
    row: &mut Vec<Timed<SharedEntry<'a>>>,
    call: WrittenCall,
) -> Result<(), AllocError>
    ensures { OnOk result
        (map plain row.new.items ≡ map plain row.old.items ++ first_parts call.call call) }
{
    match call.call {
        CallWord::First => {
            row.push(part_of(call, SharedOperation::Subscribe(&[]), done_of(call)))?;
            Ok(())
        }
        _ => Ok(()),
    }
}

/// Adds the last part of a call that has several.
#[tactic(auto, using(crate::proofs::Rows::part_pushed))]
fn push_last<'a>(row: &mut Vec<Timed<SharedEntry<'a>>>, call: WrittenCall) -> Result<(), AllocError>
    ensures { OnOk result (map plain row.new.items ≡ map plain row.old.items
        ++ last_parts (last_operation call.call call.answer) call) }
{
    match last_part(call) {
        Some(operation) => {
            row.push(part_of(call, operation, done_of(call)))?;
            Ok(())
        }
        None => Ok(()),
    }
}

/// Adds the parts of a call.
#[tactic(auto, using(crate::proofs::Rows::parts_pushed))]
fn push_parts<'a>(
    row: &mut Vec<Timed<SharedEntry<'a>>>,
    call: WrittenCall,
    lists: &'a [u64],
) -> Result<(), AllocError>
    ensures { OnOk result
        (map plain row.new.items ≡ map plain row.old.items ++ shared_entries lists.now call) }
{
    push_first(row, call)?;
    let part = part_of(
        call,
        shared_operation(call, lists),
        known_answer(call, lists),
    );
    row.push(part)?;
    push_last(row, call)?;
    Ok(())
}

/// Returns the parts of a caller's calls.
fn shared_row<'a>(
    alloc: Global,
    calls: &[WrittenCall],
    lists: &'a [u64],
) -> Result<Vec<Timed<SharedEntry<'a>>>, AllocError>
    ensures { IfOk result (λ row. map plain row.items ≡ shared_row lists.now calls.now) }
{
    let mut row = Vec::new(alloc);
    let mut rest = calls;
    while let Some((first, others)) = rest.split_first() {
        push_parts(&mut row, *first, lists)?;
        rest = others;
    }
    Ok(row)
}

/// Returns the parts of the calls of each caller.
pub fn shared_callers<'a>(
    alloc: Global,
    rows: &[Vec<WrittenCall>],
    lists: &'a [u64],
) -> Result<Vec<Vec<Timed<SharedEntry<'a>>>>, AllocError>
    ensures { IfOk result (λ callers. AreSharedCalls lists.now rows.now callers.items) }
{
    let mut callers = Vec::new(alloc);
    for calls in rows {
        let row = shared_row(alloc, calls.as_slice(), lists)?;
        callers.push(row)?;
    }
    Ok(callers)
}
