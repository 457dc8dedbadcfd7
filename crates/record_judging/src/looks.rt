//! Which calls of a record are looks, and which are changes that any caller could have made.
use crate::words::CallWord;
use crate::written::{Sheet, WrittenAnswer, WrittenCall};
use std::alloc::{AllocError, Global};

/// Returns whether a call changed nothing.
pub fn is_look(call: WrittenCall) -> bool {
    match (call.call, call.answer) {
        (CallWord::Value | CallWord::SubscriptionCount | CallWord::ReplayCache, _) => true,
        (CallWord::CompareAndSet, Some(WrittenAnswer::Truth(false))) => true,
        (CallWord::Next, Some(WrittenAnswer::Empty)) => true,
        _ => false,
    }
}

/// Returns whether a call is a change that does not depend on its caller.
fn is_change_of_any(call: WrittenCall) -> bool {
    match call.call {
        CallWord::Set
        | CallWord::CompareAndSet
        | CallWord::Update
        | CallWord::TryEmit
        | CallWord::Emit
        | CallWord::ResetReplayCache => !is_look(call),
        _ => false,
    }
}

/// Calls that a conflict may not need.
#[derive(Clone, Copy)]
pub enum Tried {
    /// The looks that were over before a moment.
    LooksBefore(u64),
    /// The looks that were over at a moment.
    LooksUntil(u64),
    /// The looks that had begun by a moment and were not over.
    LooksOpen(u64),
    /// The changes of any caller that were over after a moment and by another one.
    Changes { after: u64, by: u64 },
}

impl Tried {
    fn has(self, call: WrittenCall) -> bool {
        match self {
            Tried::LooksBefore(moment) => {
                is_look(call) && matches!(call.end, Some(end) if end < moment)
            }
            Tried::LooksUntil(moment) => is_look(call) && call.end == Some(moment),
            Tried::LooksOpen(moment) => {
                is_look(call)
                    && call.begin <= moment
                    && !matches!(call.end, Some(end) if end <= moment)
            }
            Tried::Changes { after, by } => {
                let end = call.end.unwrap_or(after);
                after < end && end <= by && is_change_of_any(call)
            }
        }
    }
}

/// Adds the numbers of the tried calls of a caller.
fn add_numbers(
    numbers: &mut Vec<usize>,
    calls: &[WrittenCall],
    tried: Tried,
) -> Result<(), AllocError> {
    for call in calls {
        if tried.has(*call) {
            numbers.push(call.number)?;
        }
    }
    Ok(())
}

/// Returns the numbers of the calls that are tried, in order.
pub fn numbers_of(alloc: Global, sheet: &Sheet, tried: Tried) -> Result<Vec<usize>, AllocError> {
    let mut numbers = Vec::new(alloc);
    for calls in sheet.rows.as_slice() {
        add_numbers(&mut numbers, calls.as_slice(), tried)?;
    }
    numbers.sort()?;
    Ok(numbers)
}
