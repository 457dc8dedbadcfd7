//! Judges a record that was read.
ghost use Rattle.std.specs.Prelude.{◌≡◌, ℕ, List, IfOk, IfSome};
ghost use Rattle.record_judging.specs.declared.written.WrittenFlow.TheVariants.{State, Shared};
ghost use Rattle.record_judging.specs.Judged.{JudgesRows, GoesWrongAt};
ghost use Rattle.record_judging.specs.NextCalls.{part_count};

use crate::shared_rows::shared_callers;
use crate::state_rows::state_callers;
use crate::words::CallWord;
use crate::written::{Sheet, WrittenCall, WrittenFlow};
use flow_check::{
    Fault, Record, Verdict, check_shared, check_state, shared_goes_wrong, shared_seems_illegal,
    state_goes_wrong, state_seems_illegal,
};
use flow_law::Config;
use std::alloc::{AllocError, Global};

/// The number of turns of the search for each call.
const TURNS_A_CALL: u64 = 1000;

/// The least number of turns: the calls of a small record may all overlap.
const LEAST_TURNS: u64 = 4_000_000;

/// The number of turns for each call, and the least number, of a search that only makes a list of calls shorter.
const FEW_TURNS_A_CALL: u64 = 50;

const FEW_TURNS: u64 = 100_000;

/// What judging a record came to.
#[derive(Drop)]
pub enum Outcome {
    Judged(Verdict),
    /// The call of this number ends or begins too early.
    Faulty(Fault, usize),
}

/// Returns the most turns of a search: as many as were asked for, or else by the number of calls.
fn turns(most_turns: Option<u64>, calls: usize) -> u64 {
    match most_turns {
        Some(turns) => turns,
        None => (calls as u64).saturating_mul(TURNS_A_CALL).max(LEAST_TURNS),
    }
}

fn few_turns(calls: usize) -> u64 {
    (calls as u64)
        .saturating_mul(FEW_TURNS_A_CALL)
        .max(FEW_TURNS)
}

/// Returns how many parts a call has.
pub fn parts_of(call: WrittenCall, flow: WrittenFlow) -> usize
    ensures { (lists : List ℕ) → result ≡ part_count flow lists call }
{
    match (call.call, flow, call.answer) {
        (CallWord::First, _, _) => 3,
        (CallWord::Emit, WrittenFlow::Shared(_), Some(_)) => 2,
        _ => 1,
    }
}

/// Returns the number of the call that has the faulty part, or 0.
fn number_of(sheet: &Sheet, fault: Fault) -> usize {
    let Some(row) = sheet.rows.get(fault.caller) else {
        return 0;
    };
    let mut before: usize = 0;
    for call in row.as_slice() {
        before = before.saturating_add(parts_of(*call, sheet.flow));
        if fault.index < before {
            return call.number;
        }
    }
    0
}

/// Judges these calls of a state flow with this initial value.
fn judge_state(
    alloc: Global,
    sheet: &Sheet,
    rows: &[Vec<WrittenCall>],
    initial: u64,
    budget: u64,
) -> Result<Outcome, AllocError>
    ensures { IfOk result (JudgesRows (State initial) sheet.now.lists.items rows.now) }
{
    let callers = state_callers(alloc, rows, sheet.lists.as_slice())?;
    match Record::new(callers) {
        Ok(record) => {
            let verdict = check_state(alloc, initial, &record, budget)?;
            Ok(Outcome::Judged(verdict))
        }
        Err(fault) => Ok(Outcome::Faulty(fault, number_of(sheet, fault))),
    }
}

/// Judges these calls of a shared flow of this configuration.
fn judge_shared(
    alloc: Global,
    sheet: &Sheet,
    rows: &[Vec<WrittenCall>],
    config: Config,
    budget: u64,
) -> Result<Outcome, AllocError>
    ensures { IfOk result (JudgesRows (Shared config) sheet.now.lists.items rows.now) }
{
    let callers = shared_callers(alloc, rows, sheet.lists.as_slice())?;
    match Record::new(callers) {
        Ok(record) => {
            let verdict = check_shared(alloc, config, &record, budget)?;
            Ok(Outcome::Judged(verdict))
        }
        Err(fault) => Ok(Outcome::Faulty(fault, number_of(sheet, fault))),
    }
}

/// Judges these calls of the callers of a record, by a search of at most `most_turns`.
pub fn judge(
    alloc: Global,
    sheet: &Sheet,
    rows: &[Vec<WrittenCall>],
    most_turns: Option<u64>,
) -> Result<Outcome, AllocError>
    ensures { IfOk result (JudgesRows sheet.now.flow sheet.now.lists.items rows.now) }
{
    let budget = turns(most_turns, sheet.count);
    match sheet.flow {
        WrittenFlow::State { initial } => judge_state(alloc, sheet, rows, initial, budget),
        WrittenFlow::Shared(config) => judge_shared(alloc, sheet, rows, config, budget),
    }
}

fn seems_illegal_state(
    alloc: Global,
    sheet: &Sheet,
    rows: &[Vec<WrittenCall>],
    initial: u64,
) -> Result<bool, AllocError> {
    let callers = state_callers(alloc, rows, sheet.lists.as_slice())?;
    match Record::new(callers) {
        Ok(record) => state_seems_illegal(alloc, initial, &record, few_turns(sheet.count)),
        Err(_) => Ok(false),
    }
}

fn seems_illegal_shared(
    alloc: Global,
    sheet: &Sheet,
    rows: &[Vec<WrittenCall>],
    config: Config,
) -> Result<bool, AllocError> {
    let callers = shared_callers(alloc, rows, sheet.lists.as_slice())?;
    match Record::new(callers) {
        Ok(record) => shared_seems_illegal(alloc, config, &record, few_turns(sheet.count)),
        Err(_) => Ok(false),
    }
}

/// Returns whether a short search finds no order of these calls. Its answer is not proved to be right.
pub fn seems_illegal(
    alloc: Global,
    sheet: &Sheet,
    rows: &[Vec<WrittenCall>],
) -> Result<bool, AllocError> {
    match sheet.flow {
        WrittenFlow::State { initial } => seems_illegal_state(alloc, sheet, rows, initial),
        WrittenFlow::Shared(config) => seems_illegal_shared(alloc, sheet, rows, config),
    }
}

fn wrong_state(
    alloc: Global,
    sheet: &Sheet,
    initial: u64,
    budget: u64,
) -> Result<Option<u64>, AllocError>
    ensures { IfOk result (λ found. IfSome found
        (GoesWrongAt (State initial) sheet.now.lists.items sheet.now.rows.items)) }
{
    let callers = state_callers(alloc, sheet.rows.as_slice(), sheet.lists.as_slice())?;
    match Record::new(callers) {
        Ok(record) => {
            let moment = state_goes_wrong(alloc, initial, &record, budget)?;
            Ok(moment)
        }
        Err(_) => Ok(None),
    }
}

fn wrong_shared(
    alloc: Global,
    sheet: &Sheet,
    config: Config,
    budget: u64,
) -> Result<Option<u64>, AllocError>
    ensures { IfOk result (λ found. IfSome found
        (GoesWrongAt (Shared config) sheet.now.lists.items sheet.now.rows.items)) }
{
    let callers = shared_callers(alloc, sheet.rows.as_slice(), sheet.lists.as_slice())?;
    match Record::new(callers) {
        Ok(record) => {
            let moment = shared_goes_wrong(alloc, config, &record, budget)?;
            Ok(moment)
        }
        Err(_) => Ok(None),
    }
}

/// Returns the first moment by which no order explains the calls of an illegal record, or None if a search gave up: each
/// has at most `most_turns`.
pub fn wrong_moment(
    alloc: Global,
    sheet: &Sheet,
    most_turns: Option<u64>,
) -> Result<Option<u64>, AllocError>
    ensures { IfOk result (λ found. IfSome found
        (GoesWrongAt sheet.now.flow sheet.now.lists.items sheet.now.rows.items)) }
{
    let budget = turns(most_turns, sheet.count);
    match sheet.flow {
        WrittenFlow::State { initial } => wrong_state(alloc, sheet, initial, budget),
        WrittenFlow::Shared(config) => wrong_shared(alloc, sheet, config, budget),
    }
}
