//! The checker of state flows.
ghost use Rattle.std.specs.Prelude.{IfOk, IfSome};
ghost use Rattle.flow_check.specs.StateRecords.{ExplainsState};
ghost use Rattle.flow_check.specs.Verdicts.{Judges};
ghost use Rattle.flow_check.specs.Moments.{GoesWrong};

use crate::checking::check;
use crate::record::Record;
use crate::search::finds_none;
use crate::state_calls::StateEntry;
use crate::state_machine::StateMachine;
use crate::timed::Timed;
use crate::verdict::Verdict;
use crate::wrong_moment::{Checker, guess_moment, wrong_moment};
use std::alloc::{AllocError, Global};

/// Judges recorded calls of a state flow with this initial value: whether a legal history of the
/// documented flow explains them in some order. Gives up after `budget` turns of the search.
pub fn check_state(
    alloc: Global,
    initial: u64,
    calls: &Record<StateEntry>,
    budget: u64,
) -> Result<Verdict, AllocError>
    ensures { IfOk result (λ verdict. Judges (ExplainsState calls.now initial) verdict) }
{
    let callers = calls.callers();
    let machine = StateMachine::new(alloc, initial, callers)?;
    let verdict = check(alloc, &machine, callers, budget)?;
    Ok(verdict)
}

/// Judges records of calls of a state flow with this initial value.
#[derive(Clone, Copy)]
struct StateChecker {
    initial: u64,
}

impl Checker<StateEntry> for StateChecker {
    ghost use Rattle.flow_check.specs.StateRecords.{ExplainsState};

    ghost explains = { λ checker calls. ExplainsState calls checker.initial };

    fn check(
        &self,
        alloc: Global,
        calls: &Record<StateEntry>,
        budget: u64,
    ) -> Result<Verdict, AllocError> {
        check_state(alloc, self.initial, calls, budget)
    }

    fn guess(
        &self,
        alloc: Global,
        callers: &[Vec<Timed<StateEntry>>],
        budget: u64,
    ) -> Result<Option<u64>, AllocError> {
        let machine = StateMachine::new(alloc, self.initial, callers)?;
        guess_moment(alloc, &machine, callers, budget)
    }

    fn law_cut_off(&self) {}
}

/// Returns the first moment by which no order explains the calls of a record that `check_state` calls illegal. At each
/// earlier moment some order explains what was known of them, and from this moment on none does. Returns None if a
/// search gave up, or what it found was not confirmed.
pub fn state_goes_wrong(
    alloc: Global,
    initial: u64,
    calls: &Record<StateEntry>,
    budget: u64,
) -> Result<Option<u64>, AllocError>
    ensures { IfOk result (λ found. IfSome found (λ moment.
        GoesWrong (λ known. ExplainsState known initial) moment calls.now)) }
{
    let checker = StateChecker { initial };
    let moment = wrong_moment(alloc, &checker, calls, budget)?;
    Ok(moment)
}

/// Returns whether a search of at most `budget` turns finds no order in which a state flow with this initial value
/// explains the calls. It is quicker than `check_state`, and not proved to be right.
pub fn state_seems_illegal(
    alloc: Global,
    initial: u64,
    calls: &Record<StateEntry>,
    budget: u64,
) -> Result<bool, AllocError> {
    let callers = calls.callers();
    let machine = StateMachine::new(alloc, initial, callers)?;
    finds_none(alloc, &machine, callers, budget)
}
