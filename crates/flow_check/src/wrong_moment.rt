//! The first moment at which a record goes wrong.
ghost use Rattle.std.specs.Prelude.{ℕ, List, IfOk, IfSome};
ghost use Rattle.flow_check.specs.Records.{CallsByCaller};
ghost use Rattle.flow_check.specs.Verdicts.{Judges};
ghost use Rattle.flow_check.specs.Moments.{JudgesKnown, GoesWrong, IsCutOff};

use crate::candidates::deadline_of;
use crate::machine::Machine;
use crate::moments::{Cut, known_record};
use crate::record::Record;
use crate::search::{Found, search_whole};
use crate::table::Table;
use crate::timed::Timed;
use crate::verdict::Verdict;
use std::alloc::{AllocError, Global};

/// Judges records of calls of one flow.
pub trait Checker<C: Copy> {
    /// Whether an order explains calls.
    ghost explains: { Self → CallsByCaller C → List ℕ → Type 0 };

    fn check(&self, alloc: Global, calls: &Record<C>, budget: u64) -> Result<Verdict, AllocError>
        ensures { IfOk result (λ verdict. Judges (explains self.now calls.now) verdict) };

    /// Returns the moment at which calls that no order explains go wrong first. It is not proved to be right.
    fn guess(
        &self,
        alloc: Global,
        callers: &[Vec<Timed<C>>],
        budget: u64,
    ) -> Result<Option<u64>, AllocError>;

    /// Proves that if some order explains calls, some order explains what was known of them at any cut.
    fn law_cut_off(&self)
        ensures { IsCutOff (explains self.now) };
}

/// Returns the latest of the deadlines of these nodes. In each node some call that ended by then has not happened.
fn latest_deadline<C: Copy, M: Machine<C>>(
    alloc: Global,
    callers: &[Vec<Timed<C>>],
    table: &Table<M>,
) -> Result<u64, AllocError> {
    let mut latest = 0;
    for place in 0..table.len() {
        if let Some(node) = table.at(alloc, place)? {
            latest = deadline_of(callers, &node.placed).max(latest);
        }
    }
    Ok(latest)
}

/// Returns the first moment by which no order goes through the calls, if a search finds it. It is not proved to be
/// right.
pub fn guess_moment<C: Copy, M: Machine<C>>(
    alloc: Global,
    first: &M,
    callers: &[Vec<Timed<C>>],
    budget: u64,
) -> Result<Option<u64>, AllocError> {
    match search_whole(alloc, first, callers, budget)? {
        Found::Table(table) => Ok(Some(latest_deadline(alloc, callers, &table)?)),
        Found::Order(_) | Found::GaveUp => Ok(None),
    }
}

/// Judges what was known of the calls at the cut.
fn judge_known<C: Copy, K: Checker<C>>(
    alloc: Global,
    checker: &K,
    calls: &Record<C>,
    cut: Cut,
    budget: u64,
) -> Result<Verdict, AllocError>
    ensures { IfOk result (λ verdict.
        JudgesKnown (K.explains checker.now) cut calls.now verdict) }
{
    let made = known_record(alloc, calls, cut)?;
    let Some(known) = made else {
        return Ok(Verdict::GaveUp);
    };
    let verdict = checker.check(alloc, &known, budget)?;
    Ok(verdict)
}

/// Returns the moment at which the calls go wrong: before it an order explains them, and by it none does.
pub fn wrong_moment<C: Copy, K: Checker<C>>(
    alloc: Global,
    checker: &K,
    calls: &Record<C>,
    budget: u64,
) -> Result<Option<u64>, AllocError>
    ensures { IfOk result (λ found. IfSome found (λ moment.
        GoesWrong (K.explains checker.now) moment calls.now)) }
{
    let callers = calls.callers();
    let guessed = checker.guess(alloc, callers, budget)?;
    let Some(moment) = guessed else {
        return Ok(None);
    };
    let before = judge_known(alloc, checker, calls, Cut::Before(moment), budget)?;
    let by = judge_known(alloc, checker, calls, Cut::By(moment), budget)?;
    let (Verdict::Legal(_order), Verdict::Illegal) = (before, by) else {
        return Ok(None);
    };
    checker.law_cut_off();
    Ok(Some(moment))
}
