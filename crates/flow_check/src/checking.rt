//! Checks records of any flow.
ghost use Rattle.std.specs.Prelude.{◌≡◌, ℕ, List, IfOk};
ghost use Rattle.flow_check.specs.Records.{IsWellTimed};
ghost use Rattle.flow_check.specs.PrivateCalls.{MayMakePrivate};
ghost use Rattle.flow_check.specs.Twins.{KeepSwapped};
ghost use Rattle.flow_check.specs.Remaining.{GoesThroughAll};
ghost use Rattle.flow_check.specs.Verdicts.{Judges};

use crate::machine::Machine;
use crate::refuting::refutes;
use crate::replaying::{callers_of, goes_through};
use crate::search::{Found, search};
use crate::timed::Timed;
use crate::verdict::Verdict;
use std::alloc::{AllocError, Global};

/// Judges whether some order of steps goes through all calls. Gives up after `budget` turns of the
/// search. Replays an order that the search finds, or checks that its table of nodes is closed.
pub fn check<C: Copy, M: Machine<C>>(
    alloc: Global,
    first: &M,
    callers: &[Vec<Timed<C>>],
    budget: u64,
) -> Result<Verdict, AllocError>
    requires well { IsWellTimed callers.now }
    requires early { MayMakePrivate
        M.stepped M.may_skip M.IsSound M.is_private M.Ahead first.now }
    requires swapped { KeepSwapped M.stepped M.may_skip M.Swapped }
    ensures { IfOk result (λ verdict.
        Judges (GoesThroughAll M.stepped M.may_skip callers.now first.now) verdict) }
{
    let found = search(alloc, first, callers, budget)?;
    match found {
        Found::GaveUp => Ok(Verdict::GaveUp),
        Found::Order(order) => {
            let copy = first.try_copy(alloc)?;
            let yes = goes_through(alloc, copy, callers, order.as_slice())?;
            if yes {
                let callers = callers_of(alloc, order.as_slice())?;
                return Ok(Verdict::Legal(callers));
            }
            Ok(Verdict::GaveUp)
        }
        Found::Table(table) => {
            let yes = refutes(alloc, first, callers, &table)?;
            if yes {
                return Ok(Verdict::Illegal);
            }
            Ok(Verdict::GaveUp)
        }
    }
}
