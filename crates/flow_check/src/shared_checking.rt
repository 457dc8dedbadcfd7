//! The checker of shared flows.
ghost use Rattle.std.specs.Prelude.{◌≡◌, IfOk, IfSome, is_some};
ghost use Rattle.flow_law.specs.flow.SharedFlow.{config_fault};
ghost use Rattle.flow_check.specs.SharedRecords.{ExplainsShared};
ghost use Rattle.flow_check.specs.Verdicts.{Judges};
ghost use Rattle.flow_check.specs.Moments.{GoesWrong, IsCutOff};

use crate::checking::check;
use crate::record::Record;
use crate::search::finds_none;
use crate::shared_calls::SharedEntry;
use crate::shared_machine::SharedMachine;
use crate::timed::Timed;
use crate::verdict::Verdict;
use crate::wrong_moment::{Checker, guess_moment, wrong_moment};
use flow_law::{Config, Overflow};
use std::alloc::{AllocError, Global};

/// Returns whether no flow can be made of a configuration.
fn has_fault(config: Config) -> bool
    ensures { result ≡ is_some (config_fault config) }
{
    let capacity = config.replay as u64 + config.extra as u64;
    capacity > 65_536 || (capacity == 0 && config.overflow != Overflow::Suspend)
}

/// Judges recorded calls of a shared flow of this configuration, as `check_state` does those of a
/// state flow. No flow has a configuration with a fault, so with such a configuration all calls are
/// illegal.
pub fn check_shared<'a>(
    alloc: Global,
    config: Config,
    calls: &Record<SharedEntry<'a>>,
    budget: u64,
) -> Result<Verdict, AllocError>
    ensures { IfOk result (λ verdict. Judges (ExplainsShared calls.now config) verdict) }
{
    if has_fault(config) {
        return Ok(Verdict::Illegal);
    }
    let callers = calls.callers();
    let machine = SharedMachine::new(alloc, config, callers)?;
    let verdict = check(alloc, &machine, callers, budget)?;
    Ok(verdict)
}

/// Judges records of calls of a shared flow of this configuration.
#[derive(Clone, Copy)]
struct SharedChecker {
    config: Config,
}

impl<'a> Checker<SharedEntry<'a>> for SharedChecker {
    ghost use Rattle.flow_check.specs.SharedRecords.{ExplainsShared};

    ghost explains = { λ checker calls. ExplainsShared calls checker.config };

    fn check(
        &self,
        alloc: Global,
        calls: &Record<SharedEntry<'a>>,
        budget: u64,
    ) -> Result<Verdict, AllocError> {
        check_shared(alloc, self.config, calls, budget)
    }

    fn guess(
        &self,
        alloc: Global,
        callers: &[Vec<Timed<SharedEntry<'a>>>],
        budget: u64,
    ) -> Result<Option<u64>, AllocError> {
        let machine = SharedMachine::new(alloc, self.config, callers)?;
        guess_moment(alloc, &machine, callers, budget)
    }

    fn law_cut_off(&self)
        ensures { IsCutOff (λ known. ExplainsShared known self.now.config) }
    {}
}

/// Returns the first moment by which no order explains the calls of a record that `check_shared` calls illegal, as
/// `state_goes_wrong` does for a state flow.
pub fn shared_goes_wrong<'a>(
    alloc: Global,
    config: Config,
    calls: &Record<SharedEntry<'a>>,
    budget: u64,
) -> Result<Option<u64>, AllocError>
    ensures { IfOk result (λ found. IfSome found (λ moment.
        GoesWrong (λ known. ExplainsShared known config) moment calls.now)) }
{
    let checker = SharedChecker { config };
    let moment = wrong_moment(alloc, &checker, calls, budget)?;
    Ok(moment)
}

/// Returns whether a search of at most `budget` turns finds no order in which a shared flow of this configuration explains
/// the calls, as `state_seems_illegal` does for a state flow.
pub fn shared_seems_illegal<'a>(
    alloc: Global,
    config: Config,
    calls: &Record<SharedEntry<'a>>,
    budget: u64,
) -> Result<bool, AllocError> {
    let callers = calls.callers();
    let machine = SharedMachine::new(alloc, config, callers)?;
    finds_none(alloc, &machine, callers, budget)
}
