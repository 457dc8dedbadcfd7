//! `runningReduce` of whole numbers.
ghost use Rattle.std.specs.Prelude.{◌≡◌, ◌≢◌, ℤ};
ghost use Rattle.flow_law.specs.declared.chain.ChainFault.{ChainFault};
ghost use Rattle.flow_law.specs.chain.ChainRun.{ChainRun, gives};
ghost use Rattle.flow_law.specs.chain.OperatorRuns.{running_reduce_run};
ghost use Rattle.flow_cold.specs.Numbers.{computed};
ghost use Rattle.flow_cold.specs.OperatorAsks.{StepLeaves};
ghost use Rattle.flow_cold.specs.Operators.{StepGives, after_step};

use crate::script_chain::op::Arithmetic;
use crate::script_chain::operator::Step;

/// The state of a `runningReduce`. `last` is the accumulator, or `None` before the first item.
#[derive(Drop)]
pub struct Reducing {
    pub by: Arithmetic,
    pub last: Option<i64>,
}

impl Reducing {
    /// Returns the first item, or the next accumulator.
    pub fn on_item(&mut self, item: i64) -> Step
        ensures by { self.new.by ≡ self.old.by }
        ensures gives { (r : ChainRun ℤ)
            → StepGives (running_reduce_run (computed self.old.by) self.old.last (gives item r))
            result
            (running_reduce_run (computed self.new.by) self.new.last r) }
        ensures leaves { (r further : ChainRun ℤ) → StepLeaves r result r further }
        ensures held { (r q : ChainRun ℤ) → after_step result r q ≡ q }
        ensures given { result ≢ Step.Fault ChainFault.OutOfMemory }
    {
        let made = match self.last {
            Some(last) => self.by.compute(last, item),
            None => Ok(item),
        };
        match made {
            Ok(result) => {
                self.last = Some(result);
                Step::Item(result)
            }
            Err(fault) => Step::Fault(fault),
        }
    }
}
