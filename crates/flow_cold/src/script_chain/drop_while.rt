//! `dropWhile` of whole numbers.
ghost use Rattle.std.specs.Prelude.{◌≡◌, ◌≢◌, ℤ};
ghost use Rattle.flow_law.specs.declared.chain.ChainFault.{ChainFault};
ghost use Rattle.flow_law.specs.chain.ChainRun.{ChainRun, gives};
ghost use Rattle.flow_operators.specs.Behind.{after_drop_while};
ghost use Rattle.flow_operators.specs.Kept.{drop_while_rest};
ghost use Rattle.flow_cold.specs.Numbers.{passes};
ghost use Rattle.flow_cold.specs.OperatorAsks.{StepLeaves};
ghost use Rattle.flow_cold.specs.Operators.{StepGives, after_step};

use crate::script_chain::op::Test;
use crate::script_chain::operator::Step;

/// The state of a `dropWhile`. While `dropping`, no item was emitted yet.
#[derive(Drop)]
pub struct DroppingWhile {
    pub test: Test,
    pub dropping: bool,
}

impl DroppingWhile {
    /// Drops the item if all items so far pass the test, else returns it.
    pub fn on_item(&mut self, item: i64) -> Step
        ensures test { self.new.test ≡ self.old.test }
        ensures gives { (r : ChainRun ℤ)
            → StepGives (drop_while_rest (passes self.old.test) self.old.dropping (gives item r))
            result
            (drop_while_rest (passes self.new.test) self.new.dropping r) }
        ensures behind { (r : ChainRun ℤ)
            → StepLeaves
            (after_drop_while (passes self.old.test) self.old.dropping (gives item r)) result r
            (after_drop_while (passes self.new.test) self.new.dropping r) }
        ensures held { (r q : ChainRun ℤ) → after_step result r q ≡ q }
        ensures given { result ≢ Step.Fault ChainFault.OutOfMemory }
    {
        self.dropping = self.dropping && self.test.passes(item);
        if self.dropping {
            return Step::Nothing;
        }
        Step::Item(item)
    }
}
