//! The operators with one upstream: what each makes of an item.
ghost use Rattle.std.specs.Prelude.{◌≡◌, ◌≢◌, ℤ, Some, Err};
ghost use Rattle.flow_law.specs.chain.ChainRun.{ChainRun, gives};
ghost use Rattle.flow_cold.specs.OperatorAsks.{HeldLeaves, StepLeaves, after_held, after_ready};
ghost use Rattle.flow_cold.specs.Operators.{HeldGives, StepGives, after_number, after_step, first_phase, held_rest, operator_whole, ready_rest, rest_in};

use crate::script_chain::drop_while::DroppingWhile;
use crate::script_chain::inner::{Following, Repeating};
use crate::script_chain::node::Phase;
use crate::script_chain::op::Test;
use crate::script_chain::running_reduce::Reducing;
use crate::script_chain::state::{Adding, Comparing, Dropping, Mapping, Scanning, Taking};
use flow_law::ChainFault;

/// An operator, in its state while the chain is asked.
#[derive(Drop)]
pub enum Operator {
    Map(Mapping),
    Filter(Test),
    TakeWhile(Test),
    Transform(Adding),
    Take(Taking),
    DropFirst(Dropping),
    DropWhile(DroppingWhile),
    Scan(Scanning),
    RunningReduce(Reducing),
    FlatMapRange(Following),
    FlatMapRepeat(Repeating),
    Distinct(Comparing),
}

/// What an operator makes of an item.
#[derive(Drop)]
pub enum Step {
    Item(i64),
    /// An item, after which the operator is over.
    Last(i64),
    Nothing,
    /// No item yet: the operator emits the numbers that it holds before it asks the upstream again.
    Held,
    End,
    Fault(ChainFault),
}

impl Operator {
    /// Returns how the first ask begins.
    pub fn first_phase(&self) -> Phase
        ensures { result ≡ first_phase self.now }
    {
        match self {
            Operator::Scan(_) => Phase::Holding,
            _ => Phase::Ready,
        }
    }

    /// Returns the next number that is held back, or the fault in its place, or `None` if none is left.
    pub fn next_held(&mut self) -> Option<Result<i64, ChainFault>>
        ensures whole { (r : ChainRun ℤ) → operator_whole self.new r ≡ operator_whole self.old r }
        ensures gives { (r : ChainRun ℤ)
            → HeldGives (held_rest self.old r) result
            (after_number result (held_rest self.new r) (ready_rest self.new r)) }
        ensures behind { (r : ChainRun ℤ)
            → HeldLeaves (after_held self.old r) result r (after_ready self.new r) }
        ensures given { result ≢ Some (Err ChainFault.OutOfMemory) }
    {
        match self {
            Operator::Transform(state) => state.next_held(),
            Operator::Scan(state) => state.next_held(),
            Operator::FlatMapRange(state) => state.next_held(),
            Operator::FlatMapRepeat(state) => state.next_held(),
            _ => None,
        }
    }

    /// Returns what the upstream's next item becomes, if nothing is held back.
    pub fn on_item(&mut self, item: i64) -> Step
        ensures whole { (r : ChainRun ℤ) → operator_whole self.new r ≡ operator_whole self.old r }
        ensures gives { (r : ChainRun ℤ)
            → StepGives (ready_rest self.old (gives item r)) result
            (after_step result (held_rest self.new r) (ready_rest self.new r)) }
        ensures behind { (r : ChainRun ℤ)
            → StepLeaves (after_ready self.old (gives item r)) result r
            (after_step result (after_held self.new r) (after_ready self.new r)) }
        ensures given { result ≢ Step.Fault ChainFault.OutOfMemory }
    {
        match self {
            Operator::Filter(test) => {
                if test.passes(item) {
                    Step::Item(item)
                } else {
                    Step::Nothing
                }
            }
            Operator::TakeWhile(test) => {
                if test.passes(item) {
                    Step::Item(item)
                } else {
                    Step::End
                }
            }
            Operator::Map(state) => match state.by.compute(item, state.k) {
                Ok(image) => Step::Item(image),
                Err(fault) => Step::Fault(fault),
            },
            Operator::Transform(state) => state.on_item(item),
            Operator::Take(state) => state.on_item(item),
            Operator::DropFirst(state) => state.on_item(item),
            Operator::DropWhile(state) => state.on_item(item),
            Operator::Scan(state) => state.on_item(item),
            Operator::RunningReduce(state) => state.on_item(item),
            Operator::FlatMapRange(state) => state.on_item(item),
            Operator::FlatMapRepeat(state) => state.on_item(item),
            Operator::Distinct(state) => state.on_item(item),
        }
    }

    /// Starts from the beginning.
    pub fn rewind(&mut self)
        ensures whole { (r : ChainRun ℤ) → operator_whole self.new r ≡ operator_whole self.old r }
        ensures rest { (r : ChainRun ℤ) →
            rest_in (first_phase self.new) self.new r ≡ operator_whole self.old r }
    {
        match self {
            Operator::Take(state) => state.left = state.more,
            Operator::DropFirst(state) => state.left = state.count,
            Operator::DropWhile(state) => state.dropping = true,
            Operator::Scan(state) => state.begun = false,
            Operator::RunningReduce(state) => state.last = None,
            Operator::Distinct(state) => state.last = None,
            _ => {}
        }
    }
}
