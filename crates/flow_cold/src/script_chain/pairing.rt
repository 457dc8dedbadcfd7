//! The two sides of a zip.
ghost use Rattle.std.specs.Prelude.{◌≡◌, ◌≢◌, ℤ, true, false, None};
ghost use Rattle.flow_law.specs.declared.chain.ChainFault.{ChainFault};
ghost use Rattle.flow_law.specs.chain.ChainRun.{ChainRun, gives};
ghost use Rattle.flow_law.specs.chain.OperatorRuns.{zip_run};
ghost use Rattle.flow_operators.specs.declared.cold.Asked.{Asked};
ghost use Rattle.flow_operators.specs.Asking.{AskGives, IsFinal, IsItem};
ghost use Rattle.flow_operators.specs.Behind.{AsksOnce, AsksRight};
ghost use Rattle.flow_cold.specs.Answers.{asked_of};
ghost use Rattle.flow_cold.specs.Numbers.{joined};
ghost use Rattle.flow_cold.specs.Pairing.{pairing_rest};

use crate::script_chain::answer::Answer;
use crate::script_chain::op::Joining;

/// The state of a zip. `kept` is a left item that waits for its right one.
#[derive(Drop)]
pub struct Pairing {
    pub by: Joining,
    pub kept: Option<i64>,
    pub ended: bool,
}

impl Pairing {
    /// Makes the state without a left item.
    pub fn new(by: Joining) -> Pairing
        ensures { result ≡ record { by = by; kept = None; ended = false } }
    {
        Pairing {
            by,
            kept: None,
            ended: false,
        }
    }

    /// Returns the answer if the left side gave no item. The right side is not asked.
    pub fn without_item(&mut self, answer: Answer) -> Answer
        requires runs { self.old.ended ≡ false }
        requires none { self.old.kept ≡ None }
        requires no_item { ¬ IsItem (asked_of answer) }
        ensures by { self.new.by ≡ self.old.by }
        ensures gives { (before after right : ChainRun ℤ) → AskGives before (asked_of answer) after
            → AskGives (pairing_rest self.old before right) (asked_of result)
            (pairing_rest self.new after right) }
        ensures behind { (before after right : ChainRun ℤ)
            → AskGives before (asked_of answer) after → AsksOnce before (asked_of result) after
            × AsksRight before right (asked_of result) right }
        ensures over { IsFinal (asked_of result) → self.new.ended ≡ true }
        ensures given { asked_of answer ≢ Asked.Fault ChainFault.OutOfMemory
            → asked_of result ≢ Asked.Fault ChainFault.OutOfMemory }
    {
        self.ended = answer.is_final();
        answer
    }

    /// Returns the answer for a left item and the right side's answer.
    pub fn on_right(&mut self, first: i64, answer: Answer) -> Answer
        requires { self.old.ended ≡ false }
        ensures by { self.new.by ≡ self.old.by }
        ensures gives { (left before after : ChainRun ℤ) → AskGives before (asked_of answer) after
            → AskGives (zip_run (joined self.old.by) (gives first left) before) (asked_of result)
            (pairing_rest self.new left after) }
        ensures behind { (before after : ChainRun ℤ)
            → AskGives before (asked_of answer) after → AsksOnce before (asked_of result) after }
        ensures over { IsFinal (asked_of result) → self.new.ended ≡ true }
        ensures given { asked_of answer ≢ Asked.Fault ChainFault.OutOfMemory
            → asked_of result ≢ Asked.Fault ChainFault.OutOfMemory }
    {
        self.kept = None;
        match answer {
            Answer::Item(second) => match self.by.join(first, second) {
                Ok(item) => Answer::Item(item),
                Err(fault) => {
                    self.ended = true;
                    Answer::failed(fault)
                }
            },
            Answer::Pending => {
                self.kept = Some(first);
                Answer::Pending
            }
            answer => {
                self.ended = true;
                answer
            }
        }
    }
}
