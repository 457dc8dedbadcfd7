//! An operator with one upstream, in a chain.
ghost use Rattle.std.specs.Prelude.{◌≡◌, ◌≢◌, ℤ, Some, None, MatchOption, IfSome};
ghost use Rattle.flow_law.specs.declared.chain.ChainFault.{ChainFault};
ghost use Rattle.flow_law.specs.chain.ChainRun.{ChainRun};
ghost use Rattle.flow_operators.specs.declared.cold.Asked.{Asked};
ghost use Rattle.flow_operators.specs.Asking.{AskGives, IsFinal, IsItem};
ghost use Rattle.flow_operators.specs.Behind.{Leaves};
ghost use Rattle.flow_cold.specs.Answers.{asked_of};
ghost use Rattle.flow_cold.specs.OperatorAsks.{StepLeaves, after_held, after_ready, after_stage};
ghost use Rattle.flow_cold.specs.Operators.{IsStageOver, StepGives, after_step, first_phase, held_rest, operator_whole, ready_rest, stage_rest};

use crate::script_chain::answer::Answer;
use crate::script_chain::node::{Phase, Stage};
use crate::script_chain::operator::{Operator, Step};

impl Stage {
    /// Makes the stage of an operator. A scan emits its initial value first.
    pub fn new(operator: Operator) -> Stage
        ensures { result ≡ record { operator = operator; phase = first_phase operator } }
    {
        let phase = operator.first_phase();
        Stage { operator, phase }
    }

    /// Returns the next answer that needs no upstream: the end of an operator that is over, or what is held back.
    /// `None` if the upstream has to be asked.
    pub fn next_alone(&mut self) -> Option<Answer>
        ensures whole { (r : ChainRun ℤ) → operator_whole self.new.operator r
            ≡ operator_whole self.old.operator r }
        ensures gives { (r : ChainRun ℤ) →
            MatchOption result (stage_rest self.new r ≡ stage_rest self.old r)
            (λ given. AskGives (stage_rest self.old r) (asked_of given) (stage_rest self.new r)) }
        ensures behind { (r : ChainRun ℤ)
            → MatchOption result (after_stage self.old r ≡ after_stage self.new r)
            (λ _. after_stage self.old r ≡ r) }
        ensures ready { result ≡ None → self.new.phase ≡ Phase.Ready }
        ensures over { IfSome result (λ given. IsFinal (asked_of given) → IsStageOver self.new) }
        ensures end { IsStageOver self.old → (result ≡ Some Answer.End) × self.new ≡ self.old }
        ensures given { IfSome result (λ given. asked_of given ≢ Asked.Fault ChainFault.OutOfMemory) }
    {
        match self.phase {
            Phase::Ready => return None,
            Phase::Holding => {}
            Phase::Over => return Some(Answer::End),
        }
        match self.operator.next_held() {
            Some(Ok(item)) => Some(Answer::Item(item)),
            Some(Err(fault)) => {
                self.phase = Phase::Over;
                Some(Answer::failed(fault))
            }
            None => {
                self.phase = Phase::Ready;
                None
            }
        }
    }

    /// Returns what the upstream's answer becomes, or `None` if there is no answer yet.
    pub fn on_answer(&mut self, answer: Answer) -> Option<Answer>
        requires { self.old.phase ≡ Phase.Ready }
        ensures whole { (r : ChainRun ℤ) → operator_whole self.new.operator r
            ≡ operator_whole self.old.operator r }
        ensures gives { (before after : ChainRun ℤ) → AskGives before (asked_of answer) after
            → MatchOption result (stage_rest self.old before ≡ stage_rest self.new after)
            (λ given. AskGives (stage_rest self.old before)
            (asked_of given) (stage_rest self.new after)) }
        ensures behind { (before after : ChainRun ℤ) → AskGives before (asked_of answer) after
            → MatchOption result (after_stage self.old before ≡ after_stage self.new after)
            (λ given. Leaves (after_stage self.old before) (asked_of given) after) }
        ensures runs { result ≡ None → ¬ IsStageOver self.new }
        ensures again { result ≡ None → IsItem (asked_of answer) }
        ensures over { IfSome result (λ given. IsFinal (asked_of given) → IsStageOver self.new) }
        ensures given { asked_of answer ≢ Asked.Fault ChainFault.OutOfMemory
            → IfSome result (λ given. asked_of given ≢ Asked.Fault ChainFault.OutOfMemory) }
    {
        match answer {
            Answer::Item(item) => {
                let step = self.operator.on_item(item);
                self.answer(step)
            }
            answer => Some(self.pass(answer)),
        }
    }

    /// Passes on an answer that is no item. The operator is over if the chain is.
    fn pass(&mut self, answer: Answer) -> Answer
        requires runs { self.old.phase ≡ Phase.Ready }
        requires no_item { ¬ IsItem (asked_of answer) }
        ensures answer { result ≡ answer }
        ensures operator { self.new.operator ≡ self.old.operator }
        ensures gives { (before after : ChainRun ℤ) → AskGives before (asked_of answer) after
            → AskGives (stage_rest self.old before) (asked_of result) (stage_rest self.new after) }
        ensures behind { (before after : ChainRun ℤ) → AskGives before (asked_of answer) after
            → Leaves (after_stage self.old before) (asked_of result) after }
        ensures over { IsFinal (asked_of result) → IsStageOver self.new }
    {
        if answer.is_final() {
            self.phase = Phase::Over;
        }
        answer
    }

    /// Turns a step of the operator into an answer of the chain.
    fn answer(&mut self, step: Step) -> Option<Answer>
        requires { self.old.phase ≡ Phase.Ready }
        ensures operator { self.new.operator ≡ self.old.operator }
        ensures gives { (before r : ChainRun ℤ)
            → StepGives before step
            (after_step step (held_rest self.old.operator r) (ready_rest self.old.operator r))
            → MatchOption result (before ≡ stage_rest self.new r)
            (λ given. AskGives before (asked_of given) (stage_rest self.new r)) }
        ensures behind { (due r after : ChainRun ℤ)
            → StepLeaves due step r
            (after_step step (after_held self.old.operator after)
            (after_ready self.old.operator after))
            → MatchOption result (due ≡ after_stage self.new after) (λ _. due ≡ r) }
        ensures runs { result ≡ None → ¬ IsStageOver self.new }
        ensures over { IfSome result (λ given. IsFinal (asked_of given) → IsStageOver self.new) }
        ensures given { step ≢ Step.Fault ChainFault.OutOfMemory
            → IfSome result (λ given. asked_of given ≢ Asked.Fault ChainFault.OutOfMemory) }
    {
        match step {
            Step::Item(item) => Some(Answer::Item(item)),
            Step::Last(item) => {
                self.phase = Phase::Over;
                Some(Answer::Item(item))
            }
            Step::Nothing => None,
            Step::Held => {
                self.phase = Phase::Holding;
                None
            }
            Step::End => {
                self.phase = Phase::Over;
                Some(Answer::End)
            }
            Step::Fault(fault) => {
                self.phase = Phase::Over;
                Some(Answer::failed(fault))
            }
        }
    }

    /// Starts from the beginning.
    pub fn rewind(&mut self)
        ensures whole { (r : ChainRun ℤ) → operator_whole self.new.operator r
            ≡ operator_whole self.old.operator r }
        ensures rest { (r : ChainRun ℤ) →
            stage_rest self.new r ≡ operator_whole self.old.operator r }
    {
        self.operator.rewind();
        self.phase = self.operator.first_phase();
    }
}
