//! The sources of chains.
ghost use Rattle.std.specs.Prelude.{◌≡◌, ◌≢◌};
ghost use Rattle.flow_law.specs.declared.chain.ChainFault.{ChainFault};
ghost use Rattle.flow_operators.specs.declared.cold.Asked.{Asked};
ghost use Rattle.flow_operators.specs.Asking.{AskGives, IsFinal};
ghost use Rattle.flow_cold.specs.Answers.{asked_of};
ghost use Rattle.flow_cold.specs.Sources.{IsSourceOver, source_rest, source_whole};

use crate::script_chain::answer::Answer;
use crate::script_chain::op::Source;
use flow_operators::Cold;

impl Source {
    /// Returns the next answer.
    pub(crate) fn ask(&mut self) -> Answer
        ensures whole { source_whole self.new ≡ source_whole self.old }
        ensures gives { AskGives (source_rest self.old) (asked_of result) (source_rest self.new) }
        ensures over { IsFinal (asked_of result) → IsSourceOver self.new }
        ensures end { IsSourceOver self.old → (result ≡ Answer.End) × self.new ≡ self.old }
        ensures given { asked_of result ≢ Asked.Fault ChainFault.OutOfMemory }
    {
        match self {
            Source::List(list) => Answer::of(list.ask()),
            Source::Range(range) => Answer::of(range.ask()),
            Source::Scripted(script) => Answer::of(script.ask()),
        }
    }

    /// Starts from the beginning.
    pub(crate) fn rewind(&mut self)
        ensures whole { source_whole self.new ≡ source_whole self.old }
        ensures rest { source_rest self.new ≡ source_whole self.old }
    {
        match self {
            Source::List(list) => list.rewind(),
            Source::Range(range) => range.rewind(),
            Source::Scripted(script) => script.rewind(),
        }
    }
}
