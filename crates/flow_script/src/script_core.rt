//! The calls that the steps of scripts make on flows for one thread, of any kind.
ghost use Rattle.std.specs.Prelude.{◌≡◌, IfOk, IfErr};
ghost use Rattle.flow_law.specs.history.History.{replied};
ghost use Rattle.flow_law.specs.flow.Standing.{Documents};
ghost use Rattle.flow_script.specs.FlowMeaning.{Played, HasAnswers, own_turn};
ghost use Rattle.flow_script.specs.Shown.{FollowsStep};

use crate::answer::Answer;
use crate::numbers::Numbers;
use flow_core::{FlowCore, SubscriberCalls};
use flow_law::FlowFault;
use script_format::{FlowStep, ScriptFault};

/// A flow for one thread that scripts play on.
pub trait ScriptCore: FlowCore<Item = i64> + SubscriberCalls {
    /// Which calls the steps make, the replies to them, and the answers for those replies.
    ghost played: { Played Self.State Self.Call Self.Reply };

    fn try_emit_value(&mut self, value: i64) -> Result<bool, FlowFault>
        ensures { Documents Self.kind Self.stands_as
            self.old (played.try_emit value) (replied Self.kind Self.kind.tested result) self.new };

    fn cached_values(&self) -> Result<Vec<i64>, FlowFault>
        ensures { Documents Self.kind Self.stands_as self.now Self.kind.replay_cache
            (replied Self.kind (λ values. Self.kind.cached values.items) result) self.now };

    /// Plays a step that not every kind of flow has.
    fn own_step(&mut self, numbers: &mut Numbers, step: FlowStep) -> Result<Answer, ScriptFault>
        ensures plays { IfOk result (FollowsStep Self.stands_as (own_turn Self.kind played step)
            self.old self.new numbers.old numbers.new) }
        ensures fault { IfErr result (λ fault. fault ≡ ScriptFault.OutOfMemory) };

    /// A reply that a line reports is the documented one, and has its answer.
    fn law_answers()
        ensures { HasAnswers Self.kind played };
}
