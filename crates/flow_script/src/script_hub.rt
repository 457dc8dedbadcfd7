//! The flows of sharings, as scripts play on them.
ghost use Rattle.std.specs.Prelude.{◌≡◌, ℤ, IfOk, IfErr};
ghost use Rattle.flow_law.specs.sharing.SharingCalls.{HubCall, HubAnswer};
ghost use Rattle.flow_law.specs.sharing.SharingFlows.{shared_reply, state_reply};
ghost use Rattle.flow_law.specs.sharing.Steps.{After};
ghost use Rattle.script_format.specs.declared.script.FlowStep.{FlowStep};
ghost use Rattle.flow_script.specs.Numbers.{Numbers};
ghost use Rattle.flow_script.specs.FlowMeaning.{Turn, flow_step_turn};
ghost use Rattle.flow_script.specs.Shown.{FollowsStep};
ghost use Rattle.flow_script.specs.Sharings.{TurnsAsDocumented};

use crate::answer::Answer;
use crate::flow_steps::flow_step;
use crate::numbers::Numbers;
use flow_law::{EmittingFlow, StateAndInitial};
use flow_turns::{CoreHub, Hub, StateHub, law_turn_over_core, law_turn_over_state_core};
use script_format::{FlowStep, ScriptFault};
use std::alloc::Global;

/// The flow of a sharing that scripts play on.
pub trait ScriptHub: Hub<Item = i64> {
    /// The states of the documented flow.
    type State;

    /// The states that the hub's flow stands for.
    ghost stands: { Self → Self.State → Type 0 };

    /// What a step does on the documented flow.
    ghost flow: { FlowStep → Self.State → Numbers → Turn Self.State };

    /// What the documented flow replies to the sharing, unless memory is refused.
    ghost reply: { (c : HubCall ℤ) → Self.State → After (HubAnswer c) Self.State };

    /// Plays a step on the hub's flow.
    fn step(&mut self, numbers: &mut Numbers, step: FlowStep) -> Result<Answer, ScriptFault>
        ensures plays { IfOk result (FollowsStep stands (flow step)
            self.old self.new numbers.old numbers.new) }
        ensures fault { IfErr result (λ fault. fault ≡ ScriptFault.OutOfMemory) };

    /// A turn over the hub is the documented turn.
    fn law_turn()
        ensures { TurnsAsDocumented Self.does Self.waits stands reply };
}

impl ScriptHub for CoreHub<i64> {
    type State = EmittingFlow<i64>;

    ghost use Rattle.flow_law.specs.flow.SharedHistory.{shared_flow};
    ghost use Rattle.flow_turns.specs.OverCores.{StandsForEmitting};
    ghost use Rattle.flow_script.specs.SharedMeaning.{plays_shared};
    ghost use Rattle.flow_script.specs.SharingMeaning.{beside_emission};

    ghost stands = { StandsForEmitting };

    ghost flow = { beside_emission (flow_step_turn shared_flow plays_shared) };

    ghost reply = { shared_reply };

    fn step(&mut self, numbers: &mut Numbers, step: FlowStep) -> Result<Answer, ScriptFault> {
        flow_step(self.core_mut(), numbers, step)
    }

    fn law_turn() {
        law_turn_over_core::<i64, Global>();
    }
}

impl ScriptHub for StateHub<i64> {
    type State = StateAndInitial<i64>;

    ghost use Rattle.flow_law.specs.flow.StateFlow.{state_flow};
    ghost use Rattle.flow_turns.specs.StateHub.{state_flow_of};
    ghost use Rattle.flow_script.specs.SharingMeaning.{beside_initial};
    ghost use Rattle.flow_script.specs.StateMeaning.{plays_state};

    ghost stands = { λ hub s. state_flow_of hub ≡ s };

    ghost flow = { beside_initial (flow_step_turn state_flow plays_state) };

    ghost reply = { state_reply };

    fn step(&mut self, numbers: &mut Numbers, step: FlowStep) -> Result<Answer, ScriptFault> {
        flow_step(self.core_mut(), numbers, step)
    }

    fn law_turn() {
        law_turn_over_state_core::<i64, Global>();
    }
}
