//! The steps of state flows that not every kind of flow has, each with its answer.
ghost use Rattle.std.specs.Prelude.{◌≡◌, IfOk, IfErr};
ghost use Rattle.flow_law.specs.flow.StateFlow.{state_flow};
ghost use Rattle.flow_script.specs.FlowMeaning.{own_turn};
ghost use Rattle.flow_script.specs.StateMeaning.{IsState, plays_state};
ghost use Rattle.flow_script.specs.Shown.{FollowsStep};

use crate::answer::Answer;
use crate::flow_steps::answer_without_call;
use crate::numbers::Numbers;
use crate::refusal::call_refusal;
use crate::script_core::ScriptCore;
use flow_core::StateCore;
use flow_law::FlowFault;
use script_format::{FlowStep, ScriptFault};

fn value(core: &StateCore<i64>, numbers: &Numbers) -> Result<Answer, ScriptFault>
    ensures plays { IfOk result (FollowsStep IsState (own_turn state_flow plays_state FlowStep.Value)
        core.now core.now numbers.now numbers.now) }
    ensures fault { IfErr result (λ fault. fault ≡ ScriptFault.OutOfMemory) }
{
    match core.value() {
        Ok(value) => Ok(Answer::Got(value)),
        Err(fault) => call_refusal(fault),
    }
}

fn set(core: &mut StateCore<i64>, numbers: &Numbers, value: i64) -> Result<Answer, ScriptFault>
    ensures plays { IfOk result
        (FollowsStep IsState (own_turn state_flow plays_state (FlowStep.Set value))
        core.old core.new numbers.now numbers.now) }
    ensures fault { IfErr result (λ fault. fault ≡ ScriptFault.OutOfMemory) }
{
    core.set(value);
    Ok(Answer::Set)
}

fn compare_and_set(
    core: &mut StateCore<i64>,
    numbers: &Numbers,
    expect: i64,
    update: i64,
) -> Result<Answer, ScriptFault>
    ensures plays { IfOk result (FollowsStep IsState
        (own_turn state_flow plays_state (FlowStep.CompareAndSet expect update))
        core.old core.new numbers.now numbers.now) }
    ensures fault { IfErr result (λ fault. fault ≡ ScriptFault.OutOfMemory) }
{
    Ok(Answer::Tested(core.compare_and_set(&expect, update)))
}

/// Refuses a reset: a state flow always has a value.
fn reset(core: &mut StateCore<i64>, numbers: &Numbers) -> Result<Answer, ScriptFault>
    ensures plays { IfOk result (FollowsStep IsState (own_turn state_flow plays_state FlowStep.Reset)
        core.old core.new numbers.now numbers.now) }
    ensures fault { IfErr result (λ fault. fault ≡ ScriptFault.OutOfMemory) }
{
    match core.reset_replay_cache() {
        Ok(()) => unreachable!(),
        Err(fault) => call_refusal(fault),
    }
}

impl ScriptCore for StateCore<i64> {
    ghost played = { plays_state };

    fn try_emit_value(&mut self, value: i64) -> Result<bool, FlowFault> {
        Ok(self.try_emit(value))
    }

    fn cached_values(&self) -> Result<Vec<i64>, FlowFault> {
        self.replay_cache()
    }

    fn own_step(&mut self, numbers: &mut Numbers, step: FlowStep) -> Result<Answer, ScriptFault> {
        match step {
            FlowStep::Value => value(self, numbers),
            FlowStep::Set(value) => set(self, numbers, value),
            FlowStep::CompareAndSet(expect, update) => {
                compare_and_set(self, numbers, expect, update)
            }
            FlowStep::Reset => reset(self, numbers),
            other => Ok(answer_without_call(other)),
        }
    }

    fn law_answers() {}
}
