//! The steps of shared flows that not every kind of flow has, each with its answer.
ghost use Rattle.std.specs.Prelude.{◌≡◌, IfOk, IfErr};
ghost use Rattle.flow_law.specs.flow.Standing.{StandsFor};
ghost use Rattle.flow_law.specs.flow.SharedHistory.{shared_flow};
ghost use Rattle.flow_script.specs.FlowMeaning.{own_turn};
ghost use Rattle.flow_script.specs.SharedMeaning.{plays_shared, subscribes_with};
ghost use Rattle.flow_script.specs.Shown.{FollowsStep};

use crate::answer::Answer;
use crate::flow_steps::answer_without_call;
use crate::numbers::Numbers;
use crate::refusal::call_refusal;
use crate::script_core::ScriptCore;
use flow_core::SharedCore;
use flow_law::{Emit, FlowFault};
use script_format::{FlowStep, ScriptFault};

fn emit(
    core: &mut SharedCore<i64>,
    numbers: &mut Numbers,
    value: i64,
) -> Result<Answer, ScriptFault>
    ensures plays { IfOk result
        (FollowsStep StandsFor (own_turn shared_flow plays_shared (FlowStep.Emit value))
        core.old core.new numbers.old numbers.new) }
    ensures fault { IfErr result (λ fault. fault ≡ ScriptFault.OutOfMemory) }
{
    match core.emit(value) {
        Ok(Emit::Done) => {
            numbers.add_emission(None)?;
            Ok(Answer::Done)
        }
        Ok(Emit::Queued(number)) => {
            numbers.add_emission(Some(number))?;
            Ok(Answer::Queued)
        }
        Err(refused) => {
            numbers.add_emission(None)?;
            call_refusal(refused.fault)
        }
    }
}

fn poll(core: &SharedCore<i64>, numbers: &Numbers, place: usize) -> Result<Answer, ScriptFault>
    ensures plays { IfOk result
        (FollowsStep StandsFor (own_turn shared_flow plays_shared (FlowStep.Poll place))
        core.now core.now numbers.now numbers.now) }
    ensures fault { IfErr result (λ fault. fault ≡ ScriptFault.OutOfMemory) }
{
    let Some(emission) = numbers.emission_at(place) else {
        return Ok(answer_without_call(FlowStep::Poll(place)));
    };
    Ok(Answer::Waits(core.poll(emission)))
}

fn cancel(
    core: &mut SharedCore<i64>,
    numbers: &Numbers,
    place: usize,
) -> Result<Answer, ScriptFault>
    ensures plays { IfOk result
        (FollowsStep StandsFor (own_turn shared_flow plays_shared (FlowStep.Cancel place))
        core.old core.new numbers.now numbers.now) }
    ensures fault { IfErr result (λ fault. fault ≡ ScriptFault.OutOfMemory) }
{
    let Some(emission) = numbers.emission_at(place) else {
        return Ok(answer_without_call(FlowStep::Cancel(place)));
    };
    Ok(Answer::Tested(core.cancel(emission)))
}

fn reset(core: &mut SharedCore<i64>, numbers: &Numbers) -> Result<Answer, ScriptFault>
    ensures plays { IfOk result
        (FollowsStep StandsFor (own_turn shared_flow plays_shared FlowStep.Reset)
        core.old core.new numbers.now numbers.now) }
    ensures fault { IfErr result (λ fault. fault ≡ ScriptFault.OutOfMemory) }
{
    core.reset_replay_cache();
    Ok(Answer::Reset)
}

/// Subscribes with first values of the subscriber's own.
pub fn subscribe_with(
    core: &mut SharedCore<i64>,
    numbers: &mut Numbers,
    first: Vec<i64>,
) -> Result<Answer, ScriptFault>
    ensures plays { IfOk result (FollowsStep StandsFor (subscribes_with first.items)
        core.old core.new numbers.old numbers.new) }
    ensures fault { IfErr result (λ fault. fault ≡ ScriptFault.OutOfMemory) }
{
    match core.subscribe_with(first) {
        Ok(id) => {
            numbers.add_subscriber(Some(id))?;
            Ok(Answer::Subscribed)
        }
        Err(refused) => {
            numbers.add_subscriber(None)?;
            call_refusal(refused.fault)
        }
    }
}

impl ScriptCore for SharedCore<i64> {
    ghost played = { plays_shared };

    fn try_emit_value(&mut self, value: i64) -> Result<bool, FlowFault> {
        Ok(self.try_emit(value)?)
    }

    fn cached_values(&self) -> Result<Vec<i64>, FlowFault> {
        self.replay_cache()
    }

    fn own_step(&mut self, numbers: &mut Numbers, step: FlowStep) -> Result<Answer, ScriptFault> {
        match step {
            FlowStep::Emit(value) => emit(self, numbers, value),
            FlowStep::Poll(place) => poll(self, numbers, place),
            FlowStep::Cancel(place) => cancel(self, numbers, place),
            FlowStep::Reset => reset(self, numbers),
            other => Ok(answer_without_call(other)),
        }
    }

    fn law_answers() {}
}
