//! The steps that every kind of flow has, each with its answer, and the answer of a step that makes no call.
ghost use Rattle.std.specs.Prelude.{◌≡◌, IfOk, IfErr};
ghost use Rattle.flow_script.specs.Answers.{as_answer};
ghost use Rattle.flow_script.specs.FlowMeaning.{flow_step_turn};
ghost use Rattle.flow_script.specs.FlowMeaning as meaning;
ghost use Rattle.flow_script.specs.Shown.{FollowsStep};

use crate::answer::Answer;
use crate::numbers::Numbers;
use crate::refusal::call_refusal;
use crate::script_core::ScriptCore;
use flow_law::Next;
use script_format::{FlowStep, ScriptFault};

/// Returns the answer of a step that makes no call.
pub fn answer_without_call(step: FlowStep) -> Answer
    ensures { as_answer result ≡ meaning.answer_without_call step }
{
    match step {
        FlowStep::Poll(_) => Answer::Waits(false),
        FlowStep::Next(_) => Answer::Received(Next::Gone),
        FlowStep::Cancel(_) | FlowStep::Unsubscribe(_) => Answer::Tested(false),
        _ => Answer::NoFlow,
    }
}

fn try_emit<F: ScriptCore>(
    core: &mut F,
    numbers: &Numbers,
    value: i64,
) -> Result<Answer, ScriptFault>
    ensures plays { IfOk result
        (FollowsStep F.stands_as (flow_step_turn F.kind F.played (FlowStep.TryEmit value))
        core.old core.new numbers.now numbers.now) }
    ensures fault { IfErr result (λ fault. fault ≡ ScriptFault.OutOfMemory) }
{
    F::law_answers();
    match core.try_emit_value(value) {
        Ok(accepted) => Ok(Answer::Tested(accepted)),
        Err(fault) => call_refusal(fault),
    }
}

fn subscribe<F: ScriptCore>(core: &mut F, numbers: &mut Numbers) -> Result<Answer, ScriptFault>
    ensures plays { IfOk result (FollowsStep F.stands_as (flow_step_turn F.kind F.played FlowStep.Subscribe)
        core.old core.new numbers.old numbers.new) }
    ensures fault { IfErr result (λ fault. fault ≡ ScriptFault.OutOfMemory) }
{
    F::law_answers();
    match core.subscribe() {
        Ok(id) => {
            numbers.add_subscriber(Some(id))?;
            Ok(Answer::Subscribed)
        }
        Err(fault) => {
            numbers.add_subscriber(None)?;
            call_refusal(fault)
        }
    }
}

fn next<F: ScriptCore>(core: &mut F, numbers: &Numbers, place: usize) -> Result<Answer, ScriptFault>
    ensures plays { IfOk result
        (FollowsStep F.stands_as (flow_step_turn F.kind F.played (FlowStep.Next place))
        core.old core.new numbers.now numbers.now) }
    ensures fault { IfErr result (λ fault. fault ≡ ScriptFault.OutOfMemory) }
{
    F::law_answers();
    let Some(id) = numbers.subscriber_at(place) else {
        return Ok(answer_without_call(FlowStep::Next(place)));
    };
    match core.next(id) {
        Ok(next) => Ok(Answer::Received(next)),
        Err(fault) => call_refusal(fault),
    }
}

fn unsubscribe<F: ScriptCore>(core: &mut F, numbers: &Numbers, place: usize) -> Answer
    ensures { FollowsStep F.stands_as (flow_step_turn F.kind F.played (FlowStep.Unsubscribe place))
        core.old core.new numbers.now numbers.now result }
{
    F::law_answers();
    let Some(id) = numbers.subscriber_at(place) else {
        return answer_without_call(FlowStep::Unsubscribe(place));
    };
    Answer::Tested(core.unsubscribe(id))
}

fn cache<F: ScriptCore>(core: &F, numbers: &Numbers) -> Result<Answer, ScriptFault>
    ensures plays { IfOk result (FollowsStep F.stands_as (flow_step_turn F.kind F.played FlowStep.Cache)
        core.now core.now numbers.now numbers.now) }
    ensures fault { IfErr result (λ fault. fault ≡ ScriptFault.OutOfMemory) }
{
    F::law_answers();
    match core.cached_values() {
        Ok(values) => Ok(Answer::Cached(values)),
        Err(fault) => call_refusal(fault),
    }
}

fn count<F: ScriptCore>(core: &F, numbers: &Numbers) -> Result<Answer, ScriptFault>
    ensures plays { IfOk result (FollowsStep F.stands_as (flow_step_turn F.kind F.played FlowStep.Count)
        core.now core.now numbers.now numbers.now) }
    ensures fault { IfErr result (λ fault. fault ≡ ScriptFault.OutOfMemory) }
{
    F::law_answers();
    Ok(Answer::Counted(core.subscription_count()))
}

/// Plays a step on a flow.
pub fn flow_step<F: ScriptCore>(
    core: &mut F,
    numbers: &mut Numbers,
    step: FlowStep,
) -> Result<Answer, ScriptFault>
    ensures plays { IfOk result (FollowsStep F.stands_as (flow_step_turn F.kind F.played step)
        core.old core.new numbers.old numbers.new) }
    ensures fault { IfErr result (λ fault. fault ≡ ScriptFault.OutOfMemory) }
{
    match step {
        FlowStep::TryEmit(value) => try_emit(core, numbers, value),
        FlowStep::Subscribe => subscribe(core, numbers),
        FlowStep::Next(place) => next(core, numbers, place),
        FlowStep::Unsubscribe(place) => Ok(unsubscribe(core, numbers, place)),
        FlowStep::Cache => cache(core, numbers),
        FlowStep::Count => count(core, numbers),
        own => core.own_step(numbers, own),
    }
}
