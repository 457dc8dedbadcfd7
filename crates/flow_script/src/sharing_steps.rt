//! The steps of a script on a shared chain, for both kinds of flow.
ghost use Rattle.std.specs.Prelude.{◌≡◌, IfOk, IfErr};
ghost use Rattle.flow_script.specs.SharingMeaning.{beside_sharing, turn_at_moment, sharing_step as documented_step};
ghost use Rattle.flow_script.specs.Shown.{FollowsStep};
ghost use Rattle.flow_script.specs.Sharings.{ShowsSharing};

use crate::answer::Answer;
use crate::numbers::Numbers;
use crate::refusal::turn_refusal;
use crate::script_hub::ScriptHub;
use flow_cold::ScriptChain;
use flow_turns::Sharing;
use script_format::{FlowStep, ScriptFault};

fn turn<H: ScriptHub>(
    sharing: &mut Sharing<ScriptChain, H>,
    numbers: &Numbers,
    now: u64,
) -> Result<Answer, ScriptFault>
    ensures plays { IfOk result (FollowsStep (ShowsSharing H.stands) (turn_at_moment H.reply now)
        sharing.old sharing.new numbers.now numbers.now) }
    ensures fault { IfErr result (λ fault. fault ≡ ScriptFault.OutOfMemory) }
{
    H::law_turn();
    match sharing.turn(now) {
        Ok(report) => Ok(Answer::Turned(report)),
        Err(fault) => turn_refusal(fault),
    }
}

/// Plays a step on the flow into which the chain is shared.
fn step_on_flow<H: ScriptHub>(
    sharing: &mut Sharing<ScriptChain, H>,
    numbers: &mut Numbers,
    step: FlowStep,
) -> Result<Answer, ScriptFault>
    ensures plays { IfOk result (FollowsStep (ShowsSharing H.stands) (beside_sharing H.flow step)
        sharing.old sharing.new numbers.old numbers.new) }
    ensures fault { IfErr result (λ fault. fault ≡ ScriptFault.OutOfMemory) }
{
    sharing.hub_mut().step(numbers, step)
}

/// Plays a step on a shared chain.
pub fn sharing_step<H: ScriptHub>(
    sharing: &mut Sharing<ScriptChain, H>,
    numbers: &mut Numbers,
    step: FlowStep,
) -> Result<Answer, ScriptFault>
    ensures plays { IfOk result
        (FollowsStep (ShowsSharing H.stands) (documented_step H.flow H.reply step)
        sharing.old sharing.new numbers.old numbers.new) }
    ensures fault { IfErr result (λ fault. fault ≡ ScriptFault.OutOfMemory) }
{
    match step {
        FlowStep::Turn(now) => turn(sharing, numbers, now),
        other => step_on_flow(sharing, numbers, other),
    }
}
