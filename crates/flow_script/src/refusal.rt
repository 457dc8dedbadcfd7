//! Why calls are refused, and why a flow of a script was not made.
ghost use Rattle.std.specs.Prelude.{◌≡◌, IfOk, IfErr};
ghost use Rattle.flow_script.specs.Refusals.{AnswersNotMade, AnswersRefusal, AnswersTurn};

use crate::answer::Answer;
use crate::memory::{is_flow_memory, is_memory};
use flow_law::{FlowFault, ShareFault};
use script_chain_format::ScriptFault;

/// Why a flow of a script was not made.
#[derive(Clone, Copy)]
pub enum Refusal {
    /// Why a flow without a chain was not made.
    Flow(FlowFault),
    /// Why a chain was not shared.
    Sharing(ShareFault),
}

impl From<FlowFault> for Refusal {
    ghost use Rattle.flow_script.specs.declared.refusal.Refusal.TheVariants.{Flow};

    ghost from_gives = { λ fault refused. refused ≡ Flow fault };

    fn from(fault: FlowFault) -> Refusal {
        Refusal::Flow(fault)
    }
}

impl From<ShareFault> for Refusal {
    ghost use Rattle.flow_script.specs.declared.refusal.Refusal.TheVariants.{Sharing};

    ghost from_gives = { λ fault refused. refused ≡ Sharing fault };

    fn from(fault: ShareFault) -> Refusal {
        Refusal::Sharing(fault)
    }
}

/// Returns the answer of a call that a flow refused. Out of memory has no answer: it ends the script.
pub fn call_refusal(fault: FlowFault) -> Result<Answer, ScriptFault>
    ensures answer { IfOk result (AnswersRefusal fault) }
    ensures memory { IfErr result (λ fault. fault ≡ ScriptFault.OutOfMemory) }
{
    if is_flow_memory(fault) {
        return Err(ScriptFault::OutOfMemory);
    }
    Ok(Answer::Refused(fault))
}

/// Returns the answer of a turn that was refused, or of a chain that was not shared. Out of memory has no answer: it
/// ends the script.
pub fn turn_refusal(fault: ShareFault) -> Result<Answer, ScriptFault>
    ensures answer { IfOk result (AnswersTurn fault) }
    ensures memory { IfErr result (λ fault. fault ≡ ScriptFault.OutOfMemory) }
{
    if is_memory(fault) {
        return Err(ScriptFault::OutOfMemory);
    }
    Ok(Answer::TurnRefused(fault))
}

impl Refusal {
    /// Returns the answer of a flow that was not made. Out of memory has no answer: it ends the script.
    pub fn answer(self) -> Result<Answer, ScriptFault>
        ensures answer { IfOk result (AnswersNotMade self) }
        ensures memory { IfErr result (λ fault. fault ≡ ScriptFault.OutOfMemory) }
    {
        match self {
            Refusal::Flow(fault) => call_refusal(fault),
            Refusal::Sharing(fault) => turn_refusal(fault),
        }
    }
}
