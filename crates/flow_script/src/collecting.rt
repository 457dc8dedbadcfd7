//! Collecting a chain.
ghost use Rattle.std.specs.Prelude.{◌≡◌, Ok, Err, IfOk, IfErr};
ghost use Rattle.script_chain_format.specs.Chains.{build_of, built_of};
ghost use Rattle.flow_script.specs.Answers.{as_answer, collection_answer};

use crate::answer::Answer;
use crate::memory::ends_for_memory;
use flow_cold::{Collected, ScriptChain, collect_all};
use script_chain_format::{Build, ScriptFault};
use std::alloc::Global;

/// Collects a chain. A chain that runs out of memory ends the script.
fn collected(alloc: Global, mut chain: ScriptChain) -> Result<Answer, ScriptFault>
    ensures answer { IfOk result (λ answer.
        as_answer answer ≡ collection_answer (Ok (built_of chain))) }
    ensures fault { IfErr result (λ fault. fault ≡ ScriptFault.OutOfMemory) }
{
    let Ok(collected) = collect_all(alloc, &mut chain) else {
        return Err(ScriptFault::OutOfMemory);
    };
    let Collected { items, end } = collected;
    if ends_for_memory(end) {
        return Err(ScriptFault::OutOfMemory);
    }
    Ok(Answer::Collected(items, end))
}

/// Collects a chain, or answers why it could not be built.
pub fn collect(alloc: Global, build: Build) -> Result<Answer, ScriptFault>
    ensures answer { IfOk result (λ answer. as_answer answer ≡ collection_answer (build_of build)) }
    ensures fault { IfErr result (λ fault. fault ≡ ScriptFault.OutOfMemory) }
{
    match build {
        Ok(chain) => collected(alloc, chain),
        Err(fault) => Ok(Answer::NotBuilt(fault)),
    }
}
