//! Reading a script, and playing it on one thread.
ghost use Rattle.std.specs.Prelude.{IfOk, IfErr};
ghost use Rattle.script_chain_format.specs.Results.{Gives};
ghost use Rattle.flow_script.specs.Playing.{text_result};
ghost use Rattle.flow_script.specs.ScriptMeaning.{script_meaning};
ghost use Rattle.script_over.specs.Over.{IsPlayable, RefusesAlike};

use flow_script::{Answers, Script, ScriptFault, answers_of, lines_of, read_script};
use std::alloc::Global;

/// Reads a script.
pub fn script_in(alloc: Global, bytes: &[u8]) -> Result<Script, ScriptFault>
    ensures played { IfOk result (λ _. IsPlayable bytes.now) }
    ensures refused { IfErr result (RefusesAlike bytes.now) }
{
    match read_script(alloc, bytes) {
        Ok(script) => Ok(script),
        Err(fault) => Err(fault),
    }
}

/// Returns the answers of a script on one thread.
pub fn answers_in(alloc: Global, bytes: &[u8]) -> Result<Answers, ScriptFault>
    ensures played { IfOk result (λ _. IsPlayable bytes.now) }
    ensures refused { IfErr result (RefusesAlike bytes.now) }
{
    match answers_of(alloc, bytes) {
        Ok(answers) => Ok(answers),
        Err(fault) => Err(fault),
    }
}

/// Returns the lines of a script on one thread.
pub fn lines_in(alloc: Global, bytes: &[u8]) -> Result<String, ScriptFault>
    ensures meant { Gives (script_meaning bytes.now) (text_result result) }
    ensures played { IfOk result (λ _. IsPlayable bytes.now) }
    ensures refused { IfErr result (RefusesAlike bytes.now) }
{
    match lines_of(alloc, bytes) {
        Ok(text) => Ok(text),
        Err(fault) => Err(fault),
    }
}
