//! Playing a script from a reader to a writer.
ghost use Rattle.std.specs.Prelude.{◌≡◌, false, IfOk, IfErr};
ghost use Rattle.script_chain_format.specs.Results.{Gives};
ghost use Rattle.script_format.specs.Actions.{actions_of, heads_of};
ghost use Rattle.flow_script.specs.ScriptMeaning.{answered, answers_of, script_meaning};
ghost use Rattle.flow_script.specs.Playing.{Plays, TakesWithin, answers_result, text_result, is_read_failed, is_write_failed};
ghost use Rattle.flow_script.specs.Rows.{FollowsSteps};
ghost use Rattle.flow_script.specs.Said.{all_said};
ghost use Rattle.flow_script.specs.Watching.{inner_of, has_failed};

use crate::answer::{Answer, Answers};
use crate::row::{PlayedFlow, begin, row_step};
use crate::script_text::text_of;
use crate::transfer::{read_all, write_all};
use crate::watched::Watched;
use script_format::{Script, ScriptFault, Step, read_script};
use std::alloc::Global;
use std::io::{Read, Write};

/// Plays the steps of a script one after the other.
fn play_steps(
    alloc: Global,
    row: &mut Vec<Option<PlayedFlow>>,
    steps: Vec<Step>,
) -> Result<Vec<Answer>, ScriptFault>
    ensures plays { IfOk result (λ answers.
        FollowsSteps (actions_of steps.items) row.old.items answers.items) }
    ensures fault { IfErr result (λ fault. fault ≡ ScriptFault.OutOfMemory) }
{
    let mut answers = Vec::new(alloc);
    for step in steps {
        answers.push(row_step(alloc, row, step)?)?;
    }
    Ok(answers)
}

/// Plays a script that was read: makes its flows, and then plays its steps on them.
pub fn played(alloc: Global, script: Script) -> Result<Answers, ScriptFault>
    ensures answers { IfOk result (λ answers.
        all_said answers ≡ answers_of (heads_of script.flows.items) (actions_of script.steps.items)) }
    ensures fault { IfErr result (λ fault. fault ≡ ScriptFault.OutOfMemory) }
{
    let Script { flows, steps } = script;
    let mut not_made = Vec::new(alloc);
    let Some(mut row) = begin(alloc, &mut not_made, flows)? else {
        return Ok(Answers {
            not_made,
            steps: Vec::new(alloc),
        });
    };
    let steps = play_steps(alloc, &mut row, steps)?;
    Ok(Answers { not_made, steps })
}

/// Reads a script and plays it.
pub fn answers_of(alloc: Global, bytes: &[u8]) -> Result<Answers, ScriptFault>
    ensures { Gives (answered bytes.now) (answers_result result) }
{
    let script = match read_script(alloc, bytes) {
        Ok(script) => script,
        Err(fault) => return Err(fault),
    };
    match played(alloc, script) {
        Ok(answers) => Ok(answers),
        Err(_) => Err(ScriptFault::OutOfMemory),
    }
}

/// Returns the lines that the script of these bytes writes, or why the script is refused.
pub fn lines_of(alloc: Global, bytes: &[u8]) -> Result<String, ScriptFault>
    ensures { Gives (script_meaning bytes.now) (text_result result) }
{
    let answers = match answers_of(alloc, bytes) {
        Ok(answers) => answers,
        Err(fault) => return Err(fault),
    };
    match text_of(alloc, &answers) {
        Ok(text) => Ok(text),
        Err(_) => Err(ScriptFault::OutOfMemory),
    }
}

/// Reads a script, plays it, and writes its lines after the last step.
///
/// Takes at most 1,048,577 bytes from the reader.
pub fn play<R: Read, W: Write>(
    alloc: Global,
    input: &mut Watched<R>,
    output: &mut Watched<W>,
) -> Result<(), ScriptFault>
    requires reads { has_failed input.old ≡ false }
    requires writes { has_failed output.old ≡ false }
    ensures plays { Plays (R.remaining (inner_of input.old)) (W.contents (inner_of output.old))
        (W.contents (inner_of output.new)) result }
    ensures taken { TakesWithin (R.remaining (inner_of input.old))
        (R.remaining (inner_of input.new)) }
    ensures read_failed { has_failed input.new ≡ is_read_failed result }
    ensures write_failed { has_failed output.new ≡ is_write_failed result }
{
    let bytes = match read_all(alloc, input) {
        Ok(bytes) => bytes,
        Err(fault) => return Err(fault),
    };
    let text = match lines_of(alloc, bytes.as_slice()) {
        Ok(text) => text,
        Err(fault) => return Err(fault),
    };
    write_all(output, text.as_bytes())
}
