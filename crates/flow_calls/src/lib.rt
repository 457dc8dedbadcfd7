//! The player of flow scripts and the judge of records as functions for programs in other languages, and for a page in
//! a browser.
//!
//! Each call takes bytes and a buffer. It fills the buffer from its start, and sets `needed` to the length of what it
//! gives. If that does not fit, it writes nothing and returns 1 (`Fills`). A refused script, and a call that is out of
//! memory, give the lines and the statuses of the programs (`AnswersText`).
#![tactic(auto)]

ghost use Rattle.std.specs.Prelude.{Err};
ghost use Rattle.flow_script.specs.ScriptMeaning.{script_meaning};
ghost use Rattle.flow_calls.specs.Calls.{DrawsInto, ExplainsText, ExplainsInto, IsScriptFault, JudgesInto, PlaysInto};

mod giving;
mod verdict;

use flow_script::{OUT_OF_MEMORY, REFUSED, ScriptFault, lines_of};
use giving::{GIVEN, give, give_fault, give_memory};
use record_judging::judge_record;
use script_drawing::{Form, drawing_of};
use script_explain::explain_refusal;
use std::alloc::Global;
use verdict::status_of;

/// Gives the lines that a script writes, as `flow_play` prints them.
///
/// Returns 0 for a script that was played, 1 if the buffer is too short, 2 with the line of its refusal for a script
/// that is refused, and 4 if it is out of memory.
#[unsafe(no_mangle)]
pub extern "C" fn wumsnair_play(
    alloc: Global,
    script: &[u8],
    out: &mut [u8],
    needed: &mut usize,
) -> u32
    ensures { PlaysInto (script_meaning script.now) out.old out.new needed.new result }
{
    match lines_of(alloc, script) {
        Ok(text) => give(text.as_bytes(), GIVEN, out, needed),
        Err(fault) => give_fault(alloc, fault, out, needed),
    }
}

/// Returns the form of a drawing by its number.
fn form_of(form: u32) -> Form {
    match form {
        0 => Form::Svg,
        1 => Form::Text,
        _ => Form::Explained,
    }
}

/// Gives what `flow_draw` prints: a picture as SVG (form 0) or as text (1), or the lines with their rules (any other
/// form).
///
/// Returns 0 for a script that was drawn, 1 if the buffer is too short, 2 with the line of its refusal for a script
/// that is refused, and 4 if it is out of memory.
#[unsafe(no_mangle)]
pub extern "C" fn wumsnair_draw(
    alloc: Global,
    form: u32,
    script: &[u8],
    out: &mut [u8],
    needed: &mut usize,
) -> u32
    ensures { DrawsInto (script_meaning script.now) out.old out.new needed.new result }
{
    give_drawing(alloc, form_of(form), script, out, needed)
}

/// Gives the trace of a script as JSON, as `flow_draw --json` prints it: its lines, each with the rule behind it, what
/// the step did, and what it left of its flow. If `most_drawn` is not 0, and the script has at most that many
/// steps, the trace also has the picture as SVG. `docs/trace.schema.json` describes it.
///
/// Returns 0 for a script that was played, 1 if the buffer is too short, 2 with the line of its refusal for a script
/// that is refused, and 4 if it is out of memory.
#[unsafe(no_mangle)]
pub extern "C" fn wumsnair_trace(
    alloc: Global,
    most_drawn: u32,
    script: &[u8],
    out: &mut [u8],
    needed: &mut usize,
) -> u32
    ensures { DrawsInto (script_meaning script.now) out.old out.new needed.new result }
{
    give_drawing(
        alloc,
        Form::JsonWithPicture(most_drawn),
        script,
        out,
        needed,
    )
}

/// Gives a script in a form.
fn give_drawing(alloc: Global, form: Form, script: &[u8], out: &mut [u8], needed: &mut usize) -> u32
    ensures { DrawsInto (script_meaning script.now) out.old out.new needed.new result }
{
    match drawing_of(alloc, form, script) {
        Ok(drawn) => give(drawn.as_bytes(), GIVEN, out, needed),
        Err(fault) => give_fault(alloc, fault, out, needed),
    }
}

/// Gives some words on why a script is refused by this fault.
fn give_explanation(
    alloc: Global,
    script: &[u8],
    fault: ScriptFault,
    out: &mut [u8],
    needed: &mut usize,
) -> u32
    requires { IsScriptFault fault }
    ensures { ExplainsText (Err fault) out.old out.new needed.new result }
{
    match fault {
        ScriptFault::OutOfMemory => give(&[], u32::from(OUT_OF_MEMORY), out, needed),
        _ => match explain_refusal(alloc, script, fault) {
            Ok(words) => give(words.as_bytes(), u32::from(REFUSED), out, needed),
            Err(_) => give(&[], u32::from(OUT_OF_MEMORY), out, needed),
        },
    }
}

/// Gives some lines for people on where and why a script is refused, as `flow_draw` prints them on standard error.
/// Gives nothing for a script that is not refused.
///
/// Returns 0 for a script that is not refused, 1 if the buffer is too short, 2 for a script that is refused, and 4,
/// with nothing given, if it is out of memory.
#[unsafe(no_mangle)]
pub extern "C" fn wumsnair_explain(
    alloc: Global,
    script: &[u8],
    out: &mut [u8],
    needed: &mut usize,
) -> u32
    ensures { ExplainsInto (script_meaning script.now) out.old out.new needed.new result }
{
    match lines_of(alloc, script) {
        Ok(_) => give(&[], GIVEN, out, needed),
        Err(fault) => give_explanation(alloc, script, fault, out, needed),
    }
}

/// Gives what `flow_judge` prints for a record of calls. If it is legal and `with_order` is not 0, also gives an order
/// of the calls.
///
/// Returns 0 for a record that is legal, 1 if the buffer is too short, 2 for one that is refused, 3 if the search gave
/// up, 4 with the line `out of memory` if it is out of memory (`flow_judge` prints nothing then), and 5 for a record
/// that is illegal, for which `flow_judge` has the status 1.
#[unsafe(no_mangle)]
pub extern "C" fn wumsnair_check(
    alloc: Global,
    with_order: u32,
    record: &[u8],
    out: &mut [u8],
    needed: &mut usize,
) -> u32
    ensures { JudgesInto with_order out.old out.new needed.new result }
{
    let mut words = Vec::new(alloc);
    match judge_record(alloc, &mut words, record, with_order != 0, None) {
        Ok(judged) => give(words.as_slice(), status_of(judged), out, needed),
        Err(_) => give_memory(out, needed),
    }
}
