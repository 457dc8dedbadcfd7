//! The drawing of a script.
ghost use Rattle.std.specs.Prelude.{IfOk, string_bytes};
ghost use Rattle.flow_script.specs.Traces.{trace_seen};
ghost use Rattle.flow_script.specs.ScriptMeaning.{script_meaning, text_of};
ghost use Rattle.script_drawing.specs.Drawing.{Pictures, TellsInOrder, TellsLines};
ghost use Rattle.script_drawing.specs.Listing.{told};

use crate::form::Form;
use crate::json::{json_frame, step_extents};
use crate::lines::split_lines;
use crate::listing::add_listing;
use crate::page::Frame;
use crate::played::{Played, flows_of, steps_of};
use crate::svg::svg_picture;
use crate::text::{explained_frame, text_frame};
use flow_script::{ScriptFault, TracedScript, text_of, trace_of};
use json_places::Extent;
use script_explain::rules_of;
use std::alloc::{AllocError, Global};

/// Returns the frame of the trace as JSON, with the picture of the script.
fn pictured_json_frame(alloc: Global, played: Played<'_>) -> Result<Frame, AllocError> {
    let (frame, places) = svg_picture(alloc, played)?;
    let svg = framed(alloc, Form::Svg, frame, played)?;
    json_frame(alloc, played, Some((places, svg)))
}

fn frame_of(alloc: Global, form: Form, played: Played<'_>) -> Result<Frame, AllocError> {
    match form {
        Form::Text => text_frame(alloc, played),
        Form::Svg => {
            let (frame, _places) = svg_picture(alloc, played)?;
            Ok(frame)
        }
        Form::Explained => explained_frame(alloc, played),
        Form::JsonWithPicture(most) if most > 0 && played.steps.len() <= most as usize => {
            pictured_json_frame(alloc, played)
        }
        Form::Json | Form::JsonWithPicture(_) => json_frame(alloc, played, None),
    }
}

/// Returns the frame around the lines of a script, with the rules beside the lines, if the form shows rules.
fn framed(alloc: Global, form: Form, frame: Frame, played: Played<'_>) -> Result<String, AllocError>
    ensures { IfOk result (λ drawn.
        TellsInOrder (told played.entry.lines.now) (string_bytes drawn)) }
{
    let mut listing = String::new(alloc);
    add_listing(alloc, &mut listing, played, form)?;
    let Frame { before, after } = frame;
    let mut drawn = before;
    drawn.push_str(listing.as_str())?;
    drawn.push_str(after.as_str())?;
    Ok(drawn)
}

/// Returns the picture of a script, or its rules, around its lines.
fn pictured(alloc: Global, form: Form, played: Played<'_>) -> Result<String, AllocError>
    ensures { IfOk result (λ drawn.
        TellsInOrder (told played.entry.lines.now) (string_bytes drawn)) }
{
    let frame = frame_of(alloc, form, played)?;
    framed(alloc, form, frame, played)
}

/// Returns the rules of the steps, and their bytes in the text of the script, if the form of its drawing has them.
fn beside_steps(
    alloc: Global,
    form: Form,
    bytes: &[u8],
    traced: &TracedScript,
) -> Result<(Vec<String>, Vec<Extent>), AllocError> {
    let rules = match form {
        Form::Text | Form::Svg => Vec::new(alloc),
        _ => rules_of(alloc, traced)?,
    };
    let extents = match form {
        Form::Json | Form::JsonWithPicture(_) => step_extents(alloc, bytes, &traced.value)?,
        _ => Vec::new(alloc),
    };
    Ok((rules, extents))
}

/// Draws a script that was played, and whose text has these bytes.
fn drawn(
    alloc: Global,
    form: Form,
    bytes: &[u8],
    traced: &TracedScript,
) -> Result<String, ScriptFault>
    ensures { IfOk result (λ drawn.
        TellsLines (text_of (trace_seen traced.now.trace).answers) (string_bytes drawn)) }
{
    let text = text_of(alloc, &traced.trace.answers)?;
    let lines = split_lines(alloc, text.as_str())?;
    let lines = lines.as_slice();
    let (rules, extents) = beside_steps(alloc, form, bytes, traced)?;
    let steps = steps_of(alloc, traced, lines, rules.as_slice(), extents.as_slice())?;
    let flows = flows_of(alloc, traced)?;
    let played = Played {
        traced,
        lines,
        flows: flows.as_slice(),
        steps: steps.as_slice(),
    };
    match pictured(alloc, form, played) {
        Ok(drawn) => Ok(drawn),
        Err(_) => Err(ScriptFault::OutOfMemory),
    }
}

/// Draws the script of these bytes, or returns why it is refused.
pub fn drawing_of(alloc: Global, form: Form, bytes: &[u8]) -> Result<String, ScriptFault>
    ensures { Pictures (script_meaning bytes.now) result }
{
    let traced = match trace_of(alloc, bytes) {
        Ok(traced) => traced,
        Err(fault) => return Err(fault),
    };
    match drawn(alloc, form, bytes, &traced) {
        Ok(drawn) => Ok(drawn),
        Err(_) => Err(ScriptFault::OutOfMemory),
    }
}
