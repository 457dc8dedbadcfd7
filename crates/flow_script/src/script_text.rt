//! The text of a script's answers: a line for each answer.
ghost use Rattle.std.specs.Prelude.{◌≡◌, ◌++◌, OnOk, IfOk, codes, map, string_bytes};
ghost use Rattle.flow_script.specs.Answers.{as_answer};
ghost use Rattle.flow_script.specs.Lines as lines;
ghost use Rattle.flow_script.specs.ScriptMeaning as meaning;
ghost use Rattle.flow_script.specs.Said.{not_made_of, all_said};

use crate::answer::{Answer, Answers, NotMade};
use crate::chain_lines::{add_collected, add_with_chain_fault};
use crate::lines::{
    add_count, add_line, add_list, add_next, add_test, add_value, add_wait, add_with_flow_fault,
};
use crate::share_lines::{add_report, add_share_fault};
use std::alloc::{AllocError, Global};

/// Adds the line of an answer.
pub fn add_answer(text: &mut String, answer: &Answer) -> Result<(), AllocError>
    ensures { OnOk result
        (lines.AddsLine (lines.line_of (as_answer answer.now)) text.old text.new) }
{
    match answer {
        Answer::Tested(test) => add_test(text, *test),
        Answer::Waits(waits) => add_wait(text, *waits),
        Answer::Done => add_line(text, "done"),
        Answer::Queued => add_line(text, "queued"),
        Answer::Subscribed => add_line(text, "subscribed"),
        Answer::Received(next) => add_next(text, next),
        Answer::Cached(values) => add_list(text, values.as_slice()),
        Answer::Counted(count) => add_count(text, *count),
        Answer::Got(value) => add_value(text, *value),
        Answer::Set => add_line(text, "set"),
        Answer::Reset => add_line(text, "reset"),
        Answer::Refused(fault) => add_with_flow_fault(text, "refused ", *fault),
        Answer::Turned(report) => add_report(text, *report),
        Answer::TurnRefused(fault) => add_share_fault(text, *fault),
        Answer::Collected(items, end) => add_collected(text, items.as_slice(), *end),
        Answer::NotBuilt(fault) => add_with_chain_fault(text, "refused ", *fault),
        Answer::NoFlow => add_line(text, "no flow"),
    }
}

/// Adds the name of a flow, which precedes the answer of the flow.
fn add_name(text: &mut String, name: &str) -> Result<(), AllocError>
    ensures { OnOk result (lines.AddsText (name.now ++ codes " ") text.old text.new) }
{
    text.push_str(name)?;
    text.push(' ')
}

/// Adds the line of a flow that was refused when it was made.
fn add_not_made(text: &mut String, flow: &NotMade) -> Result<(), AllocError>
    ensures { OnOk result
        (lines.AddsLine (meaning.not_made_line (not_made_of flow.now)) text.old text.new) }
{
    if let Some(name) = &flow.name {
        add_name(text, name.as_str())?;
    }
    add_answer(text, &flow.answer)
}

fn add_all_not_made(text: &mut String, flows: &[NotMade]) -> Result<(), AllocError>
    ensures { OnOk result
        (lines.AddsText (meaning.not_made_lines (map not_made_of flows.now)) text.old text.new) }
{
    for flow in flows {
        add_not_made(text, flow)?;
    }
    Ok(())
}

fn add_steps(text: &mut String, steps: &[Answer]) -> Result<(), AllocError>
    ensures { OnOk result (lines.AddsText (lines.lines_of (map as_answer steps.now)) text.old text.new) }
{
    for answer in steps {
        add_answer(text, answer)?;
    }
    Ok(())
}

/// Returns the text of a script's answers: a line for each answer, ended by a line feed.
pub fn text_of(alloc: Global, answers: &Answers) -> Result<String, AllocError>
    ensures { IfOk result (λ text. string_bytes text ≡ meaning.text_of (all_said answers.now)) }
{
    let mut text = String::new(alloc);
    add_all_not_made(&mut text, answers.not_made.as_slice())?;
    add_steps(&mut text, answers.steps.as_slice())?;
    Ok(text)
}
