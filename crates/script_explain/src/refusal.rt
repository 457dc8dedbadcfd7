//! Why a script is refused, in words.

use crate::flow_words::{FLOW_ROWS, SCRIPT, VERSION};
use crate::head::Script;
use crate::names::{look_at_new_name, look_at_uses};
use crate::report::{Ended, Looked, Owner, Report};
use crate::search::{Aim, Task, look_into};
use crate::step_words::steps_of;
use crate::words::{Form, Version, row_named};
use flow_script::text_at;
use json_places::{Spot, Text, not_json};
use script_format::{MOST_BYTES, ScriptFault};
use serde_json::Value;
use std::alloc::{AllocError, Global};

/// Returns the part of a script that has the fault: 0 is the head, and steps are numbered from 1.
fn part_of(fault: ScriptFault) -> Option<u64> {
    match fault {
        ScriptFault::BadShape(part)
        | ScriptFault::UnknownName(part)
        | ScriptFault::DuplicateName(part)
        | ScriptFault::TooLarge(part) => Some(part),
        ScriptFault::BadVersion => Some(0),
        _ => None,
    }
}

/// Reports why a flow does not allow a step of the right form.
fn tell_not_allowed<'a>(script: Script<'a>, step: Spot<'a>, report: &mut Report<'a>) -> Looked {
    let Some(flow) = script.flow_of(step.value) else {
        return Ok(());
    };
    let kind = text_at(flow, "kind");
    let name = match row_named(&FLOW_ROWS, kind) {
        Some(row) => row.name,
        None => "this flow",
    };
    if matches!(script.version, Version::Two)
        && kind != "shared"
        && let Some(first) = script.text.member(step, "first")?
    {
        report.begin(first.at);
        write!(report, "{name} gives no subscriber first values of its own");
        write!(
            report,
            "\n  expected: no \"first\", which is for a shared flow"
        );
        return report.end();
    }
    let Some(found) = script.text.member(step, "do")? else {
        return Ok(());
    };
    let steps = steps_of(script.text.alloc, kind)?;
    report.begin(found.at);
    write!(
        report,
        "{name} has no step {}\n  expected: one of ",
        text_at(step.value, "do")
    );
    report.add_choices(steps.as_slice());
    report.end()
}

/// Reports what is wrong in a step, or why its flow does not allow it.
fn look_at_step<'a>(
    script: Script<'a>,
    index: usize,
    step: Spot<'a>,
    fault: ScriptFault,
    report: &mut Report<'a>,
) -> Looked {
    let task = Task {
        spot: step,
        owner: Owner::Item("steps"),
        form: Form::Step,
    };
    match fault {
        ScriptFault::UnknownName(_) => look_at_uses(script, index, step, report),
        ScriptFault::DuplicateName(_) => look_at_new_name(script, index, step, report),
        ScriptFault::TooLarge(_) => look_into(script, Aim::Limit, task, report),
        _ => {
            look_into(script, Aim::Shape, task, report)?;
            tell_not_allowed(script, step, report)
        }
    }
}

/// Reports what is wrong in the head.
fn look_at_head<'a>(script: Script<'a>, fault: ScriptFault, report: &mut Report<'a>) -> Looked {
    let root = script.root;
    let aim = match fault {
        ScriptFault::BadVersion => {
            return match script.text.member(root, "version")? {
                Some(found) => report.tell_form(Owner::Member("version"), found, Form::Version),
                None => report.tell_missing(root.at, SCRIPT.name, VERSION),
            };
        }
        ScriptFault::TooLarge(_) => Aim::Limit,
        _ => Aim::Shape,
    };
    let task = Task {
        spot: root,
        owner: Owner::Script,
        form: Form::Script,
    };
    look_into(script, aim, task, report)
}

/// Reports what is wrong in a part of a script, or at least where that part begins.
fn tell_part<'a>(
    script: Script<'a>,
    part: u64,
    fault: ScriptFault,
    report: &mut Report<'a>,
) -> Looked {
    let step = match part.checked_sub(1) {
        Some(index) => script.step(index as usize)?,
        None => None,
    };
    match step {
        Some(step) => {
            let index = part.saturating_sub(1) as usize;
            look_at_step(script, index, step, fault, report)?;
        }
        None => look_at_head(script, fault, report)?,
    }
    report.begin(step.unwrap_or(script.root).at);
    tell_fault(fault, report)
}

/// Reports where the text stops being JSON.
fn tell_stop(report: &mut Report<'_>) -> Looked {
    match not_json(report.text)? {
        Some(stop) => {
            if stop.shows_value {
                report.begin_value(stop.at);
            } else {
                report.begin(stop.at);
            }
            write!(report, "{}\n  expected: {}", stop.what, stop.expected);
        }
        None => {
            report.begin(0);
            write!(report, "the text is JSON");
        }
    }
    report.end()
}

/// Reports that a script has too many bytes.
fn tell_size(report: &mut Report<'_>) -> Looked {
    let size = report.text.bytes.len();
    report.begin(MOST_BYTES);
    write!(
        report,
        "the script has {size} bytes\n  expected: at most {MOST_BYTES}"
    );
    report.end()
}

/// Reports the fault in its own words.
fn tell_fault(fault: ScriptFault, report: &mut Report<'_>) -> Looked {
    write!(report, "{fault}");
    report.end()
}

/// Returns the message about a script with this fault. `value` is the script, if its text is JSON.
fn message<'a>(
    text: Text<'a>,
    value: Option<&'a Value>,
    fault: ScriptFault,
) -> Result<String, AllocError> {
    let mut report = Report {
        text,
        part: part_of(fault),
        lines: String::new(text.alloc),
        is_out_of_memory: false,
    };
    let looked = match (report.part, value) {
        (Some(part), Some(value)) => tell_part(Script::new(text, value), part, fault, &mut report),
        (Some(0), None) if text.bytes.len() > MOST_BYTES => tell_size(&mut report),
        (None, _) if fault == ScriptFault::NotJson => tell_stop(&mut report),
        _ => tell_fault(fault, &mut report),
    };
    match looked {
        Err(Ended::OutOfMemory) => Err(AllocError),
        _ => Ok(report.lines),
    }
}

/// Returns a few lines that say where and why the script of these bytes is refused with this fault:
///
/// ```text
/// line 7, column 31: step 3: "valeu" is no key of try_emit
///   expected: "value", a whole number of 64 bits with a sign
///   nearest: "value"
/// ```
///
/// Lines and columns are numbered from 1, and columns count characters. If nothing wrong is found, the lines have the
/// place of the step or of the head, and the fault's own words. For a fault that has no place, such as `ReadFailed`,
/// they have only these words.
pub fn explain_refusal(
    alloc: Global,
    bytes: &[u8],
    fault: ScriptFault,
) -> Result<String, AllocError> {
    let text = Text { alloc, bytes };
    if part_of(fault).is_none() || bytes.len() > MOST_BYTES {
        return message(text, None, fault);
    }
    match Value::from_slice(alloc, bytes) {
        Ok(value) => message(text, Some(&value), fault),
        Err(error) if error.is_memory() => Err(AllocError),
        Err(_) => message(text, None, fault),
    }
}
