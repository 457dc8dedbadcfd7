//! The names that the steps of a script use, and those that they introduce twice.

use crate::head::Script;
use crate::report::{Looked, Report};
use crate::words::Version;
use flow_script::text_at;
use json_places::Spot;
use serde_json::Value;
use std::alloc::AllocError;

/// What a name stands for.
#[derive(Clone, Copy)]
struct Named {
    /// The tag of the steps that introduce these names.
    tag: &'static str,
    article: &'static str,
    word: &'static str,
}

static EMISSION: Named = Named {
    tag: "emit",
    article: "an",
    word: "emission",
};

static SUBSCRIBER: Named = Named {
    tag: "subscribe",
    article: "a",
    word: "subscriber",
};

impl Named {
    /// Returns what a step introduces by its name, and what it uses by its name. At most one of them is `Some`.
    fn by(step: &Value) -> (Option<&'static Named>, Option<&'static Named>) {
        match text_at(step, "do") {
            "emit" => (Some(&EMISSION), None),
            "subscribe" => (Some(&SUBSCRIBER), None),
            "poll" | "cancel" => (None, Some(&EMISSION)),
            "next" | "unsubscribe" => (None, Some(&SUBSCRIBER)),
            _ => (None, None),
        }
    }
}

/// A step that introduces a name.
#[derive(Clone, Copy)]
struct Introduced<'a> {
    named: &'static Named,
    /// The name of the flow that the step acts on. In version 1 it is empty.
    flow: &'a str,
    /// The number of the step, from 1.
    number: usize,
    /// Where the step begins.
    at: usize,
}

/// Returns the first step before another one that introduces a name.
fn introduced_before<'a>(
    script: Script<'a>,
    before: usize,
    name: &str,
) -> Result<Option<Introduced<'a>>, AllocError> {
    for (index, value) in script.steps_before(before).iter().enumerate() {
        if let (Some(named), _) = Named::by(value)
            && text_at(value, "name") == name
        {
            let step = script.step(index)?;
            return Ok(Some(Introduced {
                named,
                flow: text_at(value, "flow"),
                number: index.saturating_add(1),
                at: step.unwrap_or(script.root).at,
            }));
        }
    }
    Ok(None)
}

/// Returns the names that these steps introduce by this tag for this flow.
fn names_of<'a>(
    script: Script<'a>,
    before: usize,
    tag: &str,
    flow: &str,
) -> Result<Vec<&'a str>, AllocError> {
    let mut names = Vec::new(script.text.alloc);
    for step in script.steps_before(before) {
        if text_at(step, "do") == tag && text_at(step, "flow") == flow {
            names.push(text_at(step, "name"))?;
        }
    }
    Ok(names)
}

/// Returns the names of the flows.
fn flow_names(script: Script<'_>) -> Result<Vec<&str>, AllocError> {
    let mut names = Vec::new(script.text.alloc);
    if let Some(Value::Object(flows)) = script.root.value.get("flows") {
        for name in flows.keys() {
            names.push(name.as_str())?;
        }
    }
    Ok(names)
}

/// Adds a step that introduced a name, and its place.
fn add_step(first: Introduced<'_>, report: &mut Report<'_>) {
    let place = report.place(first.at);
    write!(report, "of step {} ({place})", first.number);
}

/// Reports that no earlier step introduced the name for this use.
fn unknown_use<'a>(
    script: Script<'a>,
    index: usize,
    flow: &str,
    found: Spot<'a>,
    named: &Named,
    report: &mut Report<'a>,
) -> Looked {
    let Named { tag, article, word } = *named;
    let name = found.value.as_str().unwrap_or("");
    let other = introduced_before(script, index, name)?;
    let names = names_of(script, index, tag, flow)?;
    report.begin_value(found.at);
    write!(
        report,
        " is no {word} of this flow that an earlier step introduced"
    );
    write!(report, "\n  expected: the name of {article} {word}");
    if let Some(other) = other {
        write!(
            report,
            "; this one is {} {}",
            other.named.article, other.named.word
        );
        if !other.flow.is_empty() {
            write!(report, " of \"{}\"", other.flow);
        }
        write!(report, ", ");
        add_step(other, report);
    }
    report.end_near(name, names.as_slice())
}

/// Reports that no flow has the name that a step gives.
fn unknown_flow<'a>(script: Script<'a>, found: Spot<'a>, report: &mut Report<'a>) -> Looked {
    let names = flow_names(script)?;
    report.begin_value(found.at);
    write!(
        report,
        " is no flow of the script\n  expected: a name of \"flows\""
    );
    report.end_near(found.value.as_str().unwrap_or(""), names.as_slice())
}

/// Reports the flow that a step names, if there is none of that name, or else the name that the step uses, which is
/// known to be wrong.
pub fn look_at_uses<'a>(
    script: Script<'a>,
    index: usize,
    step: Spot<'a>,
    report: &mut Report<'a>,
) -> Looked {
    if matches!(script.version, Version::Two)
        && script.flow_of(step.value).is_none()
        && let Some(found) = script.text.member(step, "flow")?
    {
        return unknown_flow(script, found, report);
    }
    match (Named::by(step.value), script.text.member(step, "name")?) {
        ((_, Some(named)), Some(found)) => {
            let flow = text_at(step.value, "flow");
            unknown_use(script, index, flow, found, named, report)
        }
        _ => Ok(()),
    }
}

/// Reports the name that a step introduces, if an earlier step introduced it.
pub fn look_at_new_name<'a>(
    script: Script<'a>,
    index: usize,
    step: Spot<'a>,
    report: &mut Report<'a>,
) -> Looked {
    let Some(found) = script.text.member(step, "name")? else {
        return Ok(());
    };
    let word = found.value.as_str().unwrap_or("");
    let Some(first) = introduced_before(script, index, word)? else {
        return Ok(());
    };
    report.begin_value(found.at);
    write!(report, " is taken\n  expected: a new name; this one is ");
    add_step(first, report);
    report.end()
}
