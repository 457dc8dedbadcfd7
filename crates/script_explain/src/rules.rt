//! The rules by which the steps of a script have their answers.
//!
//! Nothing is decided here: a rule says in words which case of its documented flow a step took, and the case is in the
//! trace.

mod flows;
mod turns;

use flow_law::FlowFault;
use flow_script::{
    Act, Answer, Case, FlowHead, FlowStep, Loss, Seen, SubscriberNames, Trace, TracedScript,
};
use flows::{EXHAUSTED, shared_rule, state_rule};
use std::alloc::{AllocError, Global};
use turns::{collect_rule, turn_rule};

/// The most subscribers that a rule names.
const MOST_NAMED: usize = 16;

/// Returns the rule by which a step on a flow has its answer. It is empty if the step cannot have this answer.
fn flow_rule(head: FlowHead, step: FlowStep, case: Case, answer: &Answer) -> &'static str {
    match (head, step) {
        (FlowHead::Share(started, _) | FlowHead::StateIn(started), FlowStep::Turn(_)) => {
            turn_rule(started, answer)
        }
        (FlowHead::Shared(_) | FlowHead::Share(_, _), _) => shared_rule(head, step, case, answer),
        (FlowHead::State | FlowHead::StateIn(_), _) => state_rule(step, case, answer),
    }
}

/// Returns the rule by which a step has its answer, in one sentence. It is empty if the step cannot have this answer.
fn rule_of(trace: &Trace, seen: &Seen, answer: &Answer) -> &'static str {
    match (seen.act, answer) {
        (Act::Collects, _) => collect_rule(answer),
        (_, Answer::NoFlow) => "the flow was refused when it was made, so it answers nothing",
        (Act::SubscribesWith(_, _), Answer::Subscribed) => {
            "a new subscriber gets its own first values, then the replay cache, and then what is emitted afterwards"
        }
        (Act::SubscribesWith(_, _), Answer::Refused(FlowFault::Exhausted)) => EXHAUSTED,
        (Act::SubscribesWith(_, _), _) => "",
        (Act::OnFlow(flow, step), _) => match trace.flows.get(flow) {
            Some(flow) => flow_rule(flow.head, step, seen.case, answer),
            None => "",
        },
    }
}

/// Writes the rule by which subscribers of a flow lose a value.
fn write_loss(
    words: &mut String,
    names: &SubscriberNames<'_>,
    flow: usize,
    loss: &Loss,
) -> Result<(), AllocError> {
    let value = loss.value;
    write!(
        words,
        "taken: the buffer was full, so {value} is dropped, which "
    )?;
    for (before, loser) in loss.losers.iter().take(MOST_NAMED + 1).enumerate() {
        let name = names.name(flow, *loser);
        if before == 0 {
            words.push_str(name)?;
        } else if before < MOST_NAMED {
            write!(words, ", {name}")?;
        } else {
            words.push_str(" and others")?;
        }
    }
    words.push_str(" had not received yet")
}

/// Returns the rules by which the steps of a script have their answers, each in one sentence. A rule is empty if its
/// step cannot have this answer.
///
/// The rule of a turn is that of its command, unless that is `Keep`: then it is that of its event. If a value is
/// dropped that subscribers had yet to receive, the rule says which value, and names up to 16 of these subscribers.
/// Source of the rules: kotlinx.coroutines' public documentation, as docs/DEFINITIONS.md says rule by rule.
///
/// # Errors
/// `AllocError`: out of memory.
pub fn rules_of(alloc: Global, traced: &TracedScript) -> Result<Vec<String>, AllocError> {
    let trace = &traced.trace;
    let steps = trace.steps.as_slice();
    let names = SubscriberNames::new(alloc, trace.flows.len(), traced.steps(), steps)?;
    let mut rules = Vec::new(alloc);
    for (place, answer) in trace.answers.steps.iter().enumerate() {
        let Some(seen) = steps.get(place) else {
            break;
        };
        let mut words = String::new(alloc);
        match &seen.changes.loss {
            Some(loss) => write_loss(&mut words, &names, seen.act.flow().unwrap_or(0), loss)?,
            None => words.push_str(rule_of(trace, seen, answer))?,
        }
        rules.push(words)?;
    }
    Ok(rules)
}
