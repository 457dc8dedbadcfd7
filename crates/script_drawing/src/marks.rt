//! The marks of a step, by what it does, its answer, and the case that it took.

use crate::mark::{Sign, Words};
use crate::played::PlayedStep;
use flow_law::Next;
use flow_script::{Act, Answer, Case, FlowStep, Seen};

/// What becomes of the lane of the subscriber or the emission that a step names.
#[derive(Clone, Copy)]
pub enum Named {
    Untouched,
    Marked(Sign),
    /// The lane ends with this mark.
    Ended(Sign),
}

/// The marks of a step: on the lane of its flow, and on the lane of its name, with these words.
#[derive(Clone, Copy)]
pub struct Marks<'a>(pub Option<Sign>, pub Named, pub Words<'a>);

/// A step without marks.
const NONE: Marks<'static> = Marks(None, Named::Untouched, Words::None);

/// The subscriber or the emission of the step has nothing to receive or to end.
const NOTHING: Marks<'static> = Marks(None, Named::Marked(Sign::Nothing), Words::None);

/// Returns the marks of a step that only has one on the lane of its flow.
fn on_flow(sign: Sign, words: Words<'_>) -> Marks<'_> {
    Marks(Some(sign), Named::Untouched, words)
}

/// Returns the marks of a step that only has one on the lane of its name.
fn on_named(sign: Sign, words: Words<'_>) -> Marks<'_> {
    Marks(None, Named::Marked(sign), words)
}

/// Returns the sign of a value that the flow took or did not take.
fn taken(is_taken: bool) -> Sign {
    if is_taken { Sign::Value } else { Sign::Lost }
}

/// Returns the marks of a step on a flow whose answer is `true` or `false`. `emission` is the value of the step's
/// emission, if that has a lane that has not ended: otherwise there was nothing to cancel.
fn tested_marks<'a>(act: Act, test: bool, case: Case, emission: Option<i64>) -> Marks<'a> {
    let Act::OnFlow(_, step) = act else {
        return NONE;
    };
    match (step, emission) {
        (FlowStep::TryEmit(value), _) => on_flow(
            taken(test && case != Case::DropsLatest),
            Words::Number(value),
        ),
        (FlowStep::CompareAndSet(_, update), _) => on_flow(taken(test), Words::Number(update)),
        (FlowStep::Cancel(_), Some(value)) if test => Marks(
            Some(Sign::Lost),
            Named::Ended(Sign::Lost),
            Words::Number(value),
        ),
        (FlowStep::Unsubscribe(_), _) if test => Marks(None, Named::Ended(Sign::Ends), Words::None),
        _ => NOTHING,
    }
}

/// Returns the marks of a poll, by whether the emission still waits.
fn wait_marks(waits: bool, line: Words<'_>) -> Marks<'_> {
    if waits {
        on_named(Sign::Waits, Words::None)
    } else {
        on_named(Sign::Told, line)
    }
}

/// Returns the marks of a `next`.
fn next_marks<'a>(next: &Next<i64>, line: Words<'a>) -> Marks<'a> {
    match next {
        Next::Value(value) => on_named(Sign::Value, Words::Number(*value)),
        Next::Empty => NOTHING,
        Next::Gone => on_named(Sign::Refused, line),
    }
}

/// Returns the marks of a step that was refused.
fn refused_marks(act: Act, line: Words<'_>) -> Marks<'_> {
    match act {
        Act::OnFlow(_, FlowStep::Emit(_) | FlowStep::Subscribe) | Act::SubscribesWith(_, _) => {
            Marks(None, Named::Ended(Sign::Refused), line)
        }
        Act::OnFlow(_, FlowStep::Next(_)) => on_named(Sign::Refused, line),
        Act::OnFlow(_, FlowStep::Poll(_) | FlowStep::Cancel(_) | FlowStep::Unsubscribe(_)) => {
            NOTHING
        }
        _ => on_flow(Sign::Refused, line),
    }
}

/// Returns the value that a step emits or sets.
fn value_of(act: Act) -> i64 {
    match act {
        Act::OnFlow(_, FlowStep::TryEmit(value) | FlowStep::Emit(value) | FlowStep::Set(value)) => {
            value
        }
        _ => 0,
    }
}

/// Returns the marks of an emission that was done at once.
fn done_marks<'a>(value: i64, case: Case) -> Marks<'a> {
    let sign = taken(case != Case::DropsLatest);
    Marks(Some(sign), Named::Ended(sign), Words::Number(value))
}

/// Returns the marks of an emission whose emitter waits.
fn waiting_marks<'a>(value: i64) -> Marks<'a> {
    Marks(
        Some(Sign::Waits),
        Named::Marked(Sign::Waits),
        Words::Number(value),
    )
}

/// Returns the marks of a step. `emission` is the value of its emission, if that has a lane that has not ended.
pub fn marks_of<'a>(one: PlayedStep<'a>, emission: Option<i64>) -> Marks<'a> {
    if let Answer::Tested(test) = one.answer {
        return tested_marks(one.seen.act, *test, one.seen.case, emission);
    }
    if let Answer::Cached(_) = one.answer {
        return on_flow(Sign::Told, Words::List(one.line));
    }
    untested_marks(one.seen, one.answer, Words::Text(one.line))
}

/// Returns the marks of a step whose answer is neither `true` or `false` nor a list.
fn untested_marks<'a>(seen: &Seen, answer: &Answer, line: Words<'a>) -> Marks<'a> {
    match answer {
        Answer::Waits(waits) => wait_marks(*waits, line),
        Answer::Done => done_marks(value_of(seen.act), seen.case),
        Answer::Queued => waiting_marks(value_of(seen.act)),
        Answer::Subscribed => on_named(Sign::Begins, Words::None),
        Answer::Received(next) => next_marks(next, line),
        Answer::Set => on_flow(Sign::Value, Words::Number(value_of(seen.act))),
        Answer::Counted(_) | Answer::Got(_) | Answer::Reset | Answer::Turned(_) => {
            on_flow(Sign::Told, line)
        }
        Answer::Refused(_) | Answer::TurnRefused(_) | Answer::NoFlow => {
            refused_marks(seen.act, line)
        }
        _ => NONE,
    }
}
