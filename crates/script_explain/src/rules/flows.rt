//! The rules of shared flows and of state flows. Each function returns a sentence, by the answer of a step, or an empty
//! one if the step cannot have this answer.

use flow_law::{FlowFault, Next};
use flow_script::{Answer, Case, FlowHead, FlowStep};

/// The rule of a call that is refused because all numbers are taken.
pub const EXHAUSTED: &str =
    "refused: the flow has given out as many numbers as its limit allows, and nothing has changed";

/// Returns the rule of a step that each flow has.
fn every_flow_rule(step: FlowStep, answer: &Answer) -> &'static str {
    match (step, answer) {
        (FlowStep::Subscribe, Answer::Refused(FlowFault::Exhausted)) => EXHAUSTED,
        (FlowStep::Unsubscribe(_), Answer::Tested(false))
        | (FlowStep::Next(_), Answer::Received(Next::Gone)) => {
            "the name stands for no subscriber: it unsubscribed, or its subscription was refused"
        }
        (FlowStep::Count, Answer::Counted(_)) => {
            "how many subscribers there are; at first there are none"
        }
        _ => "",
    }
}

/// Returns whether a flow keeps values for slow subscribers. The flow of a shared chain always does.
fn has_buffer(head: FlowHead) -> bool {
    match head {
        FlowHead::Shared(config) => config.replay > 0 || config.extra > 0,
        _ => true,
    }
}

/// Returns the rule of a `try_emit` or an `emit` on a shared flow, without a subscriber that loses a value.
fn emission_rule(head: FlowHead, case: Case, answer: &Answer) -> &'static str {
    match (answer, case, has_buffer(head)) {
        (Answer::Tested(true) | Answer::Done, Case::DropsLatest, _) => {
            "dropped: a subscriber still has a full buffer to receive"
        }
        (Answer::Tested(true) | Answer::Done, _, true) => {
            "taken: there is no subscriber, or room for every subscriber"
        }
        (Answer::Tested(true) | Answer::Done, _, false) => {
            "taken: there is no subscriber for whom the emitter would wait"
        }
        (Answer::Tested(false), Case::Offers | Case::Queues, true) => {
            "blocked: a subscriber still has a full buffer to receive"
        }
        (Answer::Tested(false), Case::Offers | Case::Queues, false) => {
            "blocked: without a buffer an emitter waits until every subscriber has received the value"
        }
        (Answer::Queued, Case::Offers | Case::Queues, true) => {
            "blocked: a subscriber still has a full buffer to receive, and the emitter waits in the queue"
        }
        (Answer::Queued, Case::Offers | Case::Queues, false) => {
            "without a buffer the emitter waits until every subscriber has received the value"
        }
        (Answer::Refused(FlowFault::Exhausted), _, _) => EXHAUSTED,
        _ => "",
    }
}

/// Returns the rule of a step on an emission that may wait.
fn waiting_rule(step: FlowStep, answer: &Answer) -> &'static str {
    match (step, answer) {
        (FlowStep::Poll(_), Answer::Waits(true)) => {
            "the emission waits: its value is queued, or offered and not yet received by every subscriber"
        }
        (FlowStep::Poll(_), Answer::Waits(false)) => {
            "the emission does not wait: its value is neither queued nor offered"
        }
        (FlowStep::Cancel(_), Answer::Tested(true)) => {
            "the emission waited: a queued value is lost, and an offered one goes to no further subscriber"
        }
        (FlowStep::Cancel(_), Answer::Tested(false)) => {
            "the emission did not wait, so nothing is cancelled"
        }
        _ => "",
    }
}

/// Returns the rule of the values of a replay cache.
fn cache_rule(head: FlowHead, values: &[i64]) -> &'static str {
    if !values.is_empty() {
        "the most recent values, as many as the flow replays, of those emitted after the last reset"
    } else if head.replay() > 0 {
        "nothing was emitted, or nothing after the last reset"
    } else {
        "without replay the replay cache stays empty"
    }
}

/// Returns the rule by which a step on a shared flow has its answer.
pub fn shared_rule(head: FlowHead, step: FlowStep, case: Case, answer: &Answer) -> &'static str {
    match (step, answer) {
        (FlowStep::TryEmit(_), Answer::Done | Answer::Queued)
        | (FlowStep::Emit(_), Answer::Tested(_)) => "",
        (FlowStep::TryEmit(_) | FlowStep::Emit(_), _) => emission_rule(head, case, answer),
        (FlowStep::Poll(_) | FlowStep::Cancel(_), _) => waiting_rule(step, answer),
        (FlowStep::Subscribe, Answer::Subscribed) if head.replay() > 0 => {
            "a new subscriber gets the replay cache, and then what is emitted afterwards"
        }
        (FlowStep::Subscribe, Answer::Subscribed) => {
            "without replay a new subscriber gets what is emitted afterwards"
        }
        (FlowStep::Unsubscribe(_), Answer::Tested(true)) => {
            "the subscriber is gone, and emitters that waited only for it go on"
        }
        (FlowStep::Next(_), Answer::Received(Next::Value(_))) => {
            "the oldest value that the subscriber has not received yet"
        }
        (FlowStep::Next(_), Answer::Received(Next::Empty)) => {
            "the subscriber has received everything so far"
        }
        (FlowStep::Cache, Answer::Cached(values)) => cache_rule(head, values.as_slice()),
        (FlowStep::Reset, Answer::Reset) => {
            "a reset empties the replay cache for new subscribers; the others still receive what they have not received yet"
        }
        _ => every_flow_rule(step, answer),
    }
}

/// Returns the rule by which a step that reads or changes the value of a state flow has its answer.
fn value_rule(step: FlowStep, case: Case, answer: &Answer) -> &'static str {
    match (step, answer) {
        (FlowStep::TryEmit(_), Answer::Tested(true)) => {
            "a state flow always takes a value: it is now the current one"
        }
        (FlowStep::Set(_), Answer::Set) if case == Case::Conflates => {
            "it is the current value already, so nothing changes"
        }
        (FlowStep::Set(_), Answer::Set) => "the value is now the current one",
        (FlowStep::CompareAndSet(_, _), Answer::Tested(true)) => {
            "the current value was the expected one, and the new one is now current"
        }
        (FlowStep::CompareAndSet(_, _), Answer::Tested(false)) => {
            "the current value is not the expected one, and stays"
        }
        (FlowStep::Cache, Answer::Cached(_)) => {
            "the replay cache of a state flow is its current value alone"
        }
        (FlowStep::Value, Answer::Got(_)) => "a state flow has one current value",
        (FlowStep::Reset, Answer::Refused(FlowFault::Unsupported)) => {
            "the replay cache of a state flow is its value, and cannot be reset"
        }
        _ => "",
    }
}

/// Returns the rule by which a step on a state flow has its answer.
pub fn state_rule(step: FlowStep, case: Case, answer: &Answer) -> &'static str {
    match (step, answer) {
        (FlowStep::Subscribe, Answer::Subscribed) => {
            "a new subscriber of a state flow first gets the current value"
        }
        (FlowStep::Unsubscribe(_), Answer::Tested(true)) => "the subscriber is gone",
        (FlowStep::Next(_), Answer::Received(Next::Value(_))) => {
            "the current value, which is not the same as the last one that the subscriber got"
        }
        (FlowStep::Next(_), Answer::Received(Next::Empty)) => {
            "the current value is the same as the last one that the subscriber got"
        }
        (FlowStep::Subscribe | FlowStep::Unsubscribe(_) | FlowStep::Next(_) | FlowStep::Count, _) =>
            { every_flow_rule(step, answer) }
        _ => value_rule(step, case, answer),
    }
}
