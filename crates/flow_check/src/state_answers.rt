//! What a state flow answers to a caller, by what the caller has received.
ghost use Rattle.std.specs.Prelude.{◌≡◌};
ghost use Rattle.flow_check.specs.StateMachine.{subscribe_answer, state_next_answer, unsubscribe_answer};
ghost use Rattle.flow_check.specs.StateMachine.{state_same_answer, state_agrees};

use crate::state_calls::StateAnswer;

/// Returns the answer to `subscribe`, or None if the caller is subscribed.
pub fn subscribe_answer(reader: Option<Option<u64>>) -> Option<StateAnswer>
    ensures { result ≡ subscribe_answer reader }
{
    match reader {
        None => Some(StateAnswer::Done),
        Some(_) => None,
    }
}

/// Returns the answer to `next`, or None if the caller is not subscribed.
pub fn next_answer(value: u64, reader: Option<Option<u64>>) -> Option<StateAnswer>
    ensures { result ≡ state_next_answer value reader }
{
    match reader {
        None => None,
        Some(None) => Some(StateAnswer::Value(value)),
        Some(Some(last)) => {
            if last == value {
                Some(StateAnswer::Empty)
            } else {
                Some(StateAnswer::Value(value))
            }
        }
    }
}

/// Returns the answer to `unsubscribe`, or None if the caller is not subscribed.
pub fn unsubscribe_answer(reader: Option<Option<u64>>) -> Option<StateAnswer>
    ensures { result ≡ unsubscribe_answer reader }
{
    match reader {
        None => None,
        Some(_) => Some(StateAnswer::Done),
    }
}

/// Returns whether an answer is the one that was recorded.
fn same_answer(own: StateAnswer, recorded: StateAnswer) -> bool
    ensures { result ≡ state_same_answer own recorded }
{
    match (own, recorded) {
        (StateAnswer::Done, StateAnswer::Done) => true,
        (StateAnswer::Value(v), StateAnswer::Value(w)) => v == w,
        (StateAnswer::Truth(b), StateAnswer::Truth(c)) => { if b { c } else { !c } }
        (StateAnswer::Empty, StateAnswer::Empty) => true,
        (StateAnswer::Number(m), StateAnswer::Number(n)) => m == n,
        _ => false,
    }
}

/// Returns whether the flow's own answer is the one that was recorded, if one was.
pub fn agrees(own: Option<StateAnswer>, recorded: Option<StateAnswer>) -> bool
    ensures { result ≡ state_agrees own recorded }
{
    match (own, recorded) {
        (None, _) => false,
        (Some(_), None) => true,
        (Some(own), Some(recorded)) => same_answer(own, recorded),
    }
}
