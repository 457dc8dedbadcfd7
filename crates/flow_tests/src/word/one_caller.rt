//! What one caller of a word state knows after two of its seats have met or a message was received, and a word state that
//! is refused memory.
ghost use Rattle.std.specs.Prelude.{◌≡◌};

use crate::compare::compare;
use flow_law::{FlowFault, Next};
use flow_messages::pass_on;
use flow_word::{WordSeat, WordState};
use std::alloc::Global;
use std::process::Abort;

/// Returns a flow with the value 7. Makes it once more if its memory is refused: `rt try --test --fail-alloc N` refuses
/// the allocation N.
fn made_again(rt: &impl Abort, alloc: Global) -> (WordState<i64>, WordSeat<i64>)
    ensures { result.1.table_id ≡ result.0.table_id }
{
    match WordState::new(alloc, 7, 0) {
        Ok(made) => made,
        Err(fault) => {
            compare(rt, "a refused flow", fault, FlowFault::OutOfMemory);
            WordState::new(alloc, 7, 0).expect(rt, "a flow")
        }
    }
}

#[test]
fn a_word_state_is_made(rt: HostRuntime) {
    let (flow, mut seat) = made_again(&rt, rt.alloc());
    compare(&rt, "the first value", flow.value(&mut seat), 7);
}

/// After two seats have met, each reads what either has set before.
#[test]
fn who_has_met_reads_what_the_other_one_set(rt: HostRuntime) {
    let made = WordState::<i64>::new(rt.alloc(), 0, 1);
    let (flow, mut seat) = made.expect(&rt, "a flow");
    let mut other = flow.seat(&mut seat);
    flow.set(&mut other, 3);
    flow.meet(&mut seat, &mut other);
    compare(&rt, "what the first seat reads", flow.value(&mut seat), 3);
    compare(&rt, "what the second seat reads", flow.value(&mut other), 3);
}

/// A subscription receives what a seat set before it met the subscription.
#[test]
fn a_subscriber_that_has_met_receives_what_was_set(rt: HostRuntime) {
    let made = WordState::<i64>::new(rt.alloc(), 0, 1);
    let (flow, mut seat) = made.expect(&rt, "a flow");
    let subscribed = flow.subscribe(&rt, &mut seat);
    let mut subscription = subscribed.expect(&rt, "a number");
    flow.set(&mut seat, 4);
    flow.meet_subscription(&mut subscription, &mut seat);
    compare(&rt, "next", flow.next(&mut subscription), Next::Value(4));
    flow.seen_by_subscription(&mut subscription);
    compare(&rt, "no more", flow.next(&mut subscription), Next::Empty);
}

#[test]
fn a_reader_finds_what_a_message_tells(rt: HostRuntime) {
    let (flow, seat) = WordState::new(rt.alloc(), 0u64, 0).expect(&rt, "a flow");
    let mut setter = flow.into_setter(rt.alloc(), seat).expect(&rt, "memory");
    let reader = setter.another(&rt);
    let heard = pass_on(&rt, rt.alloc(), setter, reader, 7).expect(&rt, "memory");
    compare(&rt, "the value of the message", heard.value, 7);
    compare(&rt, "what its reader found", heard.found, 7);
}
