//! Tokens that are dropped: what they stand for stays in the flow; and the values that callers of a borrowed flow get.
use crate::compare::compare;
use crate::flows::{new_flow, new_subscription, new_word_state};
use crate::lent::{emit_one, next_in_order, read_newest};
use flow_law::Config;
use flow_law::Next::{Empty, Value};
use flow_shared::Emitted;

/// The subscriber receives 2, whose emission waited and was dropped.
#[test]
fn a_dropped_emission_stays_queued(rt: HostRuntime) {
    let (flow, mut seat) = new_flow(&rt, rt.alloc(), Config::new().extra(1));
    let mut subscription = new_subscription(&rt, &flow, &mut seat);
    compare(&rt, "emit 1", flow.try_emit(&rt, &mut seat, 1), Ok(true));
    let waits = matches!(flow.emit(&rt, seat, 2), Emitted::Queued(_));
    compare(&rt, "the emission of 2 waits", waits, true);
    compare(&rt, "next", flow.next(&rt, &mut subscription), Ok(Value(1)));
    compare(&rt, "next", flow.next(&rt, &mut subscription), Ok(Value(2)));
    compare(&rt, "next", flow.next(&rt, &mut subscription), Ok(Empty));
}

#[test]
fn a_dropped_subscription_blocks_emitters(rt: HostRuntime) {
    let (flow, mut seat) = new_flow(&rt, rt.alloc(), Config::new().extra(1));
    drop(new_subscription(&rt, &flow, &mut seat));
    compare(&rt, "emit 1", flow.try_emit(&rt, &mut seat, 1), Ok(true));
    compare(&rt, "emit 2", flow.try_emit(&rt, &mut seat, 2), Ok(false));
    compare(&rt, "count", flow.subscription_count(&rt, &mut seat), 1);
}

/// A subscriber receives what was emitted, and then nothing.
#[test]
fn subscriber_of_a_lent_flow_receives_all(rt: HostRuntime) {
    let (flow, mut seat) = new_flow(&rt, rt.alloc(), Config::new().extra(1));
    let mut subscription = new_subscription(&rt, &flow, &mut seat);
    let taken = emit_one(&rt, &flow, &mut seat, 1);
    compare(&rt, "emit_one", taken, Ok(true));
    let received = next_in_order(&rt, &flow, &mut subscription);
    compare(&rt, "next_in_order", received, Ok(Value(1)));
    let received = next_in_order(&rt, &flow, &mut subscription);
    compare(&rt, "next_in_order", received, Ok(Empty));
}

/// A word state that begins with 5 is set to 9.
#[test]
fn reader_of_a_lent_word_state_gets_the_newest_value(rt: HostRuntime) {
    let (flow, mut seat) = new_word_state(&rt, rt.alloc(), 5, 1);
    compare(&rt, "the first value", read_newest(&flow, &mut seat), 5);
    flow.set(&mut seat, 9);
    compare(&rt, "the newest value", read_newest(&flow, &mut seat), 9);
}
