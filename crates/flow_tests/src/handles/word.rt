//! Handles of word states.
ghost use Rattle.std.specs.Prelude.{◌≡◌};
ghost use Rattle.std.specs.Arc.{arc_value};

use crate::compare::compare;
use crate::flows::{new_word_reader, new_word_setter, new_word_state};
use crate::handle_calls::next_of;
use crate::handles::states::{Reads, Sets};
use crate::host::Host;
use flow_word::{WordReader, WordSetter, WordState};
use futures::executor::block_on;
use std::process::Abort;
use std::sync::{Arc, Wait};
use std::time::Duration;

impl Sets for WordSetter<i64> {
    type Reader = WordReader<i64>;

    fn reader<R: Wait + Abort>(&mut self, rt: &R) -> WordReader<i64> {
        new_word_reader(rt, self)
    }

    fn put<R: Wait>(&mut self, _rt: &R, value: i64) {
        self.set(value);
    }
}

impl Reads for WordReader<i64> {
    fn take<R: Wait + Abort>(&mut self, _rt: &R) -> Option<i64> {
        self.next()
    }

    fn wait<R: Wait + Abort>(&mut self, rt: &R) -> i64 {
        self.changed(rt)
    }

    fn wait_in_time<R: Host>(&mut self, rt: &R, limit: Duration) -> Option<i64> {
        self.changed_timeout(rt, limit)
    }

    fn wait_above<R: Wait + Abort>(&mut self, rt: &R, least: i64) -> i64 {
        self.wait_for(rt, |value: &i64| *value > least)
    }

    fn wait_above_in_time<R: Host>(&mut self, rt: &R, limit: Duration, least: i64) -> Option<i64> {
        self.wait_for_timeout(rt, limit, |value: &i64| *value > least)
    }

    fn await_one<R: Host>(self, rt: &R) -> Option<(i64, Option<i64>)> {
        let (mut reader, value) = block_on(rt, self.into_changed()).ok()?;
        Some((value, reader.next()))
    }

    fn stream_one<R: Host>(self, rt: &R) -> Option<i64> {
        next_of(rt, self.into_stream(), 1).pop()
    }
}

fn one_more(value: i64) -> i64 {
    value.wrapping_add(1)
}

#[test]
fn a_word_state_is_updated(rt: HostRuntime) {
    let mut setter = new_word_setter(&rt, rt.alloc(), 4, 0);
    setter.update(&rt, one_more);
    let before = setter.get_and_update(&rt, one_more);
    compare(&rt, "get_and_update", before, 5);
    let after = setter.update_and_get(&rt, one_more);
    compare(&rt, "update_and_get", after, 7);
    compare(&rt, "value", setter.value(), 7);
}

/// Subscribes, takes the subscription out of its reader, and returns a reader that is bound to it again.
fn bound_again<R: Wait + Abort>(
    rt: &R,
    flow: Arc<WordState<i64>>,
    setter: &mut WordSetter<i64>,
) -> WordReader<i64>
    requires { setter.old.flow ≡ arc_value flow }
{
    WordReader::new(flow, new_word_reader(rt, setter).into_subscription())
}

/// Tokens that were taken out of their handles and bound again make the same calls.
#[test]
fn tokens_of_a_word_state_are_bound_again(rt: HostRuntime) {
    let (flow, seat) = new_word_state(&rt, rt.alloc(), 7, 1);
    let flow = Arc::new(rt.alloc(), flow).expect(&rt, "memory");
    let first = WordSetter::new(Arc::try_clone(&flow).expect(&rt, "an owner"), seat);
    let again = Arc::try_clone(&flow).expect(&rt, "an owner");
    let mut setter = WordSetter::new(again, first.into_seat());
    let mut reader = bound_again(&rt, flow, &mut setter);
    setter.set(3);
    setter.seen();
    compare(&rt, "subscribers", setter.subscription_count(), 1);
    compare(&rt, "next", reader.next(), Some(3));
    compare(&rt, "next of none", reader.next(), None);
    reader.seen();
}

/// Lets the setter meet another setter and another reader.
fn meet<R: Wait + Abort>(rt: &R, setter: &mut WordSetter<i64>) {
    let mut other = setter.another(rt);
    setter.meet(&mut other);
    let mut reader = new_word_reader(rt, setter);
    setter.meet_reader(&mut reader);
}

/// A reader or a stream that is dropped is no longer counted, nor is a reader that has unsubscribed.
#[test]
fn a_dropped_reader_of_a_word_state_ends_its_subscription(rt: HostRuntime) {
    let mut setter = new_word_setter(&rt, rt.alloc(), 7, 4);
    let reader = new_word_reader(&rt, &mut setter);
    compare(&rt, "beside a reader", setter.subscription_count(), 1);
    drop(reader);
    compare(&rt, "after its drop", setter.subscription_count(), 0);
    let stream = new_word_reader(&rt, &mut setter).into_stream();
    compare(&rt, "beside a stream", setter.subscription_count(), 1);
    drop(stream);
    compare(&rt, "after its drop", setter.subscription_count(), 0);
    meet(&rt, &mut setter);
    let mut left = new_word_reader(&rt, &mut setter).unsubscribe();
    compare(&rt, "after an unsubscribe", left.subscription_count(), 0);
}
