//! What a flow for threads reads of a core to find the sleepers that have something after a call, and the place of a
//! subscriber, at which a core looks first: its subscription's `Debug` shows it.
use crate::compare::{compare, compare_step};
use flow_core::{ReaderCalls, SharedCore, Signs, StateCore, SubId, SubscriberCalls};
use flow_law::{Config, Emit};
use std::alloc::Global;
use std::process::Abort;

/// Compares the number of values, the first emission that waits, the number of subscribers, and the last one's number.
fn are(rt: &impl Abort, after: &str, signs: Signs, wanted: (u64, Option<u64>, u64, u64)) {
    let Signs {
        mark,
        first_waiting,
        subscribers,
        last_subscriber,
    } = signs;
    compare_step(rt, "values after", &after, mark, wanted.0);
    compare_step(rt, "first waiting after", &after, first_waiting, wanted.1);
    compare_step(rt, "subscribers after", &after, subscribers, wanted.2);
    compare_step(rt, "last one after", &after, last_subscriber, wanted.3);
}

#[test]
fn a_value_that_waits_for_a_subscriber_is_not_counted(rt: HostRuntime) {
    let made = SharedCore::<i64>::new(rt.alloc(), Config::new().replay(1));
    let mut core = made.expect(&rt, "a flow");
    are(&rt, "the making", core.signs(), (0, None, 0, 0));
    let _done = core.emit(7).expect(&rt, "the value is taken");
    let _subscribed = core.subscribe().expect(&rt, "a subscription");
    are(&rt, "7", core.signs(), (1, None, 1, 2));
    compare(&rt, "emit 8", core.emit(8), Ok(Emit::Queued(3)));
    are(&rt, "8, which waits", core.signs(), (1, Some(3), 1, 2));
}

#[test]
fn a_state_counts_its_subscribers_alone(rt: HostRuntime) {
    let mut core = StateCore::new(rt.alloc(), 0i64, u64::MAX);
    let id = core.subscribe().expect(&rt, "a subscription");
    let last = id.number();
    are(&rt, "subscribe", core.signs(), (0, None, 1, last));
    compare(&rt, "it was there", core.unsubscribe(id), true);
    are(&rt, "unsubscribe", core.signs(), (0, None, 0, last));
}

/// Compares the text that `Debug` prints of a subscription.
fn is_printed(rt: &impl Abort, alloc: Global, id: SubId, wanted: &str) {
    let printed = format!(in alloc; "{id:?}").expect(rt, "memory");
    compare(rt, "the text of a subscription", printed.as_str(), wanted);
}

/// Adds three subscribers, removes the second, and adds a fourth. Checks that the fourth has the place of the second.
fn subscribe_four<S: SubscriberCalls>(rt: &impl Abort, alloc: Global, core: &mut S) {
    let first = core.subscribe().expect(rt, "a subscription");
    let second = core.subscribe().expect(rt, "a subscription");
    let third = core.subscribe().expect(rt, "a subscription");
    compare(rt, "unsubscribe", core.unsubscribe(second), true);
    let fourth = core.subscribe().expect(rt, "a subscription");
    is_printed(rt, alloc, first, "SubId { number: 1, key: 0 }");
    is_printed(rt, alloc, second, "SubId { number: 2, key: 1 }");
    is_printed(rt, alloc, third, "SubId { number: 3, key: 2 }");
    is_printed(rt, alloc, fourth, "SubId { number: 4, key: 1 }");
}

#[test]
fn a_subscription_has_the_place_of_its_subscriber(rt: HostRuntime) {
    let alloc = rt.alloc();
    let shared = SharedCore::<i64>::new(alloc, Config::new());
    subscribe_four(&rt, alloc, &mut shared.expect(&rt, "a flow"));
    subscribe_four(&rt, alloc, &mut StateCore::new(alloc, 0i64, u64::MAX));
}
