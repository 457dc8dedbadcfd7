//! Subscribers that come and leave while a run sleeps: the run observes each, even if it counts none.
use crate::compare::compare;
use crate::flows::{
    new_flow, new_reader, new_state_flow, new_state_reader, new_word_reader, new_word_state,
};
use crate::sharing::beside::{Follows, run_beside};
use crate::sharing::shared::{chain_of, share_into, share_into_state, share_into_word};
use flow_law::{Command, Config, Event, Report, Started};
use flow_sharing::{StopSignal, WordStop};
use flow_word::WordSetter;
use std::alloc::Global;
use std::process::Abort;
use std::sync::Wait;
use std::thread::{Threads, sleep};
use std::time::{Clock, Duration};

/// A stop that is asked for once the chain has set the state, after a subscriber that came and left.
#[derive(Drop)]
struct AfterVisit<'a> {
    stop: WordStop<'a, i64>,
}

impl StopSignal for AfterVisit<'_> {
    fn is_asked(&self) -> bool {
        self.stop.is_asked()
    }
}

impl Follows<WordSetter<i64>> for AfterVisit<'_> {
    fn follow<R: Wait + Clock + Abort>(&self, rt: &R, caller: &mut WordSetter<i64>) -> bool {
        let mut reader = new_word_reader(rt, caller);
        let _value = reader.changed(rt);
        drop(reader);
        let has_started = waits_for_item(rt, caller);
        self.stop.ask();
        has_started
    }
}

/// Waits until the chain's item is the state, without subscribing. Returns false after a bounded number of checks.
fn waits_for_item<R: Clock>(rt: &R, caller: &mut WordSetter<i64>) -> bool {
    for _ in 0..100_000 {
        if caller.value() == 239 {
            return true;
        }
        sleep(rt, Duration::from_micros(20));
    }
    false
}

/// Shares a chain of 239 into a new state, and runs it beside a subscriber that comes and leaves.
fn visit_once<R: Threads + Wait + Clock + Abort + Sync>(rt: &R, alloc: Global) {
    let (flow, mut setter) = new_word_state(rt, alloc, 42, u32::MAX);
    let mut sharing = share_into_word(
        rt,
        &*flow,
        &mut setter,
        chain_of(rt, alloc, &[239]),
        Started::Lazily,
    );
    compare(rt, "nobody", sharing.turn(0).is_ok(), true);
    let stop = AfterVisit {
        stop: WordStop::new(&*flow),
    };
    run_beside(rt, &mut sharing, &stop, &mut setter);
}

/// `flowOf(239).stateIn(scope, Lazily, 42)` starts with a subscriber that takes one value and leaves at once, in each of
/// 1,000 rounds (`ShareInTest.testShouldStart`).
#[test]
fn a_momentary_subscriber_starts_the_chain(rt: HostRuntime) {
    for _round in 0..1000 {
        visit_once(&rt, rt.alloc());
    }
}

/// The report of a turn that finds nothing to do.
const RESTS: Report = Report {
    command: Command::Keep,
    event: Event::Idle,
};

/// Without other threads: after a subscriber that came and left, a run needs no present one to start the chain.
#[test]
fn a_run_starts_after_a_visit(rt: HostRuntime) {
    let (flow, mut setter) = new_word_state(&rt, rt.alloc(), 42, u32::MAX);
    let chain = chain_of(&rt, rt.alloc(), &[239]);
    let mut sharing = share_into_word(&rt, &*flow, &mut setter, chain, Started::Lazily);
    compare(&rt, "nobody", sharing.turn(0), Ok(RESTS));
    drop(new_word_reader(&rt, &mut setter));
    compare(&rt, "the run", sharing.run_to_end(&rt), Ok(()));
    compare(&rt, "the state", setter.value(), 239);
}

/// The same over a state flow that has a lock.
#[test]
fn a_run_over_a_state_flow_starts_after_a_visit(rt: HostRuntime) {
    let (flow, mut setter) = new_state_flow(&rt, rt.alloc(), 42, u64::MAX);
    let chain = chain_of(&rt, rt.alloc(), &[239]);
    let mut sharing = share_into_state(&rt, &*flow, &mut setter, chain, Started::Lazily);
    compare(&rt, "nobody", sharing.turn(0), Ok(RESTS));
    drop(new_state_reader(&rt, &mut setter));
    compare(&rt, "the run", sharing.run_to_end(&rt), Ok(()));
    compare(&rt, "the state", setter.value(&rt), Ok(239));
}

/// The same over a shared flow that replays a value.
#[test]
fn a_run_over_a_shared_flow_starts_after_a_visit(rt: HostRuntime) {
    let (flow, mut emitter) = new_flow(&rt, rt.alloc(), Config::new().replay(1));
    let chain = chain_of(&rt, rt.alloc(), &[239]);
    let mut sharing = share_into(&rt, &*flow, &mut emitter, chain, Started::Lazily);
    compare(&rt, "nobody", sharing.turn(0), Ok(RESTS));
    drop(new_reader(&rt, &mut emitter));
    compare(&rt, "the run", sharing.run_to_end(&rt), Ok(()));
    let mut reader = new_reader(&rt, &mut emitter);
    compare(&rt, "the replayed value", reader.next(&rt), Ok(Some(239)));
}
