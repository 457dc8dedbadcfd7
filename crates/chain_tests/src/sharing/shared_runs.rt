//! Sharings over shared flows that are run by one call.
ghost use Rattle.std.specs.Prelude.{◌≡◌};

use crate::compare::compare;
use crate::flows::{new_flow, new_reader, reads_cache};
use crate::sharing::beside::{AT_ONCE, Caller, Follows, SHORTLY, run_beside};
use crate::sharing::shared::{chain_of, share_into};
use flow_cold::Scripted;
use flow_law::{Config, Started};
use flow_shared::{Emitter, Reader, SharedFlow};
use flow_sharing::{FlowStop, StopSignal};
use std::process::Abort;
use std::sync::Wait;
use std::sync::atomic::{AtomicU64, Ordering};
use std::thread::sleep;
use std::time::{Clock, Duration};

/// Receives three items. Returns whether they are 3, 3 and 4.
fn receives_all<R: Wait>(rt: &R, reader: &mut Reader<i64>) -> bool {
    let mut is_right = true;
    for item in [3, 3, 4] {
        is_right &= reader.receive(rt) == Ok(item);
    }
    is_right
}

impl Caller for Emitter<i64> {
    fn receives<R: Wait + Abort>(&mut self, rt: &R) -> bool {
        receives_all(rt, &mut new_reader(rt, self))
    }

    fn is_reset<R: Wait>(&mut self, rt: &R) -> bool {
        match self.replay_cache(rt) {
            Ok(cache) => cache.is_empty(),
            Err(_) => false,
        }
    }
}

/// A stop that counts how often a run checks it: once in each turn, and once before each sleep.
#[derive(Drop)]
struct CountedStop {
    stop: FlowStop,
    looks: AtomicU64,
}

impl CountedStop {
    fn new() -> CountedStop {
        CountedStop {
            stop: FlowStop::new(),
            looks: AtomicU64::new(0),
        }
    }

    /// Returns whether the run takes only a few turns in 30 milliseconds. No other caller calls the flow then, so no
    /// turn is busy.
    fn sleeps<R: Clock>(&self, rt: &R) -> bool {
        let before = self.looks.load(Ordering::SeqCst);
        sleep(rt, Duration::from_millis(30));
        self.looks.load(Ordering::SeqCst).wrapping_sub(before) < 10
    }

    /// Receives 1, 2 and 3. Returns whether the run sleeps before each of them and after the last one.
    fn sleeps_between<R: Wait + Clock>(&self, rt: &R, reader: &mut Reader<i64>) -> bool {
        let mut is_right = true;
        for item in 1..4 {
            is_right &= self.sleeps(rt) && reader.receive(rt) == Ok(item);
        }
        is_right && self.sleeps(rt)
    }

    /// Subscribes, receives the items, and drops the reader. Returns whether it received the right items, and the run
    /// slept before each of them and after the last one.
    fn sleeps_beside_reader<R: Wait + Clock + Abort>(
        &self,
        rt: &R,
        emitter: &mut Emitter<i64>,
    ) -> bool {
        self.sleeps_between(rt, &mut new_reader(rt, emitter))
    }
}

impl StopSignal for CountedStop {
    fn is_asked(&self) -> bool {
        self.looks.fetch_add(1, Ordering::SeqCst);
        self.stop.is_asked()
    }
}

impl Follows<Emitter<i64>> for CountedStop {
    fn follow<R: Wait + Clock + Abort>(&self, rt: &R, caller: &mut Emitter<i64>) -> bool {
        let before = self.sleeps(rt);
        let is_right = before && self.sleeps_beside_reader(rt, caller) && self.sleeps(rt);
        self.stop.ask(rt, caller);
        is_right
    }
}

/// `shareIn` with `replay = 1` and `WhileSubscribed(stopTimeoutMillis = 3, replayExpirationMillis = 3)`: six
/// milliseconds after a subscriber has gone the replay cache is empty. The next subscriber starts the chain anew.
#[test]
fn a_shared_flows_run_is_woken_by_subscribers_and_at_the_expiry(rt: HostRuntime) {
    let chain = chain_of(&rt, rt.alloc(), &[3, 3, 4]);
    let (flow, mut emitter) = new_flow(&rt, rt.alloc(), Config::new().replay(1).extra(2));
    let mut sharing = share_into(&rt, &*flow, &mut emitter, chain, SHORTLY);
    run_beside(&rt, &mut sharing, &FlowStop::new(), &mut emitter);
}

/// Without a buffer each of three emissions waits for the slow subscriber. The run sleeps before it subscribes, while
/// an emission waits, when the chain has ended, and after the subscriber has gone.
#[test]
fn a_run_sleeps_while_there_is_nothing_to_do(rt: HostRuntime) {
    let chain = chain_of(&rt, rt.alloc(), &[1, 2, 3]);
    let (flow, mut emitter) = new_flow(&rt, rt.alloc(), Config::new());
    let mut sharing = share_into(&rt, &*flow, &mut emitter, chain, AT_ONCE);
    run_beside(&rt, &mut sharing, &CountedStop::new(), &mut emitter);
}

/// Shares a chain into the flow until it has ended.
fn share_to_end<R: Wait + Clock + Abort>(
    rt: &R,
    flow: &SharedFlow<i64>,
    emitter: &mut Emitter<i64>,
    chain: Scripted<i64>,
)
    requires { emitter.old.flow ≡ flow.now }
{
    let mut sharing = share_into(rt, flow, emitter, chain, Started::Eagerly);
    compare(rt, "run_to_end", sharing.run_to_end(rt), Ok(()));
}

/// The run ends once the chain has ended. A program of use_flows has a subscriber for which it waits.
#[test]
fn a_run_to_the_end_emits_each_item(rt: HostRuntime) {
    let chain = chain_of(&rt, rt.alloc(), &[1, 2, 3]);
    let (flow, mut emitter) = new_flow(&rt, rt.alloc(), Config::new().replay(3));
    share_to_end(&rt, &*flow, &mut emitter, chain);
    reads_cache(&rt, &mut emitter, &[1, 2, 3]);
}
