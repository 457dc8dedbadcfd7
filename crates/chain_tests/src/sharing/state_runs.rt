//! Sharings over state flows that are run by one call, on a thread of their own.
use crate::flows::{new_state_flow, new_state_reader};
use crate::sharing::beside::{AT_ONCE, Caller, Follows, SHORTLY, run_beside};
use crate::sharing::shared::{chain_of, share_into_state};
use flow_cold::Scripted;
use flow_shared::{Setter, StateReader};
use flow_sharing::{FlowStop, Sharing, StateFlowHub, StopSignal};
use std::process::Abort;
use std::sync::Wait;
use std::thread::{Threads, yield_now};
use std::time::Clock;

fn waits_for_last<R: Wait>(rt: &R, reader: &mut StateReader<i64>) -> bool {
    reader.wait_for(rt, |item| *item == 4) == Ok(4)
}

impl Caller for Setter<i64> {
    fn receives<R: Wait + Abort>(&mut self, rt: &R) -> bool {
        let mut reader = new_state_reader(rt, self);
        let is_right = waits_for_last(rt, &mut reader);
        drop(reader.unsubscribe(rt));
        is_right
    }

    fn is_reset<R: Wait>(&mut self, rt: &R) -> bool {
        self.value(rt) == Ok(0)
    }
}

/// A stop that is asked for after this many yields.
#[derive(Drop)]
struct LateStop {
    stop: FlowStop,
    yields: u32,
}

impl StopSignal for LateStop {
    fn is_asked(&self) -> bool {
        self.stop.is_asked()
    }
}

impl Follows<Setter<i64>> for LateStop {
    fn follow<R: Wait + Clock + Abort>(&self, rt: &R, caller: &mut Setter<i64>) -> bool {
        for _ in 0..self.yields {
            yield_now();
        }
        self.stop.ask(rt, caller);
        true
    }
}

/// `stateIn` with `WhileSubscribed(stopTimeoutMillis = 3, replayExpirationMillis = 3)`: six milliseconds after a
/// subscriber has gone the state is the initial one, 0. The next subscriber starts the chain anew.
#[test]
fn a_state_flows_run_is_woken_by_subscribers_and_at_the_expiry(rt: HostRuntime) {
    let chain = chain_of(&rt, rt.alloc(), &[3, 3, 4]);
    let (flow, mut setter) = new_state_flow(&rt, rt.alloc(), 0, u64::MAX);
    let mut sharing = share_into_state(&rt, &*flow, &mut setter, chain, SHORTLY);
    run_beside(&rt, &mut sharing, &FlowStop::new(), &mut setter);
}

/// Runs a sharing again and again, and asks for a stop a little later each time.
fn run_often<R: Threads + Wait + Clock + Abort + Sync>(
    rt: &R,
    sharing: &mut Sharing<Scripted<i64>, StateFlowHub<'_, i64>>,
    setter: &mut Setter<i64>,
) {
    for yields in 0..200 {
        let stop = LateStop {
            stop: FlowStop::new(),
            yields,
        };
        run_beside(rt, sharing, &stop, setter);
    }
}

/// A stop ends a run, whenever it is asked for during the first turns.
#[test]
fn a_stop_that_comes_before_the_sleep_is_not_missed(rt: HostRuntime) {
    let chain = chain_of(&rt, rt.alloc(), &[1]);
    let (flow, mut setter) = new_state_flow(&rt, rt.alloc(), 0, u64::MAX);
    let mut sharing = share_into_state(&rt, &*flow, &mut setter, chain, AT_ONCE);
    run_often(&rt, &mut sharing, &mut setter);
}
