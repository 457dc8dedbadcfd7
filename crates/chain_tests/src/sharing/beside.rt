//! Sharings that run on one thread while another thread calls their flow.
use crate::compare::compare;
use flow_cold::Scripted;
use flow_core::ReaderCalls;
use flow_law::{NEVER, Started};
use flow_shared::FlowCaller;
use flow_sharing::{FlowStop, Sharing, StopSignal, WatchedHub};
use std::process::Abort;
use std::sync::Wait;
use std::thread::{Threads, join, sleep};
use std::time::{Clock, Duration};

/// The chain stops three milliseconds after the last subscriber has gone, and the flow is reset after three more.
pub const SHORTLY: Started = Started::WhileSubscribed { stop: 3, expire: 3 };

/// The chain stops as soon as the last subscriber has gone, and the flow is never reset.
pub const AT_ONCE: Started = Started::WhileSubscribed {
    stop: 0,
    expire: NEVER,
};

/// A caller of a flow into which a run shares a chain of 3, 3 and 4.
pub trait Caller {
    /// Subscribes, receives up to the last item, and unsubscribes. Returns whether it received the right values.
    fn receives<R: Wait + Abort>(&mut self, rt: &R) -> bool;

    /// Returns whether the flow no longer has an item of the chain.
    fn is_reset<R: Wait>(&mut self, rt: &R) -> bool;
}

/// A stop of a run, and the calls that a caller of the flow makes before it asks the run to stop.
pub trait Follows<C>: StopSignal {
    /// Makes these calls on another thread while the run runs, and then asks it to stop. Returns whether the caller
    /// received the right values.
    fn follow<R: Wait + Clock + Abort>(&self, rt: &R, caller: &mut C) -> bool;
}

fn nap<R: Clock>(rt: &R) {
    sleep(rt, Duration::from_millis(2));
}

/// Waits until the flow is reset, without subscribing. Returns false after a bounded number of checks.
fn waits_for_reset<R: Wait + Clock, C: Caller>(rt: &R, caller: &mut C) -> bool {
    for _ in 0..5000 {
        if caller.is_reset(rt) {
            return true;
        }
        nap(rt);
    }
    false
}

/// Subscribes twice, each time while the run sleeps, so that a subscriber wakes the run after a stop, too. Returns
/// whether each subscriber received the items, and the flow was reset once it had gone.
pub fn receives_twice<R: Wait + Clock + Abort, C: Caller>(rt: &R, caller: &mut C) -> bool {
    let mut is_right = true;
    for _ in 0..2 {
        nap(rt);
        is_right &= caller.receives(rt) && waits_for_reset(rt, caller);
    }
    is_right
}

impl<S: ReaderCalls + Drop> Follows<FlowCaller<S>> for FlowStop
where
    FlowCaller<S>: Caller,
{
    fn follow<R: Wait + Clock + Abort>(&self, rt: &R, caller: &mut FlowCaller<S>) -> bool {
        let follows = receives_twice(rt, caller);
        self.ask(rt, caller);
        follows
    }
}

/// Runs the sharing while the caller follows it on another thread.
pub fn run_beside<R, H, C, S>(
    rt: &R,
    sharing: &mut Sharing<Scripted<i64>, H>,
    stop: &S,
    caller: &mut C,
)
where
    R: Threads + Wait + Clock + Abort + Sync,
    H: WatchedHub<Item = i64> + Send,
    C: Send,
    S: Follows<C> + Sync,
{
    let (ran, follows) = join(rt, || sharing.run(rt, stop), || stop.follow(rt, caller));
    compare(rt, "the run", ran, Ok(()));
    compare(rt, "the caller received the right values", follows, true);
}
