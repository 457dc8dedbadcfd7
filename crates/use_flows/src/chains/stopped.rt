//! A chain that runs while the flow has a subscriber (`WhileSubscribed`): one thread runs the sharing, two others read
//! the first items and leave, and then the run is asked to stop.
use crate::threads::sum_of;
use anyhow::Result;
use flow_cold::OfRange;
use flow_law::Config;
use flow_shared::{Emitter, Reader, SharedFlow};
use flow_sharing::{FlowStop, NEVER, SharedFlowHub, Sharing, Started};
use std::alloc::Global;
use std::sync::{Arc, Wait};
use std::thread;
use std::thread::{Threads, join};
use std::time::Clock;

/// The chain stops as soon as the last subscriber has left, and the flow keeps its replay cache.
const STARTED: Started = Started::WhileSubscribed {
    stop: 0,
    expire: NEVER,
};

/// Shares the numbers from 1 to `last`, and returns the sum of the first ones that each reader got.
pub fn add_up<R: Wait + Clock + Threads + Sync>(
    rt: &R,
    alloc: Global,
    last: i64,
) -> Result<(i64, i64)> {
    let (flow, mut seat) = SharedFlow::new(alloc, Config::new().extra(16))?;
    let flow = Arc::new(alloc, flow)?;
    let hub = SharedFlowHub::new(&*flow, &mut seat);
    let sharing = Sharing::new(OfRange::new(1, last), STARTED, hub);
    let mut caller = Emitter::new(Arc::try_clone(&flow)?, seat);
    let readers = (caller.subscribe(rt)?, caller.subscribe(rt)?);
    run_beside(rt, sharing, &mut caller, readers)
}

/// Runs the sharing on a thread beside the readers, and asks it to stop also after an error of a reader.
fn run_beside<R: Wait + Clock + Threads + Sync>(
    rt: &R,
    mut sharing: Sharing<OfRange, SharedFlowHub<'_, i64>>,
    caller: &mut Emitter<i64>,
    readers: (Reader<i64>, Reader<i64>),
) -> Result<(i64, i64)> {
    let stop = &FlowStop::new();
    thread::scope(thread::scope_env(), rt, |scope| {
        let running = scope.spawn(move || sharing.run(rt, stop))?;
        let sums = read(rt, readers);
        stop.ask(rt, caller);
        running.join(rt)?;
        sums
    })
}

/// Reads the first three items, and beside it the first four. Each reader leaves the flow when it has them.
fn read<R: Wait + Threads + Sync>(
    rt: &R,
    (mut a, mut b): (Reader<i64>, Reader<i64>),
) -> Result<(i64, i64)> {
    let (a, b) = join(
        rt,
        move || sum_of(rt, &mut a, 3),
        move || sum_of(rt, &mut b, 4),
    );
    Ok((a?, b?))
}
