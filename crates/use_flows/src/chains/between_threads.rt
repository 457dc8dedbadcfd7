//! A chain that is shared into a flow: one thread runs the sharing, and another one reads the flow.
use crate::threads::sum_of;
use anyhow::Result;
use flow_cold::OfRange;
use flow_law::Config;
use flow_shared::{Emitter, SharedFlow};
use flow_sharing::{SharedFlowHub, Sharing, Started};
use std::alloc::Global;
use std::sync::{Arc, Wait};
use std::thread::{Threads, join};
use std::time::Clock;

/// Returns the sum that the reading thread computes. The flow has room for all items: if no thread can be made, `join`
/// runs the reader after the sharing.
pub fn add_up<R: Wait + Clock + Threads + Sync>(rt: &R, alloc: Global) -> Result<i64> {
    let (flow, mut seat) = SharedFlow::new(alloc, Config::new().extra(20))?;
    let flow = Arc::new(alloc, flow)?;
    let hub = SharedFlowHub::new(&*flow, &mut seat);
    let mut sharing = Sharing::new(OfRange::new(1, 20), Started::Lazily, hub);
    let mut reader = Emitter::new(Arc::try_clone(&flow)?, seat).subscribe(rt)?;
    let (sum, ran) = join(
        rt,
        || sum_of(rt, &mut reader, 20),
        || sharing.run_to_end(rt),
    );
    ran?;
    Ok(sum?)
}
