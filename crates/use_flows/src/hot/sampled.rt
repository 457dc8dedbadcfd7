//! `sample` of a hot flow: at the end of each period, the newest value of that period.
use crate::threads::send;
use flow_law::{Config, FlowFault, Overflow};
use flow_shared::{Reader, SharedFlow};
use std::alloc::Global;
use std::sync::Wait;
use std::thread::sleep;
use std::time::{Clock, Duration};

/// Returns the value that came last in the next period, or `None` if none came. The flow keeps one value, the newest.
fn newest_of<R: Wait + Clock>(
    rt: &R,
    reader: &mut Reader<i64>,
    period: Duration,
) -> Result<Option<i64>, FlowFault> {
    sleep(rt, period);
    Ok(reader.next(rt)?)
}

/// Returns the last number of 1 to 3, which come in the first period, and none for the second period.
pub fn sampled<R: Wait + Clock>(rt: &R, alloc: Global) -> Result<[Option<i64>; 2], FlowFault> {
    let config = Config::new().extra(1).overflow(Overflow::DropOldest);
    let (flow, seat) = SharedFlow::new(alloc, config)?;
    let mut emitter = flow.into_emitter(alloc, seat)?;
    let mut reader = emitter.subscribe(rt)?;
    send(rt, &mut emitter, 1..4)?;
    let period = Duration::from_millis(20);
    let first = newest_of(rt, &mut reader, period)?;
    Ok([first, newest_of(rt, &mut reader, period)?])
}
