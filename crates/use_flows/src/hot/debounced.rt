//! `debounce` of a hot flow: a value is passed on once no newer one has come for some time.
use crate::threads::send;
use flow_law::{Config, FlowFault};
use flow_shared::{Reader, SharedFlow};
use std::alloc::Global;
use std::sync::Wait;
use std::time::{Clock, Duration};

/// Returns the next value that no other one follows for `quiet`. The thread sleeps until then.
fn settled<R: Wait + Clock>(
    rt: &R,
    reader: &mut Reader<i64>,
    quiet: Duration,
) -> Result<i64, FlowFault> {
    let mut newest = reader.receive(rt)?;
    for _ in rt.forever() {
        match reader.receive_timeout(rt, quiet)? {
            Some(newer) => newest = newer,
            None => return Ok(newest),
        }
    }
    unreachable!()
}

/// Returns the last number of 1 to 3, since they come one right after the other.
pub fn debounced<R: Wait + Clock>(rt: &R, alloc: Global) -> Result<i64, FlowFault> {
    let (flow, seat) = SharedFlow::new(alloc, Config::new().extra(16))?;
    let mut emitter = flow.into_emitter(alloc, seat)?;
    let mut reader = emitter.subscribe(rt)?;
    send(rt, &mut emitter, 1..4)?;
    settled(rt, &mut reader, Duration::from_millis(20))
}
