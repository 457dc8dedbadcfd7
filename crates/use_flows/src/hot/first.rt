//! `first { }` of a hot flow: the first value that passes a test.
use crate::threads::send;
use flow_law::{Config, FlowFault};
use flow_shared::{Reader, SharedFlow};
use std::alloc::Global;
use std::sync::Wait;

/// Returns the next value above `least`. The thread sleeps while there is none.
fn first_above<R: Wait>(rt: &R, reader: &mut Reader<i64>, least: i64) -> Result<i64, FlowFault> {
    for _ in rt.forever() {
        let value = reader.receive(rt)?;
        if value > least {
            return Ok(value);
        }
    }
    unreachable!()
}

/// Returns the first number above 3 of those from 1 to 5.
pub fn first<R: Wait>(rt: &R, alloc: Global) -> Result<i64, FlowFault> {
    let (flow, seat) = SharedFlow::new(alloc, Config::new().extra(16))?;
    let mut emitter = flow.into_emitter(alloc, seat)?;
    let mut reader = emitter.subscribe(rt)?;
    send(rt, &mut emitter, 1..6)?;
    first_above(rt, &mut reader, 3)
}
