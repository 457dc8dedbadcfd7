//! A flow between two threads: one sends the numbers from 1 to 5, the other receives them and adds them up.
use flow_law::{Config, FlowFault};
use flow_shared::{Emitter, Reader, SharedFlow};
use std::alloc::Global;
use std::ops::Range;
use std::sync::Wait;
use std::thread::{Threads, join};

/// Returns the sum that the reading thread computes. If no thread can be made, `join` calls its first closure last, and
/// the reader finds all values in the flow.
pub fn add_up<R: Wait + Threads + Sync>(rt: &R, alloc: Global) -> Result<i64, FlowFault> {
    let (flow, seat) = SharedFlow::new(alloc, Config::new().extra(16))?;
    let mut emitter = flow.into_emitter(alloc, seat)?;
    let mut reader = emitter.subscribe(rt)?;
    let (sum, sent) = join(
        rt,
        || sum_of(rt, &mut reader, 5),
        || send(rt, &mut emitter, 1..6),
    );
    sent.and(sum)
}

/// Sends the values in order, and waits while there is no room.
pub fn send<R: Wait>(
    rt: &R,
    emitter: &mut Emitter<i64>,
    values: Range<i64>,
) -> Result<(), FlowFault> {
    for value in values {
        emitter.send(rt, value)?;
    }
    Ok(())
}

/// Returns the sum of the next `count` values. The thread sleeps while it waits for one.
pub fn sum_of<R: Wait>(rt: &R, reader: &mut Reader<i64>, count: u32) -> Result<i64, FlowFault> {
    let mut sum = 0i64;
    for _ in 0..count {
        sum = sum.wrapping_add(reader.receive(rt)?);
    }
    Ok(sum)
}
