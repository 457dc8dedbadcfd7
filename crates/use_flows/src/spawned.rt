//! A thread that outlives its maker: it sends into a flow, and the caller gets the thread and a reader of the flow.
use crate::threads::{send, sum_of};
use anyhow::Result;
use flow_law::{Config, FlowFault};
use flow_shared::{Reader, SharedFlow};
use std::alloc::Global;
use std::sync::Wait;
use std::thread;
use std::thread::{JoinHandle, Threads};

/// A thread that sends into a flow, and a reader of this flow.
type Sending = (JoinHandle<Result<(), FlowFault>>, Reader<i64>);

/// Makes a flow, and starts a thread that sends the numbers from 1 to 9 into it.
fn start<R: Wait + Threads + Send + Clone + Drop + 'static>(
    rt: &R,
    alloc: Global,
) -> Result<Sending> {
    let (flow, seat) = SharedFlow::new(alloc, Config::new().extra(16))?;
    let mut emitter = flow.into_emitter(alloc, seat)?;
    let reader = emitter.subscribe(rt)?;
    let there = rt.clone()?;
    let sending = thread::spawn(rt, move || send(&there, &mut emitter, 1..10))?;
    Ok((sending, reader))
}

/// Returns the sum of the numbers that the thread sends.
pub fn add_up<R: Wait + Threads + Send + Clone + Drop + 'static>(
    rt: &R,
    alloc: Global,
) -> Result<i64> {
    let (sending, mut reader) = start(rt, alloc)?;
    let sum = sum_of(rt, &mut reader, 9)?;
    sending.join(rt)?;
    Ok(sum)
}
