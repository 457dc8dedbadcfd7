//! A reader that takes all values it can receive in one call. It gets a first value of its own before the replay cache.
use anyhow::Result;
use flow_core::SharedCore;
use flow_law::{Config, Drained};
use std::alloc::Global;

pub fn show(rt: &HostRuntime) -> Result<()> {
    let mut values = Vec::new(rt.alloc());
    let ended = drain(rt.alloc(), &mut values)?;
    println!(rt; "{:?}, {:?}", values.as_slice(), ended)?;
    Ok(())
}

fn drain(alloc: Global, values: &mut Vec<i64>) -> Result<Drained> {
    let mut flow = SharedCore::<i64>::new(alloc, Config::new().replay(3))?;
    for value in 1..4 {
        flow.try_emit(value)?;
    }
    let reader = flow.subscribe_with(vec![in alloc; 0]?)?;
    let ended = flow.drain(reader, 100, values)?;
    Ok(ended)
}
