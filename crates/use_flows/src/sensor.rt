//! A caller of `Readings`, a type with contracts of its own.
use crate::readings::Readings;
use anyhow::Result;
use flow_law::FlowFault;
use std::alloc::Global;

/// Returns the last three readings of four.
fn latest(alloc: Global) -> Result<Vec<i64>, FlowFault> {
    let mut readings = Readings::new(alloc, 3)?;
    for degrees in [18i64, 19, 21, 20] {
        readings.add(degrees)?;
    }
    readings.latest()
}

pub fn show(rt: &HostRuntime) -> Result<()> {
    for degrees in &latest(rt.alloc())? {
        println!(rt; "{degrees}")?;
    }
    Ok(())
}
