//! Cold chains: some are collected, one is shared into a flow for one thread, and two into flows for several.
pub mod between_threads;
mod collected;
mod composed;
mod products;
mod retried;
mod shared;
pub mod stopped;

use anyhow::Result;

pub fn show(rt: &HostRuntime) -> Result<()> {
    collected::show(rt)?;
    composed::show(rt)?;
    products::show(rt)?;
    shared::show(rt)?;
    retried::show(rt)
}
