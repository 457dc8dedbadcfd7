//! Flows on one thread: a shared flow, a reader that drains a flow, a state flow, and a state flow whose values have a
//! type of your own.
mod drained;
mod moved;
mod position;
mod shared;
mod state;

use anyhow::Result;

pub fn show(rt: &HostRuntime) -> Result<()> {
    shared::show(rt)?;
    drained::show(rt)?;
    state::show(rt)?;
    moved::show(rt)
}
