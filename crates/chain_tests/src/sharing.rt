//! Tests of sharings: runs in threads of their own, hubs, and refused copies. The turns of `shareIn` and of `stateIn` are
//! rows of `tests/cases/` and `examples/`, which run over every kind of flow.

mod beside;
mod hubs;
mod momentary;
mod refused_reset;
mod restarted;
mod shared;
mod shared_runs;
mod state_runs;
mod word_flow;
mod word_runs;

pub use shared::{PUTS, STARTS, count_to};
