//! Chains and sharings that are refused memory, each allocation in turn.

mod chains;
mod sharings;

/// A number greater than that of the runs of a test.
pub const MANY: u64 = 200;
