//! The containers from which the cores of `flow_core` are made: subscribers in a slab, the number of subscribers at
//! each position, the values whose emitters wait, and a subscriber's own first values.
//!
//! A contract sees each container as a plain value: a list in the order of numbers, or a row of counts. Only
//! `flow_core` needs this crate.
#![tactic(auto)]

mod members;
mod own_values;
mod position_counts;
mod queue;
mod subscribers;

pub use members::{Member, Members, Row};
pub use own_values::OwnValues;
pub use position_counts::PositionCounts;
pub use queue::{Queue, Queued};
pub use subscribers::{Received, Subscribers};
