//! The sources of chains.

mod of_list;
mod of_range;
mod scripted;

pub use of_list::OfList;
pub use of_range::OfRange;
pub use scripted::{Entry, Scripted};
