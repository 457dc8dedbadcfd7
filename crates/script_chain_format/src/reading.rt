//! What each reader of a script needs.

pub mod fault;
pub mod members;
pub mod version;
