//! Memory and values that refuse, for tests: an allocator that refuses one allocation, and a value that refuses one of
//! its copies.
#![tactic(auto)]

mod limited;
mod memory;

pub use limited::CopyLimited;
pub use memory::Refusing;
