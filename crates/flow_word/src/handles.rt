//! Handles: tokens bound to their word states, so that no caller has to show that they belong together. A handle owns its
//! word state together with the other handles, by an `Arc`.
mod many;
mod reader;
mod setter;
mod updates;
mod waits;

pub use reader::WordReader;
pub use setter::WordSetter;
