//! Handles: tokens bound to their flows, so that no caller has to show that they belong together. A handle owns its flow
//! together with the other handles, by an `Arc`.
mod emitter;
mod reader;
mod waits;

pub use emitter::WordEmitter;
pub use reader::WordFlowReader;
