//! Why no flow of words was made.
ghost use Rattle.std.specs.Prelude.{◌≡◌};

use flow_law::{FlowFault, Overflow};
use std::fmt::Debug;
use thiserror::Error;

/// Why no flow of words was made.
#[derive(Clone, Copy, Debug, PartialEq, Eq, Error)]
pub enum WordFlowFault {
    /// No shared flow can have the configuration, or the call ran out of memory.
    #[error("{0}")]
    Flow(FlowFault),
    /// The call makes no flow with this strategy: `Suspend`, or for `new` also `DropLatest`.
    #[error("a flow of words drops the oldest value, or the latest if it is made for so many subscribers")]
    Strategy(Overflow),
}
