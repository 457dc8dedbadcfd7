//! Why a call of a flow is refused.
ghost use Rattle.std.specs.Prelude.{◌≡◌};

use std::fmt::Debug;
use thiserror::Error;

/// Why a flow refused a call. A refused call has changed nothing, and returns what it was given.
#[derive(Clone, Copy, Debug, PartialEq, Eq, Error)]
pub enum FlowFault {
    /// The call ran out of memory. It can be made again.
    #[error("out of memory")]
    OutOfMemory,
    /// `replay + extra` is over 65,536.
    #[error("a flow keeps at most 65536 values, `replay` and `extra` together")]
    TooLarge,
    /// A strategy that drops values needs a buffer.
    #[error("a strategy that drops values needs a buffer")]
    NeedsBuffer,
    /// The flow has issued as many numbers as its limit allows.
    #[error("the flow has issued as many numbers as its limit allows")]
    Exhausted,
    /// A state flow always has a value, so its replay cache cannot be reset.
    #[error("a state flow's replay cache cannot be reset")]
    Unsupported,
    /// Another caller was inside the flow at that moment. The call did nothing.
    #[error("another caller was inside the flow")]
    Busy,
}

/// The value of a refused call, with the reason. `?` makes it a `FlowFault`, and drops the value.
#[derive(Debug, PartialEq, Eq, Drop, Error)]
#[error_bound(T: Debug)]
#[error("{fault}")]
pub struct Refused<T> {
    pub value: T,
    pub fault: FlowFault,
}

impl<T: Drop> From<Refused<T>> for FlowFault {
    ghost from_gives = { λ refused fault. fault ≡ refused.fault };

    fn from(refused: Refused<T>) -> FlowFault {
        refused.fault
    }
}
