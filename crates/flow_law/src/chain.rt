//! How a cold chain ends.
ghost use Rattle.std.specs.Prelude.{◌≡◌};

use thiserror::Error;

/// Why a chain failed. A fault ends the chain; the items before it were emitted.
#[derive(Clone, Copy, Debug, PartialEq, Eq, Error)]
pub enum ChainFault {
    /// The chain ran out of memory. It can be started again.
    #[error("out of memory")]
    OutOfMemory,
    /// A result is outside the range of its type.
    #[error("a result is outside the range of its type")]
    Overflow,
    /// `take` needs a positive count.
    #[error("`take` wants a positive count")]
    NotPositive,
    /// The source failed with this number.
    #[error("the source failed with {0}")]
    Source(u32),
    /// A chain that is built at run time would be more than 64 deep.
    #[error("a chain may be 64 deep")]
    TooDeep,
}

/// How a chain ended.
#[derive(Clone, Copy, Debug, PartialEq, Eq)]
pub enum End {
    /// The chain has given all its items.
    Completed,
    /// The source, a closure or the chain itself failed.
    Failed(ChainFault),
}
