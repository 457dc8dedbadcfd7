//! The errors of handles. Each kind of call has an error type with only the faults that the call can return.
ghost use Rattle.std.specs.Prelude.{◌≡◌};
ghost use Rattle.flow_law.specs.history.HandleFaults.{memory_fault, limit_fault, busy_fault, unsupported_fault, number_fault, emit_now_fault, try_next_fault};

use crate::fault::FlowFault;
use std::fmt::{Debug, Display};
use thiserror::Error;

/// The call ran out of memory. It can be made again.
#[derive(Clone, Copy, Debug, PartialEq, Eq, Error)]
#[error("out of memory")]
pub struct OutOfMemory;

/// The flow has issued as many numbers as its limit allows.
#[derive(Clone, Copy, Debug, PartialEq, Eq, Error)]
#[error("the flow has issued as many numbers as its limit allows")]
pub struct Exhausted;

/// Another caller was inside the flow at that moment. The call did nothing.
#[derive(Clone, Copy, Debug, PartialEq, Eq, Error)]
#[error("another caller was inside the flow")]
pub struct Busy;

/// A state flow always has a value, so its replay cache cannot be reset.
#[derive(Clone, Copy, Debug, PartialEq, Eq, Error)]
#[error("a state flow's replay cache cannot be reset")]
pub struct Unsupported;

/// Why a call that takes a number and memory fails: an `emit` or a `subscribe`.
#[derive(Clone, Copy, Debug, PartialEq, Eq, Error)]
pub enum NumberError {
    #[error("out of memory")]
    OutOfMemory,
    /// The flow has issued as many numbers as its limit allows.
    #[error("the flow has issued as many numbers as its limit allows")]
    Exhausted,
}

/// Why an `emit_now` fails.
#[derive(Clone, Copy, Debug, PartialEq, Eq, Error)]
pub enum EmitNowError {
    #[error("out of memory")]
    OutOfMemory,
    /// The flow has issued as many numbers as its limit allows.
    #[error("the flow has issued as many numbers as its limit allows")]
    Exhausted,
    /// Another caller was inside the flow at that moment. The call did nothing.
    #[error("another caller was inside the flow")]
    Busy,
}

/// Why a `try_next` fails.
#[derive(Clone, Copy, Debug, PartialEq, Eq, Error)]
pub enum TryNextError {
    #[error("out of memory")]
    OutOfMemory,
    /// Another caller was inside the flow at that moment. The call did nothing.
    #[error("another caller was inside the flow")]
    Busy,
}

/// The value of a handle's refused call, with the reason.
#[derive(Debug, PartialEq, Eq, Drop, Error)]
#[error_bound(T: Debug, E: Debug + Display)]
#[error("{error}")]
pub struct Rejected<T, E> {
    pub value: T,
    pub error: E,
}

impl From<OutOfMemory> for FlowFault {
    ghost from_gives = { λ error fault. fault ≡ memory_fault error };

    fn from(_error: OutOfMemory) -> FlowFault {
        FlowFault::OutOfMemory
    }
}

impl From<Exhausted> for FlowFault {
    ghost from_gives = { λ error fault. fault ≡ limit_fault error };

    fn from(_error: Exhausted) -> FlowFault {
        FlowFault::Exhausted
    }
}

impl From<Busy> for FlowFault {
    ghost from_gives = { λ error fault. fault ≡ busy_fault error };

    fn from(_error: Busy) -> FlowFault {
        FlowFault::Busy
    }
}

impl From<Unsupported> for FlowFault {
    ghost from_gives = { λ error fault. fault ≡ unsupported_fault error };

    fn from(_error: Unsupported) -> FlowFault {
        FlowFault::Unsupported
    }
}

impl From<NumberError> for FlowFault {
    ghost from_gives = { λ error fault. fault ≡ number_fault error };

    fn from(error: NumberError) -> FlowFault {
        match error {
            NumberError::OutOfMemory => FlowFault::OutOfMemory,
            NumberError::Exhausted => FlowFault::Exhausted,
        }
    }
}

impl From<EmitNowError> for FlowFault {
    ghost from_gives = { λ error fault. fault ≡ emit_now_fault error };

    fn from(error: EmitNowError) -> FlowFault {
        match error {
            EmitNowError::OutOfMemory => FlowFault::OutOfMemory,
            EmitNowError::Exhausted => FlowFault::Exhausted,
            EmitNowError::Busy => FlowFault::Busy,
        }
    }
}

impl From<TryNextError> for FlowFault {
    ghost from_gives = { λ error fault. fault ≡ try_next_fault error };

    fn from(error: TryNextError) -> FlowFault {
        match error {
            TryNextError::OutOfMemory => FlowFault::OutOfMemory,
            TryNextError::Busy => FlowFault::Busy,
        }
    }
}

impl<T: Drop> From<Rejected<T, Exhausted>> for FlowFault {
    ghost from_gives = { λ rejected fault. fault ≡ limit_fault rejected.error };

    fn from(_rejected: Rejected<T, Exhausted>) -> FlowFault {
        FlowFault::Exhausted
    }
}

impl<T: Drop> From<Rejected<T, Busy>> for FlowFault {
    ghost from_gives = { λ rejected fault. fault ≡ busy_fault rejected.error };

    fn from(_rejected: Rejected<T, Busy>) -> FlowFault {
        FlowFault::Busy
    }
}

impl<T: Drop> From<Rejected<T, NumberError>> for FlowFault {
    ghost from_gives = { λ rejected fault. fault ≡ number_fault rejected.error };

    fn from(rejected: Rejected<T, NumberError>) -> FlowFault {
        FlowFault::from(rejected.error)
    }
}

impl<T: Drop> From<Rejected<T, EmitNowError>> for FlowFault {
    ghost from_gives = { λ rejected fault. fault ≡ emit_now_fault rejected.error };

    fn from(rejected: Rejected<T, EmitNowError>) -> FlowFault {
        FlowFault::from(rejected.error)
    }
}
