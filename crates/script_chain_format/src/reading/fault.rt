//! Why a script was not played, and which of two faults refuses it.
ghost use Rattle.std.specs.Prelude.{◌≡◌};
ghost use Rattle.script_chain_format.specs.Results as results;

use std::alloc::{AllocError, AllocFailed};
use thiserror::Error;

/// Why a script was not played. Steps are numbered from 1; step 0 is the script's head.
#[derive(Clone, Copy, Debug, PartialEq, Eq, Error)]
pub enum ScriptFault {
    #[error("out of memory")]
    OutOfMemory,
    #[error("the script could not be read")]
    ReadFailed,
    /// The bytes are not JSON text.
    #[error("the script is no JSON text")]
    NotJson,
    /// `version` is missing, or is neither of the whole numbers 1 and 2.
    #[error("the script's version is neither 1 nor 2")]
    BadVersion,
    /// A key is missing, unknown, or has a value of the wrong form; or the flow does not allow the step.
    #[error("a key or a value of step {0} has the wrong form")]
    BadShape(u64),
    /// No earlier step introduced the name for this use.
    #[error("step {0} uses a name that no earlier step introduced")]
    UnknownName(u64),
    /// An earlier step already introduced the name.
    #[error("step {0} introduces a name that is taken")]
    DuplicateName(u64),
    /// A limit is exceeded.
    #[error("step {0} passes a limit")]
    TooLarge(u64),
    #[error("the lines could not be written")]
    WriteFailed,
}

impl ScriptFault {
    /// Returns whether the fault takes precedence over every fault that is found later in the same part of a script.
    fn comes_first(self) -> bool
        ensures { result ≡ results.comes_first self }
    {
        match self {
            ScriptFault::TooLarge(_) => false,
            _ => true,
        }
    }
}

/// Returns whether a part of a script has a fault that takes precedence over every fault found later in that part. Only
/// `TooLarge` does not.
pub fn is_final<T>(read: &Result<T, ScriptFault>) -> bool
    ensures { result ≡ results.is_decisive read.now }
{
    match read {
        Ok(_) => false,
        Err(fault) => fault.comes_first(),
    }
}

/// Returns which of two faults, found one after the other in a part of a script, refuses it: a bad form, or out of
/// memory, takes precedence over a limit.
fn first_of(fault: ScriptFault, next: ScriptFault) -> ScriptFault
    ensures { result ≡ results.refusing_fault fault next }
{
    let ScriptFault::TooLarge(_) = fault else {
        return fault;
    };
    match next {
        ScriptFault::BadShape(at) => ScriptFault::BadShape(at),
        ScriptFault::OutOfMemory => ScriptFault::OutOfMemory,
        _ => fault,
    }
}

/// Returns the fault that refuses a part of a script, by a fault and what is read next in that part. A bad form, or out
/// of memory, takes precedence over a limit. If nothing is wrong with what is read next, the first fault stays.
pub fn first_fault<T>(fault: ScriptFault, next: &Result<T, ScriptFault>) -> ScriptFault
    ensures { result ≡ results.first_fault fault next.now }
{
    match next {
        Ok(_) => fault,
        Err(next) => first_of(fault, *next),
    }
}

impl From<AllocError> for ScriptFault {
    ghost use Rattle.std.specs.Prelude.{◌≡◌};
    ghost use Rattle.script_chain_format.specs.declared.reading.fault.ScriptFault.TheVariants.{OutOfMemory};

    ghost from_gives = { λ _ fault. fault ≡ OutOfMemory };

    fn from(_refused: AllocError) -> ScriptFault {
        ScriptFault::OutOfMemory
    }
}

impl<T: Drop> From<AllocFailed<T>> for ScriptFault {
    ghost use Rattle.std.specs.Prelude.{◌≡◌};
    ghost use Rattle.script_chain_format.specs.declared.reading.fault.ScriptFault.TheVariants.{OutOfMemory};

    ghost from_gives = { λ _ fault. fault ≡ OutOfMemory };

    fn from(_refused: AllocFailed<T>) -> ScriptFault {
        ScriptFault::OutOfMemory
    }
}
