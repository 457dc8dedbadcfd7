//! What is said of a refused call. Out of memory is no answer: it ends the script.

use crate::said::Said;
use flow_law::{ChainFault, Exhausted, FlowFault, NumberError, ShareFault};
use flow_script::Answer;
use std::alloc::AllocError;

/// What is said of a step, unless memory or a thread is refused, which ends the script.
pub type Outcome = Result<Said, AllocError>;

/// Returns the answer of a step.
pub fn answered(answer: Answer) -> Outcome {
    Ok(Said::Answer(answer))
}

/// Returns the outcome of a call that would need a number beyond the flow's limit.
pub fn exhausted(_error: Exhausted) -> Outcome {
    answered(Answer::Refused(FlowFault::Exhausted))
}

/// Returns the outcome of a refused call that takes a number and memory.
pub fn number_refused(error: NumberError) -> Outcome {
    match error {
        NumberError::OutOfMemory => Err(AllocError),
        NumberError::Exhausted => exhausted(Exhausted),
    }
}

/// Returns the answer of a flow that was refused when it was made, or of a call.
pub fn flow_refused(fault: FlowFault) -> Result<Answer, AllocError> {
    match fault {
        FlowFault::OutOfMemory => Err(AllocError),
        _ => Ok(Answer::Refused(fault)),
    }
}

/// Returns the answer of a turn that was refused, or of a chain that was not shared.
pub fn sharing_refused(fault: ShareFault) -> Result<Answer, AllocError> {
    match fault {
        ShareFault::Chain(ChainFault::OutOfMemory) | ShareFault::Flow(FlowFault::OutOfMemory) => {
            Err(AllocError)
        }
        _ => Ok(Answer::TurnRefused(fault)),
    }
}
