//! Handles: tokens bound to their flows, so that no caller has to show that they belong together.
//!
//! # Names
//! A plain name is the flow's own call: it takes `rt`, and waits while another caller is inside the flow. A name that
//! begins with `try_` is the same call without `rt`: it returns at once, and fails with `Busy`, or gives the handle
//! back, if another caller is inside. The exception is `try_emit`, named as in kotlinx.coroutines: it takes `rt`, and
//! does not wait for room. `emit_now` waits for nothing.
//!
//! `receive`, `changed` and `send` wait for a value and for room: the thread sleeps until another call wakes it.
//!
//! # Owners
//! A handle owns its flow together with the flow's other handles, by an `Arc`: a thread or a task that has one may outlive
//! the function that made the flow. Dropping the last one drops the flow.
ghost use Rattle.std.specs.Prelude.{◌≡◌, ◌⊎◌};
ghost use Rattle.flow_law.specs.history.HandleFaults.{number_fault, emit_now_fault, try_next_fault};
ghost use Rattle.flow_shared.specs.SharedReplies.{IsEmitFault};

mod bound_emission;
mod caller;
mod emitter;
mod iterating;
mod reader;
mod setter;
mod values;
mod view;
mod view_reader;
mod waits;

pub use bound_emission::{BoundEmission, EmitAnswer, PollAnswer};
pub use caller::FlowCaller;
pub use emitter::Emitter;
use flow_law::{EmitNowError, FlowFault, NumberError, TryNextError};
pub use iterating::{Values, ValuesUntil};
pub use reader::{FlowReader, Reader, StateReader};
pub use setter::Setter;
pub use values::{FlowValues, ReceiveFuture};
pub use view::{FlowView, SharedView, StateView};
pub use view_reader::ViewReader;

pub(crate) fn number_error(fault: FlowFault) -> NumberError
    requires { IsEmitFault fault }
    ensures { number_fault result ≡ fault }
{
    match fault {
        FlowFault::Exhausted => NumberError::Exhausted,
        _ => NumberError::OutOfMemory,
    }
}

pub(crate) fn emit_now_error(fault: FlowFault) -> EmitNowError
    requires { IsEmitFault fault ⊎ (fault ≡ FlowFault.Busy) }
    ensures { emit_now_fault result ≡ fault }
{
    match fault {
        FlowFault::Exhausted => EmitNowError::Exhausted,
        FlowFault::Busy => EmitNowError::Busy,
        _ => EmitNowError::OutOfMemory,
    }
}

pub(crate) fn try_next_error(fault: FlowFault) -> TryNextError
    requires { (fault ≡ FlowFault.OutOfMemory) ⊎ (fault ≡ FlowFault.Busy) }
    ensures { try_next_fault result ≡ fault }
{
    match fault {
        FlowFault::Busy => TryNextError::Busy,
        _ => TryNextError::OutOfMemory,
    }
}
