//! A caller that waits for an emission by a future.
ghost use Rattle.std.specs.Prelude.{◌≡◌, IfOk};
ghost use Rattle.flow_shared.specs.EmitFutures.{EmitsOne, sent_token};

use flow_law::FlowValue;
use flow_shared::{EmitFuture, Seat, Sent, SharedFlow};
use futures::executor::block_on;
use std::alloc::AllocGlobal;
use std::io;
use std::random::RandomSource;
use std::sync::Wait;

/// Emits a value, and waits until the emission is done.
///
/// The seat has then made one more `emit`, however often the future was polled.
pub fn send<R: Wait + RandomSource + AllocGlobal, T: FlowValue>(
    rt: &R,
    flow: &SharedFlow<T>,
    seat: Seat<T>,
    value: T,
) -> io::Result<Sent<T>>
    requires { seat.table_id ≡ flow.now.table_id }
    ensures table { IfOk result (λ sent. (sent_token sent).table_id ≡ flow.entry.now.table_id) }
    ensures emits { IfOk result (EmitsOne seat) }
{
    block_on(rt, EmitFuture::new(flow, seat, value))
}
