//! Copies of values.
ghost use Rattle.std.specs.Prelude.{◌≡◌, ◌≢◌, [], drop, IfOk, IfErr, OnErr};

use circular_buffer::HeapCircularBuffer;
use flow_law::{FlowFault, FlowValue};
use std::alloc::Allocator;

/// Copies the values from the place `from` on, in order.
pub(crate) fn copies<T: FlowValue, A: Allocator, B: Allocator>(
    alloc: A,
    values: &HeapCircularBuffer<T, B>,
    from: usize,
) -> Result<Vec<T, A>, FlowFault>
    ensures copies { IfOk result (λ copies. copies.items ≡ drop from values.now.items) }
    ensures memory { IfErr result (λ fault. fault ≡ FlowFault.OutOfMemory) }
    ensures any { OnErr result (drop from values.now.items ≢ []) }
{
    let mut copies = Vec::new(alloc);
    for place in from..values.len() {
        let Some(value) = values.get(place) else {
            unreachable!()
        };
        let copy = value.try_copy()?;
        if copies.push(copy).is_err() {
            return Err(FlowFault::OutOfMemory);
        }
    }
    Ok(copies)
}
