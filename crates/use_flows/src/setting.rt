//! Contracts of your own: a value that was set is the one that is read, and the best offer is at least each offer.
ghost use Rattle.std.specs.Prelude.{◌≡◌, ◌≤ℤ◌, IfOk};

use flow_core::StateCore;
use flow_law::FlowFault;

/// Sets the value, and reads it back.
pub fn set_and_read(flow: &mut StateCore<i64>, value: i64) -> Result<i64, FlowFault>
    ensures reads { IfOk result (λ read. read ≡ value) }
    ensures holds { flow.new.value ≡ value }
{
    flow.set(value);
    flow.value()
}

/// Raises the value to an offer, if that is higher, and returns the best offer so far.
pub fn raise(best: &mut StateCore<i64>, offer: i64) -> Result<i64, FlowFault>
    ensures above { IfOk result (λ value. offer ≤ℤ value) }
    ensures holds { IfOk result (λ value. best.new.value ≡ value) }
{
    let value = best.value()?.max(offer);
    best.set(value);
    Ok(value)
}
