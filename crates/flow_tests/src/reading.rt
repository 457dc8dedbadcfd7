//! A caller that sets a value and reads the current one.
ghost use Rattle.std.specs.Prelude.{◌≡◌, IfOk};
ghost use Rattle.flow_tests.specs.ReadingBack.{ReadsBack};

use flow_law::{FlowFault, FlowValue};
use flow_shared::{StateFlow, StateSeat};
use std::sync::Wait;

/// Sets a value and returns the current one: the value itself, or one that another caller set after it.
///
/// This follows from the contracts of `set` and `value` only, whatever other threads do.
pub fn set_and_read<R: Wait, T: FlowValue>(
    rt: &R,
    flow: &StateFlow<T>,
    seat: &mut StateSeat<T>,
    value: T,
) -> Result<T, FlowFault>
    requires { seat.old.table_id ≡ flow.now.table_id }
    ensures table { seat.new.table_id ≡ flow.now.table_id }
    ensures reads { IfOk result (λ found. ReadsBack seat.old.knows value found seat.new.knows) }
{
    flow.set(rt, seat, value);
    flow.value(rt, seat)
}
