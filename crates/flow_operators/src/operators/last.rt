//! A copy of the last item that an operator emitted.
ghost use Rattle.std.specs.Prelude.{◌≡◌, ◌≢◌, IfOk, IsOk, IfErr};
ghost use Rattle.flow_operators.specs.Closures.{Follows};

use flow_law::{ChainFault, FlowValue};

/// Keeps a copy of `item` as the last one, and returns `item`. If the copy is refused, the last one stays.
pub(crate) fn keep<T: FlowValue>(last: &mut Option<T>, item: T) -> Result<T, ChainFault>
    ensures kept { IfOk result (λ given. (given ≡ item) × (last.new ≡ Some item)) }
    ensures memory { IfErr result (λ fault. fault ≡ ChainFault.OutOfMemory) }
    ensures given { T.IsAlwaysCopied → IsOk result }
{
    match item.try_copy() {
        Ok(copy) => {
            *last = Some(copy);
            Ok(item)
        }
        Err(_) => Err(ChainFault::OutOfMemory),
    }
}

/// Keeps a copy of what was made of an item as the last one, and returns what was made. Passes a fault on.
pub(crate) fn keep_made<T: FlowValue>(
    last: &mut Option<T>,
    made: Result<T, ChainFault>,
) -> Result<T, ChainFault>
    ensures follows { Follows made result }
    ensures kept { IfOk result (λ given. last.new ≡ Some given) }
    ensures given { T.IsAlwaysCopied → made ≢ Err ChainFault.OutOfMemory
        → result ≢ Err ChainFault.OutOfMemory }
{
    match made {
        Ok(item) => keep(last, item),
        Err(fault) => Err(fault),
    }
}
