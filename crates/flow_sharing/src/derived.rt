//! A state that follows a hot flow: each value is received, mapped, and set.
ghost use Rattle.std.specs.Prelude.{◌≡◌};
ghost use Rattle.std.specs.Fn.{FnReturnsAt};
ghost use Rattle.flow_law.specs.history.HandleFaults.{answer_by, memory_fault};
ghost use Rattle.flow_law.specs.flow.SharedHistory.{shared_flow};
ghost use Rattle.flow_law.specs.flow.StateFlow.{state_flow};
ghost use Rattle.flow_shared.specs.Receiving.{FlowReceives};
ghost use Rattle.flow_sharing.specs.Deriving.{Derives};

use flow_law::{FlowValue, OutOfMemory};
use flow_shared::{Reader, Setter, StateReader};
use std::sync::Wait;

/// Waits for the next value of a state, sets another state to what `map` gives for it, and returns it. Call it in a
/// loop, on a thread of its own, to keep that state derived.
///
/// # Errors
/// `OutOfMemory` if the value could not be copied: nothing is set, and a later call receives it, or a newer one.
///
/// # Source
/// A collection of `stateIn` over `map` of a `StateFlow`.
pub fn derive_state<R: Wait, T: FlowValue, U: FlowValue, F: Fn(&T) -> U>(
    rt: &R,
    from: &mut StateReader<T>,
    to: &mut Setter<U>,
    map: F,
) -> Result<T, OutOfMemory>
    requires callable { F.IsAlwaysCallable map }
    ensures flows { (from.new.flow ≡ from.old.flow) × (to.new.flow ≡ to.old.flow) }
    ensures derived { Derives
        (λ received. FlowReceives state_flow from.old.flow from.old.subscription received
        from.new.subscription)
        (FnReturnsAt F.Fn map) to.old (answer_by memory_fault result) to.new }
{
    let value = match from.changed(rt) {
        Ok(value) => value,
        Err(refused) => return Err(refused),
    };
    to.set(rt, map(&value));
    Ok(value)
}

/// Waits for the next value of a shared flow, sets a state to what `map` gives for it, and returns it.
///
/// # Errors
/// `OutOfMemory` if the value could not be copied: nothing is set, and a later call receives it.
///
/// # Source
/// A collection of `stateIn` over `map` of a `SharedFlow`.
pub fn derive_from<R: Wait, T: FlowValue, U: FlowValue, F: Fn(&T) -> U>(
    rt: &R,
    from: &mut Reader<T>,
    to: &mut Setter<U>,
    map: F,
) -> Result<T, OutOfMemory>
    requires callable { F.IsAlwaysCallable map }
    ensures flows { (from.new.flow ≡ from.old.flow) × (to.new.flow ≡ to.old.flow) }
    ensures derived { Derives
        (λ received. FlowReceives shared_flow from.old.flow from.old.subscription received
        from.new.subscription)
        (FnReturnsAt F.Fn map) to.old (answer_by memory_fault result) to.new }
{
    let received = match from.receive(rt) {
        Ok(received) => received,
        Err(refused) => return Err(refused),
    };
    to.set(rt, map(&received));
    Ok(received)
}
