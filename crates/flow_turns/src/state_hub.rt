//! A state flow for one thread as the hub of a sharing.
ghost use Rattle.std.specs.Prelude.{◌≡◌, false};
ghost use Rattle.flow_turns.specs.StateHub.{state_core_of, reset_value, never_waits, StateHubDoes};

use crate::hub::Hub;
use flow_core::StateCore;
use flow_law::{FlowFault, FlowValue, Refused};
use std::alloc::{Allocator, Global};

/// A `StateCore` whose value a sharing sets. No item waits or is refused, and it is never busy. A reset copies the
/// initial value, and fails with `OutOfMemory` if the copy does; a copy of a number never fails.
#[derive(Drop)]
pub struct StateHub<T: FlowValue, A: Allocator + Copy = Global> {
    pub(crate) core: StateCore<T, A>,
    /// The value that a reset sets.
    pub(crate) initial: T,
}

impl<T: FlowValue, A: Allocator + Copy> StateHub<T, A> {
    /// Makes a hub that has set nothing. `initial` is what a reset sets: the value with which the core began.
    pub fn new(core: StateCore<T, A>, initial: T) -> Self
        ensures core { state_core_of result ≡ core }
        ensures initial { reset_value result ≡ initial }
        ensures waits { ⟦<StateHub<T, A> as Hub>⟧.waits result ≡ false }
    {
        StateHub { core, initial }
    }

    /// Returns a reference to the core.
    pub fn core(&self) -> &StateCore<T, A>
        ensures { result.now ≡ state_core_of self.now }
    {
        &self.core
    }
}

impl<T: FlowValue, A: Allocator + Copy> Hub for StateHub<T, A> {
    type Item = T;

    ghost waits = { never_waits };

    ghost does = { StateHubDoes };

    ghost IsAlwaysReset = { T.IsAlwaysCopied };

    fn count(&mut self) -> Result<u64, FlowFault> {
        Ok(self.core.subscription_count())
    }

    fn put(&mut self, value: T) -> Result<bool, Refused<T>> {
        self.core.set(value);
        Ok(false)
    }

    fn poll(&mut self) -> Result<bool, FlowFault> {
        Ok(false)
    }

    fn cancel(&mut self) -> Result<bool, FlowFault> {
        Ok(false)
    }

    fn reset(&mut self) -> Result<(), FlowFault> {
        match self.initial.try_copy() {
            Ok(initial) => {
                self.core.set(initial);
                Ok(())
            }
            Err(fault) => Err(fault),
        }
    }
}
