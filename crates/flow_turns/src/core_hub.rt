//! A shared flow for one thread as the hub of a sharing.
ghost use Rattle.std.specs.Prelude.{◌≡◌, false};

use crate::hub::Hub;
use flow_core::SharedCore;
use flow_law::{Emit, FlowFault, FlowValue, Refused};
use std::alloc::{Allocator, Global};

/// A `SharedCore` into which a sharing emits. It is never busy.
#[derive(Drop)]
pub struct CoreHub<T: FlowValue, A: Allocator + Copy = Global> {
    pub(crate) core: SharedCore<T, A>,
    /// The number of the sharing's emission, if it waited at the last put or poll.
    pub(crate) emission: Option<u64>,
}

impl<T: FlowValue, A: Allocator + Copy> CoreHub<T, A> {
    ghost use Rattle.flow_turns.specs.CoreHub.{core_of};

    /// Makes a hub that has emitted nothing into the core.
    pub fn new(core: SharedCore<T, A>) -> Self
        ensures core { core_of result ≡ core }
        ensures waits { ⟦<CoreHub<T, A> as Hub>⟧.waits result ≡ false }
    {
        CoreHub {
            core,
            emission: None,
        }
    }

    /// Returns a reference to the core.
    pub fn core(&self) -> &SharedCore<T, A>
        ensures { result.now ≡ core_of self.now }
    {
        &self.core
    }
}

impl<T: FlowValue, A: Allocator + Copy> Hub for CoreHub<T, A> {
    type Item = T;

    ghost use Rattle.flow_turns.specs.CoreHub.{is_hub_waiting, CoreHubDoes};

    ghost waits = { is_hub_waiting };

    ghost does = { CoreHubDoes };

    ghost IsAlwaysReset = { Unit {0} };

    fn count(&mut self) -> Result<u64, FlowFault> {
        Ok(self.core.subscription_count())
    }

    fn put(&mut self, value: T) -> Result<bool, Refused<T>> {
        match self.core.emit(value)? {
            Emit::Done => Ok(false),
            Emit::Queued(number) => {
                self.emission = Some(number);
                Ok(true)
            }
        }
    }

    fn poll(&mut self) -> Result<bool, FlowFault> {
        let Some(number) = self.emission else {
            return Ok(false);
        };
        let waits = self.core.poll(number);
        if !waits {
            self.emission = None;
        }
        Ok(waits)
    }

    fn cancel(&mut self) -> Result<bool, FlowFault> {
        match self.emission.take() {
            Some(number) => Ok(self.core.cancel(number)),
            None => Ok(false),
        }
    }

    fn reset(&mut self) -> Result<(), FlowFault> {
        self.core.reset_replay_cache();
        Ok(())
    }
}
