//! A type of your own over a shared flow: it keeps the last readings of a sensor, and its contracts say which.
ghost use Rattle.std.specs.Prelude.{◌≡◌, [], IfOk, OnOk, OnErr};
ghost use Rattle.use_flows.specs.Readings.{with_reading};

use flow_core::SharedCore;
use flow_law::{Config, FlowFault, FlowValue};
use std::alloc::Global;
use std::marker::Model;

/// The last readings of a sensor, at most as many as `new` was given. A shared flow keeps them in its replay cache.
#[derive(Drop)]
pub struct Readings<T: FlowValue> {
    flow: SharedCore<T>,
}

impl<T: FlowValue> Model for Readings<T> {
    ghost use Rattle.use_flows.specs.Readings.{Latest, latest_of, KeepsMeasured};

    ghost Value = { Latest T };

    ghost view = { λ r. latest_of r.flow };

    ghost invariant = { λ r. KeepsMeasured r.flow };
}

impl<T: FlowValue> Readings<T> {
    /// Returns an empty list of readings. Fails with `TooLarge` if `most` is above 65,536.
    pub fn new(alloc: Global, most: u32) -> Result<Self, FlowFault>
        ensures { IfOk result (λ readings. readings ≡ record { most = most; values = [] }) }
    {
        let flow = SharedCore::new(alloc, Config::new().replay(most))?;
        Ok(Readings { flow })
    }

    /// Adds a reading. Drops the oldest one if there are too many.
    pub fn add(&mut self, value: T) -> Result<(), FlowFault>
        ensures added { OnOk result (self.new ≡ with_reading value self.old) }
        ensures refused { OnErr result (self.new ≡ self.old) }
    {
        self.flow.try_emit(value)?;
        Ok(())
    }

    /// Returns copies of the last readings, the oldest first.
    pub fn latest(&self) -> Result<Vec<T>, FlowFault>
        ensures { IfOk result (λ latest. latest.items ≡ self.now.values) }
    {
        self.flow.replay_cache()
    }
}
