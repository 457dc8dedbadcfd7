//! What the names of a script stand for.
ghost use Rattle.std.specs.Prelude.{◌≡◌, OnOk, IfErr, option_map};
ghost use Rattle.flow_core.specs.SubId.{number_of};
ghost use Rattle.flow_script.specs.Numbers.{no_numbers, number_at, with_emission, with_subscriber};
ghost use Rattle.flow_script.specs.Shown.{kept_numbers};

use flow_core::SubId;
use script_format::ScriptFault;
use std::alloc::Global;

/// The numbers that the names of a script stand for, each kind in the order of introduction.
#[derive(Drop)]
pub struct Numbers {
    /// The number of each emission that was queued, or `None` if it was done at once or refused.
    emissions: Vec<Option<u64>>,
    /// Each subscription, or `None` if it was refused.
    subscribers: Vec<Option<SubId>>,
}

impl Numbers {
    pub fn new(alloc: Global) -> Self
        ensures { kept_numbers result ≡ no_numbers }
    {
        Numbers {
            emissions: Vec::new(alloc),
            subscribers: Vec::new(alloc),
        }
    }

    pub fn emission_at(&self, place: usize) -> Option<u64>
        ensures { result ≡ number_at place (kept_numbers self.now).emissions }
    {
        *self.emissions.get(place)?
    }

    pub fn subscriber_at(&self, place: usize) -> Option<SubId>
        ensures { option_map number_of result ≡ number_at place (kept_numbers self.now).subscribers }
    {
        *self.subscribers.get(place)?
    }

    /// Returns how many names of subscribers were introduced.
    pub fn subscribers(&self) -> usize {
        self.subscribers.len()
    }

    /// Adds the next name of an emission, with its number if the emission waits.
    pub fn add_emission(&mut self, number: Option<u64>) -> Result<(), ScriptFault>
        ensures added { OnOk result
            (kept_numbers self.new ≡ with_emission number (kept_numbers self.old)) }
        ensures fault { IfErr result (λ fault. fault ≡ ScriptFault.OutOfMemory) }
    {
        self.emissions
            .push(number)
            .map_err(|_| ScriptFault::OutOfMemory)
    }

    /// Adds the next name of a subscriber, with its subscription unless that was refused.
    pub fn add_subscriber(&mut self, id: Option<SubId>) -> Result<(), ScriptFault>
        ensures added { OnOk result (
            kept_numbers self.new ≡ with_subscriber (option_map number_of id) (kept_numbers self.old)) }
        ensures fault { IfErr result (λ fault. fault ≡ ScriptFault.OutOfMemory) }
    {
        self.subscribers
            .push(id)
            .map_err(|_| ScriptFault::OutOfMemory)
    }
}
