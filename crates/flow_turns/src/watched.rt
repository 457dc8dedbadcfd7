//! A hub whose driver sleeps while there is nothing to do.
ghost use Rattle.std.specs.Prelude.{◌≡◌, true, IfOk};
ghost use Rattle.flow_law.specs.sharing.SharingCalls.{HubStep, counts};
ghost use Rattle.flow_turns.specs.Passing.{count_alone};

use crate::hub::Hub;
use flow_law::FlowFault;
use std::sync::Wait;
use std::time::Duration;

/// The number of subscribers, and whether one has come since they were counted last.
#[derive(Clone, Copy)]
pub struct CountSince {
    pub count: u64,
    pub has_come: bool,
}

/// A hub whose driver can sleep until there is something to do.
pub trait WatchedHub: Hub {
    /// What follows from an answer that a subscriber has come since the last count, by the hub before this count and
    /// after it.
    ghost Came: { Self → Self → Type 0 };

    /// Counts the subscribers as `count` does, and returns whether one has come since the last count, whether or not it
    /// has left since.
    fn count_since(&mut self) -> Result<CountSince, FlowFault>
        ensures counts { HubStep Self.does Self.waits counts self.old (count_alone result) self.new }
        ensures came { IfOk result (λ since. since.has_come ≡ true → Came self.old self.new) };

    /// Begins a watch: a change after the calls of the next turn wakes the driver.
    fn watch<R: Wait>(&mut self, rt: &R)
        ensures { self.new ≡ self.old };

    /// Ends the watch, and sleeps until a subscriber has subscribed or unsubscribed, or the hub's emission has ended,
    /// since the calls of that turn, until the run is asked to stop, or for `most`, if that is given. It may return
    /// early.
    fn sleep<R: Wait>(&mut self, rt: &R, most: Option<Duration>)
        ensures { self.new ≡ self.old };

    /// Ends the watch without sleeping.
    fn unwatch(&mut self)
        ensures { self.new ≡ self.old };
}
