//! When a shared cold flow runs (`SharingStarted`).
ghost use Rattle.std.specs.Prelude.{◌≡◌};

/// The `stop` of a sharing that never stops, or the `expire` of one that never resets its flow.
pub const NEVER: u64 = u64::MAX;

/// When the sharing of a cold flow starts and stops, depending on the number of subscribers (`SharingStarted`).
#[derive(Clone, Copy, Debug, PartialEq, Eq)]
pub enum Started {
    /// Starts at the first observation and never stops.
    Eagerly,
    /// Starts at the first subscriber and never stops.
    Lazily,
    /// Runs while there are subscribers, and `stop` milliseconds longer (`stopTimeoutMillis`). It starts again with
    /// the next subscriber. `expire` milliseconds after the stop the flow is reset (`replayExpirationMillis`): a
    /// shared flow empties its replay cache, a state flow gets its initial value again. If `stop` is `NEVER`, it never
    /// stops once it has started. If `expire` is `NEVER`, the flow is never reset.
    WhileSubscribed { stop: u64, expire: u64 },
}

/// The command that an observation gives to a sharing.
#[derive(Clone, Copy, Debug, PartialEq, Eq)]
pub enum Command {
    /// Start running: collect the cold flow from its beginning.
    Start,
    /// Stop running.
    Stop,
    /// Stop running, unless it has stopped before, and reset the flow.
    StopAndReset,
    /// Keep running, or stay stopped.
    Keep,
}

/// The number of subscribers at a moment, in milliseconds.
#[derive(Clone, Copy, Debug, PartialEq, Eq)]
pub struct SharingObservation {
    pub moment: u64,
    /// The number of subscribers.
    pub count: u64,
}
