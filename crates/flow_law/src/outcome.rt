//! What calls of a flow return.
ghost use Rattle.std.specs.Prelude.{◌≡◌};

/// What a subscriber receives.
#[derive(Debug, PartialEq, Eq, Drop)]
pub enum Next<T> {
    Value(T),
    /// The subscriber has received all values.
    Empty,
    /// There is no such subscriber.
    Gone,
}

/// What an emission returns.
#[derive(Clone, Copy, Debug, PartialEq, Eq)]
pub enum Emit {
    Done,
    /// The emitter waits. This is the number of its value, by which the emission is polled or cancelled.
    Queued(u64),
}

/// How a `drain` ended.
#[derive(Clone, Copy, Debug, PartialEq, Eq)]
pub enum Drained {
    /// The call took as many values as it was asked for. There may be more.
    Most,
    /// The subscriber has received all values.
    Empty,
    /// There is no such subscriber.
    Gone,
}
