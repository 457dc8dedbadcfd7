//! Calls of a state flow, as they are recorded.
ghost use Rattle.std.specs.Prelude.{◌≡◌};

/// A call of a state flow. `Next` and `Unsubscribe` are calls of the caller's own subscription.
#[derive(Clone, Copy, Debug)]
pub enum StateOperation {
    Value,
    Set(u64),
    TryEmit(u64),
    /// `compare_and_set`, with the expected value and the new one. An update that ended is recorded
    /// as one, too, from the value that it read to the value that it computed.
    CompareAndSet(u64, u64),
    Subscribe,
    Next,
    Unsubscribe,
    SubscriptionCount,
    ReplayCache,
}

/// The answer that a caller got.
#[derive(Clone, Copy, Debug)]
pub enum StateAnswer {
    /// The answer to `set`, `subscribe` and `unsubscribe`.
    Done,
    /// The answer to `value` and `next`, and the only value of `replay_cache`.
    Value(u64),
    /// The answer to `try_emit` and `compare_and_set`.
    Truth(bool),
    /// The answer to `next` if the subscriber has received the current value.
    Empty,
    /// The answer to `subscription_count`.
    Number(u64),
}

/// What was recorded of a call. A pending call has no answer.
#[derive(Clone, Copy, Debug)]
pub struct StateEntry {
    pub operation: StateOperation,
    pub answer: Option<StateAnswer>,
}
