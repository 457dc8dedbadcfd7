//! Calls of a shared flow, as they are recorded.
ghost use Rattle.std.specs.Prelude.{◌≡◌};

/// A call of a shared flow, or a part of one. `Next` and `Unsubscribe` are calls of the caller's own
/// subscription.
///
/// An `emit` that ended is recorded as two parts, how it began and how it ended, both with the
/// moments of the call. An `emit` that never ended is only an `Emit`.
#[derive(Clone, Copy, Debug)]
pub enum SharedOperation<'a> {
    TryEmit(u64),
    /// An `emit` began, with this value.
    Emit(u64),
    /// An `emit` that was cancelled began, or it was cancelled before it began.
    EmitOrNot(u64),
    /// The caller's `emit` returned.
    EmitReturned,
    /// The caller's `emit` was cancelled.
    EmitCancelled,
    /// `subscribe` or `subscribe_with`, with the subscription's own first values.
    Subscribe(&'a [u64]),
    Next,
    Unsubscribe,
    ReplayCache,
    ResetReplayCache,
    SubscriptionCount,
}

/// The answer that a caller got.
#[derive(Clone, Copy, Debug)]
pub enum SharedAnswer<'a> {
    /// The answer to the parts of `emit`, `subscribe`, `unsubscribe` and `reset_replay_cache`.
    Done,
    /// The answer to `next`.
    Value(u64),
    /// The answer to a `next` that received a value of which nothing else is known: that of a pending `first`, which
    /// leaves only after it has received one.
    SomeValue,
    /// The answer to `try_emit`.
    Truth(bool),
    /// The answer to `next` if the subscriber has received all that was emitted.
    Empty,
    /// The answer to `subscription_count`.
    Number(u64),
    /// The answer to `replay_cache`.
    Values(&'a [u64]),
}

/// What was recorded of a call. A pending call has no answer, except for a part without which its next part does not
/// happen.
#[derive(Clone, Copy, Debug)]
pub struct SharedEntry<'a> {
    pub operation: SharedOperation<'a>,
    pub answer: Option<SharedAnswer<'a>>,
}
