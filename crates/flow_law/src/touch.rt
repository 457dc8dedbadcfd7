//! Whom a call may wake.

/// The callers that may have something after a call, besides readers of a new value and emitters whose turn came.
#[derive(Clone, Copy, Debug, PartialEq, Eq)]
pub enum Touch {
    NoSleeper,
    /// The subscriber of this number, which the call ended.
    Subscriber(u64),
    /// All subscribers: the call set the value that they see.
    Subscribers,
    /// The emission of this number, whose wait the call ended.
    Emission(u64),
}
