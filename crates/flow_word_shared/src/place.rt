//! The place of a subscriber, and what an emitter finds in places.

/// The place of a subscriber: its word, and a number of values of which the subscriber knows that they were emitted.
#[derive(Clone, Copy)]
pub(crate) struct Place {
    pub(crate) word: usize,
    pub(crate) known: u64,
}

/// What an emitter finds in the places of the subscribers.
pub(crate) enum Room {
    /// No subscriber is a full buffer behind.
    Open,
    /// A subscriber is a full buffer behind, and the emitter has dropped its value.
    Blocked,
    /// A subscriber is a full buffer behind, but it is coming or leaving.
    Unknown,
}
