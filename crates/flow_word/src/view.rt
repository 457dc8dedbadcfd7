//! What the table of a word state knows of its seats. Except for `Start`, no value of these types is ever made.
ghost use Rattle.std.specs.Prelude.{◌≡◌};

use flow_law::{Knowledge, Said, StateCall, StateReply};

/// How a flow began: the pack of its first value, and how many numbers it issues at most.
#[derive(Clone, Copy)]
pub struct Start {
    pub word: u64,
    pub limit: u64,
}

/// A subscriber's number, and the pack of the last value that it got.
pub struct LastGot {
    pub number: u64,
    pub last: Option<u64>,
}

/// What one token knows, the start of its flow, what it got last as a subscriber, and when its call began, if it is in
/// one of several steps.
pub struct Known<T> {
    pub knows: Knowledge<Said<StateCall<T>, StateReply<T>>>,
    pub start: Start,
    pub subscriber: Option<LastGot>,
    /// How many events the history had at the first step of the call.
    pub began: Option<u64>,
}
