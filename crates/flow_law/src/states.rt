//! The states of documented flows. Only contracts use these types; no value of them is made.
ghost use Rattle.std.specs.Prelude.{◌≡◌};

use crate::config::Config;
use crate::sequence::Sequence;

/// A value with the number that was issued to it when it was accepted.
pub struct Numbered<T> {
    pub value: T,
    pub number: u64,
}

/// A subscriber: its number, what is left of its own first values, and its position among the emitted values.
pub struct Subscriber<T> {
    pub number: u64,
    pub own: Sequence<T>,
    pub position: u64,
}

/// The state of a documented shared flow. `specs/flow/SharedFlow.antt` has a drawing of it.
pub struct SharedFlowState<T> {
    pub config: Config,
    /// Every value ever emitted, in order. It is never cut.
    pub emitted: Sequence<Numbered<T>>,
    /// The number of values that were emitted before the last reset.
    pub reset_mark: u64,
    /// The values whose emitters wait, the first one in front.
    pub queue: Sequence<Numbered<T>>,
    /// The subscribers in the order in which they subscribed, which is the order of their numbers.
    pub subscribers: Sequence<Subscriber<T>>,
    /// How many numbers the flow has issued. The next number is one more.
    pub issued: u64,
}

/// A subscriber of a state flow: its number, and the last value that it got, if any.
pub struct StateSubscriber<T> {
    pub number: u64,
    pub last: Option<T>,
}

/// The state of a documented state flow.
pub struct StateFlowState<T> {
    /// How many numbers the flow issues at most.
    pub limit: u64,
    pub value: T,
    /// The subscribers in the order in which they subscribed.
    pub subscribers: Sequence<StateSubscriber<T>>,
    /// How many numbers the flow has issued. The next number is one more.
    pub issued: u64,
}

/// A documented shared flow into which a sharing emits.
pub struct EmittingFlow<T> {
    pub flow: SharedFlowState<T>,
    /// The number of the sharing's emission, if it waited at the last put or poll.
    pub waiting: Option<u64>,
}

/// A documented state flow whose value a sharing sets.
pub struct StateAndInitial<T> {
    pub flow: StateFlowState<T>,
    /// The value that a reset sets.
    pub initial: T,
}
