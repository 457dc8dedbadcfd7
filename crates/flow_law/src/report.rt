//! The report of a sharing's turn, and why one is refused.
ghost use Rattle.std.specs.Prelude.{◌≡◌};

use crate::chain::ChainFault;
use crate::fault::FlowFault;
use crate::sharing::Command;
use thiserror::Error;

/// What happened in a turn.
#[derive(Clone, Copy, Debug, PartialEq, Eq)]
pub enum Event {
    /// Another caller was inside the flow at that moment. The next turn continues from this point.
    Busy,
    /// The sharing is not running.
    Idle,
    /// The flow took an item (under `DropLatest` it may have dropped it), and its emission is done.
    Put,
    /// The flow accepted an item, and its emission waits for subscribers.
    Queued,
    /// The emission of an earlier turn still waits.
    Waiting,
    /// The chain has no item yet.
    Pending,
    /// The chain has ended normally. It is asked again only after a stop and a start.
    Completed,
}

/// What a turn observed and did.
#[derive(Clone, Copy, Debug, PartialEq, Eq)]
pub struct Report {
    /// The command that followed from the number of subscribers.
    pub command: Command,
    /// What happened.
    pub event: Event,
}

/// Why a turn was refused, or no sharing was made.
#[derive(Clone, Copy, Debug, PartialEq, Eq, Error)]
pub enum ShareFault {
    /// The moment is before the last one, which is given here. The turn counted the subscribers and did nothing else.
    #[error("the moment is before the last one, {0}")]
    Backwards(u64),
    /// An earlier turn has reported a fault of the chain. Nothing has changed.
    #[error("the sharing has ended by a fault of its chain")]
    Ended,
    /// The chain failed, and the sharing has ended. Later turns return `Ended`.
    #[error("the chain failed: {0}")]
    Chain(ChainFault),
    /// The flow refused a call. If the turn had made an observation, its command stays in force, although no report has
    /// it. The next turn continues from this point.
    #[error("the flow refused a call: {0}")]
    Flow(FlowFault),
}
