//! The answers of a script.

use flow_law::{ChainFault, End, FlowFault, Next, Report, ShareFault};

/// The answer of a step, or of a flow that was refused when it was made. `add_answer` writes its line.
#[derive(Drop)]
pub enum Answer {
    /// The result of a `try_emit`, a `cancel`, an `unsubscribe` or a `compare_and_set`.
    Tested(bool),
    /// Whether an emission still waits.
    Waits(bool),
    /// The emission was done at once: the value was emitted, or dropped by `DropLatest`.
    Done,
    /// The emission waits.
    Queued,
    Subscribed,
    Received(Next<i64>),
    /// The values of a replay cache, the oldest first.
    Cached(Vec<i64>),
    /// How many subscribers there are.
    Counted(u64),
    /// The value of a state flow.
    Got(i64),
    Set,
    Reset,
    /// Why a flow refused a call, or was itself refused when it was made.
    Refused(FlowFault),
    Turned(Report),
    /// Why a turn was refused, or a chain was not shared.
    TurnRefused(ShareFault),
    /// The items of a chain, and how it ended.
    Collected(Vec<i64>, End),
    /// Why a chain could not be built.
    NotBuilt(ChainFault),
    /// The flow was refused when it was made. A flow that does not have the step answers this, too, but no script that
    /// was read has such a step.
    NoFlow,
}

/// A flow that was refused when it was made.
#[derive(Drop)]
pub struct NotMade {
    pub name: Option<String>,
    pub answer: Answer,
}

/// All answers of a script.
#[derive(Drop)]
pub struct Answers {
    /// The flows that were refused when they were made.
    pub not_made: Vec<NotMade>,
    /// The answers of the steps that were played, in order.
    pub steps: Vec<Answer>,
}
