//! The rules of the turns of a shared chain, and of collections.

use flow_law::{ChainFault, Command, End, Event, Report, ShareFault, Started};
use flow_script::Answer;

/// Returns the rule by which a turn starts the chain.
fn start_rule(started: Started) -> &'static str {
    match started {
        Started::Eagerly => "started eagerly, the chain runs from the first turn on",
        Started::Lazily => {
            "started lazily, the chain runs from the first turn with a subscriber on"
        }
        Started::WhileSubscribed { .. } =>
            "the chain runs while there are subscribers, and at each start from its beginning",
    }
}

/// Returns the rule of a turn: that of its command, unless that is `Keep`: then that of its event. A chain that is
/// started eagerly always runs.
fn report_rule(started: Started, report: &Report) -> &'static str {
    match (report.command, report.event, started) {
        (Command::Start, _, _) => start_rule(started),
        (Command::Keep, Event::Put, _) => {
            "a turn puts one item at most: the next one went into the flow"
        }
        (Command::Keep, Event::Queued, _) => "the item waits in the queue for slow subscribers",
        (Command::Keep, Event::Waiting, _) => {
            "the item of an earlier turn still waits, so the chain is not asked"
        }
        (Command::Keep, Event::Pending, _) => "the chain has no item yet",
        (Command::Keep, Event::Completed, _) => "the chain has ended, which affects no subscriber",
        (Command::Keep, Event::Idle, Started::Lazily) => {
            "started lazily, the chain does not run before the first turn with a subscriber"
        }
        (Command::Keep, Event::Idle, Started::WhileSubscribed { .. }) => {
            "the chain does not run without subscribers"
        }
        (Command::Stop, Event::Idle, _) => {
            "the stop time has passed without a subscriber: what waits is cancelled, and a kept item is dropped"
        }
        (Command::StopAndReset, Event::Idle, _) => {
            "the times of stop and expire have passed without a subscriber: the flow forgets what it replays"
        }
        _ => "",
    }
}

/// Returns the rule by which a turn is refused.
fn refused_turn_rule(fault: &ShareFault) -> &'static str {
    match fault {
        ShareFault::Backwards(_) => "a moment before that of the last turn is refused",
        ShareFault::Ended => "the chain failed in an earlier turn, which ended the sharing",
        ShareFault::Chain(_) =>
            "a fault of the chain ends the sharing, and only this turn reports it",
        ShareFault::Flow(_) => "the flow refused the item, which is kept and put in the next turn",
    }
}

/// Returns the rule by which a turn has its answer. It is empty if no turn has this answer.
pub fn turn_rule(started: Started, answer: &Answer) -> &'static str {
    match answer {
        Answer::Turned(report) => report_rule(started, report),
        Answer::TurnRefused(fault) => refused_turn_rule(fault),
        _ => "",
    }
}

/// Returns the rule by which a collection has its answer. It is empty if no collection has this answer.
pub fn collect_rule(answer: &Answer) -> &'static str {
    match answer {
        Answer::Collected(_, End::Completed) => {
            "a collection runs the chain from its beginning, and gives what it emits up to its end"
        }
        Answer::Collected(_, End::Failed(ChainFault::Overflow)) => {
            "a result that does not fit in 64 bits ends the chain, and nothing is given for its item"
        }
        Answer::Collected(_, End::Failed(_)) => {
            "a fault of the source ends the chain; the items before it are given"
        }
        Answer::NotBuilt(ChainFault::NotPositive) => {
            "a take of nothing is refused when the chain is built"
        }
        Answer::NotBuilt(ChainFault::TooDeep) => {
            "a chain more than 64 deep is refused when it is built"
        }
        _ => "",
    }
}
