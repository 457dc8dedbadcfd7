//! The calls of a flow, and what is said of them.

use crate::company::{PlacedCall, PlacedSaid};
use crate::refused::{flow_refused, sharing_refused};
use crate::said::{Head, Said};
use crate::way::Way;
use flow_cold::ScriptChain;
use flow_law::{FlowFault, ShareFault, Started};
use flow_script::Answer;
use std::alloc::{AllocError, Global};

/// What is said of a flow, and of the steps on it.
#[derive(Drop)]
pub struct PlayedCalls {
    pub head: Head,
    pub said: Vec<PlacedSaid>,
}

/// A chain that is shared into a flow, and when it runs.
#[derive(Drop)]
pub struct Shared {
    pub chain: ScriptChain,
    pub started: Started,
}

/// The calls of a flow, and how they are played.
#[derive(Drop)]
pub struct Calls {
    pub way: Way,
    pub calls: Vec<PlacedCall>,
    pub shared: Option<Shared>,
}

impl Calls {
    /// Returns the calls of a flow into which no chain is shared.
    pub fn new(way: Way, calls: Vec<PlacedCall>) -> Calls {
        Calls {
            way,
            calls,
            shared: None,
        }
    }

    /// Returns the same calls, of a flow into which a chain is shared.
    pub fn sharing(self, shared: Shared) -> Calls {
        let Calls {
            way,
            calls,
            shared: _,
        } = self;
        Calls {
            way,
            calls,
            shared: Some(shared),
        }
    }
}

/// Returns what is said of a flow that was made, and of its steps.
pub fn made(said: Vec<PlacedSaid>) -> PlayedCalls {
    PlayedCalls {
        head: Head::Made,
        said,
    }
}

/// Returns what is said of a flow that was refused. Nothing is said of its steps.
pub fn refused_flow(alloc: Global, answer: Answer) -> PlayedCalls {
    PlayedCalls {
        head: Head::Refused(answer),
        said: Vec::new(alloc),
    }
}

/// Returns what is said of a flow that the way does not have, and of its steps. `needed` is what the flow needs.
pub fn no_flow(
    alloc: Global,
    needed: &'static str,
    calls: Vec<PlacedCall>,
) -> Result<PlayedCalls, AllocError> {
    let mut said = Vec::new(alloc);
    for (place, _call) in calls {
        said.push((place, Said::NoFlow))?;
    }
    Ok(PlayedCalls {
        head: Head::NoCall(needed),
        said,
    })
}

/// Returns the answer of a flow that was refused when it was made.
pub fn refused_with(fault: FlowFault, shares: bool) -> Result<Answer, AllocError> {
    if shares {
        sharing_refused(ShareFault::Flow(fault))
    } else {
        flow_refused(fault)
    }
}
