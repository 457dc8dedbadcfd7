//! A shared flow that is read without a lock. It drops the oldest or the latest value, and its subscribers have no first
//! values of their own.

use crate::call::Call;
use crate::company::{PlacedCall, play_calls};
use crate::flow_calls::{Calls, PlayedCalls, made, no_flow, refused_flow, refused_with};
use crate::token::Host;
use flow_law::{Config, Overflow};
use flow_script::FlowStep;
use flow_word_shared::{WordEmitter, WordFlow, WordFlowFault};
use std::alloc::{AllocError, Global};
use std::thread::Threads;

/// Returns the word that scripts have for a strategy.
fn word_of(overflow: Overflow) -> &'static str {
    match overflow {
        Overflow::Suspend => "suspend",
        Overflow::DropOldest => "drop_oldest",
        Overflow::DropLatest => "drop_latest",
    }
}

/// Returns whether a call subscribes with first values, which the flow does not have. It takes a number and counts, so
/// the answers of later calls depend on it.
fn has_first_values(calls: &[PlacedCall]) -> bool {
    calls
        .iter()
        .any(|(_place, call)| matches!(call, Call::SubscribeWith(_)))
}

/// Returns how many calls subscribe: the flow never has more subscribers at a time.
fn subscribers_in(calls: &[PlacedCall]) -> u32 {
    let mut count = 0u32;
    for (_place, call) in calls {
        if matches!(call, Call::Step(FlowStep::Subscribe)) {
            count = count.saturating_add(1);
        }
    }
    count
}

/// Makes a shared flow that is read without a lock, and plays its calls. If there is no such flow, says which strategy, or
/// which key of a step, the flow needs.
pub fn play_word_flow<R: Threads + Host + Sync>(
    rt: &R,
    alloc: Global,
    config: Config,
    calls: Calls,
) -> Result<PlayedCalls, AllocError> {
    let Calls {
        way: _,
        calls,
        shared: _,
    } = calls;
    // A chain is shared into a flow that suspends, so there is none here.
    let driver: Option<WordEmitter<i64>> = None;
    let subscribers = subscribers_in(calls.as_slice());
    match WordFlow::for_subscribers(alloc, config, subscribers) {
        Ok(_) if has_first_values(calls.as_slice()) => no_flow(alloc, "first", calls),
        Ok((flow, seat)) => {
            let emitter = flow.into_emitter(alloc, seat).map_err(|_| AllocError)?;
            Ok(made(play_calls(rt, alloc, emitter, driver, calls)?))
        }
        Err(WordFlowFault::Strategy(overflow)) => no_flow(alloc, word_of(overflow), calls),
        Err(WordFlowFault::Flow(fault)) => Ok(refused_flow(alloc, refused_with(fault, false)?)),
    }
}
