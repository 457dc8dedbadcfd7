//! A flow of a script, made for a way of playing, and its calls.

use crate::company::PlacedCall;
use crate::flow_calls::{Calls, PlayedCalls, Shared, no_flow, refused_flow};
use crate::over_shared::play_shared_flow;
use crate::over_state::play_state_flow;
use crate::over_word_flow::play_word_flow;
use crate::over_word_state::play_word_state;
use crate::refused::sharing_refused;
use crate::token::Host;
use crate::way::Way;
use flow_cold::Cold;
use flow_law::{Config, ShareFault, Started};
use flow_script::{Build, ScriptFlow};
use flow_sharing::sharing_config;
use std::alloc::{AllocError, Global};
use std::thread::Threads;

fn play_shared<R: Threads + Host + Sync>(
    rt: &R,
    alloc: Global,
    config: Config,
    calls: Calls,
) -> Result<PlayedCalls, AllocError> {
    match calls.way {
        Way::Word => play_word_flow(rt, alloc, config, calls),
        _ => play_shared_flow(rt, alloc, config, calls),
    }
}

fn play_state<R: Threads + Host + Sync>(
    rt: &R,
    alloc: Global,
    initial: i64,
    limit: u64,
    calls: Calls,
) -> Result<PlayedCalls, AllocError> {
    match calls.way {
        Way::Word => play_word_state(rt, alloc, initial, limit, calls),
        _ => play_state_flow(rt, alloc, initial, limit, calls),
    }
}

/// Returns the chain from its beginning, unless it could not be built.
fn shared_from(chain: Build, started: Started) -> Result<Shared, ShareFault> {
    match chain {
        Ok(mut chain) => {
            chain.rewind();
            Ok(Shared { chain, started })
        }
        Err(fault) => Err(ShareFault::Chain(fault)),
    }
}

/// Makes the flow into which a chain is shared, and plays its calls.
fn play_share<R: Threads + Host + Sync>(
    rt: &R,
    alloc: Global,
    config: Config,
    calls: Calls,
    shared: Result<Shared, ShareFault>,
) -> Result<PlayedCalls, AllocError> {
    match shared {
        Ok(shared) => play_shared(rt, alloc, config, calls.sharing(shared)),
        Err(fault) => Ok(refused_flow(alloc, sharing_refused(fault)?)),
    }
}

/// Makes the state flow into which a chain is shared, and plays its calls.
fn play_state_in<R: Threads + Host + Sync>(
    rt: &R,
    alloc: Global,
    initial: i64,
    limit: u64,
    calls: Calls,
    shared: Result<Shared, ShareFault>,
) -> Result<PlayedCalls, AllocError> {
    match shared {
        Ok(shared) => play_state(rt, alloc, initial, limit, calls.sharing(shared)),
        Err(fault) => Ok(refused_flow(alloc, sharing_refused(fault)?)),
    }
}

/// Makes a flow, and plays the calls of its steps.
pub fn play_flow<R: Threads + Host + Sync>(
    rt: &R,
    alloc: Global,
    way: Way,
    flow: ScriptFlow,
    calls: Vec<PlacedCall>,
) -> Result<PlayedCalls, AllocError> {
    match flow {
        ScriptFlow::Share { .. } if way == Way::Word => no_flow(alloc, "share", calls),
        ScriptFlow::Shared(config) => play_shared(rt, alloc, config, Calls::new(way, calls)),
        ScriptFlow::State { initial, limit } => {
            play_state(rt, alloc, initial, limit, Calls::new(way, calls))
        }
        ScriptFlow::Share {
            chain,
            started,
            replay,
            limit,
        } => {
            let shared = shared_from(chain, started);
            let config = sharing_config(replay, limit);
            play_share(rt, alloc, config, Calls::new(way, calls), shared)
        }
        ScriptFlow::StateIn {
            chain,
            started,
            initial,
            limit,
        } => {
            let shared = shared_from(chain, started);
            let calls = Calls::new(way, calls);
            play_state_in(rt, alloc, initial, limit, calls, shared)
        }
    }
}
