//! Cold flows that the subscribers of a hot flow share (`shareIn`, `stateIn`).
//!
//! A `Sharing` has a chain, a policy that says when the chain is collected (`SharingStarted`), and a hub: the hot flow
//! into which the chain's items go. Nothing runs by itself: the caller calls `turn` with the moment. `flow_turns` says
//! what a turn does, when the chain starts and stops, and how a sharing ends.
//!
//! # Which hub
//! `share_in` and `state_in` make a sharing with a flow for one thread of its own (`CoreHub`, `StateHub`); callers use
//! `subscribe`, `next` and `unsubscribe` of the sharing. A `SharedFlowHub`, `StateFlowHub`, `WordFlowHub` or `WordHub`
//! borrows a flow for several threads: other callers subscribe to the flow, and emit into it, while the sharing runs.
//!
//! # A flow with other callers
//! A hub of a borrowed flow has two seats: one counts the subscribers, the other one emits. None of its calls waits. If
//! another caller is inside the flow, the turn reports `Busy`, and the next turn continues from there. Over a `WordHub`
//! no turn is busy.
//!
//! # A run
//! `sharing.run(rt, &stop)` takes the turns on the calling thread. It sleeps while there is nothing to do, and ends
//! when a `FlowStop` or a `WordStop` asks it to. `run_to_end` ends with the chain. A `WordFlowHub` has no run.
//!
//! # What a hub promises
//! Contracts see a hub as its flow, its two seats, the number of its emission, and what a reset sets (`SeatedHub`).
//! Each call is one event under one of the two seats, or `Busy` and one lost exchange, or changes nothing
//! (`SharedFlowHubDoes`, `StateFlowHubDoes`, `WordHubDoes`). `law_turn_over_shared_flow` and the laws beside it say
//! what a whole turn then is (`TurnBySeats`).
//!
//! # Dropping
//! Dropping a sharing drops its hub: its seats are lost, and an emission that waits stays queued or offered. To avoid
//! that, take a turn that stops the sharing first, or call `cancel` through `hub_mut`.
#![tactic(auto)]

mod derived;
mod flow_stop;
mod laws;
mod sender;
mod shared_flow_hub;
mod state_flow_hub;
mod word_flow_hub;
mod word_hub;
mod word_stop;

pub use derived::{derive_from, derive_state};
pub use flow_stop::FlowStop;
pub use flow_turns::{
    Asked, Backwards, ChainFault, Cold, Command, CoreHub, CountSince, End, Event, Hub, NEVER,
    NotEnded, Policy, Report, ShareFault, Sharing, SharingObservation, Started, StateHub,
    StopSignal, WatchedHub, law_turn_over_core, law_turn_over_state_core, share_in, sharing_config,
    state_in,
};
pub use laws::{
    law_turn_over_shared_flow, law_turn_over_state_flow, law_turn_over_word_flow,
    law_turn_over_word_state,
};
pub use shared_flow_hub::SharedFlowHub;
pub use state_flow_hub::StateFlowHub;
pub use word_flow_hub::WordFlowHub;
pub use word_hub::WordHub;
pub use word_stop::WordStop;
