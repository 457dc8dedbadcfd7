//! The turns of a sharing: a policy starts and stops the collection of a cold flow into a hot one (`shareIn`,
//! `stateIn`).
//!
//! Programs import these names from `flow_sharing`, which adds the hubs of flows for several threads.
//!
//! A `Sharing` has a chain, a policy that says when the chain is collected (`SharingStarted`), and a hub: the hot flow
//! into which the chain's items go. `share_in` and `state_in` make one with a flow of its own; callers use `subscribe`,
//! `next` and `unsubscribe` of the sharing. Nothing runs by itself: the caller calls `turn` with the moment.
//!
//! # A turn
//! A turn counts the subscribers, and the policy observes the count. While the sharing runs, at most one item is
//! emitted. An emission that still waits is polled first; the next item follows in the turn that finds it done.
//!
//! # Start and stop
//! A start collects the chain from its beginning. A stop drops an item that the flow has not accepted, and cancels an
//! emission that waits. The subscribers still receive what was emitted.
//!
//! # What a turn promises
//! A turn takes the steps of the documented turn (clause `turn`). Its report is true of the items that the flow has
//! accepted since the last start (`means`). A due reset is made in this turn, after the cancel, or stays due if the hub
//! was busy or refused it (`resets`). What holds between turns holds again afterwards (`between`). No emission of the
//! sharing waits while it does not run, unless a caller left one (`quiet`). A fault of the chain is the chain's own
//! last answer (`answered`). `law_turn_over_core` and `law_turn_over_state_core` say that it is the same turn over
//! the documented flow that the core stands for.
//!
//! A chain whose closures read a clock has no reading. What a turn over it counts, commands, calls and reports is
//! promised all the same (`any_turn`, `any_resets`); only nothing is claimed of its items.
//!
//! # Reset
//! If the policy says so (`expire`), the flow is reset some time after the stop: a shared flow empties its replay
//! cache, a state flow gets its initial value again. This happens in the first turn after that time. If that turn
//! counts a subscriber, it starts the chain again instead, and nothing is reset.
//!
//! # The end
//! A chain that ends normally is asked again only after a stop and a start. A chain that fails ends the sharing: one
//! turn answers the fault, and every later one `Ended`. Subscribers notice neither. `restart` collects the chain anew
//! (`retry`), and `into_parts` gives the chain and the hub back.
//!
//! # Errors
//! If the flow refuses an item, or is busy, the turn reports it, and the next turn continues from there. The
//! observation still counts.
#![tactic(auto)]

mod answers;
mod collect;
mod core_hub;
mod core_subscribers;
mod due;
mod ending;
mod hub;
mod laws;
mod lend;
mod passing;
mod policy;
mod run;
mod share;
mod sharing;
mod state_hub;
mod state_subscribers;
mod turn;
mod watched;

pub use core_hub::CoreHub;
pub use ending::NotEnded;
pub use flow_cold::{Asked, Cold};
pub use flow_law::{
    ChainFault, Command, End, Event, NEVER, Report, ShareFault, SharingObservation, Started,
};
pub use hub::Hub;
pub use laws::{law_turn_over_core, law_turn_over_state_core};
pub use policy::{Backwards, Policy};
pub use run::StopSignal;
pub use share::{share_in, sharing_config, state_in};
pub use sharing::Sharing;
pub use state_hub::StateHub;
pub use watched::{CountSince, WatchedHub};
