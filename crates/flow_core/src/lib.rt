//! Flows for one thread: `SharedCore` is `MutableSharedFlow`, and `StateCore` is `MutableStateFlow` of
//! kotlinx.coroutines.
//!
//! Each call has a clause `documented`: in each state of the documented flow for which the core stands, that flow may
//! give this reply, and the core then stands for the next state. `flow_law/specs/flow/SharedFlow.antt` defines the states. A
//! core from `new` stands for the first state. A `drain` is a chain of calls of `next` (`DrainsBy`).
//!
//! # Waiting
//! With `Suspend`, an emitter waits if a subscriber is a whole window behind. `emit` then returns `Queued` with a
//! number, and `poll` of that number returns whether the emission still waits. `cancel` takes it back. An emission that
//! is neither polled nor cancelled stays queued, and is emitted when there is room.
//!
//! # Capacity zero
//! Without a buffer a value is offered to the present subscribers, and its emitter waits until each of them has
//! received it or left. A subscriber that subscribes meanwhile is offered the value, too.
//!
//! # Own first values
//! `subscribe_with` gives a subscriber values of its own, which it receives before any value of the flow. They block no
//! emitter, and only the subscriber's `next` removes them.
//!
//! # Memory
//! A shared flow keeps only the values that a present or a new subscriber may still receive (`held`). `new` reserves
//! the room for them.
//!
//! # Errors
//! After `limit` numbers, a call that would issue another one fails with `Exhausted`, even if memory would be refused,
//! too. A refused call returns its value and changes nothing. Subscribers, queued values and copies take memory.
//! `try_emit`, `poll`, `cancel`, `unsubscribe`, `reset_replay_cache` and the calls that count take none.
#![tactic(auto)]

mod copies;
mod drain;
mod kind;
mod shared;
mod state;
mod sub_id;

pub use kind::{FlowCore, ReaderCalls, Signs, SubscriberCalls};
pub use shared::{EmitCase, SharedCore};
pub use state::StateCore;
pub use sub_id::SubId;
