//! Shared and state flows for callers on several threads.
//!
//! A `SharedFlow` is a `MutableSharedFlow` of kotlinx.coroutines, a `StateFlow` a `MutableStateFlow`. Each is a gate (a
//! lock with tokens, `flow_gate`) around the flow for one thread (`flow_core`).
//!
//! # Handles and tokens
//! A caller holds a token: a seat, a subscription or a suspended emission. `new` makes the first seat, and `seat` makes
//! more, one for each thread. A call takes its token and returns it, so two calls through one token never overlap. A
//! token is used with the flow that made it; each call requires that by the flow's `table_id`. A handle (`Emitter`,
//! `Setter`, `Reader`, `StateReader`) is a token with its flow, and requires nothing: begin with
//! `flow.into_emitter(alloc, seat)` or `flow.into_setter(alloc, seat)`. The handles of a flow own it together, so a
//! thread or a task that has one may outlive the function that made the flow.
//!
//! # What each call promises
//! A call that is one event has a clause with the word `SharedCalls` (of a state flow `StateCalls`), or with one like
//! `Subscribes`, `Nexts` or `Emits`, defined alike: the token has then seen a history of the flow, which is all
//! that it had seen, followed by events of other callers and by this call with this reply. The history is legal (each
//! reply is one that the documented flow may give at that point) and owned (no caller uses another one's subscription
//! or emission).
//!
//! # Waiting
//! A call that takes `rt` waits while another caller is inside the flow. A call whose name ends in `_now`, or of a
//! handle begins with `try_` (except `try_emit`), does not wait: if another caller is inside, it returns `Busy`, or
//! gives back the subscription or the emission, and does not change the flow. Neither waits for room or for a value:
//! `emit` returns `Queued`, and `next` returns `Empty`. `send`, `receive`, `changed` and `wait_for` of handles wait for
//! these: the thread sleeps meanwhile. A `Watcher` sleeps until the number of subscribers changes.
//!
//! # Dropping
//! A dropped seat is lost. A dropped subscription stays, and may block emitters for good. A dropped emission stays
//! queued or offered. Dropping a handle or a future ends the subscription or the emission that it holds.
#![tactic(auto)]

mod attended;
mod calling;
mod core_call;
mod drain;
mod dropping;
mod emit_future;
mod flow;
mod handles;
mod laws;
mod next_future;
mod send_future;
mod shared;
mod state;
mod subscriber;
mod token;
mod watcher;

pub use drain::DrainEnd;
pub use emit_future::{EmitFuture, EmitStage, Sent};
pub use flow::Flow;
pub use handles::{
    BoundEmission, EmitAnswer, Emitter, FlowCaller, FlowReader, FlowValues, FlowView, PollAnswer,
    Reader, ReceiveFuture, Setter, SharedView, StateReader, StateView, Values, ValuesUntil,
    ViewReader,
};
pub use next_future::{NextFuture, Received};
pub use send_future::{SendAnswer, SendFuture};
pub use shared::{Seat, SendEnd, SharedFlow, Subscription};
pub use state::{StateFlow, StateSeat, StateSubscription};
pub use token::{Emission, Emitted, FlowSeat, FlowSubscription, Polled, PolledNow};
pub use watcher::Watcher;
