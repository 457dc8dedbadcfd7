//! A shared flow that is read without a lock, for values of one to four words.
//!
//! A `WordFlow` is a `MutableSharedFlow` of kotlinx.coroutines with `DROP_OLDEST` or `DROP_LATEST`: a ring of words, and the
//! number of values ever emitted. A subscriber keeps its own position. Under `DROP_OLDEST` it loads the cells of that
//! position, one for each word of a value, and then the number of emitted values: if the buffer still has the position,
//! the words in these cells are its value.
//!
//! # Places
//! Under `DROP_LATEST` each subscriber has a place, into which it stores its position after it has loaded the cells of a
//! value: until then no emitter overwrites them. An emitter drops its value if a place shows a position that is a full
//! buffer behind. It looks at the places only if a lower bound of the positions does not say that there is room.
//!
//! # The lock bit
//! Emitters, `subscribe`, `replay_cache` and `reset_replay_cache` take one bit for a few steps, and wait for each other.
//! Subscribers never wait for it, nor do `unsubscribe` and `subscription_count`.
//!
//! # Overrun subscribers
//! Under `DROP_OLDEST` a subscriber that is a full buffer behind may be overrun between its loads. It then reads more
//! values before it loads the number again: twice as many at each try, up to 64 words. A try fails only if emitters have
//! overwritten all values that it read. Under `DROP_LATEST` no subscriber is overrun.
//!
//! # Waking
//! An emission wakes the callers that sleep until there is a value. If none sleeps, that is one load. If some do, it is
//! one system call for the threads, and the drop of each task's waker. The end of a subscription whose task left a waker
//! removes it.
//!
//! # Tokens and handles
//! A token is used with the flow that made it; each call requires that by `table_id`. A handle (`WordEmitter`,
//! `WordFlowReader`) is a token with its flow, and requires nothing: begin with `flow.into_emitter(alloc, seat)`. The
//! handles of a flow own it together, so a thread or a task that has one may outlive the function that made the flow.
//!
//! # What each call promises
//! A call promises what the call of a `SharedFlow` does, in the same words: the token has then seen a history of the
//! flow, which is all that it had seen, followed by events of other callers and by this call with this reply.
//!
//! # Trying again
//! A call that takes `rt` tries again if another caller was faster, and no contract says that it ever succeeds. A call
//! whose name ends in `_now`, or of a handle begins with `try_` (except `try_emit`), tries once, and may return `Busy`.
//! Under `DROP_LATEST` an emission also tries again while a subscriber that is a full buffer behind leaves.
//!
//! # Dropping
//! A dropped seat makes no more calls. A dropped subscription stays in the flow, and still counts: under `DROP_LATEST` it
//! keeps its place, and emitters drop all values once it is a full buffer behind. Dropping a reader, or a stream or a
//! future of one, ends its subscription. Dropping the last handle drops the flow.
#![tactic(auto)]

mod cache;
mod closing;
mod drain;
mod emitting;
mod fault;
mod handles;
mod making;
mod meeting;
mod place;
mod places;
mod plays;
mod reading;
mod receive_future;
mod rule;
mod subscriber;
mod subscribing;
mod token;
mod values;
mod view;

pub use closing::ClosedWordFlow;
pub use fault::WordFlowFault;
pub use handles::{WordEmitter, WordFlowReader};
pub use receive_future::WordReceiveFuture;
pub use rule::WordFlowRule;
pub use token::{WordFlow, WordFlowSeat, WordFlowSubscription};
pub use values::WordFlowValues;
pub use view::{Hold, Post, Reads, RingKnown, RingStart, Taken};
