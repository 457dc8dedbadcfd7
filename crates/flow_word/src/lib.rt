//! A state flow without a lock, for values that fit a word.
//!
//! A `WordState` is a `MutableStateFlow` of kotlinx.coroutines. It is two words that change in single atomic steps: one
//! has the current value, the other one the numbers of subscriptions made and of subscribers. So `value`, `set`,
//! `compare_and_set`, `next`, `unsubscribe` and `subscription_count` wait for no other caller, take no memory and cannot
//! fail. `value`, `next` and `subscription_count` are one step each.
//!
//! # Waking
//! `set`, `compare_and_set`, `subscribe` and `unsubscribe` are one step on a word, and then wake the callers that sleep
//! until this word changes. If none sleeps, that is one load. If some do, it is one system call for the threads, and
//! the drop of each task's waker. A drop takes the lock of the task's executor for a moment: no other lock is waited
//! for. The end of a subscription whose task left a waker removes it.
//!
//! # Tokens
//! A caller holds a token: a seat or a subscription. `new` makes the first seat, and `seat` makes more, one for each
//! thread. A token is used with the flow that made it; each call requires that by `table_id`. A handle (`WordSetter`,
//! `WordReader`) is a token with its flow, and requires nothing: begin with `flow.into_setter(alloc, seat)`. The handles
//! of a flow own it together, so a thread or a task that has one may outlive the function that made the flow.
//!
//! # What each call promises
//! A call promises what the call of a `StateFlow` does, in the same words: the token has then seen a history of the
//! flow, which is all that it had seen, followed by events of other callers and by this call with this reply.
//!
//! # Trying again
//! `subscribe` and the updates try again if another caller was faster. They take `rt`, and no contract says that they
//! ever succeed.
//!
//! # Dropping
//! A dropped seat makes no more calls. A dropped subscription stays in the flow, and still counts. Dropping a reader,
//! or a stream or a future of one, ends its subscription. Dropping the last handle drops the flow.
#![tactic(auto)]

mod calls;
mod changed_future;
mod handles;
mod meeting;
mod plays;
mod rule;
mod seen;
pub mod sleepers;
mod subscriber;
mod token;
mod update;
mod values;
mod view;
mod watch;

pub use changed_future::ChangedFuture;
pub use handles::{WordReader, WordSetter};
pub use rule::WordRule;
pub use subscriber::SubscriberCounts;
pub use token::{WordSeat, WordState, WordSubscription};
pub use values::WordValues;
pub use view::{Known, LastGot, Start};
pub use watch::CountWatch;
