//! Tasks and threads that sleep until they are woken, each under a number.
//!
//! The waker of a task or of a thread cannot be copied, and dropping it wakes the sleeper. So a sleeper whose number is
//! in no list any more was woken. A `Limit` bounds a wait in time. `one_more_owner` waits, too, if it has to.
#![tactic(auto)]

mod limit;
mod owner;
mod sleepers;
mod waiter;

pub use limit::Limit;
pub use owner::one_more_owner;
pub use sleepers::{Sleepers, Woken};
pub use waiter::{ThreadWaiter, Waiter, Wakers};
