//! Callers that learn what others did: by a message, or by a meeting afterwards.
//!
//! # A message
//! `pass_on`: one thread sets a value and announces it through a channel, and another thread reads. The message carries
//! a caller that has seen the `set`. The receiver meets that caller, so its own read comes after the sender's `set`, while
//! both threads run and without a join. The channel's contracts say nothing about its messages: the receiver knows what
//! the type of the message says.
//!
//! # A meeting afterwards
//! `set_and_read_apart`: one caller sets a value, another one reads, and they never meet. A third caller that meets both
//! afterwards concludes that a call which had returned when the other one began came first.
#![tactic(auto)]

mod apart;
mod message;
mod passing;

pub use apart::set_and_read_apart;
pub use message::{Message, OneFlow};
pub use passing::{Heard, pass_on};
