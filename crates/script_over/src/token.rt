//! The tokens by which the calls of a flow are made.

use crate::call::Call;
use crate::refused::{Outcome, answered};
use flow_script::Answer;
use std::alloc::AllocGlobal;
use std::random::RandomSource;
use std::sync::Wait;

/// The runtime that the call of a token needs.
pub trait Host: Wait + RandomSource + AllocGlobal {}

impl<R: Wait + RandomSource + AllocGlobal> Host for R {}

/// What a call leaves of its token, and what is said of the step.
pub struct Reply<T> {
    /// `None` if the token can make no further call.
    pub token: Option<T>,
    pub outcome: Outcome,
}

/// Returns the reply of a call after which there is a token.
pub fn left<T>(token: T, outcome: Outcome) -> Reply<T> {
    Reply {
        token: Some(token),
        outcome,
    }
}

/// Returns the reply of a call after which there is no token.
pub fn gone<T>(outcome: Outcome) -> Reply<T> {
    Reply {
        token: None,
        outcome,
    }
}

/// Returns the reply of a call that the token does not have. No script that was read asks for it.
pub fn not_asked<T>(token: T) -> Reply<T> {
    left(token, answered(Answer::NoFlow))
}

/// What makes calls of a flow, one at a time.
pub trait Token: Send + Drop {
    /// Makes a call.
    fn call<R: Host>(self, rt: &R, call: Call) -> Reply<Self>;
}

/// What makes the tokens of a flow. It makes no call of the flow.
pub trait MakesTokens: Drop {
    /// Makes the calls that have no name.
    type Caller: Token;
    /// Subscribes first.
    type Subscriber: Token;
    /// Emits first.
    type Emission: Token;

    fn caller<R: Wait>(&mut self, rt: &R) -> Self::Caller;

    fn subscriber<R: Wait>(&mut self, rt: &R) -> Self::Subscriber;

    fn emission<R: Wait>(&mut self, rt: &R) -> Self::Emission;
}
