//! The thread of a token.

use crate::call::Call;
use crate::refused::Outcome;
use crate::token::{Host, Reply, Token};
use crossbeam_channel::{Receiver, Sender, bounded};
use std::alloc::{AllocError, Global};
use std::sync::Wait;
use std::thread::Scope;

/// What a thread says of a call.
#[derive(Drop)]
struct Heard {
    outcome: Outcome,
    /// Whether the thread still has its token.
    has_token: bool,
}

/// A thread that makes the calls of one token, from its caller's side. It ends with the token, or with this.
#[derive(Drop)]
pub struct Worker {
    calls: Sender<Call, Global>,
    heard: Receiver<Heard, Global>,
}

/// Makes the calls that arrive until the token is gone.
fn work<T: Token, R: Host>(
    rt: &R,
    token: T,
    calls: Receiver<Call, Global>,
    heard: Sender<Heard, Global>,
) {
    let mut token = Some(token);
    for _ in rt.forever() {
        let Some(held) = token.take() else {
            return;
        };
        let Ok(call) = calls.recv(rt) else {
            return;
        };
        let Reply {
            token: left,
            outcome,
        } = held.call(rt, call);
        let has_token = left.is_some();
        token = left;
        if heard.send(rt, Heard { outcome, has_token }).is_err() {
            return;
        }
    }
}

impl Worker {
    /// Starts a thread for a token. `OutOfMemory` if memory or a thread is refused.
    pub fn start<'s, E, T: Token + 's, R: Host + Sync>(
        rt: &'s R,
        alloc: Global,
        scope: &Scope<'s, E>,
        token: T,
    ) -> Result<Worker, AllocError> {
        let (calls, called) = bounded::<Call, Global>(alloc, 1)?;
        let (says, heard) = bounded::<Heard, Global>(alloc, 1)?;
        match scope.spawn(move || work(rt, token, called, says)) {
            Ok(_thread) => Ok(Worker { calls, heard }),
            Err(_) => Err(AllocError),
        }
    }

    /// Hands a call to the thread, and waits for what it says.
    fn ask<R: Wait>(&self, rt: &R, call: Call) -> Option<Heard> {
        self.calls.send(rt, call).ok()?;
        self.heard.recv(rt).ok()
    }
}

/// Has a call made by the thread at a place, and empties the place if the thread has no token any more.
pub fn call_at<R: Wait>(rt: &R, place: &mut Option<Worker>, call: Call) -> Outcome {
    let Some(worker) = place else {
        return Ok(call.without_token());
    };
    let Some(heard) = worker.ask(rt, call) else {
        return Err(AllocError);
    };
    if !heard.has_token {
        *place = None;
    }
    heard.outcome
}
