//! A server on a thread, and its clients, which are tasks of another thread. A client that is never answered is
//! cancelled by a `select`, and leaves the flow.
mod message;

use anyhow::Result;
use flow_law::{Config, FlowFault, OutOfMemory};
use flow_shared::{Emitter, Reader, SharedFlow};
use futures::executor::block_on;
use futures::future::{Either, join as both, ready, select};
use futures::{FutureExt, StreamExt};
use message::Message;
use std::alloc::{AllocGlobal, Global};
use std::random::RandomSource;
use std::sync::Wait;
use std::thread;
use std::thread::Threads;

/// The client whose message ends the server.
const STOP: u32 = 0;
/// The client that the server does not answer.
const UNHEARD: u32 = 3;

/// The answers of the first two clients.
type Answered = Option<(Option<u64>, Option<u64>)>;

/// What the clients were answered.
#[derive(Drop)]
pub struct Answers {
    pub answers: Answered,
    /// How many subscribers were left when all tasks had ended.
    pub left: u64,
}

/// Answers each number with its square, until a client stops the server.
fn serve<R: Wait>(
    rt: &R,
    mut requests: Reader<Message>,
    mut replies: Emitter<Message>,
) -> Result<(), FlowFault> {
    for request in requests.values(rt) {
        let Message { client, number } = request?;
        if client == STOP {
            break;
        }
        if client != UNHEARD {
            let number = number.wrapping_mul(number);
            replies.send(rt, Message { client, number })?;
        }
    }
    Ok(())
}

/// A future of the answer to this client. It is a macro, since a function cannot return a type with closures.
macro_rules! answer {
    ($client:expr, $replies:expr) => {
        $replies
            .into_stream()
            .filter_map(|reply: Result<Message, OutOfMemory>| {
                ready(match reply {
                    Ok(reply) if reply.client == $client => Some(reply.number),
                    _ => None,
                })
            })
            .into_future()
            .map(|(answer, _rest)| answer)
    };
}

/// Asks for all clients, and awaits the answers of the first two.
fn ask<R: Wait + RandomSource + AllocGlobal>(
    rt: &R,
    requests: &mut Emitter<Message>,
    replies: &mut Emitter<Message>,
) -> Result<Answered> {
    let (for_one, for_two) = (replies.subscribe(rt)?, replies.subscribe(rt)?);
    let for_three = replies.subscribe(rt)?;
    for (client, number) in [(1, 12), (2, 5), (UNHEARD, 7)] {
        requests.send(rt, Message { client, number })?;
    }
    let one = answer!(1, for_one);
    let two = answer!(2, for_two);
    let three = answer!(UNHEARD, for_three);
    match block_on(rt, select(three, both(one, two)))? {
        Either::Left((_answer, _others)) => Ok(None),
        Either::Right((answers, _waiting)) => Ok(Some(answers)),
    }
}

/// Runs the clients, and stops the server, also after an error.
fn ask_and_stop<R: Wait + RandomSource + AllocGlobal>(
    rt: &R,
    requests: &mut Emitter<Message>,
    replies: &mut Emitter<Message>,
) -> Result<Answered> {
    let answers = ask(rt, requests, replies);
    let stop = Message {
        client: STOP,
        number: 0,
    };
    requests.send(rt, stop)?;
    answers
}

/// Runs the server and its clients.
pub fn run<R: Wait + Threads + RandomSource + AllocGlobal + Sync>(
    rt: &R,
    alloc: Global,
) -> Result<Answers> {
    let (request_flow, seat) = SharedFlow::new(alloc, Config::new().extra(16))?;
    let mut requests = request_flow.into_emitter(alloc, seat)?;
    let incoming = requests.subscribe(rt)?;
    let (reply_flow, seat) = SharedFlow::new(alloc, Config::new().extra(16))?;
    let mut replies = reply_flow.into_emitter(alloc, seat)?;
    let outgoing = replies.another(rt);
    let answers = thread::scope(thread::scope_env(), rt, |scope| -> Result<Answered> {
        // Without a thread for the server no client would be answered.
        let server = scope.spawn(move || serve(rt, incoming, outgoing))?;
        let answers = ask_and_stop(rt, &mut requests, &mut replies);
        server.join(rt)?;
        answers
    })?;
    let left = replies.subscription_count(rt);
    Ok(Answers { answers, left })
}
