//! The threads that play the steps on one flow.

use crate::call::Call;
use crate::refused::Outcome;
use crate::said::Said;
use crate::token::{Host, MakesTokens, Token};
use crate::worker::{Worker, call_at};
use flow_script::FlowStep;
use std::alloc::{AllocError, Global};
use std::thread;
use std::thread::{Scope, Threads};

/// A call, with the place of its step in the script.
pub type PlacedCall = (usize, Call);

/// What is said of the step at a place.
pub type PlacedSaid = (usize, Said);

/// The scope of the threads.
#[derive(Drop)]
struct Crew<'x, 's, E, R> {
    rt: &'s R,
    alloc: Global,
    scope: &'x Scope<'s, E>,
}

impl<'x, 's, E, R: Host + Sync> Crew<'x, 's, E, R> {
    fn start<T: Token + 's>(&self, token: T) -> Result<Worker, AllocError> {
        Worker::start(self.rt, self.alloc, self.scope, token)
    }
}

/// The threads of a flow's tokens, by the names of the script. A place is empty if its token is gone.
#[derive(Drop)]
struct Company {
    caller: Option<Worker>,
    /// Makes the turns of a sharing.
    driver: Option<Worker>,
    subscribers: Vec<Option<Worker>>,
    emissions: Vec<Option<Worker>>,
}

/// Starts a thread at a new place, and has it make its first call.
fn call_first<R: Host>(
    rt: &R,
    places: &mut Vec<Option<Worker>>,
    worker: Worker,
    call: Call,
) -> Outcome {
    let mut place = Some(worker);
    let outcome = call_at(rt, &mut place, call);
    match places.push(place) {
        Ok(()) => outcome,
        Err(_) => Err(AllocError),
    }
}

/// Has a call made by the thread at a place of a list.
fn call_among<R: Host>(
    rt: &R,
    places: &mut Vec<Option<Worker>>,
    place: usize,
    call: Call,
) -> Outcome {
    match places.get_mut(place) {
        Some(worker) => call_at(rt, worker, call),
        None => Ok(call.without_token()),
    }
}

impl Company {
    /// Has a call made that introduces no name.
    fn call<R: Host>(&mut self, rt: &R, call: Call) -> Outcome {
        match call {
            Call::Step(FlowStep::Poll(place) | FlowStep::Cancel(place)) => {
                call_among(rt, &mut self.emissions, place, call)
            }
            Call::Step(FlowStep::Next(place) | FlowStep::Unsubscribe(place)) => {
                call_among(rt, &mut self.subscribers, place, call)
            }
            Call::Step(FlowStep::Turn(_)) => call_at(rt, &mut self.driver, call),
            _ => call_at(rt, &mut self.caller, call),
        }
    }

    /// Has a call made. One that introduces a name is the first one of a new thread.
    fn step<'s, E, M: MakesTokens + 's, R: Host + Sync>(
        &mut self,
        crew: &Crew<'_, 's, E, R>,
        maker: &mut M,
        call: Call,
    ) -> Outcome {
        match call {
            Call::Step(FlowStep::Subscribe) | Call::SubscribeWith(_) => {
                let worker = crew.start(maker.subscriber(crew.rt))?;
                call_first(crew.rt, &mut self.subscribers, worker, call)
            }
            Call::Step(FlowStep::Emit(_)) => {
                let worker = crew.start(maker.emission(crew.rt))?;
                call_first(crew.rt, &mut self.emissions, worker, call)
            }
            _ => self.call(crew.rt, call),
        }
    }
}

/// Has the calls of a flow made in their order.
fn play<'s, E, M, D, R>(
    crew: &Crew<'_, 's, E, R>,
    maker: M,
    driver: Option<D>,
    calls: Vec<PlacedCall>,
) -> Result<Vec<PlacedSaid>, AllocError>
where
    M: MakesTokens + 's,
    D: Token + 's,
    R: Host + Sync,
{
    let mut maker = maker;
    let driver = match driver {
        Some(driver) => Some(crew.start(driver)?),
        None => None,
    };
    let mut company = Company {
        caller: Some(crew.start(maker.caller(crew.rt))?),
        driver,
        subscribers: Vec::new(crew.alloc),
        emissions: Vec::new(crew.alloc),
    };
    let mut said = Vec::new(crew.alloc);
    for (place, call) in calls {
        said.push((place, company.step(crew, &mut maker, call)?))?;
    }
    Ok(said)
}

/// Plays the calls of a flow, each by the thread of its token. `maker` makes the tokens, and `driver` is the sharing of
/// the chain that is shared into the flow.
pub fn play_calls<M, D, R>(
    rt: &R,
    alloc: Global,
    maker: M,
    driver: Option<D>,
    calls: Vec<PlacedCall>,
) -> Result<Vec<PlacedSaid>, AllocError>
where
    M: MakesTokens,
    D: Token,
    R: Threads + Host + Sync,
{
    thread::scope(
        thread::scope_env(),
        rt,
        move |scope| -> Result<Vec<PlacedSaid>, AllocError> {
            play(&Crew { rt, alloc, scope }, maker, driver, calls)
        },
    )
}
