//! Playing a script in a way.
ghost use Rattle.std.specs.Prelude.{◌≡◌, IfOk, IfErr};
ghost use Rattle.script_chain_format.specs.Results.{Gives};
ghost use Rattle.flow_script.specs.Playing.{text_result};
ghost use Rattle.flow_script.specs.ScriptMeaning.{script_meaning};
ghost use Rattle.script_over.specs.Over.{IsPlayable, RefusesAlike};

use crate::call::Call;
use crate::company::{PlacedCall, PlacedSaid};
use crate::flow_calls::PlayedCalls;
use crate::flows::play_flow;
use crate::reading::{lines_in, script_in};
use crate::said::{NamedHead, Said, Told, add_told};
use crate::token::Host;
use crate::way::Way;
use flow_script::{Answer, Build, NamedFlow, Script, ScriptFault, Step, played};
use std::alloc::{AllocError, Global};
use std::thread::Threads;

/// Collects a chain, which no flow takes part in.
fn collected(alloc: Global, build: Build) -> Result<Answer, AllocError> {
    let mut steps = Vec::new(alloc);
    steps.push(Step::Collect(build))?;
    let script = Script {
        flows: Vec::new(alloc),
        steps,
    };
    let Ok(mut answers) = played(alloc, script) else {
        return Err(AllocError);
    };
    match answers.steps.pop() {
        Some(answer) => Ok(answer),
        None => Ok(Answer::NoFlow),
    }
}

/// The calls of each flow, and what is said of the steps that have none.
#[derive(Drop)]
struct Divided {
    calls: Vec<Vec<PlacedCall>>,
    said: Vec<Said>,
}

/// Makes an empty list of calls for each flow.
fn empty_lists(alloc: Global, flows: &[NamedFlow]) -> Result<Vec<Vec<PlacedCall>>, AllocError> {
    let mut lists = Vec::new(alloc);
    for _flow in flows {
        lists.push(Vec::new(alloc))?;
    }
    Ok(lists)
}

impl Divided {
    /// Adds the call of a step on the flow at a place. A step on a flow that is not made says that there is no flow.
    fn add_call(&mut self, flow: usize, call: Call) -> Result<(), AllocError> {
        let place = self.said.len();
        self.said.push(Said::Answer(Answer::NoFlow))?;
        if let Some(calls) = self.calls.get_mut(flow) {
            calls.push((place, call))?;
        }
        Ok(())
    }

    fn add(&mut self, alloc: Global, step: Step) -> Result<(), AllocError> {
        match step {
            Step::Flow(flow, step) => self.add_call(flow, Call::Step(step)),
            Step::SubscribeWith(flow, first) => self.add_call(flow, Call::SubscribeWith(first)),
            Step::Collect(build) => {
                let answer = collected(alloc, build)?;
                self.said.push(Said::Answer(answer))?;
                Ok(())
            }
        }
    }
}

/// Divides the steps of a script among its flows.
fn divide(alloc: Global, flows: &[NamedFlow], steps: Vec<Step>) -> Result<Divided, AllocError> {
    let mut divided = Divided {
        calls: empty_lists(alloc, flows)?,
        said: Vec::new(alloc),
    };
    for step in steps {
        divided.add(alloc, step)?;
    }
    Ok(divided)
}

fn put_said(said: &mut Vec<Said>, played: Vec<PlacedSaid>) {
    for (place, one) in played {
        if let Some(said) = said.get_mut(place) {
            *said = one;
        }
    }
}

/// Plays a script by the calls of flows for threads.
pub fn told_over<R: Threads + Host + Sync>(
    rt: &R,
    alloc: Global,
    way: Way,
    script: Script,
) -> Result<Told, AllocError> {
    let Script { flows, steps } = script;
    let Divided { calls, mut said } = divide(alloc, flows.as_slice(), steps)?;
    let mut heads = Vec::new(alloc);
    let mut calls = calls.into_iter();
    for NamedFlow { name, flow } in flows {
        let flow_calls = calls.next().unwrap_or(Vec::new(alloc));
        let PlayedCalls { head, said: played } = play_flow(rt, alloc, way, flow, flow_calls)?;
        let named = NamedHead { name, head };
        if named.ends_script() {
            said.clear();
        }
        put_said(&mut said, played);
        heads.push(named)?;
    }
    Ok(Told { heads, steps: said })
}

/// Returns the lines of a script over flows for threads.
fn lines_over<R: Threads + Host + Sync>(
    rt: &R,
    alloc: Global,
    way: Way,
    script: Script,
) -> Result<String, AllocError> {
    let told = told_over(rt, alloc, way, script)?;
    let mut text = String::new(alloc);
    add_told(&mut text, way, &told)?;
    Ok(text)
}

/// Returns the text that a script of these bytes writes over a way, or why the script is refused.
pub fn text_over<R: Threads + Host + Sync>(
    rt: &R,
    alloc: Global,
    way: Way,
    bytes: &[u8],
) -> Result<String, ScriptFault>
    ensures one_thread { way ≡ Way.OneThread → Gives (script_meaning bytes.now) (text_result result) }
    ensures played { IfOk result (λ _. IsPlayable bytes.now) }
    ensures refused { IfErr result (RefusesAlike bytes.now) }
{
    if let Way::OneThread = way {
        return lines_in(alloc, bytes);
    }
    let script = match script_in(alloc, bytes) {
        Ok(script) => script,
        Err(fault) => return Err(fault),
    };
    match lines_over(rt, alloc, way, script) {
        Ok(text) => Ok(text),
        Err(_) => Err(ScriptFault::OutOfMemory),
    }
}
