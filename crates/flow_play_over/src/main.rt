//! Plays a flow script from standard input in the way that the argument names, or in all ways, and compares them:
//! `flow_play_over one-thread | threads | futures | word | all`.
#![tactic(auto)]

use flow_script::Watched;
use script_over::{refuse_arguments, run};
use std::env::args;
use std::io;
use std::process::ExitCode;

/// Returns the arguments without the program's name.
fn arguments(rt: &HostRuntime) -> io::Result<Vec<String>> {
    let words = args(rt)?.skip(1).collect(rt.alloc())?;
    Ok(words)
}

fn main(rt: HostRuntime) -> ExitCode {
    let mut input = Watched::new(rt.stdin());
    let mut output = Watched::new(rt.stdout());
    let status = match arguments(&rt) {
        Ok(words) => run(&rt, words.as_slice(), &mut input, &mut output),
        Err(error) => refuse_arguments(&mut output, error.kind()),
    };
    ExitCode::from(status)
}
