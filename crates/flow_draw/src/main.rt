//! Draws a flow script from standard input to standard output: `flow_draw [--text | --explain | --json]`. Why a script
//! is refused is explained on standard error, too, beside the line on standard output.
#![tactic(auto)]

use flow_script::Watched;
use script_drawing::{refuse_arguments, run};
use std::env::args;
use std::io;
use std::process::ExitCode;

/// Returns the arguments without the program's name.
fn arguments(rt: &HostRuntime) -> io::Result<Vec<String>> {
    let words = args(rt)?.skip(1).collect(rt.alloc())?;
    Ok(words)
}

fn main(rt: HostRuntime) -> ExitCode {
    let mut input = Watched::new(rt.stdin());
    let mut output = Watched::new(rt.stdout());
    let mut errors = rt.stderr();
    let status = match arguments(&rt) {
        Ok(words) => run(
            rt.alloc(),
            words.as_slice(),
            &mut input,
            &mut output,
            &mut errors,
        ),
        Err(error) => refuse_arguments(&mut output, error.kind()),
    };
    ExitCode::from(status)
}
