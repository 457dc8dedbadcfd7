//! Judges recorded calls of a flow, read from standard input: whether the documented flow may have answered so.
//! `flow_judge --order` also prints, for a legal record, an order of the calls that explains them; `flow_judge --draw
//! [--text]` draws the calls over time, as SVG or as text. With `--turns N` before these words, a search gives up after N
//! turns.
//!
//! Statuses: 0 legal, 1 illegal, 2 refused, 3 gave up, 4 out of memory, or a read or a write failed.
#![tactic(auto)]

use record_judging::{Form, REFUSED, draw_record, judge_record};
use std::env::args;
use std::io::{self, ErrorKind, Read, Write};
use std::process::ExitCode;

/// Out of memory, or a read or a write failed.
const FAILED: u8 = 4;

/// What the program writes.
#[derive(Clone, Copy)]
enum Task {
    Judge,
    JudgeWithOrder,
    Draw(Form),
}

/// Returns what the program writes for these words, or None if they are no known arguments.
fn task_of(words: &[String]) -> Option<Task> {
    match words {
        [] => Some(Task::Judge),
        [word] => match word.as_str() {
            "--order" => Some(Task::JudgeWithOrder),
            "--draw" => Some(Task::Draw(Form::Svg)),
            _ => None,
        },
        [one, other] => match (one.as_str(), other.as_str()) {
            ("--draw", "--text") | ("--text", "--draw") => Some(Task::Draw(Form::Text)),
            _ => None,
        },
        _ => None,
    }
}

/// Returns what the program writes for these words, and the most turns of a search if the words have it, or None if they
/// are no known arguments.
fn asked(words: &[String]) -> Option<(Task, Option<u64>)> {
    match words {
        [option, number, rest @ ..] if option.as_str() == "--turns" => {
            let turns = number.as_str().parse::<u64>().ok()?;
            Some((task_of(rest)?, Some(turns)))
        }
        _ => Some((task_of(words)?, None)),
    }
}

/// Returns the arguments without the program's name.
fn arguments(rt: &HostRuntime) -> io::Result<Vec<String>> {
    let words = args(rt)?.skip(1).collect(rt.alloc())?;
    Ok(words)
}

fn run_program(rt: &HostRuntime) -> io::Result<u8> {
    let words = arguments(rt)?;
    let mut out = rt.stdout();
    let Some((task, turns)) = asked(words.as_slice()) else {
        writeln!(
            out,
            "usage: flow_judge [--turns N] [--order | --draw [--text]]"
        )?;
        return Ok(REFUSED);
    };
    let mut bytes = Vec::new(rt.alloc());
    let _ = rt.stdin().read_to_end(&mut bytes)?;
    let alloc = rt.alloc();
    match task {
        Task::Judge => judge_record(alloc, &mut out, bytes.as_slice(), false, turns),
        Task::JudgeWithOrder => judge_record(alloc, &mut out, bytes.as_slice(), true, turns),
        Task::Draw(form) => draw_record(alloc, &mut out, bytes.as_slice(), form, turns),
    }
}

fn main(rt: HostRuntime) -> ExitCode {
    match run_program(&rt) {
        Ok(status) => ExitCode::from(status),
        Err(error) => {
            if error.kind() == ErrorKind::OutOfMemory {
                let _ = writeln!(rt.stdout(), "out of memory");
            }
            ExitCode::from(FAILED)
        }
    }
}
