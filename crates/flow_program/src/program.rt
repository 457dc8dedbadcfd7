//! The program over any reader and writer: what it prints apart from a script's lines, and its status.
ghost use Rattle.std.specs.Prelude.{◌≡◌, ◌≢◌, false, IfOk, IfSome, None, length, string_bytes};
ghost use Rattle.flow_script.specs.Telling.{Tells, memory_line};
ghost use Rattle.flow_script.specs.Watching.{inner_of, has_failed};
ghost use Rattle.flow_program.specs.Arguments.{command_in};
ghost use Rattle.flow_program.specs.CrowdLines.{Runs, RunsCount, RunsCrowd, count_line, crowd_lines, value_line};
ghost use Rattle.flow_program.specs.Program.{RunsScript, usage_line};

use crate::command::{count_of, crowd_of};
use crate::count::{CountSize, run_count};
use crate::crowd::{CrowdSize, run_crowd};
use crate::crowd_lines::crowd_text;
use flow_script::{REFUSED, Watched, play, tell, tell_arguments, tell_fault, tell_memory};
use std::alloc::{AllocError, AllocGlobal, Global};
use std::io::{ErrorKind, Read, Write};
use std::sync::Wait;
use std::thread::Threads;

/// The status if the script was played.
const PLAYED: u8 = 0;

/// How the program is called.
const USAGE: &str = "usage: flow_play [crowd E S N | count T N]\n";

/// Reports that the arguments were not read: prints `out of memory`, or else how the program is called, and returns the
/// status.
pub fn refuse_arguments<W: Write>(output: &mut Watched<W>, kind: ErrorKind) -> u8
    requires { has_failed output.old ≡ false }
    ensures memory { kind ≡ ErrorKind.OutOfMemory → Tells (has_failed output.new)
        (W.contents (inner_of output.old)) (W.contents (inner_of output.new)) memory_line 4 result }
    ensures wrong { kind ≢ ErrorKind.OutOfMemory → Tells (has_failed output.new)
        (W.contents (inner_of output.old)) (W.contents (inner_of output.new)) usage_line 2 result }
{
    tell_arguments(output, kind, USAGE)
}

/// Runs a crowd, and returns its lines. `None` if memory or a thread is refused.
fn crowd_lines<H: Threads + Wait + Sync>(rt: &H, alloc: Global, size: CrowdSize) -> Option<String>
    ensures { IfSome result (λ lines. string_bytes lines ≡ crowd_lines size) }
{
    let got = run_crowd(rt, alloc, size).ok()?;
    crowd_text(alloc, got.as_slice(), size).ok()
}

/// Runs a crowd, and prints what its subscribers got.
fn tell_crowd<H: Threads + Wait + Sync, W: Write>(
    rt: &H,
    alloc: Global,
    output: &mut Watched<W>,
    size: CrowdSize,
) -> u8
    requires { has_failed output.old ≡ false }
    ensures { RunsCrowd size (has_failed output.new)
        (W.contents (inner_of output.old)) (W.contents (inner_of output.new)) result }
{
    match crowd_lines(rt, alloc, size) {
        Some(lines) => tell(output, lines.as_str(), PLAYED),
        None => tell_memory(output),
    }
}

/// Runs a count, and returns its line. `None` if memory is refused.
fn count_line<H: Threads + Wait + Sync>(rt: &H, alloc: Global, size: CountSize) -> Option<String>
    ensures { IfSome result (λ line. string_bytes line ≡ count_line size) }
{
    let value = run_count(rt, alloc, size).ok()?;
    value_line(alloc, value).ok()
}

fn value_line(alloc: Global, value: i64) -> Result<String, AllocError>
    ensures { IfOk result (λ line. string_bytes line ≡ value_line value) }
{
    let mut line = String::new(alloc);
    writeln!(line, "value {value}")?;
    Ok(line)
}

/// Runs a count, and prints the value after the threads have ended.
fn tell_count<H: Threads + Wait + Sync, W: Write>(
    rt: &H,
    alloc: Global,
    output: &mut Watched<W>,
    size: CountSize,
) -> u8
    requires { has_failed output.old ≡ false }
    ensures { RunsCount size (has_failed output.new)
        (W.contents (inner_of output.old)) (W.contents (inner_of output.new)) result }
{
    match count_line(rt, alloc, size) {
        Some(line) => tell(output, line.as_str(), PLAYED),
        None => tell_memory(output),
    }
}

/// Reads a script and plays it, and returns the program's status.
fn play_script<R: Read, W: Write>(
    alloc: Global,
    input: &mut Watched<R>,
    output: &mut Watched<W>,
) -> u8
    requires reads { has_failed input.old ≡ false }
    requires writes { has_failed output.old ≡ false }
    ensures { RunsScript
        (R.remaining (inner_of input.old)) (has_failed input.new) (has_failed output.new)
        (W.contents (inner_of output.old)) (W.contents (inner_of output.new)) result }
{
    match play(alloc, input, output) {
        Ok(()) => PLAYED,
        Err(fault) => tell_fault(alloc, output, fault),
    }
}

/// Reads and plays a script, or runs the crowd or the count that the arguments name, and returns the program's status.
/// The arguments do not include the program's name. If there are any, nothing is read.
///
/// 0: the script was played, or the threads ran; 2: the script or the arguments were refused; 3: a read or a write
/// failed; 4: out of memory or of threads. Every line is written to `output`. After a write that failed no line is
/// printed.
pub fn run<H: Threads + Wait + Sync + AllocGlobal, R: Read, W: Write>(
    rt: &H,
    args: &[String],
    input: &mut Watched<R>,
    output: &mut Watched<W>,
) -> u8
    requires reads { has_failed input.old ≡ false }
    requires writes { has_failed output.old ≡ false }
    ensures usage { length args.now ≢ 0 → command_in args.now ≡ None → Tells (has_failed output.new)
        (W.contents (inner_of output.old)) (W.contents (inner_of output.new)) usage_line 2 result }
    ensures runs { IfSome (command_in args.now) (λ command. Runs command (has_failed output.new)
        (W.contents (inner_of output.old)) (W.contents (inner_of output.new)) result) }
    ensures unread { length args.now ≢ 0 → input.new ≡ input.old }
    ensures plays { length args.now ≡ 0 → RunsScript
        (R.remaining (inner_of input.old)) (has_failed input.new) (has_failed output.new)
        (W.contents (inner_of output.old)) (W.contents (inner_of output.new)) result }
{
    if args.is_empty() {
        return play_script(rt.alloc(), input, output);
    }
    if let Some(size) = crowd_of(args) {
        return tell_crowd(rt, rt.alloc(), output, size);
    }
    match count_of(args) {
        Some(size) => tell_count(rt, rt.alloc(), output, size),
        None => tell(output, USAGE, REFUSED),
    }
}
