//! The program over any reader and writer: its arguments, what it prints, and its status.
ghost use Rattle.std.specs.Prelude.{◌≡◌, ◌≢◌, false, length, IfErr};
ghost use Rattle.flow_script.specs.Telling.{Tells, memory_line};
ghost use Rattle.flow_script.specs.Watching.{inner_of, has_failed};
ghost use Rattle.script_over.specs.Over.{RefusesAlike, over_usage};

use crate::comparing::{Comparison, compared};
use crate::playing::text_over;
use crate::token::Host;
use crate::way::Way;
use flow_script::{REFUSED, ScriptFault, Watched, read_all, tell, tell_arguments, tell_fault};
use std::alloc::Global;
use std::io::{ErrorKind, Read, Write};
use std::thread::Threads;

/// The status if the script was played.
const PLAYED: u8 = 0;

/// The status if the lines of two ways differ.
const DIFFERS: u8 = 1;

/// How the program is called.
const USAGE: &str = "usage: flow_play_over one-thread | threads | futures | word | all\n";

/// Reports that the arguments were not read: prints `out of memory`, or else how the program is called, and returns the
/// status.
pub fn refuse_arguments<W: Write>(output: &mut Watched<W>, kind: ErrorKind) -> u8
    requires { has_failed output.old ≡ false }
    ensures memory { kind ≡ ErrorKind.OutOfMemory → Tells (has_failed output.new)
        (W.contents (inner_of output.old)) (W.contents (inner_of output.new)) memory_line 4 result }
    ensures wrong { kind ≢ ErrorKind.OutOfMemory → Tells (has_failed output.new)
        (W.contents (inner_of output.old)) (W.contents (inner_of output.new)) over_usage 2 result }
{
    tell_arguments(output, kind, USAGE)
}

/// Returns the text that a comparison writes, and the status.
fn with_status(comparison: Comparison) -> (String, u8) {
    let Comparison { text, is_same } = comparison;
    (text, if is_same { PLAYED } else { DIFFERS })
}

/// Returns the text that the script of these bytes writes, and the status.
fn text_and_status<H: Threads + Host + Sync>(
    rt: &H,
    alloc: Global,
    way: Option<Way>,
    bytes: &[u8],
) -> Result<(String, u8), ScriptFault>
    ensures { IfErr result (RefusesAlike bytes.now) }
{
    match way {
        Some(way) => match text_over(rt, alloc, way, bytes) {
            Ok(text) => Ok((text, PLAYED)),
            Err(fault) => Err(fault),
        },
        None => match compared(rt, alloc, bytes) {
            Ok(comparison) => Ok(with_status(comparison)),
            Err(fault) => Err(fault),
        },
    }
}

/// Plays a script from a reader in a way, or in all ways, and returns the status.
fn play<H: Threads + Host + Sync, R: Read, W: Write>(
    rt: &H,
    way: Option<Way>,
    input: &mut Watched<R>,
    output: &mut Watched<W>,
) -> u8
    requires writes { has_failed output.old ≡ false }
{
    let alloc = rt.alloc();
    let bytes = match read_all(alloc, input) {
        Ok(bytes) => bytes,
        Err(fault) => return tell_fault(alloc, output, fault),
    };
    match text_and_status(rt, alloc, way, bytes.as_slice()) {
        Ok((text, status)) => tell(output, text.as_str(), status),
        Err(fault) => tell_fault(alloc, output, fault),
    }
}

/// Plays a script in the way that the one argument names, or in all ways, and returns the program's status. The
/// arguments do not include the program's name.
///
/// 0: the script was played; 1: the lines of two ways differ; 2: the script or the arguments were refused; 3: a read or
/// a write failed; 4: out of memory or of threads.
pub fn run<H: Threads + Host + Sync, R: Read, W: Write>(
    rt: &H,
    args: &[String],
    input: &mut Watched<R>,
    output: &mut Watched<W>,
) -> u8
    requires writes { has_failed output.old ≡ false }
    ensures usage { length args.now ≢ 1 → Tells (has_failed output.new)
        (W.contents (inner_of output.old)) (W.contents (inner_of output.new)) over_usage 2 result }
    ensures unread { length args.now ≢ 1 → input.new ≡ input.old }
{
    let [word] = args else {
        return tell(output, USAGE, REFUSED);
    };
    if word.as_str() == "all" {
        return play(rt, None, input, output);
    }
    match Way::named(word.as_str()) {
        Some(way) => play(rt, Some(way), input, output),
        None => tell(output, USAGE, REFUSED),
    }
}
