//! Gives a text to a caller: into a buffer, with the length that it needs.
ghost use Rattle.std.specs.Prelude.{Err};
ghost use Rattle.flow_script.specs.Telling.{memory_line};
ghost use Rattle.flow_calls.specs.Calls.{AnswersText, Fills, IsScriptFault};

use flow_script::{OUT_OF_MEMORY, REFUSED, ScriptFault, line_of};
use std::alloc::Global;

/// The text is given.
pub const GIVEN: u32 = 0;

/// The buffer is too short.
pub const TOO_LONG: u32 = 1;

/// Gives a text with this status, if it fits.
pub fn give(text: &[u8], status: u32, out: &mut [u8], needed: &mut usize) -> u32
    ensures { Fills text.now status out.old out.new needed.new result }
{
    *needed = text.len();
    if out.len() < text.len() {
        return TOO_LONG;
    }
    out[..text.len()].copy_from_slice(text);
    status
}

/// Gives the line of a call that is out of memory. This needs no memory.
pub fn give_memory(out: &mut [u8], needed: &mut usize) -> u32
    ensures { Fills memory_line 4 out.old out.new needed.new result }
{
    give(
        "out of memory\n".as_bytes(),
        u32::from(OUT_OF_MEMORY),
        out,
        needed,
    )
}

/// Gives the line of a fault of a script, with its status.
pub fn give_fault(alloc: Global, fault: ScriptFault, out: &mut [u8], needed: &mut usize) -> u32
    requires { IsScriptFault fault }
    ensures { AnswersText (Err fault) out.old out.new needed.new result }
{
    match fault {
        ScriptFault::OutOfMemory => give_memory(out, needed),
        _ => match line_of(alloc, fault) {
            Ok(line) => give(line.as_bytes(), u32::from(REFUSED), out, needed),
            Err(_) => give_memory(out, needed),
        },
    }
}
