//! The lines in which a program reports why a script was not played, and its exit statuses.
ghost use Rattle.std.specs.Prelude.{◌≡◌, ◌≢◌, ◌⊎◌, ◌++◌, false, OnOk, IfOk, string_bytes};
ghost use Rattle.flow_script.specs.Playing.{write_failed};
ghost use Rattle.flow_script.specs.Watching.{inner_of, has_failed};
ghost use Rattle.flow_script.specs.Telling.{Tells, TellsFault, fault_line, memory_line, IsRefusal};

use crate::transfer::write_all;
use crate::watched::Watched;
use script_format::ScriptFault;
use std::alloc::{AllocError, Global};
use std::io::{ErrorKind, Write};

/// The status if the script or the arguments were refused.
pub const REFUSED: u8 = 2;
/// The status if a read or a write failed.
pub const TRANSFER_FAILED: u8 = 3;

pub const OUT_OF_MEMORY: u8 = 4;

/// Prints a line, and returns this status, or `TRANSFER_FAILED` if a write failed.
pub fn tell<W: Write>(output: &mut Watched<W>, line: &str, status: u8) -> u8
    requires { has_failed output.old ≡ false }
    ensures { Tells (has_failed output.new)
        (W.contents (inner_of output.old))
        (W.contents (inner_of output.new)) line.now status result }
{
    match write_all(output, line.as_bytes()) {
        Ok(()) => status,
        Err(_) => TRANSFER_FAILED,
    }
}

/// Prints that the program is out of memory, and returns the status.
pub fn tell_memory<W: Write>(output: &mut Watched<W>) -> u8
    requires { has_failed output.old ≡ false }
    ensures { Tells (has_failed output.new)
        (W.contents (inner_of output.old)) (W.contents (inner_of output.new)) memory_line 4 result }
{
    tell(output, "out of memory\n", OUT_OF_MEMORY)
}

/// Prints why the arguments of a program were not read, and returns the status. The line is `usage`, unless memory was
/// refused.
pub fn tell_arguments<W: Write>(output: &mut Watched<W>, kind: ErrorKind, usage: &str) -> u8
    requires { has_failed output.old ≡ false }
    ensures memory { kind ≡ ErrorKind.OutOfMemory → Tells (has_failed output.new)
        (W.contents (inner_of output.old)) (W.contents (inner_of output.new)) memory_line 4 result }
    ensures wrong { kind ≢ ErrorKind.OutOfMemory → Tells (has_failed output.new)
        (W.contents (inner_of output.old)) (W.contents (inner_of output.new)) usage.now 2 result }
{
    match kind {
        ErrorKind::OutOfMemory => tell_memory(output),
        _ => tell(output, usage, REFUSED),
    }
}

/// Returns the line in which a program reports a fault.
pub fn line_of(alloc: Global, fault: ScriptFault) -> Result<String, AllocError>
    ensures { IfOk result (λ line. string_bytes line ≡ fault_line fault) }
{
    let mut line = String::new(alloc);
    add_fault(&mut line, fault)?;
    Ok(line)
}

fn add_fault(line: &mut String, fault: ScriptFault) -> Result<(), AllocError>
    ensures { OnOk result (string_bytes line.new ≡ string_bytes line.old ++ fault_line fault) }
{
    match fault {
        ScriptFault::OutOfMemory => writeln!(line, "out of memory"),
        ScriptFault::ReadFailed => writeln!(line, "read failed"),
        ScriptFault::NotJson => writeln!(line, "script refused 3 NotJson"),
        ScriptFault::BadVersion => writeln!(line, "script refused 4 BadVersion"),
        ScriptFault::BadShape(step) => writeln!(line, "script refused 5 BadShape at step {step}"),
        ScriptFault::UnknownName(step) => {
            writeln!(line, "script refused 6 UnknownName at step {step}")
        }
        ScriptFault::DuplicateName(step) => {
            writeln!(line, "script refused 7 DuplicateName at step {step}")
        }
        ScriptFault::TooLarge(step) => writeln!(line, "script refused 8 TooLarge at step {step}"),
        ScriptFault::WriteFailed => writeln!(line, "write failed"),
    }
}

/// Prints the refusal of a script, or that the program is out of memory if there is no memory for the line. Returns the
/// status.
fn refuse<W: Write>(alloc: Global, output: &mut Watched<W>, fault: ScriptFault) -> u8
    requires { has_failed output.old ≡ false }
    ensures { Tells (has_failed output.new) (W.contents (inner_of output.old))
        (W.contents (inner_of output.new))
        (fault_line fault) 2 result
        ⊎ Tells (has_failed output.new)
        (W.contents (inner_of output.old)) (W.contents (inner_of output.new))
        memory_line 4 result }
{
    match line_of(alloc, fault) {
        Ok(line) => tell(output, line.as_str(), REFUSED),
        Err(_) => tell_memory(output),
    }
}

/// Prints why a script was not played, and returns the status. Prints nothing after a write that failed.
pub fn tell_fault<W: Write>(alloc: Global, output: &mut Watched<W>, fault: ScriptFault) -> u8
    requires { has_failed output.old ≡ write_failed fault }
    ensures { (told : ScriptFault) ×
        ((told ≡ fault) ⊎ (IsRefusal fault × (told ≡ ScriptFault.OutOfMemory)))
        × TellsFault told (has_failed output.new)
        (W.contents (inner_of output.old)) (W.contents (inner_of output.new)) result }
{
    match fault {
        ScriptFault::WriteFailed => TRANSFER_FAILED,
        ScriptFault::OutOfMemory => tell_memory(output),
        ScriptFault::ReadFailed => tell(output, "read failed\n", TRANSFER_FAILED),
        _ => refuse(alloc, output, fault),
    }
}
