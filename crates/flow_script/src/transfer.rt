//! Reading all the bytes of a script, and writing all of a text.
ghost use Rattle.std.specs.Prelude.{◌≡◌, ◌+◌, ◌≤◌, ◌||◌, ◌++◌, ℕ, List, IfOk, IfErr, OnOk, OnErr, is_err, length, take, vec_len};
ghost use Rattle.std.specs.Io.KnownBytes.{Consumes, Appends, IsAtEnd};
ghost use Rattle.script_format.specs.Checks.{most_bytes};
ghost use Rattle.flow_script.specs.Playing.{IsReadFault, is_read_failed, TakesWithin};
ghost use Rattle.flow_script.specs.Watching.{inner_of, has_failed};

use crate::watched::Watched;
use script_format::{MOST_BYTES, ScriptFault};
use std::alloc::Global;
use std::io::{Read, Write};

/// The most bytes that one read asks for.
const CHUNK: usize = 4096;

/// Reads some bytes, and returns how many: 0 only at the end of the input.
fn read_some<R: Read>(input: &mut Watched<R>, bytes: &mut Vec<u8>) -> Result<usize, ScriptFault>
    requires { vec_len bytes.old ≤ most_bytes }
    ensures grows { IfOk result (λ count. (vec_len bytes.new ≡ vec_len bytes.old + count)
        × (vec_len bytes.new ≤ most_bytes + 1)) }
    ensures bytes { IfOk result (λ count.
        (more : List ℕ) × (bytes.new.items ≡ bytes.old.items ++ more)
        × Consumes (R.remaining (inner_of input.old)) (R.remaining (inner_of input.new)) more) }
    ensures end { IfOk result (λ count. count ≡ 0 → IsAtEnd (R.remaining (inner_of input.new))) }
    ensures taken { (more : List ℕ) × Consumes (R.remaining (inner_of input.old))
        (R.remaining (inner_of input.new)) more
        × (vec_len bytes.old + length more ≤ most_bytes + 1) }
    ensures fault { IfErr result IsReadFault }
    ensures failed { has_failed input.new ≡ (has_failed input.old || is_read_failed result) }
{
    let mut chunk = [0u8; CHUNK];
    let room = (MOST_BYTES + 1 - bytes.len()).min(CHUNK);
    let count = match input.read(&mut chunk[..room]) {
        Ok(count) => count,
        Err(_) => return Err(ScriptFault::ReadFailed),
    };
    match bytes.extend_from_slice(&chunk[..count]) {
        Ok(()) => Ok(count),
        Err(_) => Err(ScriptFault::OutOfMemory),
    }
}

/// Reads to the end of the input, or to one byte more than a script may have.
pub fn read_all<R: Read>(alloc: Global, input: &mut Watched<R>) -> Result<Vec<u8>, ScriptFault>
    ensures bytes { IfOk result (λ bytes. Consumes (R.remaining (inner_of input.old))
        (R.remaining (inner_of input.new)) bytes.items) }
    ensures end { IfOk result (λ bytes. length bytes.items ≤ most_bytes
        → IsAtEnd (R.remaining (inner_of input.new))) }
    ensures taken { TakesWithin (R.remaining (inner_of input.old))
        (R.remaining (inner_of input.new)) }
    ensures fault { IfErr result IsReadFault }
    ensures failed { has_failed input.new ≡ (has_failed input.old || is_read_failed result) }
{
    let mut bytes = Vec::new(alloc);
    while bytes.len() <= MOST_BYTES {
        if read_some(input, &mut bytes)? == 0 {
            break;
        }
    }
    Ok(bytes)
}

/// Writes all the bytes. If a write fails or takes none of its bytes, returns `WriteFailed`; then only the first bytes
/// were written.
pub fn write_all<W: Write>(output: &mut Watched<W>, text: &[u8]) -> Result<(), ScriptFault>
    ensures ok { OnOk result (Appends (W.contents (inner_of output.old))
        (W.contents (inner_of output.new)) text.now) }
    ensures err { OnErr result ((count : ℕ) × Appends (W.contents (inner_of output.old))
        (W.contents (inner_of output.new)) (take count text.now)) }
    ensures fault { IfErr result (λ fault. fault ≡ ScriptFault.WriteFailed) }
    ensures failed { has_failed output.new ≡ (has_failed output.old || is_err result) }
{
    let mut at = 0;
    while at < text.len() {
        match output.write(&text[at..]) {
            Ok(0) => return Err(ScriptFault::WriteFailed),
            Ok(count) => at += count,
            Err(_) => return Err(ScriptFault::WriteFailed),
        }
    }
    Ok(())
}
