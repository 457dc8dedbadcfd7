//! Playing a script in all ways, and comparing their lines.
ghost use Rattle.std.specs.Prelude.{IfOk, IfErr};
ghost use Rattle.script_over.specs.Over.{IsPlayable, RefusesAlike};

use crate::playing::told_over;
use crate::reading::{answers_in, script_in};
use crate::token::Host;
use crate::verdict::{Verdict, add_verdict, verdict_of};
use crate::way::Way;
use flow_script::{Answers, Script, ScriptFault, text_of};
use std::alloc::{AllocError, Global};
use std::thread::Threads;

/// What all ways say of a script.
#[derive(Drop)]
pub struct Comparison {
    /// The lines of `Way::OneThread`, and then a line about each other way.
    pub text: String,
    /// Whether no way has a line that differs.
    pub is_same: bool,
}

/// Plays a script in a way, and compares it with the answers of `Way::OneThread`.
fn verdict_over<R: Threads + Host + Sync>(
    rt: &R,
    alloc: Global,
    way: Way,
    script: Script,
    wanted: &Answers,
) -> Result<Verdict, AllocError> {
    let told = told_over(rt, alloc, way, script)?;
    verdict_of(alloc, wanted, &told)
}

/// Plays the script of these bytes in a way, and adds the line about it. Returns whether no line of it differs.
fn add_way<R: Threads + Host + Sync>(
    rt: &R,
    alloc: Global,
    text: &mut String,
    way: Way,
    bytes: &[u8],
    wanted: &Answers,
) -> Result<bool, ScriptFault>
    ensures refused { IfErr result (RefusesAlike bytes.now) }
{
    let script = match script_in(alloc, bytes) {
        Ok(script) => script,
        Err(fault) => return Err(fault),
    };
    let Ok(verdict) = verdict_over(rt, alloc, way, script, wanted) else {
        return Err(ScriptFault::OutOfMemory);
    };
    match add_verdict(text, way, &verdict) {
        Ok(()) => Ok(verdict.difference.is_none()),
        Err(_) => Err(ScriptFault::OutOfMemory),
    }
}

/// Adds a line about each other way. Returns whether no line of them differs.
fn add_ways<R: Threads + Host + Sync>(
    rt: &R,
    alloc: Global,
    text: &mut String,
    bytes: &[u8],
    wanted: &Answers,
) -> Result<bool, ScriptFault>
    ensures refused { IfErr result (RefusesAlike bytes.now) }
{
    let threads = add_way(rt, alloc, text, Way::Threads, bytes, wanted)?;
    let futures = add_way(rt, alloc, text, Way::Futures, bytes, wanted)?;
    let word = add_way(rt, alloc, text, Way::Word, bytes, wanted)?;
    Ok(threads && futures && word)
}

/// Plays the script of these bytes in all ways, and compares their lines.
pub fn compared<R: Threads + Host + Sync>(
    rt: &R,
    alloc: Global,
    bytes: &[u8],
) -> Result<Comparison, ScriptFault>
    ensures played { IfOk result (λ _. IsPlayable bytes.now) }
    ensures refused { IfErr result (RefusesAlike bytes.now) }
{
    let wanted = match answers_in(alloc, bytes) {
        Ok(wanted) => wanted,
        Err(fault) => return Err(fault),
    };
    let Ok(mut text) = text_of(alloc, &wanted) else {
        return Err(ScriptFault::OutOfMemory);
    };
    match add_ways(rt, alloc, &mut text, bytes, &wanted) {
        Ok(is_same) => Ok(Comparison { text, is_same }),
        Err(fault) => Err(fault),
    }
}
