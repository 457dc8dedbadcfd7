//! Reading a chain, and building it.
ghost use Rattle.std.specs.Prelude.{◌≡◌, ◌≢◌, Ok, Err, option_map, Result, ℤ};
ghost use Rattle.serde_json.specs.View.{view, items_view};
ghost use Rattle.flow_law.specs.chain.ChainRun.{ChainRun};
ghost use Rattle.flow_law.specs.declared.chain.ChainFault.{ChainFault as TheChainFault};
ghost use Rattle.script_chain_format.specs.declared.reading.fault.ScriptFault.{ScriptFault as TheScriptFault};
ghost use Rattle.script_chain_format.specs.Results.{Gives};
ghost use Rattle.script_chain_format.specs.ChainFormat as chains;
ghost use Rattle.script_chain_format.specs.Chains.{build_of, build_result, built_of, operator_build, operator_build_result, operator_of, operator_result, source_result};

use crate::read_op::{operator_in, zip_parts};
use crate::read_source::source_in;
use crate::reading::fault::{ScriptFault, first_fault, is_final};
use crate::reading::members::has_only;
use crate::reading::version::Version;
use flow_cold::{ChainFault, Joining, Op, ScriptChain, Source};
use serde_json::Value;
use std::alloc::Global;

/// A chain of a script, or why it could not be built. That does not refuse the script: the collection or the sharing of
/// the chain reports it.
pub type Build = Result<ScriptChain, ChainFault>;

/// How deep chains may nest. No text reaches this: JSON nests at most 127 deep, and each zip adds three levels.
const MOST_LEVELS: u32 = 127;

/// Returns the source and the operators of a chain.
fn parts_of(chain: &Value) -> Option<(&Value, &Vec<Value>)>
    ensures { option_map (λ parts. (view parts.0.now, items_view parts.1.now.items)) result
        ≡ chains.parts_of (view chain.now) }
{
    if !has_only(chain, &["from", "ops"]) {
        return None;
    }
    let from = chain.get("from")?;
    let ops = chain.get("ops")?.as_array()?;
    Some((from, ops))
}

/// Returns the chain that has this source and no operators.
fn start_of(source: Result<Source, ScriptFault>) -> Result<Build, ScriptFault>
    ensures { (m : Result (ChainRun ℤ) TheScriptFault) → Gives m (source_result source)
        → Gives (chains.start_of m) (build_result result) }
{
    Ok(Ok(ScriptChain::source(source?)))
}

/// Returns the zip with a chain, or why that chain could not be built.
fn zip_with(by: Joining, with: Build) -> Result<Op, ChainFault>
    ensures { operator_build result ≡ chains.zip_with by (build_of with) }
{
    Ok(Op::Zip { with: with?, by })
}

/// Returns the zip with a chain that was read, or the script's fault.
fn zipped(
    by: Joining,
    with: Result<Build, ScriptFault>,
) -> Result<Result<Op, ChainFault>, ScriptFault>
    ensures { (m : Result chains.Build TheScriptFault) → Gives m (build_result with)
        → Gives (chains.zipped by m) (operator_build_result result) }
{
    Ok(zip_with(by, with?))
}

/// Returns an operator that is not a zip, so that no inner chain can fail to be built.
fn plain(op: Result<Op, ScriptFault>) -> Result<Result<Op, ChainFault>, ScriptFault>
    ensures { (m : Result chains.Operator TheScriptFault) → Gives m (operator_result op)
        → Gives (chains.plain_operator m) (operator_build_result result) }
{
    Ok(Ok(op?))
}

/// Returns the chain with one more operator.
fn with_operator(alloc: Global, chain: ScriptChain, op: Op) -> Result<Build, ScriptFault>
    ensures { Gives (Ok (chains.with_operator (operator_of op) (built_of chain)))
        (build_result result) }
{
    match chain.then(alloc, op) {
        Ok(chain) => Ok(Ok(chain)),
        Err(fault) => refused(fault),
    }
}

/// Returns out of memory as the script's fault, and any other refusal as the chain's.
fn refused(fault: ChainFault) -> Result<Build, ScriptFault>
    ensures memory { fault ≡ ChainFault.OutOfMemory → result ≡ Err ScriptFault.OutOfMemory }
    ensures told { fault ≢ ChainFault.OutOfMemory → result ≡ Ok (Err fault) }
{
    match fault {
        ChainFault::OutOfMemory => Err(ScriptFault::OutOfMemory),
        _ => Ok(Err(fault)),
    }
}

/// Returns the chain with one more operator. A fault of the chain takes precedence over one of the operator.
fn built_on(alloc: Global, chain: Build, op: Result<Op, ChainFault>) -> Result<Build, ScriptFault>
    ensures { Gives (Ok (chains.built_on (build_of chain) (operator_build op)))
        (build_result result) }
{
    match chain {
        Ok(chain) => match op {
            Ok(op) => with_operator(alloc, chain, op),
            Err(fault) => Ok(Err(fault)),
        },
        Err(fault) => Ok(Err(fault)),
    }
}

/// Returns the chain that was read, with one more operator. A bad form anywhere in it takes precedence over a limit.
fn joined_to(
    alloc: Global,
    chain: Result<Build, ScriptFault>,
    op: Result<Result<Op, ChainFault>, ScriptFault>,
) -> Result<Build, ScriptFault>
    ensures { (m : Result chains.Build TheScriptFault)
        (o : Result (Result chains.Operator TheChainFault) TheScriptFault)
        → Gives m (build_result chain) → Gives o (operator_build_result op)
        → Gives (chains.joined_to m o) (build_result result) }
{
    match chain {
        Ok(chain) => built_on(alloc, chain, op?),
        Err(fault) => Err(first_fault(fault, &op)),
    }
}

/// Returns the operator of a JSON value. The chains of its zips may nest at most `levels` deep.
#[cycle(chain)]
fn operator_at(
    alloc: Global,
    version: Version,
    at: u64,
    levels: u32,
    op: &Value,
) -> Result<Result<Op, ChainFault>, ScriptFault>
    ensures { Gives (chains.operator_at version levels at (view op.now))
        (operator_build_result result) }
{
    match zip_parts(version, op) {
        Some((by, with)) => zipped(by, chain_at(alloc, version, at, levels, with)),
        None => plain(operator_in(alloc, version, at, op)),
    }
}

/// Returns the chain of a JSON value. It and the chains of its zips may nest at most `levels` deep.
#[cycle(chain)]
fn chain_at(
    alloc: Global,
    version: Version,
    at: u64,
    levels: u32,
    chain: &Value,
) -> Result<Build, ScriptFault>
    ensures { Gives (chains.chain_at version levels at (view chain.now)) (build_result result) }
{
    if levels == 0 {
        return Err(ScriptFault::BadShape(at));
    }
    let Some((from, ops)) = parts_of(chain) else {
        return Err(ScriptFault::BadShape(at));
    };
    let mut build = start_of(source_in(alloc, at, from));
    for op in ops {
        if is_final(&build) {
            return build;
        }
        let operator = operator_at(alloc, version, at, levels - 1, op);
        build = joined_to(alloc, build, operator);
    }
    build
}

/// Returns the chain of an object with the keys `from`, a source, and `ops`, a list of operators. `at` is the number of
/// its step, which a fault reports. A wrong form anywhere in the chain, also within a zip, is `BadShape`; otherwise,
/// exceeding a limit is `TooLarge`. A chain that cannot be built, for example because it is too deep, is no fault of
/// the script: it is the inner `Err`. `OutOfMemory` may replace any result.
pub fn chain_in(
    alloc: Global,
    version: Version,
    at: u64,
    chain: &Value,
) -> Result<Build, ScriptFault>
    ensures { Gives (chains.chain_in version at (view chain.now)) (build_result result) }
{
    chain_at(alloc, version, at, MOST_LEVELS, chain)
}
