//! Reading an operator of a chain.
ghost use Rattle.std.specs.Prelude.{◌≡◌, Ok, Err, option_map};
ghost use Rattle.serde_json.specs.View.{view};
ghost use Rattle.script_chain_format.specs.Results.{Gives, or_fault};
ghost use Rattle.script_chain_format.specs.ChainFormat as chains;
ghost use Rattle.script_chain_format.specs.Chains.{operator_of, operator_result};

use crate::chain_words::{OpName, arithmetic_at, joining_at, op_name_of, spread_at, test_of};
use crate::read_source::numbers_in;
use crate::reading::fault::ScriptFault;
use crate::reading::members::{has_only, i64_at, u64_at};
use crate::reading::version::Version;
use flow_cold::{Arithmetic, Joining, Op, Spread};
use serde_json::Value;
use std::alloc::Global;

const MOST_ADDED: usize = 16;

const MOST_SPREAD: u64 = 1_000;

/// Returns an operator's arithmetic, and the number under its only other key.
fn computing_with(op: &Value, key: &str) -> Option<(Arithmetic, i64)>
    ensures { result ≡ chains.computing_with key.now (view op.now) }
{
    if !has_only(op, &["op", "by", key]) {
        return None;
    }
    let by = arithmetic_at(op)?;
    let number = i64_at(op, key)?;
    Some((by, number))
}

fn map_of(op: &Value) -> Option<Op>
    ensures { option_map operator_of result ≡ chains.map_of (view op.now) }
{
    let (by, k) = computing_with(op, "k")?;
    Some(Op::Map { by, k })
}

fn filter_of(op: &Value) -> Option<Op>
    ensures { option_map operator_of result ≡ chains.filter_of (view op.now) }
{
    let test = test_of(op)?;
    Some(Op::Filter(test))
}

fn take_while_of(op: &Value) -> Option<Op>
    ensures { option_map operator_of result ≡ chains.take_while_of (view op.now) }
{
    let test = test_of(op)?;
    Some(Op::TakeWhile(test))
}

fn drop_while_of(op: &Value) -> Option<Op>
    ensures { option_map operator_of result ≡ chains.drop_while_of (view op.now) }
{
    let test = test_of(op)?;
    Some(Op::DropWhile(test))
}

fn take_of(op: &Value) -> Option<Op>
    ensures { option_map operator_of result ≡ chains.take_of (view op.now) }
{
    if !has_only(op, &["op", "n"]) {
        return None;
    }
    let count = u64_at(op, "n")?;
    Some(Op::Take(count))
}

fn drop_of(op: &Value) -> Option<Op>
    ensures { option_map operator_of result ≡ chains.drop_of (view op.now) }
{
    if !has_only(op, &["op", "n"]) {
        return None;
    }
    let count = u64_at(op, "n")?;
    Some(Op::DropFirst(count))
}

fn scan_of(op: &Value) -> Option<Op>
    ensures { option_map operator_of result ≡ chains.scan_of (view op.now) }
{
    let (by, from) = computing_with(op, "from")?;
    Some(Op::Scan { from, by })
}

fn running_reduce_of(op: &Value) -> Option<Op>
    ensures { option_map operator_of result ≡ chains.running_reduce_of (view op.now) }
{
    if !has_only(op, &["op", "by"]) {
        return None;
    }
    let by = arithmetic_at(op)?;
    Some(Op::RunningReduce(by))
}

fn distinct_of(op: &Value) -> Option<Op>
    ensures { option_map operator_of result ≡ chains.distinct_of (view op.now) }
{
    if has_only(op, &["op"]) {
        Some(Op::Distinct)
    } else {
        None
    }
}

fn transform_in(alloc: Global, at: u64, op: &Value) -> Result<Op, ScriptFault>
    ensures { Gives (chains.transform_in at (view op.now)) (operator_result result) }
{
    if !has_only(op, &["op", "add"]) {
        return Err(ScriptFault::BadShape(at));
    }
    let Some(list) = op.get("add") else {
        return Err(ScriptFault::BadShape(at));
    };
    let entries = numbers_in(alloc, at, MOST_ADDED, list)?;
    Ok(Op::Transform(entries))
}

/// Returns what a `flat_map` makes of each item, and how many numbers it makes.
fn flat_map_of(op: &Value) -> Option<(Spread, u64)>
    ensures { result ≡ chains.flat_map_of (view op.now) }
{
    if !has_only(op, &["op", "to", "n"]) {
        return None;
    }
    let to = spread_at(op)?;
    let count = u64_at(op, "n")?;
    Some((to, count))
}

fn flat_map_in(at: u64, op: &Value) -> Result<Op, ScriptFault>
    ensures { Gives (chains.flat_map_in at (view op.now)) (operator_result result) }
{
    let Some((to, count)) = flat_map_of(op) else {
        return Err(ScriptFault::BadShape(at));
    };
    if count > MOST_SPREAD {
        return Err(ScriptFault::TooLarge(at));
    }
    Ok(Op::FlatMap { to, count })
}

/// Returns the operator, or `BadShape` if its form is wrong.
fn formed(at: u64, op: Option<Op>) -> Result<Op, ScriptFault>
    ensures { Gives (or_fault (ScriptFault.BadShape at) (option_map operator_of op))
        (operator_result result) }
{
    op.ok_or(ScriptFault::BadShape(at))
}

/// Returns the operator of a JSON value. A `zip` is a `BadShape` here: `zip_parts` reads it.
pub fn operator_in(alloc: Global, version: Version, at: u64, op: &Value) -> Result<Op, ScriptFault>
    ensures { Gives (chains.operator_in version at (view op.now)) (operator_result result) }
{
    let Some(name) = op_name_of(version, op) else {
        return Err(ScriptFault::BadShape(at));
    };
    match name {
        OpName::Map => formed(at, map_of(op)),
        OpName::Filter => formed(at, filter_of(op)),
        OpName::TakeWhile => formed(at, take_while_of(op)),
        OpName::Transform => transform_in(alloc, at, op),
        OpName::Take => formed(at, take_of(op)),
        OpName::DropFirst => formed(at, drop_of(op)),
        OpName::DropWhile => formed(at, drop_while_of(op)),
        OpName::Scan => formed(at, scan_of(op)),
        OpName::RunningReduce => formed(at, running_reduce_of(op)),
        OpName::FlatMap => flat_map_in(at, op),
        OpName::Zip => Err(ScriptFault::BadShape(at)),
        OpName::Distinct => formed(at, distinct_of(op)),
    }
}

/// Returns how a zip joins, and the chain that it joins with.
fn zip_of(op: &Value) -> Option<(Joining, &Value)>
    ensures { option_map (λ zip. (zip.0, view zip.1.now)) result ≡ chains.zip_of (view op.now) }
{
    if !has_only(op, &["op", "by", "with"]) {
        return None;
    }
    let by = joining_at(op)?;
    let with = op.get("with")?;
    Some((by, with))
}

/// Returns how an operator joins, and the chain that it joins with, if it is a zip.
pub fn zip_parts(version: Version, op: &Value) -> Option<(Joining, &Value)>
    ensures { option_map (λ zip. (zip.0, view zip.1.now)) result ≡
        chains.zip_parts version (view op.now) }
{
    let name = op_name_of(version, op)?;
    match name {
        OpName::Zip => zip_of(op),
        _ => None,
    }
}
