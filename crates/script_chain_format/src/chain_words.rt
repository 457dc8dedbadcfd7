//! The words of chains: names of operators, arithmetic, tests, and ways to spread and to join.
ghost use Rattle.std.specs.Prelude.{◌≡◌};
ghost use Rattle.serde_json.specs.View.{view};
ghost use Rattle.script_chain_format.specs.ChainFormat as chains;

use crate::reading::members::{has_only, i64_at, text_at};
use crate::reading::version::Version;
use flow_cold::{Arithmetic, Joining, Spread, Test};
use serde_json::Value;

/// The name of an operator, by the text of its key `op`.
#[derive(Clone, Copy)]
pub enum OpName {
    Map,
    Filter,
    TakeWhile,
    Transform,
    Take,
    DropFirst,
    DropWhile,
    Scan,
    RunningReduce,
    FlatMap,
    Zip,
    Distinct,
}

/// Returns the operator that a text names, among those that only version 2 has.
fn later_op_named(version: Version, text: &str) -> Option<OpName>
    ensures { result ≡ chains.later_op_named version text.now }
{
    match version {
        Version::One => None,
        Version::Two => {
            match text {
                "drop_while" => Some(OpName::DropWhile),
                "running_reduce" => Some(OpName::RunningReduce),
                _ => None,
            }
        }
    }
}

/// Returns the operator that a text names, among those whose results also depend on earlier items or on another chain.
fn run_op_named(version: Version, text: &str) -> Option<OpName>
    ensures { result ≡ chains.run_op_named version text.now }
{
    match text {
        "take_while" => Some(OpName::TakeWhile),
        "take" => Some(OpName::Take),
        "drop" => Some(OpName::DropFirst),
        "scan" => Some(OpName::Scan),
        "zip" => Some(OpName::Zip),
        "distinct" => Some(OpName::Distinct),
        _ => later_op_named(version, text),
    }
}

fn op_named(version: Version, text: &str) -> Option<OpName>
    ensures { result ≡ chains.op_named version text.now }
{
    match text {
        "map" => Some(OpName::Map),
        "filter" => Some(OpName::Filter),
        "transform" => Some(OpName::Transform),
        "flat_map" => Some(OpName::FlatMap),
        _ => run_op_named(version, text),
    }
}

/// Returns the operator that a text names, if this version knows it.
pub fn op_name_of(version: Version, op: &Value) -> Option<OpName>
    ensures { result ≡ chains.op_name_of version (view op.now) }
{
    op_named(version, text_at(op, "op")?)
}

/// Returns how a `map`, a `scan` or a `running_reduce` computes.
pub fn arithmetic_at(op: &Value) -> Option<Arithmetic>
    ensures { result ≡ chains.arithmetic_at (view op.now) }
{
    match text_at(op, "by")? {
        "add" => Some(Arithmetic::Add),
        "mul" => Some(Arithmetic::Mul),
        _ => None,
    }
}

/// Returns the number that a test compares with.
fn compared_with(op: &Value) -> Option<i64>
    ensures { result ≡ chains.compared_with (view op.now) }
{
    if has_only(op, &["op", "by", "k"]) {
        i64_at(op, "k")
    } else {
        None
    }
}

/// Returns the test of a `filter`, a `take_while` or a `drop_while`: `even` and `odd` take no number, the others take
/// one.
pub fn test_of(op: &Value) -> Option<Test>
    ensures { result ≡ chains.test_of (view op.now) }
{
    match text_at(op, "by")? {
        "even" if has_only(op, &["op", "by"]) => Some(Test::Even),
        "odd" if has_only(op, &["op", "by"]) => Some(Test::Odd),
        "lt" => Some(Test::Less(compared_with(op)?)),
        "gt" => Some(Test::Greater(compared_with(op)?)),
        "ne" => Some(Test::NotEqual(compared_with(op)?)),
        _ => None,
    }
}

/// Returns what a `flat_map` makes of an item.
pub fn spread_at(op: &Value) -> Option<Spread>
    ensures { result ≡ chains.spread_at (view op.now) }
{
    match text_at(op, "to")? {
        "range" => Some(Spread::Range),
        "repeat" => Some(Spread::Repeat),
        _ => None,
    }
}

/// Returns how a `zip` joins.
pub fn joining_at(op: &Value) -> Option<Joining>
    ensures { result ≡ chains.joining_at (view op.now) }
{
    match text_at(op, "by")? {
        "add" => Some(Joining::Add),
        "mul" => Some(Joining::Mul),
        "left" => Some(Joining::Left),
        "right" => Some(Joining::Right),
        _ => None,
    }
}
