//! The sources and operators of chains that are built at run time.

use crate::script_chain::ScriptChain;
use flow_operators::{OfList, OfRange, Scripted};

/// A source of whole numbers.
#[derive(Drop)]
pub enum Source {
    List(OfList<i64>),
    Range(OfRange),
    Scripted(Scripted<i64>),
}

/// How two numbers make a result.
#[derive(Clone, Copy, Debug, PartialEq, Eq)]
pub enum Arithmetic {
    Add,
    Mul,
}

/// Which numbers pass a test.
#[derive(Clone, Copy, Debug, PartialEq, Eq)]
pub enum Test {
    Even,
    Odd,
    Less(i64),
    Greater(i64),
    NotEqual(i64),
}

/// What a pair becomes: its sum, its product, or one side of it.
#[derive(Clone, Copy, Debug, PartialEq, Eq)]
pub enum Joining {
    Add,
    Mul,
    Left,
    Right,
}

/// What replaces an item: the item and the numbers that follow it, or the item several times.
#[derive(Clone, Copy, Debug, PartialEq, Eq)]
pub enum Spread {
    Range,
    Repeat,
}

/// An operator on whole numbers. A result that is no `i64` is the fault `Overflow`; no item is emitted for it.
#[derive(Drop)]
pub enum Op {
    /// item + k, or item * k
    Map { by: Arithmetic, k: i64 },
    /// The items that pass.
    Filter(Test),
    /// The items before the first one that fails.
    TakeWhile(Test),
    /// For each entry of the list, in order, item + entry.
    Transform(Vec<i64>),
    /// The first items; 0 is refused.
    Take(u64),
    /// All but the first items.
    DropFirst(u64),
    /// The items from the first one that fails.
    DropWhile(Test),
    /// `from`, then the accumulator + item, or the accumulator * item.
    Scan { from: i64, by: Arithmetic },
    /// The first item, then the accumulator + item, or the accumulator * item.
    RunningReduce(Arithmetic),
    /// `count` numbers for each item.
    FlatMap { to: Spread, count: u64 },
    /// Pairs with the items of another chain; this side is asked first.
    Zip { with: ScriptChain, by: Joining },
    /// The items that differ from the one before.
    Distinct,
}
