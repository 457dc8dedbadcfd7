//! Lists as values of flows. Contracts see the values in order, not where they are stored or how much room is left.
ghost use Rattle.std.specs.Prelude.{◌≡◌, ◌↔◌, IsTrue, IfOk, IfErr};
ghost use Rattle.std.specs.Fmt.{debug_list};
ghost use Rattle.std.specs.Hash as fed;
ghost use Rattle.flow_law.specs.flow.Values.{is_same_list, list_exact, exact_eq, exact_partial_eq, exact_hash};

use super::FlowValue;
use crate::fault::FlowFault;
use std::alloc::{Allocator, Global};
use std::fmt;
use std::hash::{Hash, Hasher};
use std::marker::Model;

/// A list of values. Two lists are the same if their values are, in order.
#[derive(Drop)]
pub struct Items<T: FlowValue, A: Allocator + Copy = Global> {
    values: Vec<T, A>,
}

impl<T: FlowValue, A: Allocator + Copy> Model for Items<T, A> {
    ghost use Rattle.std.specs.Prelude.{List};

    ghost Value = { List T };

    ghost view = { λ list. list.values.items };
}

impl<T: FlowValue, A: Allocator + Copy> Items<T, A> {
    /// Makes a flow value from a list.
    pub fn new(values: Vec<T, A>) -> Self
        ensures { result ≡ values.items }
    {
        Items { values }
    }

    /// Returns the elements.
    pub fn as_slice(&self) -> &[T]
        ensures { result.now ≡ self.now }
    {
        self.values.as_slice()
    }

    /// Returns the list.
    pub fn into_inner(self) -> Vec<T, A>
        ensures { result.items ≡ self }
    {
        self.values
    }
}

/// Copies values in order.
fn copies<T: FlowValue, A: Allocator>(alloc: A, values: &[T]) -> Result<Vec<T, A>, FlowFault>
    ensures copies { IfOk result (λ copies. copies.items ≡ values.now) }
    ensures memory { IfErr result (λ fault. fault ≡ FlowFault.OutOfMemory) }
{
    let mut copies = Vec::new(alloc);
    for value in values {
        let copy = value.try_copy()?;
        if copies.push(copy).is_err() {
            return Err(FlowFault::OutOfMemory);
        }
    }
    Ok(copies)
}

/// Returns whether two lists have the same values in order.
fn is_same_slice<T: FlowValue>(values: &[T], others: &[T]) -> bool
    ensures { result ≡ is_same_list T.is_same values.now others.now }
{
    let mut left = values;
    let mut right = others;
    while let (Some((first, rest)), Some((other, other_rest))) = (
        left.split_first(),
        right.split_first(),
    ) {
        if !first.same(other) {
            return false;
        }
        left = rest;
        right = other_rest;
    }
    left.is_empty() && right.is_empty()
}

impl<T: FlowValue, A: Allocator + Copy> FlowValue for Items<T, A> {
    ghost is_same = { is_same_list T.is_same };

    fn try_copy(&self) -> Result<Items<T, A>, FlowFault> {
        let values = copies(*self.values.allocator(), self.values.as_slice())?;
        Ok(Items { values })
    }

    fn same(&self, other: &Items<T, A>) -> bool {
        is_same_slice(self.values.as_slice(), other.values.as_slice())
    }

    ghost is_same_exact = { list_exact T.is_same T.is_same_exact };
}

impl<T: FlowValue, A: Allocator + Copy> From<Vec<T, A>> for Items<T, A> {
    ghost from_gives = { λ values list. list ≡ values.items };

    fn from(values: Vec<T, A>) -> Self {
        Items::new(values)
    }
}

impl<T: FlowValue, A: Allocator + Copy> PartialEq for Items<T, A> {
    ghost eq = { is_same_list T.is_same };

    ghost laws = { exact_partial_eq (list_exact T.is_same T.is_same_exact) };

    fn eq(&self, other: &Self) -> bool
        ensures same { result ≡ is_same_list T.is_same self.now other.now }
        ensures exact { IsTrue result ↔ self.now ≡ other.now }
    {
        self.same(other)
    }
}

impl<T: FlowValue, A: Allocator + Copy> Eq for Items<T, A> {
    ghost laws = { exact_eq (list_exact T.is_same T.is_same_exact) };
}

impl<T: FlowValue + Hash, A: Allocator + Copy> Hash for Items<T, A> {
    ghost hash_input = { fed.slice T.hash_input };

    ghost respects_eq = { exact_hash
        (list_exact T.is_same T.is_same_exact) (fed.slice T.hash_input) };

    fn hash<H: Hasher>(&self, state: &mut H) {
        self.values.as_slice().hash(state);
    }
}

impl<T: FlowValue + fmt::Debug, A: Allocator + Copy> fmt::Debug for Items<T, A> {
    ghost debug_output = { debug_list T.debug_output };

    fn fmt<W: fmt::Write>(&self, f: &mut fmt::Formatter<W>) -> fmt::Result {
        fmt::Debug::fmt(&self.values, f)
    }
}
