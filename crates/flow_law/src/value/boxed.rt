//! Boxed values as values of flows. Contracts see only the contents of a box.
ghost use Rattle.std.specs.Prelude.{◌≡◌, ◌↔◌, IsTrue};
ghost use Rattle.flow_law.specs.flow.Values.{exact_eq, exact_partial_eq, exact_hash};

use super::FlowValue;
use crate::fault::FlowFault;
use std::alloc::{Allocator, Global};
use std::fmt;
use std::hash::{Hash, Hasher};
use std::marker::Model;

/// A boxed value. Two boxed values are the same if their contents are.
#[derive(Drop)]
pub struct Boxed<T: FlowValue, A: Allocator + Copy = Global> {
    boxed: Box<T, A>,
}

impl<T: FlowValue, A: Allocator + Copy> Model for Boxed<T, A> {
    ghost Value = { T };

    ghost view = { λ b. b.boxed.value };
}

impl<T: FlowValue, A: Allocator + Copy> Boxed<T, A> {
    /// Makes a flow value from a box.
    pub fn new(boxed: Box<T, A>) -> Self
        ensures { result ≡ boxed.value }
    {
        Boxed { boxed }
    }

    /// Returns the contents.
    pub fn value(&self) -> &T
        ensures { result.now ≡ self.now }
    {
        self.boxed.as_ref()
    }

    /// Returns the box.
    pub fn into_inner(self) -> Box<T, A>
        ensures { result.value ≡ self }
    {
        self.boxed
    }
}

impl<T: FlowValue, A: Allocator + Copy> FlowValue for Boxed<T, A> {
    ghost is_same = { T.is_same };

    fn try_copy(&self) -> Result<Boxed<T, A>, FlowFault> {
        let copy = self.boxed.as_ref().try_copy()?;
        match Box::new(*Box::allocator(&self.boxed), copy) {
            Ok(boxed) => Ok(Boxed { boxed }),
            Err(_) => Err(FlowFault::OutOfMemory),
        }
    }

    fn same(&self, other: &Boxed<T, A>) -> bool {
        self.boxed.as_ref().same(other.boxed.as_ref())
    }

    ghost is_same_exact = { T.is_same_exact };
}

impl<T: FlowValue, A: Allocator + Copy> From<Box<T, A>> for Boxed<T, A> {
    ghost from_gives = { λ boxed b. b ≡ boxed.value };

    fn from(boxed: Box<T, A>) -> Self {
        Boxed::new(boxed)
    }
}

impl<T: FlowValue, A: Allocator + Copy> PartialEq for Boxed<T, A> {
    ghost eq = { T.is_same };

    ghost laws = { exact_partial_eq T.is_same_exact };

    fn eq(&self, other: &Self) -> bool
        ensures same { result ≡ T.is_same self.now other.now }
        ensures exact { IsTrue result ↔ self.now ≡ other.now }
    {
        self.same(other)
    }
}

impl<T: FlowValue, A: Allocator + Copy> Eq for Boxed<T, A> {
    ghost laws = { exact_eq T.is_same_exact };
}

impl<T: FlowValue + Hash, A: Allocator + Copy> Hash for Boxed<T, A> {
    ghost hash_input = { T.hash_input };

    ghost respects_eq = { exact_hash T.is_same_exact T.hash_input };

    fn hash<H: Hasher>(&self, state: &mut H) {
        self.boxed.as_ref().hash(state);
    }
}

impl<T: FlowValue + fmt::Debug, A: Allocator + Copy> fmt::Debug for Boxed<T, A> {
    ghost debug_output = { T.debug_output };

    fn fmt<W: fmt::Write>(&self, f: &mut fmt::Formatter<W>) -> fmt::Result {
        fmt::Debug::fmt(self.boxed.as_ref(), f)
    }
}
