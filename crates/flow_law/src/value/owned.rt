//! Texts as values of flows. Contracts see the bytes, not where they are stored or how much room is left.
ghost use Rattle.std.specs.Prelude.{◌≡◌, ◌↔◌, IsTrue, IfOk, Some, nat_eq, string_bytes};
ghost use Rattle.std.specs.Fmt.{debug_str, styled_text};
ghost use Rattle.std.specs.Hash as fed;
ghost use Rattle.flow_law.specs.flow.Values.{is_same_list, numbers_exact, exact_eq, exact_partial_eq, exact_hash};

use super::FlowValue;
use crate::errors::OutOfMemory;
use crate::fault::FlowFault;
use std::alloc::{Allocator, Global};
use std::fmt;
use std::hash::{Hash, Hasher};
use std::marker::Model;

/// A text. Two texts are the same if their bytes are.
#[derive(Drop)]
pub struct Text<A: Allocator + Copy = Global> {
    text: String<A>,
}

impl<A: Allocator + Copy> Model for Text<A> {
    ghost use Rattle.std.specs.Prelude.{List, ℕ, string_bytes};

    ghost Value = { List ℕ };

    ghost view = { λ t. string_bytes t.text };
}

impl<A: Allocator + Copy> Text<A> {
    /// Makes a flow value from a text, which is not copied.
    pub fn new(text: String<A>) -> Self
        ensures { result ≡ string_bytes text }
    {
        Text { text }
    }

    /// Copies a text.
    ///
    /// # Errors
    /// Fails with `OutOfMemory` if there is no memory for the copy.
    pub fn from_str(alloc: A, text: &str) -> Result<Self, OutOfMemory>
        ensures copy { IfOk result (λ copy. copy ≡ text.now) }
    {
        match String::from_str(alloc, text) {
            Ok(text) => Ok(Text { text }),
            Err(_) => Err(OutOfMemory),
        }
    }

    /// Returns the text.
    pub fn as_str(&self) -> &str
        ensures { result.now ≡ self.now }
    {
        self.text.as_str()
    }

    /// Returns the owned text.
    pub fn into_inner(self) -> String<A>
        ensures { string_bytes result ≡ self }
    {
        self.text
    }
}

impl<A: Allocator + Copy> FlowValue for Text<A> {
    ghost is_same = { is_same_list nat_eq };

    fn try_copy(&self) -> Result<Text<A>, FlowFault> {
        match self.text.clone() {
            Ok(text) => Ok(Text { text }),
            Err(_) => Err(FlowFault::OutOfMemory),
        }
    }

    fn same(&self, other: &Text<A>) -> bool {
        self.text == other.text
    }

    ghost is_same_exact = { numbers_exact };
}

impl<A: Allocator + Copy> From<String<A>> for Text<A> {
    ghost from_gives = { λ text t. t ≡ string_bytes text };

    fn from(text: String<A>) -> Self {
        Text::new(text)
    }
}

impl<A: Allocator + Copy> PartialEq for Text<A> {
    ghost eq = { is_same_list nat_eq };

    ghost laws = { exact_partial_eq numbers_exact };

    fn eq(&self, other: &Self) -> bool
        ensures same { result ≡ is_same_list nat_eq self.now other.now }
        ensures exact { IsTrue result ↔ self.now ≡ other.now }
    {
        self.same(other)
    }
}

impl<A: Allocator + Copy> Eq for Text<A> {
    ghost laws = { exact_eq numbers_exact };
}

impl<A: Allocator + Copy> Hash for Text<A> {
    ghost hash_input = { fed.str };

    ghost respects_eq = { exact_hash numbers_exact fed.str };

    fn hash<H: Hasher>(&self, state: &mut H) {
        self.text.hash(state);
    }
}

/// Writes the text.
impl<A: Allocator + Copy> fmt::Display for Text<A> {
    ghost output = { Some };

    ghost styled_output = { λ text style. Some (styled_text style text) };

    fn fmt<W: fmt::Write>(&self, f: &mut fmt::Formatter<W>) -> fmt::Result {
        fmt::Display::fmt(&self.text, f)
    }
}

/// Writes the text between quotes.
impl<A: Allocator + Copy> fmt::Debug for Text<A> {
    ghost debug_output = { debug_str };

    fn fmt<W: fmt::Write>(&self, f: &mut fmt::Formatter<W>) -> fmt::Result {
        fmt::Debug::fmt(&self.text, f)
    }
}
