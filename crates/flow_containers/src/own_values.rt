//! A subscriber's own first values.
ghost use Rattle.std.specs.Prelude.{◌≡◌, ◌∷◌, [], length, MatchOption};

use std::alloc::Allocator;
use std::marker::Model;

/// Values that are taken from the front without moving the others: they are stored in reverse.
#[derive(Drop)]
pub struct OwnValues<T: Drop, A: Allocator> {
    reversed: Vec<T, A>,
}

impl<T: Drop, A: Allocator> Model for OwnValues<T, A> {
    ghost use Rattle.std.specs.Prelude.{List, reverse};

    ghost Value = { List T };

    ghost view = { λ o. reverse o.reversed.items };
}

impl<T: Drop, A: Allocator> OwnValues<T, A> {
    /// Makes a list that gives these values in their order.
    pub fn new(first: Vec<T, A>) -> Self
        ensures { result ≡ first.items }
    {
        let mut reversed = first;
        reversed.reverse();
        OwnValues { reversed }
    }

    /// Returns the number of values that are left.
    pub fn len(&self) -> usize
        ensures { result ≡ length self.now }
    {
        self.reversed.len()
    }

    /// Removes the next value, and returns it.
    pub fn pop_front(&mut self) -> Option<T>
        ensures { MatchOption result ((self.old ≡ []) × self.new ≡ [])
            (λ first. self.old ≡ first ∷ self.new) }
    {
        self.reversed.pop()
    }
}
