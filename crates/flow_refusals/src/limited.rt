//! A value that refuses one of its copies.
ghost use Rattle.std.specs.Prelude.{◌≡◌};
ghost use Rattle.std.specs.Ordering.{int_eq};
ghost use Rattle.flow_law.specs.flow.Values.{whole_exact};

use flow_law::{FlowFault, FlowValue};
use std::cell::Cell;
use std::marker::Model;

/// A number that counts its copies. Two values are the same if their numbers are equal, whatever their counts.
#[derive(Drop)]
pub struct CopyLimited<'a> {
    number: i64,
    copies: &'a Cell<u64>,
}

impl<'a> Model for CopyLimited<'a> {
    ghost use Rattle.std.specs.Prelude.{ℤ};

    ghost Value = { ℤ };

    ghost view = { λ value. value.number };
}

/// Counts a copy. Returns whether it is refused.
fn refuses(copies: &Cell<u64>) -> bool {
    let left = copies.get();
    if left > 0 {
        copies.set(left - 1);
    }
    left == 1
}

impl<'a> CopyLimited<'a> {
    /// Returns a value of this number. The copy that takes `copies` from 1 to 0 is refused, and no later one. With 0
    /// none is refused.
    pub fn new(number: i64, copies: &'a Cell<u64>) -> CopyLimited<'a>
        ensures { result ≡ number }
    {
        CopyLimited { number, copies }
    }

    /// Returns the number.
    pub fn number(&self) -> i64
        ensures { result ≡ self.now }
    {
        self.number
    }
}

impl FlowValue for CopyLimited<'_> {
    ghost is_same = { int_eq };

    fn try_copy(&self) -> Result<Self, FlowFault> {
        if refuses(self.copies) {
            return Err(FlowFault::OutOfMemory);
        }
        Ok(CopyLimited {
            number: self.number,
            copies: self.copies,
        })
    }

    fn same(&self, other: &Self) -> bool {
        self.number == other.number
    }

    ghost is_same_exact = { whole_exact };
}
