//! A range of whole numbers as a chain.
ghost use Rattle.std.specs.Prelude.{◌≡◌, ◌^◌, min, ⊤};
ghost use Rattle.flow_operators.specs.Bound.{limited_to};
ghost use Rattle.flow_operators.specs.Sources.{range_left, range_rest, range_run};
ghost use Rattle.std.proofs.Common.{arith};

use crate::cold::{Asked, Cold};

/// A chain of the numbers from `first` to `last`, both included; it is empty if `first` is above `last`.
#[derive(Drop)]
pub struct OfRange {
    first: i64,
    last: i64,
    next: i64,
    // Read only if `next` is not below `last`, so that an ask for an earlier number only compares and adds.
    gave_last: bool,
}

impl OfRange {
    /// Makes a chain of these numbers. It keeps only the next one.
    pub fn new(first: i64, last: i64) -> Self
        ensures callable { ⟦<OfRange as Cold>⟧.CanAsk result }
        ensures reads { ⟦<OfRange as Cold>⟧.Reads result tt }
        ensures given { ⟦<OfRange as Cold>⟧.IsGiven result }
        ensures whole { ⟦<OfRange as Cold>⟧.whole result tt ≡ range_run first last }
        ensures rest { ⟦<OfRange as Cold>⟧.rest result tt ≡ range_run first last }
    {
        OfRange {
            first,
            last,
            next: first,
            gave_last: false,
        }
    }
}

impl Cold for OfRange {
    type Item = i64;

    ghost Reading = { ⊤ };

    ghost CanAsk = { λ _. ⊤ };

    ghost Reads = { λ _ _. ⊤ };

    ghost whole = { λ s _. range_run s.first s.last };

    ghost rest = { λ s _. range_rest s };

    // A range of 64-bit numbers has at most 2 ^ 64 of them. With `min`, `limited` needs no bounds of the fields.
    ghost bound = { limited_to (2 ^ 64) (λ s. min (range_left s) (2 ^ 64)) };

    ghost IsOver = { λ s. range_left s ≡ 0 };

    ghost IsGiven = { λ _. ⊤ };

    ghost AsksBehind = { λ _ _ _ _. ⊤ };

    fn ask(&mut self) -> Asked<i64> {
        let item = self.next;
        if item < self.last {
            self.next = item + 1;
            return Asked::Item(item);
        }
        if self.gave_last || item > self.last {
            return Asked::End;
        }
        self.gave_last = true;
        Asked::Item(item)
    }

    fn rewind(&mut self) {
        self.gave_last = false;
        self.next = self.first;
    }

    ghost limited = { λ _ s. Prim.omega arith };
}
