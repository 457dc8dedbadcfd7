//! A list as a chain.
ghost use Rattle.std.specs.Prelude.{◌≡◌, ◌≤◌, ◌-◌, ◌^◌, drop, length, ⊤};
ghost use Rattle.flow_operators.specs.Bound.{limited_to};
ghost use Rattle.flow_law.specs.chain.ChainRun.{ChainRun, list_run};
ghost use Rattle.std.proofs.Common.{arith};

use crate::cold::{Asked, Cold};
use flow_law::{ChainFault, FlowValue};
use std::alloc::{Allocator, Global};

/// A chain of the items of a list.
pub struct OfList<T, A: Allocator = Global> {
    items: Vec<T, A>,
    at: usize,
}

// Not derived: otherwise each crate that drops a list's chain would prove again how it is dropped.
impl<T: Drop, A: Allocator> Drop for OfList<T, A> {
    fn drop(self) {
        let Self { items: _, at: _ } = self;
    }
}

impl<T: FlowValue, A: Allocator> OfList<T, A> {
    /// Makes a chain of this list. It emits a copy of each item, so the list can be emitted again.
    pub fn new(items: Vec<T, A>) -> Self
        ensures callable { ⟦<OfList<T, A> as Cold>⟧.CanAsk result }
        ensures reads { ⟦<OfList<T, A> as Cold>⟧.Reads result tt }
        ensures given { T.IsAlwaysCopied → ⟦<OfList<T, A> as Cold>⟧.IsGiven result }
        ensures whole { ⟦<OfList<T, A> as Cold>⟧.whole result tt ≡ list_run items.items }
        ensures rest { ⟦<OfList<T, A> as Cold>⟧.rest result tt ≡ list_run items.items }
    {
        OfList { items, at: 0 }
    }
}

impl<T: FlowValue, A: Allocator> Cold for OfList<T, A> {
    type Item = T;

    ghost Reading = { ⊤ };

    ghost CanAsk = { λ _. ⊤ };

    ghost Reads = { λ _ _. ⊤ };

    ghost whole = { λ s _. list_run s.items.items };

    ghost rest = { λ s _. list_run (drop s.at s.items.items) };

    ghost bound = { limited_to (2 ^ 64) (λ s. length s.items.items - s.at) };

    ghost IsOver = { λ s. length s.items.items ≤ s.at };

    ghost IsGiven = { λ _. T.IsAlwaysCopied };

    ghost AsksBehind = { λ _ _ _ _. ⊤ };

    fn ask(&mut self) -> Asked<T> {
        if self.at >= self.items.len() {
            return Asked::End;
        }
        match self.items[self.at].try_copy() {
            Ok(item) => {
                self.at += 1;
                Asked::Item(item)
            }
            Err(_) => {
                self.at = self.items.len();
                Asked::Fault(ChainFault::OutOfMemory)
            }
        }
    }

    fn rewind(&mut self) {
        self.at = 0;
    }

    ghost limited = { λ _ s. Prim.omega (arith, s.items.ok.0) };
}
