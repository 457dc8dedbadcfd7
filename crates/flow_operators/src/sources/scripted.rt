//! A source that follows a script.
ghost use Rattle.std.specs.Prelude.{◌≡◌, ◌≤◌, ◌-◌, ◌^◌, drop, length, ⊤};
ghost use Rattle.flow_operators.specs.Bound.{limited_to};
ghost use Rattle.std.proofs.Common.{arith};

use crate::cold::{Asked, Cold};
use flow_law::{ChainFault, FlowValue};
use std::alloc::{Allocator, Global};

/// An entry of a script.
#[derive(Debug, Drop)]
pub enum Entry<T> {
    Item(T),
    /// One ask answers `Pending`.
    Pending,
    /// The source fails with this number.
    Fault(u32),
}

/// A chain that emits items, pends and fails as its entries say. It ends at the first fault, or after the last entry.
#[derive(Drop)]
pub struct Scripted<T, A: Allocator = Global> {
    entries: Vec<Entry<T>, A>,
    at: usize,
}

impl<T: FlowValue, A: Allocator> Scripted<T, A> {
    ghost use Rattle.flow_operators.specs.Sources.{scripted_run};

    /// Makes a chain of these entries. It emits a copy of each item. Entries after the first fault are never reached.
    pub fn new(entries: Vec<Entry<T>, A>) -> Self
        ensures callable { ⟦<Scripted<T, A> as Cold>⟧.CanAsk result }
        ensures reads { ⟦<Scripted<T, A> as Cold>⟧.Reads result tt }
        ensures given { T.IsAlwaysCopied → ⟦<Scripted<T, A> as Cold>⟧.IsGiven result }
        ensures whole { ⟦<Scripted<T, A> as Cold>⟧.whole result tt ≡ scripted_run entries.items }
        ensures rest { ⟦<Scripted<T, A> as Cold>⟧.rest result tt ≡ scripted_run entries.items }
    {
        Scripted { entries, at: 0 }
    }
}

impl<T: FlowValue, A: Allocator> Cold for Scripted<T, A> {
    ghost use Rattle.flow_operators.specs.Sources.{scripted_run};

    type Item = T;

    ghost Reading = { ⊤ };

    ghost CanAsk = { λ _. ⊤ };

    ghost Reads = { λ _ _. ⊤ };

    ghost whole = { λ s _. scripted_run s.entries.items };

    ghost rest = { λ s _. scripted_run (drop s.at s.entries.items) };

    ghost bound = { limited_to (2 ^ 64) (λ s. length s.entries.items - s.at) };

    ghost IsOver = { λ s. length s.entries.items ≤ s.at };

    ghost IsGiven = { λ _. T.IsAlwaysCopied };

    ghost AsksBehind = { λ _ _ _ _. ⊤ };

    fn ask(&mut self) -> Asked<T> {
        if self.at >= self.entries.len() {
            return Asked::End;
        }
        match &self.entries[self.at] {
            Entry::Item(item) => match item.try_copy() {
                Ok(copy) => {
                    self.at += 1;
                    Asked::Item(copy)
                }
                Err(_) => {
                    self.at = self.entries.len();
                    Asked::Fault(ChainFault::OutOfMemory)
                }
            },
            Entry::Pending => {
                self.at += 1;
                Asked::Pending
            }
            Entry::Fault(number) => {
                let fault = ChainFault::Source(*number);
                self.at = self.entries.len();
                Asked::Fault(fault)
            }
        }
    }

    fn rewind(&mut self) {
        self.at = 0;
    }

    ghost limited = { λ _ s. Prim.omega (arith, s.entries.ok.0) };
}
