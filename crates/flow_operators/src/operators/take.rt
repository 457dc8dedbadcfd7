//! `take`: the first items.
ghost use Rattle.std.specs.Prelude.{◌≡◌, ◌≢◌, ◌⊎◌, ◌<◌, true};
ghost use Rattle.flow_operators.specs.Asking.{AskGives, IsFinal, OnEnd};
ghost use Rattle.flow_operators.specs.Bound.{upstream_bound};
ghost use Rattle.flow_operators.specs.SameChain.{StaysChain};
ghost use Rattle.flow_operators.specs.Taking.{items_left, left_after};
ghost use Rattle.flow_operators.specs.Upstreams.{AsksUpstream, chain_of, is_ended, left_of};
ghost use Rattle.flow_law.specs.chain.OperatorRuns.{take_run};

use crate::cold::{Asked, Cold};
use crate::upstream::Upstream;
use flow_law::ChainFault;

/// A chain of the first `count` items. After the last of them the upstream is not asked again.
#[derive(Drop)]
pub struct Take<C> {
    pub(crate) upstream: Upstream<C>,
    pub(crate) count: u64,
    pub(crate) left: u64,
}

impl<C: Cold> Cold for Take<C> {
    type Item = C::Item;

    ghost Reading = { C.Reading };

    ghost CanAsk = { λ s. C.CanAsk (chain_of s.upstream) };

    ghost Reads = { λ s m. C.Reads (chain_of s.upstream) m };

    ghost whole = { λ s m. take_run s.count (C.whole (chain_of s.upstream) m) };

    ghost rest = { λ s m. take_run s.left (left_of (λ c. C.rest c m) s.upstream) };

    ghost bound = { upstream_bound (λ s. chain_of s.upstream) C.bound };

    ghost IsOver = { λ s. (s.left ≡ 0) ⊎ (is_ended s.upstream ≡ true) };

    ghost IsGiven = { λ s. C.IsGiven (chain_of s.upstream) };

    ghost AsksBehind = { λ old m result new.
        AsksUpstream (λ c. C.rest c m) old.upstream result new.upstream };

    // The trait's clauses, and the number of items that are left. After the last item the upstream does not change.
    fn ask(&mut self) -> Asked<C::Item>
        requires { ⟦<Take<C> as Cold>⟧.CanAsk self.old }
        ensures stays { StaysChain ⟦<Take<C> as Cold>⟧ self.old self.new }
        ensures gives { (m : C.Reading) → ⟦<Take<C> as Cold>⟧.Reads self.old m
            → AskGives (⟦<Take<C> as Cold>⟧.rest self.old m) result
            (⟦<Take<C> as Cold>⟧.rest self.new m) }
        ensures fewer { IsFinal result
            ⊎ ⟦<Take<C> as Cold>⟧.bound.most_asks self.new < ⟦<Take<C> as Cold>⟧.bound.most_asks self.old }
        ensures over { IsFinal result → ⟦<Take<C> as Cold>⟧.IsOver self.new }
        ensures answered { OnEnd result (⟦<Take<C> as Cold>⟧.HasAnswered self.new) }
        ensures behind { (¬ ⟦<Take<C> as Cold>⟧.IsOver self.old) → (m : C.Reading)
            → ⟦<Take<C> as Cold>⟧.Reads self.old m →
            ⟦<Take<C> as Cold>⟧.AsksBehind self.old m result self.new }
        ensures given { ⟦<Take<C> as Cold>⟧.IsGiven self.old
            → result ≢ Asked.Fault ChainFault.OutOfMemory }
        ensures end { ⟦<Take<C> as Cold>⟧.IsOver self.old →
            (result ≡ Asked.End) × self.new ≡ self.old }
        ensures left { items_left self.new ≡ left_after result (items_left self.old) }
        ensures last { items_left self.old ≡ 0 → (result ≡ Asked.End) × self.new ≡ self.old }
    {
        if self.left == 0 {
            return Asked::End;
        }
        match self.upstream.next() {
            Ok(item) => {
                self.left -= 1;
                Asked::Item(item)
            }
            Err(asked) => asked,
        }
    }

    fn rewind(&mut self) {
        self.left = self.count;
        self.upstream.rewind();
    }

    ghost limited = { λ l s. C.limited l (chain_of s.upstream) };
}
