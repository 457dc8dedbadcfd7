//! Pairs of the items of two chains, for `zip`.
ghost use Rattle.std.specs.Prelude.{◌≡◌, ◌≢◌, ◌⊎◌, ◌<◌, true, false, IfOk, IfErr};
ghost use Rattle.flow_law.specs.declared.chain.ChainFault.TheVariants.{OutOfMemory};
ghost use Rattle.flow_operators.specs.Asking.{IsFinal};
ghost use Rattle.flow_operators.specs.Pairs.{AsksSides, PairGives};
ghost use Rattle.flow_operators.specs.Pairs.{is_zip_over, left_chain, most_pairs, right_chain};
ghost use Rattle.flow_operators.specs.SameChain.{StaysChain};
ghost use Rattle.flow_operators.specs.Upstreams.{WithAnswer};

use crate::cold::{Asked, Cold};
use crate::upstream::Upstream;

/// Two chains, and a kept left item for which the right side has pended. The pairs have ended if the left side has.
#[derive(Drop)]
pub(crate) struct Pairs<L, R, A> {
    pub(crate) left: Upstream<L>,
    pub(crate) right: R,
    pub(crate) kept: Option<A>,
}

impl<L: Cold, R: Cold> Pairs<L, R, L::Item> {
    /// Returns the next pair, or the answer in place of one.
    pub(crate) fn next<U>(&mut self) -> Result<(L::Item, R::Item), Asked<U>>
        requires left { L.CanAsk (left_chain self.old) }
        requires right { R.CanAsk (right_chain self.old) }
        ensures left_stays { StaysChain L.Cold (left_chain self.old) (left_chain self.new) }
        ensures right_stays { StaysChain R.Cold (right_chain self.old) (right_chain self.new) }
        ensures gives { (m : L.Reading) (n : R.Reading) →
            L.Reads (left_chain self.old) m → R.Reads (right_chain self.old) n
            → PairGives (λ c. L.rest c m) (λ c. R.rest c n) self.old result self.new }
        ensures runs { IfOk result (λ _. is_zip_over self.new ≡ false) }
        ensures fewer { IfOk result (λ _. most_pairs L.bound.most_asks R.bound.most_asks self.new
            < most_pairs L.bound.most_asks R.bound.most_asks self.old) }
        ensures pends { IfErr result (λ asked.
            IsFinal asked ⊎ most_pairs L.bound.most_asks R.bound.most_asks self.new
            < most_pairs L.bound.most_asks R.bound.most_asks self.old) }
        ensures over { IfErr result (λ asked. IsFinal asked → is_zip_over self.new ≡ true) }
        ensures given { L.IsGiven (left_chain self.old) → R.IsGiven (right_chain self.old)
            → IfErr result (λ asked. asked ≢ Asked.Fault OutOfMemory) }
        ensures behind { (¬ (is_zip_over self.old ≡ true)) → (m : L.Reading) (n : R.Reading)
            → L.Reads (left_chain self.old) m → R.Reads (right_chain self.old) n
            → WithAnswer result (λ asked.
            AsksSides (λ c. L.rest c m) (λ c. R.rest c n) self.old asked self.new) }
        ensures end { is_zip_over self.old ≡ true → (result ≡ Err Asked.End) × self.new ≡ self.old }
    {
        if self.left.ended {
            return Err(Asked::End);
        }
        let left = match self.kept.take() {
            Some(left) => left,
            None => self.left.next()?,
        };
        match self.right.ask() {
            Asked::Item(right) => Ok((left, right)),
            Asked::Pending => {
                self.kept = Some(left);
                Err(Asked::Pending)
            }
            Asked::End => Err(self.left.end()),
            Asked::Fault(fault) => Err(self.left.fail(fault)),
        }
    }
}
