//! `zip`: pairs of two chains.
ghost use Rattle.std.specs.Prelude.{◌≡◌, ◌+◌, true, Result};
ghost use Rattle.flow_law.specs.declared.chain.ChainFault.{ChainFault};
ghost use Rattle.flow_law.specs.chain.OperatorRuns.{zip_run};
ghost use Rattle.flow_operators.specs.Closures.{ComputesPairs, NeverRefusesPairs};
ghost use Rattle.flow_operators.specs.Pairs.{AsksSides, is_zip_over, left_chain, most_pairs, pairs_rest, right_chain};
ghost use Rattle.std.proofs.Common.{arith};

use crate::cold::{Asked, Cold};
use crate::operators::pairs::Pairs;
use flow_law::{ChainFault, FlowValue};

/// A chain of what a closure makes of each pair. It ends as its shorter side does, or as the left one if both are as
/// long.
///
/// For each pair the left side is asked first. If it pends, the right side is not asked. If the right side pends, the
/// left item is kept.
#[derive(Drop)]
pub struct Zip<L: Cold, R, F> {
    pub(crate) pairs: Pairs<L, R, L::Item>,
    pub(crate) closure: F,
}

impl<L, R, U, F> Cold for Zip<L, R, F>
where
    L: Cold,
    R: Cold,
    U: FlowValue,
    F: Fn(L::Item, R::Item) -> Result<U, ChainFault>,
{
    type Item = U;

    ghost Reading = { (L.Reading × R.Reading) × (L.Item × R.Item → Result U ChainFault) };

    ghost CanAsk = { λ s.
        L.CanAsk (left_chain s.pairs) ×
        R.CanAsk (right_chain s.pairs) × F.IsAlwaysCallable s.closure };

    ghost Reads = { λ s m.
        (L.Reads (left_chain s.pairs) m.0.0 × R.Reads (right_chain s.pairs) m.0.1)
        × ComputesPairs (F.post s.closure) m.1 };

    ghost whole = { λ s m. zip_run m.1
        (L.whole (left_chain s.pairs) m.0.0) (R.whole (right_chain s.pairs) m.0.1) };

    ghost rest = { λ s m. pairs_rest (λ c. L.rest c m.0.0) (λ c. R.rest c m.0.1) m.1 s.pairs };

    ghost bound = { record {
      most_asks = λ s. most_pairs L.bound.most_asks R.bound.most_asks s.pairs;
      IsLimited = L.bound.IsLimited × R.bound.IsLimited;
      limit = L.bound.limit + R.bound.limit;
    } };

    ghost IsOver = { λ s. is_zip_over s.pairs ≡ true };

    ghost IsGiven = { λ s. L.IsGiven (left_chain s.pairs)
        × R.IsGiven (right_chain s.pairs) × NeverRefusesPairs (F.post s.closure) };

    ghost AsksBehind = { λ old m result new.
        AsksSides (λ c. L.rest c m.0.0) (λ c. R.rest c m.0.1) old.pairs result new.pairs };

    fn ask(&mut self) -> Asked<U> {
        match self.pairs.next() {
            Ok((left, right)) => {
                let made = (self.closure)(left, right);
                self.pairs.left.answer(made)
            }
            Err(asked) => asked,
        }
    }

    fn rewind(&mut self) {
        self.pairs.kept = None;
        self.pairs.left.rewind();
        self.pairs.right.rewind();
    }

    ghost limited = { λ l s. Prim.omega (arith, L.limited l.0 (left_chain s.pairs), R.limited l.1 (right_chain s.pairs)) };
}
