//! `map`: what a closure makes of each item.
ghost use Rattle.std.specs.Prelude.{◌≡◌, true, Result};
ghost use Rattle.flow_law.specs.declared.chain.ChainFault.{ChainFault};
ghost use Rattle.flow_law.specs.chain.OperatorRuns.{map_run};
ghost use Rattle.flow_operators.specs.Bound.{upstream_bound};
ghost use Rattle.flow_operators.specs.Closures.{Computes, NeverRefuses};
ghost use Rattle.flow_operators.specs.Upstreams.{AsksUpstream, chain_of, is_ended, left_of};

use crate::cold::{Asked, Cold};
use crate::upstream::Upstream;
use flow_law::{ChainFault, FlowValue};

/// A chain of what a closure makes of each item.
#[derive(Drop)]
pub struct Map<C, F> {
    pub(crate) upstream: Upstream<C>,
    pub(crate) closure: F,
}

impl<C, U, F> Cold for Map<C, F>
where
    C: Cold,
    U: FlowValue,
    F: Fn(C::Item) -> Result<U, ChainFault>,
{
    type Item = U;

    ghost Reading = { C.Reading × (C.Item → Result U ChainFault) };

    ghost CanAsk = { λ s. C.CanAsk (chain_of s.upstream) × F.IsAlwaysCallable s.closure };

    ghost Reads = { λ s m. C.Reads (chain_of s.upstream) m.0 × Computes (F.post s.closure) m.1 };

    ghost whole = { λ s m. map_run m.1 (C.whole (chain_of s.upstream) m.0) };

    ghost rest = { λ s m. map_run m.1 (left_of (λ c. C.rest c m.0) s.upstream) };

    ghost bound = { upstream_bound (λ s. chain_of s.upstream) C.bound };

    ghost IsOver = { λ s. is_ended s.upstream ≡ true };

    ghost IsGiven = { λ s. C.IsGiven (chain_of s.upstream) × NeverRefuses (F.post s.closure) };

    ghost AsksBehind = { λ old m result new.
        AsksUpstream (λ c. C.rest c m.0) old.upstream result new.upstream };

    fn ask(&mut self) -> Asked<U> {
        match self.upstream.next() {
            Ok(item) => {
                let made = (self.closure)(item);
                self.upstream.answer(made)
            }
            Err(asked) => asked,
        }
    }

    fn rewind(&mut self) {
        self.upstream.rewind();
    }

    ghost limited = { λ l s. C.limited l (chain_of s.upstream) };
}
