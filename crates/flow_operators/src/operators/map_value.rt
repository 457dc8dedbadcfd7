//! `map` over a closure that cannot fail.
ghost use Rattle.std.specs.Prelude.{◌≡◌, true, Ok};
ghost use Rattle.flow_law.specs.chain.OperatorRuns.{map_run};
ghost use Rattle.flow_operators.specs.Bound.{upstream_bound};
ghost use Rattle.flow_operators.specs.Closures.{Makes};
ghost use Rattle.flow_operators.specs.Upstreams.{AsksUpstream, chain_of, is_ended, left_of};

use crate::cold::{Asked, Cold};
use crate::upstream::Upstream;
use flow_law::FlowValue;

/// A chain of what a closure that cannot fail makes of each item.
#[derive(Drop)]
pub struct MapValue<C, F> {
    pub(crate) upstream: Upstream<C>,
    pub(crate) closure: F,
}

impl<C, U, F> Cold for MapValue<C, F>
where
    C: Cold,
    U: FlowValue,
    F: Fn(C::Item) -> U,
{
    type Item = U;

    ghost Reading = { C.Reading × (C.Item → U) };

    ghost CanAsk = { λ s. C.CanAsk (chain_of s.upstream) × F.IsAlwaysCallable s.closure };

    ghost Reads = { λ s m. C.Reads (chain_of s.upstream) m.0 × Makes (F.post s.closure) m.1 };

    ghost whole = { λ s m. map_run (λ x. Ok (m.1 x)) (C.whole (chain_of s.upstream) m.0) };

    ghost rest = { λ s m. map_run (λ x. Ok (m.1 x)) (left_of (λ c. C.rest c m.0) s.upstream) };

    ghost bound = { upstream_bound (λ s. chain_of s.upstream) C.bound };

    ghost IsOver = { λ s. is_ended s.upstream ≡ true };

    ghost IsGiven = { λ s. C.IsGiven (chain_of s.upstream) };

    ghost AsksBehind = { λ old m result new. AsksUpstream (λ c. C.rest c m.0)
        old.upstream result new.upstream };

    fn ask(&mut self) -> Asked<U> {
        match self.upstream.next() {
            Ok(item) => { Asked::Item((self.closure)(item)) }
            Err(asked) => asked,
        }
    }

    fn rewind(&mut self) {
        self.upstream.rewind();
    }

    ghost limited = { λ l s. C.limited l (chain_of s.upstream) };
}
