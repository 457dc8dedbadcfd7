//! `filter`: the items that pass a test.
ghost use Rattle.std.specs.Prelude.{◌≡◌, true, Bool};
ghost use Rattle.std.specs.Fn.{FnReturnsAt};
ghost use Rattle.flow_law.specs.chain.OperatorRuns.{filter_run};
ghost use Rattle.flow_operators.specs.Behind.{Leaves, after_filter};
ghost use Rattle.flow_operators.specs.Bound.{upstream_bound};
ghost use Rattle.flow_operators.specs.Closures.{Decides};
ghost use Rattle.flow_operators.specs.Upstreams.{chain_of, is_ended, left_of};

use crate::cold::{Asked, Cold};
use crate::operators::passing::next_where;
use crate::upstream::Upstream;

/// A chain of the items that pass a test.
#[derive(Drop)]
pub struct Filter<C, F> {
    pub(crate) upstream: Upstream<C>,
    pub(crate) test: F,
}

impl<C: Cold, F: Fn(&C::Item) -> bool> Cold for Filter<C, F> {
    type Item = C::Item;

    ghost Reading = { C.Reading × (C.Item → Bool) };

    ghost CanAsk = { λ s. C.CanAsk (chain_of s.upstream) × F.IsAlwaysCallable s.test };

    ghost Reads = { λ s m. C.Reads (chain_of s.upstream) m.0
        × Decides (λ x b. FnReturnsAt F.Fn s.test x b) m.1 };

    ghost whole = { λ s m. filter_run m.1 (C.whole (chain_of s.upstream) m.0) };

    ghost rest = { λ s m. filter_run m.1 (left_of (λ c. C.rest c m.0) s.upstream) };

    ghost bound = { upstream_bound (λ s. chain_of s.upstream) C.bound };

    ghost IsOver = { λ s. is_ended s.upstream ≡ true };

    ghost IsGiven = { λ s. C.IsGiven (chain_of s.upstream) };

    ghost AsksBehind = { λ old m result new.
        Leaves (after_filter m.1 (C.rest (chain_of old.upstream) m.0))
        result (C.rest (chain_of new.upstream) m.0) };

    fn ask(&mut self) -> Asked<C::Item> {
        match next_where(&mut self.upstream, &self.test, true) {
            Ok(item) => Asked::Item(item),
            Err(asked) => asked,
        }
    }

    fn rewind(&mut self) {
        self.upstream.rewind();
    }

    ghost limited = { λ l s. C.limited l (chain_of s.upstream) };
}
