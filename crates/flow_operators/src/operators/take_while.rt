//! `takeWhile`: the items before the first one that fails a test.
ghost use Rattle.std.specs.Prelude.{◌≡◌, true, Bool};
ghost use Rattle.flow_law.specs.chain.OperatorRuns.{take_while_run};
ghost use Rattle.flow_operators.specs.Bound.{upstream_bound};
ghost use Rattle.flow_operators.specs.Closures.{Decides};
ghost use Rattle.flow_operators.specs.Upstreams.{AsksUpstream, chain_of, is_ended, left_of};
ghost use Rattle.std.specs.Fn.{FnReturnsAt};

use crate::cold::{Asked, Cold};
use crate::operators::passing::passes;
use crate::upstream::Upstream;

/// A chain of the items before the first one that fails a test. That item is dropped, and ends the chain.
#[derive(Drop)]
pub struct TakeWhile<C, F> {
    pub(crate) upstream: Upstream<C>,
    pub(crate) test: F,
}

impl<C: Cold, F: Fn(&C::Item) -> bool> Cold for TakeWhile<C, F> {
    type Item = C::Item;

    ghost Reading = { C.Reading × (C.Item → Bool) };

    ghost CanAsk = { λ s. C.CanAsk (chain_of s.upstream) × F.IsAlwaysCallable s.test };

    ghost Reads = { λ s m. C.Reads (chain_of s.upstream) m.0
        × Decides (λ x b. FnReturnsAt F.Fn s.test x b) m.1 };

    ghost whole = { λ s m. take_while_run m.1 (C.whole (chain_of s.upstream) m.0) };

    ghost rest = { λ s m. take_while_run m.1 (left_of (λ c. C.rest c m.0) s.upstream) };

    ghost bound = { upstream_bound (λ s. chain_of s.upstream) C.bound };

    ghost IsOver = { λ s. is_ended s.upstream ≡ true };

    ghost IsGiven = { λ s. C.IsGiven (chain_of s.upstream) };

    ghost AsksBehind = { λ old m result new. AsksUpstream
        (λ c. C.rest c m.0) old.upstream result new.upstream };

    fn ask(&mut self) -> Asked<C::Item> {
        match self.upstream.next() {
            Ok(item) if passes(&self.test, &item) => Asked::Item(item),
            Ok(_) => self.upstream.end(),
            Err(asked) => asked,
        }
    }

    fn rewind(&mut self) {
        self.upstream.rewind();
    }

    ghost limited = { λ l s. C.limited l (chain_of s.upstream) };
}
