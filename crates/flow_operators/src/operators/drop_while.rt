//! `dropWhile`: the items from the first one that fails a test.
ghost use Rattle.std.specs.Prelude.{◌≡◌, true, Bool};
ghost use Rattle.std.specs.Fn.{FnReturnsAt};
ghost use Rattle.flow_law.specs.chain.OperatorRuns.{drop_while_run};
ghost use Rattle.flow_operators.specs.Behind.{Leaves, after_drop_while};
ghost use Rattle.flow_operators.specs.Bound.{upstream_bound};
ghost use Rattle.flow_operators.specs.Closures.{Decides};
ghost use Rattle.flow_operators.specs.Kept.{drop_while_rest};
ghost use Rattle.flow_operators.specs.Upstreams.{chain_of, is_ended, left_of};

use crate::cold::{Asked, Cold};
use crate::operators::passing::next_where;
use crate::upstream::Upstream;

/// A chain without its first items that pass a test. Items after the first one that fails are not tested.
#[derive(Drop)]
pub struct DropWhile<C, F> {
    pub(crate) upstream: Upstream<C>,
    pub(crate) test: F,
    pub(crate) dropping: bool,
}

impl<C: Cold, F: Fn(&C::Item) -> bool> Cold for DropWhile<C, F> {
    type Item = C::Item;

    ghost Reading = { C.Reading × (C.Item → Bool) };

    ghost CanAsk = { λ s. C.CanAsk (chain_of s.upstream) × F.IsAlwaysCallable s.test };

    ghost Reads = { λ s m. C.Reads (chain_of s.upstream) m.0
        × Decides (λ x b. FnReturnsAt F.Fn s.test x b) m.1 };

    ghost whole = { λ s m. drop_while_run m.1 (C.whole (chain_of s.upstream) m.0) };

    ghost rest = { λ s m. drop_while_rest m.1 s.dropping (left_of (λ c. C.rest c m.0) s.upstream) };

    ghost bound = { upstream_bound (λ s. chain_of s.upstream) C.bound };

    ghost IsOver = { λ s. is_ended s.upstream ≡ true };

    ghost IsGiven = { λ s. C.IsGiven (chain_of s.upstream) };

    ghost AsksBehind = { λ old m result new.
        Leaves (after_drop_while m.1 old.dropping (C.rest (chain_of old.upstream) m.0))
        result (C.rest (chain_of new.upstream) m.0) };

    fn ask(&mut self) -> Asked<C::Item> {
        if !self.dropping {
            return match self.upstream.next() {
                Ok(item) => Asked::Item(item),
                Err(asked) => asked,
            };
        }
        match next_where(&mut self.upstream, &self.test, false) {
            Ok(item) => {
                self.dropping = false;
                Asked::Item(item)
            }
            Err(asked) => asked,
        }
    }

    fn rewind(&mut self) {
        self.dropping = true;
        self.upstream.rewind();
    }

    ghost limited = { λ l s. C.limited l (chain_of s.upstream) };
}
