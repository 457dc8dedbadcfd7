//! `drop`: all but the first items.
ghost use Rattle.std.specs.Prelude.{◌≡◌, true};
ghost use Rattle.flow_law.specs.chain.OperatorRuns.{drop_run};
ghost use Rattle.flow_operators.specs.Behind.{Leaves, after_drop};
ghost use Rattle.flow_operators.specs.Bound.{upstream_bound};
ghost use Rattle.flow_operators.specs.Upstreams.{chain_of, is_ended, left_of};

use crate::cold::{Asked, Cold};
use crate::upstream::Upstream;

/// A chain without its first `count` items.
#[derive(Drop)]
pub struct DropFirst<C> {
    pub(crate) upstream: Upstream<C>,
    pub(crate) count: u64,
    pub(crate) to_drop: u64,
}

impl<C: Cold> Cold for DropFirst<C> {
    type Item = C::Item;

    ghost Reading = { C.Reading };

    ghost CanAsk = { λ s. C.CanAsk (chain_of s.upstream) };

    ghost Reads = { λ s m. C.Reads (chain_of s.upstream) m };

    ghost whole = { λ s m. drop_run (C.whole (chain_of s.upstream) m) s.count };

    ghost rest = { λ s m. drop_run (left_of (λ c. C.rest c m) s.upstream) s.to_drop };

    ghost bound = { upstream_bound (λ s. chain_of s.upstream) C.bound };

    ghost IsOver = { λ s. is_ended s.upstream ≡ true };

    ghost IsGiven = { λ s. C.IsGiven (chain_of s.upstream) };

    ghost AsksBehind = { λ old m result new.
        Leaves (after_drop (C.rest (chain_of old.upstream) m) old.to_drop)
        result (C.rest (chain_of new.upstream) m) };

    fn ask(&mut self) -> Asked<C::Item> {
        loop {
            match self.upstream.next() {
                Ok(item) => {
                    if self.to_drop == 0 {
                        return Asked::Item(item);
                    }
                    self.to_drop -= 1;
                }
                Err(asked) => return asked,
            }
        }
    }

    fn rewind(&mut self) {
        self.to_drop = self.count;
        self.upstream.rewind();
    }

    ghost limited = { λ l s. C.limited l (chain_of s.upstream) };
}
