//! `distinctUntilChanged`: the items that differ from the one before.
ghost use Rattle.std.specs.Prelude.{◌≡◌, true, None};
ghost use Rattle.flow_law.specs.chain.OperatorRuns.{distinct_run, is_repeated};
ghost use Rattle.flow_operators.specs.Behind.{Leaves, after_distinct};
ghost use Rattle.flow_operators.specs.Bound.{upstream_bound};
ghost use Rattle.flow_operators.specs.Upstreams.{chain_of, is_ended, left_of};

use crate::cold::{Asked, Cold};
use crate::operators::last::keep;
use crate::upstream::Upstream;
use flow_law::FlowValue;

/// A chain without the items that are the same as the item before.
#[derive(Drop)]
pub struct Distinct<C: Cold> {
    pub(crate) upstream: Upstream<C>,
    pub(crate) last: Option<C::Item>,
}

impl<C: Cold> Cold for Distinct<C> {
    type Item = C::Item;

    ghost Reading = { C.Reading };

    ghost CanAsk = { λ s. C.CanAsk (chain_of s.upstream) };

    ghost Reads = { λ s m. C.Reads (chain_of s.upstream) m };

    ghost whole = { λ s m. distinct_run C.Item.is_same None (C.whole (chain_of s.upstream) m) };

    ghost rest = { λ s m.
        distinct_run C.Item.is_same s.last (left_of (λ c. C.rest c m) s.upstream) };

    ghost bound = { upstream_bound (λ s. chain_of s.upstream) C.bound };

    ghost IsOver = { λ s. is_ended s.upstream ≡ true };

    ghost IsGiven = { λ s. C.IsGiven (chain_of s.upstream) × C.Item.IsAlwaysCopied };

    ghost AsksBehind = { λ old m result new.
        Leaves (after_distinct C.Item.is_same old.last (C.rest (chain_of old.upstream) m))
        result (C.rest (chain_of new.upstream) m) };

    fn ask(&mut self) -> Asked<C::Item> {
        loop {
            match self.upstream.next() {
                Ok(item) => {
                    if !is_last(&self.last, &item) {
                        let kept = keep(&mut self.last, item);
                        return self.upstream.answer(kept);
                    }
                }
                Err(asked) => return asked,
            }
        }
    }

    fn rewind(&mut self) {
        self.last = None;
        self.upstream.rewind();
    }

    ghost limited = { λ l s. C.limited l (chain_of s.upstream) };
}

/// Returns whether `item` is the same as the last one.
fn is_last<T: FlowValue>(last: &Option<T>, item: &T) -> bool
    ensures { result ≡ is_repeated T.is_same last.now item.now }
{
    match last {
        Some(last) => last.same(item),
        None => false,
    }
}
