//! `runningReduce`: the first item, then the results so far.
ghost use Rattle.std.specs.Prelude.{◌≡◌, true, None, Result};
ghost use Rattle.flow_law.specs.declared.chain.ChainFault.{ChainFault};
ghost use Rattle.flow_law.specs.chain.OperatorRuns.{running_reduce_run};
ghost use Rattle.flow_operators.specs.Bound.{upstream_bound};
ghost use Rattle.flow_operators.specs.Closures.{ComputesPairs, NeverRefusesPairs};
ghost use Rattle.flow_operators.specs.Upstreams.{AsksUpstream, chain_of, is_ended, left_of};

use crate::cold::{Asked, Cold};
use crate::operators::last::keep_made;
use crate::upstream::Upstream;
use flow_law::ChainFault;

/// A chain of the first item, then of what a closure makes of the last result and each further item. It emits nothing
/// if there is no item.
#[derive(Drop)]
pub struct RunningReduce<C: Cold, F> {
    pub(crate) upstream: Upstream<C>,
    pub(crate) closure: F,
    pub(crate) last: Option<C::Item>,
}

impl<C, F> Cold for RunningReduce<C, F>
where
    C: Cold,
    F: Fn(C::Item, C::Item) -> Result<C::Item, ChainFault>,
{
    type Item = C::Item;

    ghost Reading = { C.Reading × (C.Item × C.Item → Result C.Item ChainFault) };

    ghost CanAsk = { λ s. C.CanAsk (chain_of s.upstream) × F.IsAlwaysCallable s.closure };

    ghost Reads = { λ s m.
        C.Reads (chain_of s.upstream) m.0 × ComputesPairs (F.post s.closure) m.1 };

    ghost whole = { λ s m. running_reduce_run m.1 None (C.whole (chain_of s.upstream) m.0) };

    ghost rest = { λ s m. running_reduce_run m.1 s.last (left_of (λ c. C.rest c m.0) s.upstream) };

    ghost bound = { upstream_bound (λ s. chain_of s.upstream) C.bound };

    ghost IsOver = { λ s. is_ended s.upstream ≡ true };

    ghost IsGiven = { λ s. C.IsGiven (chain_of s.upstream)
        × NeverRefusesPairs (F.post s.closure) × C.Item.IsAlwaysCopied };

    ghost AsksBehind = { λ old m result new.
        AsksUpstream (λ c. C.rest c m.0) old.upstream result new.upstream };

    fn ask(&mut self) -> Asked<C::Item> {
        match self.upstream.next() {
            Ok(item) => {
                let made = match self.last.take() {
                    Some(last) => (self.closure)(last, item),
                    None => Ok(item),
                };
                let kept = keep_made(&mut self.last, made);
                self.upstream.answer(kept)
            }
            Err(asked) => asked,
        }
    }

    fn rewind(&mut self) {
        self.last = None;
        self.upstream.rewind();
    }

    ghost limited = { λ l s. C.limited l (chain_of s.upstream) };
}
