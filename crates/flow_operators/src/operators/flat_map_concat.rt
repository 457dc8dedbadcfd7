//! `flatMapConcat`: inner chains, one after the other.
ghost use Rattle.std.specs.Prelude.{◌≡◌, ◌≢◌, ◌⊎◌, ◌<◌, ◌+◌, ◌*◌, true, None, Result, IfOk, IfSome};
ghost use Rattle.flow_law.specs.chain.ChainRun.{ChainRun};
ghost use Rattle.flow_law.specs.chain.OperatorRuns.{flat_map_run, followed};
ghost use Rattle.flow_operators.specs.Behind.{Leaves, after_flat_map, unless_completed};
ghost use Rattle.flow_operators.specs.Kept.{inner_left, most_inner, unless_ended};
ghost use Rattle.flow_operators.specs.Upstreams.{chain_of, is_ended};
ghost use Rattle.flow_operators.specs.Asking.{AskGives, IsFinal};
ghost use Rattle.flow_operators.specs.Closures.{NeverRefuses, Opens, OpensOnly, OpensTo};
ghost use Rattle.flow_operators.specs.InnerChains.{ReadsByItem, inner_chain, rest_by_item};
ghost use Rattle.std.proofs.Common.{arith};
ghost use Rattle.std.proofs.lemmas.Grind.{common_steps};

use crate::cold::{Asked, Cold};
use crate::upstream::Upstream;
use flow_law::ChainFault;
use std::snapshot::Snapshot;

/// An inner chain, and the item that the closure made it of. The item is moved into the closure, so only contracts see
/// it here.
#[derive(Drop)]
pub(crate) struct InnerChain<A, D> {
    item: Snapshot<A>,
    chain: D,
}

/// A chain of the items of the inner chains that a closure makes of each item, one chain after the other.
///
/// An inner chain is started from its beginning before it is asked. Its fault ends the whole chain.
#[derive(Drop)]
pub struct FlatMapConcat<C: Cold, D, F> {
    pub(crate) upstream: Upstream<C>,
    pub(crate) inner: Option<InnerChain<C::Item, D>>,
    pub(crate) closure: F,
}

impl<C, D, F> Cold for FlatMapConcat<C, D, F>
where
    C: Cold,
    D: Cold,
    F: Fn(C::Item) -> Result<D, ChainFault>,
{
    ghost use Rattle.flow_law.specs.declared.chain.ChainFault.{ChainFault};

    type Item = D::Item;

    // A reading of the upstream, a reading of the inner chain of each item, and that chain's run.
    ghost Reading = { (C.Reading × (C.Item → D.Reading)) × (C.Item → Result (ChainRun D.Item) ChainFault) };

    ghost CanAsk = { λ s. C.CanAsk (chain_of s.upstream)
        × IfSome s.inner (λ inner. D.CanAsk (inner_chain inner))
        × F.IsAlwaysCallable s.closure × OpensOnly D.CanAsk (F.post s.closure) × D.bound.IsLimited };

    ghost Reads = { λ s m.
        (C.Reads (chain_of s.upstream) m.0.0 × IfSome s.inner (ReadsByItem D.Reads m.0.1))
        × Opens D.Reads D.whole (F.post s.closure) m.0.1 m.1 };

    ghost whole = { λ s m. flat_map_run m.1 (C.whole (chain_of s.upstream) m.0.0) };

    ghost rest = { λ s m. unless_ended (is_ended s.upstream)
        (followed (inner_left (rest_by_item D.rest m.0.1) s.inner)
        (flat_map_run m.1 (C.rest (chain_of s.upstream) m.0.0))) };

    ghost bound = { record {
      most_asks = λ s. C.bound.most_asks (chain_of s.upstream) * (D.bound.limit + 1)
          + most_inner (λ inner. D.bound.most_asks (inner_chain inner)) s.inner;
      IsLimited = C.bound.IsLimited × D.bound.IsLimited;
      limit = C.bound.limit * (D.bound.limit + 1) + D.bound.limit;
    } };

    ghost IsOver = { λ s. is_ended s.upstream ≡ true };

    // The open inner chain is never refused memory, and neither is each chain that the closure opens.
    ghost IsGiven = { λ s. C.IsGiven (chain_of s.upstream)
        × IfSome s.inner (λ inner. D.IsGiven (inner_chain inner))
        × NeverRefuses (F.post s.closure) × OpensOnly D.IsGiven (F.post s.closure) };

    ghost AsksBehind = { λ old m result new.
        Leaves (unless_completed (inner_left (rest_by_item D.rest m.0.1) old.inner)
        (C.rest (chain_of old.upstream) m.0.0)
        (after_flat_map m.1 (C.rest (chain_of old.upstream) m.0.0)))
        result (C.rest (chain_of new.upstream) m.0.0) };

    fn ask(&mut self) -> Asked<D::Item> {
        if self.upstream.ended {
            return Asked::End;
        }
        loop {
            match ask_inner(&mut self.inner) {
                Asked::Item(item) => return Asked::Item(item),
                Asked::Pending => return Asked::Pending,
                Asked::End => {}
                Asked::Fault(fault) => return self.upstream.fail(fault),
            }
            match self.upstream.next() {
                Ok(item) => match open(&self.closure, item) {
                    Ok(inner) => self.inner = Some(inner),
                    Err(fault) => return self.upstream.fail(fault),
                },
                Err(asked) => return asked,
            }
        }
    }

    fn rewind(&mut self) {
        self.inner = None;
        self.upstream.rewind();
    }

    ghost limited = { λ l s.
        Prim.grind (arith, common_steps, C.limited l.0 (chain_of s.upstream), D.limited l.1) };
}

/// Asks the open inner chain, and drops it at its end or fault. If none is open, answers the end.
fn ask_inner<A, D: Cold>(inner: &mut Option<InnerChain<A, D>>) -> Asked<D::Item>
    requires { IfSome inner.old (λ opened. D.CanAsk (inner_chain opened)) }
    ensures callable { IfSome inner.new (λ opened. D.CanAsk (inner_chain opened)) }
    ensures reads { (n : A → D.Reading) →
        IfSome inner.old (ReadsByItem D.Reads n) → IfSome inner.new (ReadsByItem D.Reads n) }
    ensures gives { (n : A → D.Reading) → IfSome inner.old (ReadsByItem D.Reads n)
        → AskGives (inner_left (rest_by_item D.rest n) inner.old) result
        (inner_left (rest_by_item D.rest n) inner.new) }
    ensures fewer { IsFinal result ⊎
        most_inner (λ opened. D.bound.most_asks (inner_chain opened)) inner.new
        < most_inner (λ opened. D.bound.most_asks (inner_chain opened)) inner.old }
    ensures closed { IsFinal result → inner.new ≡ None }
    ensures given { IfSome inner.old (λ opened. D.IsGiven (inner_chain opened))
        → result ≢ Asked.Fault ChainFault.OutOfMemory }
    ensures lasting { IfSome inner.old (λ opened. D.IsGiven (inner_chain opened))
        → IfSome inner.new (λ opened. D.IsGiven (inner_chain opened)) }
{
    let Some(mut open) = inner.take() else {
        return Asked::End;
    };
    match open.chain.ask() {
        Asked::Item(item) => {
            *inner = Some(open);
            Asked::Item(item)
        }
        Asked::Pending => {
            *inner = Some(open);
            Asked::Pending
        }
        asked => asked,
    }
}

/// Returns the inner chain that the closure makes of an item, started from its beginning. It has the item's reading,
/// and the item's run, of each pair of functions that the closure opens chains by.
fn open<A, D, F>(closure: &F, item: A) -> Result<InnerChain<A, D>, ChainFault>
where
    D: Cold,
    F: Fn(A) -> Result<D, ChainFault>,
    requires callable { F.IsAlwaysCallable closure.now }
    requires opens { OpensOnly D.CanAsk (F.post closure.now) }
    ensures callable { IfOk result (λ opened. D.CanAsk (inner_chain opened)) }
    ensures opens { (n : A → D.Reading) (f : A → Result (ChainRun D.Item) ChainFault)
        → Opens D.Reads D.whole (F.post closure.now) n f
        → OpensTo (ReadsByItem D.Reads n) (rest_by_item D.rest n) (f item) result }
    ensures given { NeverRefuses (F.post closure.now) → result ≢ Err ChainFault.OutOfMemory }
    ensures lasting { OpensOnly D.IsGiven (F.post closure.now)
        → IfOk result (λ opened. D.IsGiven (inner_chain opened)) }
{
    let made_of = Snapshot::of(&item);
    match closure(item) {
        Ok(mut inner) => {
            inner.rewind();
            Ok(InnerChain {
                item: made_of,
                chain: inner,
            })
        }
        Err(fault) => Err(fault),
    }
}
