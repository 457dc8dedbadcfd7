//! The operators as methods of every chain, so that a chain reads in the order in which an item passes its operators.
//!
//! No operator is made in another way. A method says what the operator's two runs are (`whole`, `rest`), and what that
//! means for lists (`meaning`).
ghost use Rattle.std.specs.Prelude.{◌≡◌, ◌↔◌, None, Ok, Bool, List, Result, IfOk, IfErr};
ghost use Rattle.std.specs.Fn.{FnReturnsAt};
ghost use Rattle.flow_law.specs.declared.chain.ChainFault.{ChainFault};
ghost use Rattle.flow_law.specs.chain.ChainRun.{ChainRun, gives};
ghost use Rattle.flow_law.specs.chain.Chain as means;
ghost use Rattle.flow_law.specs.chain.Chain.{meaning_of};
ghost use Rattle.flow_law.specs.chain.OperatorRuns as runs;
ghost use Rattle.flow_operators.specs.Closures.{Computes, ComputesBy, ComputesPairs, Decides, Makes, NeverRefuses, NeverRefusesPairs, Opens, OpensOnly};
ghost use Rattle.flow_operators.specs.Taking.{items_left};

use crate::cold::Cold;
use crate::operators::pairs::Pairs;
use crate::operators::results::Results;
use crate::operators::{
    Distinct, DropFirst, DropWhile, Filter, FlatMapConcat, Map, MapValue, RunningReduce, Scan,
    Take, TakeWhile, Transform, Zip,
};
use crate::upstream::Upstream;
use flow_law::{ChainFault, FlowValue};

/// Operators on any chain.
pub trait Chain: Cold {
    /// Emits what the closure makes of each item. A fault of the closure ends the chain, and that call emits no item.
    #[tactic(auto, using(flow_law::proofs::ChainLemmas::map_means))]
    final fn map<U, F>(self, closure: F) -> Map<Self, F>
    where
        Self: Sized,
        U: FlowValue,
        F: Fn(Self::Item) -> Result<U, ChainFault>,
        requires upstream { Self.CanAsk self }
        requires callable { F.IsAlwaysCallable closure }
        ensures callable { ⟦<Map<Self, F> as Cold>⟧.CanAsk result }
        ensures reads { (m : Self.Reading) (f : Self.Item → Result U ChainFault) → Self.Reads self m
            → Computes (F.post closure) f → ⟦<Map<Self, F> as Cold>⟧.Reads result (m, f) }
        ensures given { Self.IsGiven self → NeverRefuses (F.post closure)
            → ⟦<Map<Self, F> as Cold>⟧.IsGiven result }
        ensures whole { (m : Self.Reading) (f : Self.Item → Result U ChainFault)
            → ⟦<Map<Self, F> as Cold>⟧.whole result (m, f) ≡ runs.map_run f (Self.whole self m) }
        ensures meaning { (m : Self.Reading) (f : Self.Item → Result U ChainFault)
            → meaning_of (⟦<Map<Self, F> as Cold>⟧.whole result (m, f)) ≡
            means.map_meaning f (meaning_of (Self.whole self m)) }
        ensures rest { (m : Self.Reading) (f : Self.Item → Result U ChainFault)
            → ⟦<Map<Self, F> as Cold>⟧.rest result (m, f) ≡ runs.map_run f (Self.rest self m) }
    {
        let upstream = Upstream::new(self);
        Map { upstream, closure }
    }

    /// Emits what the closure, which cannot fail, makes of each item.
    final fn map_value<U, F>(self, closure: F) -> MapValue<Self, F>
    where
        Self: Sized,
        U: FlowValue,
        F: Fn(Self::Item) -> U,
        requires upstream { Self.CanAsk self }
        requires callable { F.IsAlwaysCallable closure }
        ensures callable { ⟦<MapValue<Self, F> as Cold>⟧.CanAsk result }
        ensures reads { (m : Self.Reading) (f : Self.Item → U) → Self.Reads self m
            → Makes (F.post closure) f → ⟦<MapValue<Self, F> as Cold>⟧.Reads result (m, f) }
        ensures given { Self.IsGiven self
            → ⟦<MapValue<Self, F> as Cold>⟧.IsGiven result }
        ensures whole { (m : Self.Reading) (f : Self.Item → U)
            → ⟦<MapValue<Self, F> as Cold>⟧.whole result (m, f)
            ≡ runs.map_run (λ x. Ok (f x)) (Self.whole self m) }
        ensures meaning { (m : Self.Reading) (f : Self.Item → U)
            → meaning_of (⟦<MapValue<Self, F> as Cold>⟧.whole result (m, f)) ≡
            means.map_meaning (λ x. Ok (f x)) (meaning_of (Self.whole self m)) }
        ensures rest { (m : Self.Reading) (f : Self.Item → U)
            → ⟦<MapValue<Self, F> as Cold>⟧.rest result (m, f)
            ≡ runs.map_run (λ x. Ok (f x)) (Self.rest self m) }
    {
        let upstream = Upstream::new(self);
        MapValue { upstream, closure }
    }

    /// Emits the items that pass the test.
    #[tactic(auto, using(flow_law::proofs::ChainLemmas::filter_means))]
    final fn filter<F>(self, test: F) -> Filter<Self, F>
    where
        Self: Sized,
        F: Fn(&Self::Item) -> bool,
        requires upstream { Self.CanAsk self }
        requires callable { F.IsAlwaysCallable test }
        ensures callable { ⟦<Filter<Self, F> as Cold>⟧.CanAsk result }
        ensures reads { (m : Self.Reading) (p : Self.Item → Bool) → Self.Reads self m
            → Decides (λ x b. FnReturnsAt F.Fn test x b) p
            → ⟦<Filter<Self, F> as Cold>⟧.Reads result (m, p) }
        ensures given { Self.IsGiven self
            → ⟦<Filter<Self, F> as Cold>⟧.IsGiven result }
        ensures whole { (m : Self.Reading) (p : Self.Item → Bool)
            → ⟦<Filter<Self, F> as Cold>⟧.whole result (m, p)
            ≡ runs.filter_run p (Self.whole self m) }
        ensures meaning { (m : Self.Reading) (p : Self.Item → Bool)
            → meaning_of (⟦<Filter<Self, F> as Cold>⟧.whole result (m, p))
            ≡ means.filter_meaning p (meaning_of (Self.whole self m)) }
        ensures rest { (m : Self.Reading) (p : Self.Item → Bool)
            → ⟦<Filter<Self, F> as Cold>⟧.rest result (m, p)
            ≡ runs.filter_run p (Self.rest self m) }
    {
        let upstream = Upstream::new(self);
        Filter { upstream, test }
    }

    /// Emits the first `count` items. If `count` is 0, fails with `NotPositive` and drops the chain.
    #[tactic(auto, using(flow_law::proofs::ChainLemmas::take_means))]
    final fn take(self, count: u64) -> Result<Take<Self>, ChainFault>
    where
        Self: Sized,
        requires { Self.CanAsk self }
        ensures callable { IfOk result ⟦<Take<Self> as Cold>⟧.CanAsk }
        ensures reads { IfOk result (λ t.
            (m : Self.Reading) → Self.Reads self m → ⟦<Take<Self> as Cold>⟧.Reads t m) }
        ensures given { IfOk result (λ t.
            Self.IsGiven self → ⟦<Take<Self> as Cold>⟧.IsGiven t) }
        ensures whole { IfOk result (λ t. (m : Self.Reading)
            → ⟦<Take<Self> as Cold>⟧.whole t m ≡ runs.take_run count (Self.whole self m)) }
        ensures meaning { IfOk result (λ t. (m : Self.Reading) →
            meaning_of (⟦<Take<Self> as Cold>⟧.whole t m) ≡
            means.take_meaning count (meaning_of (Self.whole self m))) }
        ensures rest { IfOk result (λ t. (m : Self.Reading)
            → ⟦<Take<Self> as Cold>⟧.rest t m ≡ runs.take_run count (Self.rest self m)) }
        ensures left { IfOk result (λ t. items_left t ≡ count) }
        ensures refused { (result ≡ Err ChainFault.NotPositive) ↔ (count ≡ 0) }
        ensures otherwise { IfErr result (λ fault. fault ≡ ChainFault.NotPositive) }
    {
        if count == 0 {
            return Err(ChainFault::NotPositive);
        }
        Ok(Take {
            upstream: Upstream::new(self),
            count,
            left: count,
        })
    }

    /// Emits the items after the first `count`. With a count of 0 it emits all.
    #[tactic(auto, using(flow_law::proofs::ChainLemmas::drop_means))]
    final fn drop_first(self, count: u64) -> DropFirst<Self>
    where
        Self: Sized,
        requires { Self.CanAsk self }
        ensures callable { ⟦<DropFirst<Self> as Cold>⟧.CanAsk result }
        ensures reads { (m : Self.Reading) →
            Self.Reads self m → ⟦<DropFirst<Self> as Cold>⟧.Reads result m }
        ensures given { Self.IsGiven self
            → ⟦<DropFirst<Self> as Cold>⟧.IsGiven result }
        ensures whole { (m : Self.Reading) → ⟦<DropFirst<Self> as Cold>⟧.whole result m
            ≡ runs.drop_run (Self.whole self m) count }
        ensures meaning { (m : Self.Reading) →
            meaning_of (⟦<DropFirst<Self> as Cold>⟧.whole result m)
            ≡ means.drop_meaning count (meaning_of (Self.whole self m)) }
        ensures rest { (m : Self.Reading) → ⟦<DropFirst<Self> as Cold>⟧.rest result m
            ≡ runs.drop_run (Self.rest self m) count }
    {
        DropFirst {
            upstream: Upstream::new(self),
            count,
            to_drop: count,
        }
    }

    /// Emits the items before the first one that fails the test.
    #[tactic(auto, using(flow_law::proofs::ChainLemmas::take_while_means))]
    final fn take_while<F>(self, test: F) -> TakeWhile<Self, F>
    where
        Self: Sized,
        F: Fn(&Self::Item) -> bool,
        requires upstream { Self.CanAsk self }
        requires callable { F.IsAlwaysCallable test }
        ensures callable { ⟦<TakeWhile<Self, F> as Cold>⟧.CanAsk result }
        ensures reads { (m : Self.Reading) (p : Self.Item → Bool) → Self.Reads self m
            → Decides (λ x b. FnReturnsAt F.Fn test x b) p
            → ⟦<TakeWhile<Self, F> as Cold>⟧.Reads result (m, p) }
        ensures given { Self.IsGiven self
            → ⟦<TakeWhile<Self, F> as Cold>⟧.IsGiven result }
        ensures whole { (m : Self.Reading) (p : Self.Item → Bool)
            → ⟦<TakeWhile<Self, F> as Cold>⟧.whole result (m, p)
            ≡ runs.take_while_run p (Self.whole self m) }
        ensures meaning { (m : Self.Reading) (p : Self.Item → Bool)
            → meaning_of (⟦<TakeWhile<Self, F> as Cold>⟧.whole result (m, p))
            ≡ means.take_while_meaning p (meaning_of (Self.whole self m)) }
        ensures rest { (m : Self.Reading) (p : Self.Item → Bool)
            → ⟦<TakeWhile<Self, F> as Cold>⟧.rest result (m, p)
            ≡ runs.take_while_run p (Self.rest self m) }
    {
        let upstream = Upstream::new(self);
        TakeWhile { upstream, test }
    }

    /// Drops the first items while they pass the test, and emits all others.
    #[tactic(auto, using(flow_law::proofs::ChainLemmas::drop_while_means))]
    final fn drop_while<F>(self, test: F) -> DropWhile<Self, F>
    where
        Self: Sized,
        F: Fn(&Self::Item) -> bool,
        requires upstream { Self.CanAsk self }
        requires callable { F.IsAlwaysCallable test }
        ensures callable { ⟦<DropWhile<Self, F> as Cold>⟧.CanAsk result }
        ensures reads { (m : Self.Reading) (p : Self.Item → Bool) → Self.Reads self m
            → Decides (λ x b. FnReturnsAt F.Fn test x b) p
            → ⟦<DropWhile<Self, F> as Cold>⟧.Reads result (m, p) }
        ensures given { Self.IsGiven self
            → ⟦<DropWhile<Self, F> as Cold>⟧.IsGiven result }
        ensures whole { (m : Self.Reading) (p : Self.Item → Bool)
            → ⟦<DropWhile<Self, F> as Cold>⟧.whole result (m, p)
            ≡ runs.drop_while_run p (Self.whole self m) }
        ensures meaning { (m : Self.Reading) (p : Self.Item → Bool)
            → meaning_of (⟦<DropWhile<Self, F> as Cold>⟧.whole result (m, p))
            ≡ means.drop_while_meaning p (meaning_of (Self.whole self m)) }
        ensures rest { (m : Self.Reading) (p : Self.Item → Bool)
            → ⟦<DropWhile<Self, F> as Cold>⟧.rest result (m, p)
            ≡ runs.drop_while_run p (Self.rest self m) }
    {
        DropWhile {
            upstream: Upstream::new(self),
            test,
            dropping: true,
        }
    }

    /// Emits `initial` without asking this chain, then what the closure makes of the last result and each item. A
    /// fault of the closure ends the chain.
    #[tactic(auto, using(flow_law::proofs::ChainLemmas::scan_means))]
    final fn scan<U, F>(self, initial: U, closure: F) -> Scan<Self, U, F>
    where
        Self: Sized,
        U: FlowValue,
        F: Fn(U, Self::Item) -> Result<U, ChainFault>,
        requires upstream { Self.CanAsk self }
        requires callable { F.IsAlwaysCallable closure }
        ensures callable { ⟦<Scan<Self, U, F> as Cold>⟧.CanAsk result }
        ensures reads { (m : Self.Reading) (f : U × Self.Item → Result U ChainFault) →
            Self.Reads self m
            → ComputesPairs (F.post closure) f → ⟦<Scan<Self, U, F> as Cold>⟧.Reads result (m, f) }
        ensures given { Self.IsGiven self → NeverRefusesPairs (F.post closure) → U.IsAlwaysCopied
            → ⟦<Scan<Self, U, F> as Cold>⟧.IsGiven result }
        ensures whole { (m : Self.Reading) (f : U × Self.Item → Result U ChainFault)
            → ⟦<Scan<Self, U, F> as Cold>⟧.whole result (m, f) ≡
            gives initial (runs.scan_run f initial (Self.whole self m)) }
        ensures meaning { (m : Self.Reading) (f : U × Self.Item → Result U ChainFault)
            → meaning_of (⟦<Scan<Self, U, F> as Cold>⟧.whole result (m, f))
            ≡ means.scan_meaning f initial (meaning_of (Self.whole self m)) }
        ensures rest { (m : Self.Reading) (f : U × Self.Item → Result U ChainFault)
            → ⟦<Scan<Self, U, F> as Cold>⟧.rest result (m, f) ≡
            gives initial (runs.scan_run f initial (Self.rest self m)) }
    {
        let results = Results::new(self, initial);
        Scan { results, closure }
    }

    /// Emits the first item, then what the closure makes of the last result and each further item. A fault of the
    /// closure ends the chain.
    #[tactic(auto, using(flow_law::proofs::ChainLemmas::running_reduce_means))]
    final fn running_reduce<F>(self, closure: F) -> RunningReduce<Self, F>
    where
        Self: Sized,
        F: Fn(Self::Item, Self::Item) -> Result<Self::Item, ChainFault>,
        requires upstream { Self.CanAsk self }
        requires callable { F.IsAlwaysCallable closure }
        ensures callable { ⟦<RunningReduce<Self, F> as Cold>⟧.CanAsk result }
        ensures reads { (m : Self.Reading)
            (f : Self.Item × Self.Item → Result Self.Item ChainFault) → Self.Reads self m
            → ComputesPairs (F.post closure) f
            → ⟦<RunningReduce<Self, F> as Cold>⟧.Reads result (m, f) }
        ensures given { Self.IsGiven self → NeverRefusesPairs (F.post closure) → Self.Item.IsAlwaysCopied
            → ⟦<RunningReduce<Self, F> as Cold>⟧.IsGiven result }
        ensures whole { (m : Self.Reading) (f : Self.Item × Self.Item → Result Self.Item ChainFault)
            → ⟦<RunningReduce<Self, F> as Cold>⟧.whole result (m, f)
            ≡ runs.running_reduce_run f None (Self.whole self m) }
        ensures meaning { (m : Self.Reading)
            (f : Self.Item × Self.Item → Result Self.Item ChainFault)
            → meaning_of (⟦<RunningReduce<Self, F> as Cold>⟧.whole result (m, f))
            ≡ means.running_reduce_meaning f (meaning_of (Self.whole self m)) }
        ensures rest { (m : Self.Reading) (f : Self.Item × Self.Item → Result Self.Item ChainFault)
            → ⟦<RunningReduce<Self, F> as Cold>⟧.rest result (m, f)
            ≡ runs.running_reduce_run f None (Self.rest self m) }
    {
        RunningReduce {
            upstream: Upstream::new(self),
            closure,
            last: None,
        }
    }

    /// Emits the items that differ from the one before. Items are compared by `FlowValue::same`.
    #[tactic(auto, using(flow_law::proofs::ChainLemmas::distinct_means))]
    final fn distinct(self) -> Distinct<Self>
    where
        Self: Sized,
        requires { Self.CanAsk self }
        ensures callable { ⟦<Distinct<Self> as Cold>⟧.CanAsk result }
        ensures reads { (m : Self.Reading) →
            Self.Reads self m → ⟦<Distinct<Self> as Cold>⟧.Reads result m }
        ensures given { Self.IsGiven self → Self.Item.IsAlwaysCopied
            → ⟦<Distinct<Self> as Cold>⟧.IsGiven result }
        ensures whole { (m : Self.Reading) → ⟦<Distinct<Self> as Cold>⟧.whole result m
            ≡ runs.distinct_run Self.Item.is_same None (Self.whole self m) }
        ensures meaning { (m : Self.Reading) →
            meaning_of (⟦<Distinct<Self> as Cold>⟧.whole result m)
            ≡ means.distinct_meaning Self.Item.is_same (meaning_of (Self.whole self m)) }
        ensures rest { (m : Self.Reading) → ⟦<Distinct<Self> as Cold>⟧.rest result m
            ≡ runs.distinct_run Self.Item.is_same None (Self.rest self m) }
    {
        let upstream = Upstream::new(self);
        let last = None;
        Distinct { upstream, last }
    }

    /// Emits the items of the list that the closure makes of each item. A fault of the closure ends the chain, and that
    /// call emits no item.
    #[tactic(auto, using(flow_law::proofs::ChainLemmas::transform_means))]
    final fn transform<U, F>(self, closure: F) -> Transform<Self, U, F>
    where
        Self: Sized,
        U: FlowValue,
        F: Fn(Self::Item) -> Result<Vec<U>, ChainFault>,
        requires upstream { Self.CanAsk self }
        requires callable { F.IsAlwaysCallable closure }
        ensures callable { ⟦<Transform<Self, U, F> as Cold>⟧.CanAsk result }
        ensures reads { (m : Self.Reading) (f : Self.Item → Result (List U) ChainFault) →
            Self.Reads self m
            → ComputesBy (λ v. v.items) (F.post closure) f
            → ⟦<Transform<Self, U, F> as Cold>⟧.Reads result (m, f) }
        ensures given { Self.IsGiven self → NeverRefuses (F.post closure)
            → ⟦<Transform<Self, U, F> as Cold>⟧.IsGiven result }
        ensures whole { (m : Self.Reading) (f : Self.Item → Result (List U) ChainFault)
            → ⟦<Transform<Self, U, F> as Cold>⟧.whole result (m, f)
            ≡ runs.transform_run f (Self.whole self m) }
        ensures meaning { (m : Self.Reading) (f : Self.Item → Result (List U) ChainFault)
            → meaning_of (⟦<Transform<Self, U, F> as Cold>⟧.whole result (m, f))
            ≡ means.transform_meaning f (meaning_of (Self.whole self m)) }
        ensures rest { (m : Self.Reading) (f : Self.Item → Result (List U) ChainFault)
            → ⟦<Transform<Self, U, F> as Cold>⟧.rest result (m, f)
            ≡ runs.transform_run f (Self.rest self m) }
    {
        let upstream = Upstream::new(self);
        Transform {
            upstream,
            images: None,
            closure,
        }
    }

    /// Emits the items of the chain that the closure makes of each item, one chain after the other. A fault of the
    /// closure or of an inner chain ends the chain. The inner chains have a reading for each item, since the closures in
    /// them may capture it.
    #[tactic(auto, using(flow_law::proofs::ChainLemmas::flat_map_means))]
    final fn flat_map_concat<D, F>(self, closure: F) -> FlatMapConcat<Self, D, F>
    where
        Self: Sized,
        D: Cold,
        F: Fn(Self::Item) -> Result<D, ChainFault>,
        requires upstream { Self.CanAsk self }
        requires callable { F.IsAlwaysCallable closure }
        requires opens { OpensOnly D.CanAsk (F.post closure) }
        requires limited { D.bound.IsLimited }
        ensures callable { ⟦<FlatMapConcat<Self, D, F> as Cold>⟧.CanAsk result }
        ensures reads { (m : Self.Reading) (n : Self.Item → D.Reading)
            (f : Self.Item → Result (ChainRun D.Item) ChainFault)
            → Self.Reads self m → Opens D.Reads D.whole (F.post closure) n f
            → ⟦<FlatMapConcat<Self, D, F> as Cold>⟧.Reads result ((m, n), f) }
        ensures given { Self.IsGiven self
            → NeverRefuses (F.post closure) → OpensOnly D.IsGiven (F.post closure)
            → ⟦<FlatMapConcat<Self, D, F> as Cold>⟧.IsGiven result }
        ensures whole { (m : Self.Reading) (n : Self.Item → D.Reading)
            (f : Self.Item → Result (ChainRun D.Item) ChainFault)
            → ⟦<FlatMapConcat<Self, D, F> as Cold>⟧.whole result ((m, n), f)
            ≡ runs.flat_map_run f (Self.whole self m) }
        ensures meaning { (m : Self.Reading) (n : Self.Item → D.Reading)
            (f : Self.Item → Result (ChainRun D.Item) ChainFault)
            → meaning_of (⟦<FlatMapConcat<Self, D, F> as Cold>⟧.whole result ((m, n), f))
            ≡ means.flat_map_meaning f (meaning_of (Self.whole self m)) }
        ensures rest { (m : Self.Reading) (n : Self.Item → D.Reading)
            (f : Self.Item → Result (ChainRun D.Item) ChainFault)
            → ⟦<FlatMapConcat<Self, D, F> as Cold>⟧.rest result ((m, n), f)
            ≡ runs.flat_map_run f (Self.rest self m) }
    {
        let upstream = Upstream::new(self);
        FlatMapConcat {
            upstream,
            inner: None,
            closure,
        }
    }

    /// Emits what the closure makes of each pair; this chain is the left side. A fault of the closure ends the chain.
    #[tactic(auto, using(flow_law::proofs::ChainLemmas::zip_means))]
    final fn zip<R, U, F>(self, right: R, closure: F) -> Zip<Self, R, F>
    where
        Self: Sized,
        R: Cold,
        U: FlowValue,
        F: Fn(Self::Item, R::Item) -> Result<U, ChainFault>,
        requires left { Self.CanAsk self }
        requires right { R.CanAsk right }
        requires callable { F.IsAlwaysCallable closure }
        ensures callable { ⟦<Zip<Self, R, F> as Cold>⟧.CanAsk result }
        ensures reads { (m : Self.Reading) (n : R.Reading)
            (f : Self.Item × R.Item → Result U ChainFault) → Self.Reads self m
            → R.Reads right n → ComputesPairs (F.post closure) f
            → ⟦<Zip<Self, R, F> as Cold>⟧.Reads result ((m, n), f) }
        ensures given { Self.IsGiven self → R.IsGiven right → NeverRefusesPairs (F.post closure)
            → ⟦<Zip<Self, R, F> as Cold>⟧.IsGiven result }
        ensures whole { (m : Self.Reading) (n : R.Reading)
            (f : Self.Item × R.Item → Result U ChainFault)
            → ⟦<Zip<Self, R, F> as Cold>⟧.whole result ((m, n), f)
            ≡ runs.zip_run f (Self.whole self m) (R.whole right n) }
        ensures meaning { (m : Self.Reading) (n : R.Reading)
            (f : Self.Item × R.Item → Result U ChainFault)
            → meaning_of (⟦<Zip<Self, R, F> as Cold>⟧.whole result ((m, n), f))
            ≡ means.zip_meaning f (meaning_of (Self.whole self m)) (meaning_of (R.whole right n)) }
        ensures rest { (m : Self.Reading) (n : R.Reading)
            (f : Self.Item × R.Item → Result U ChainFault)
            → ⟦<Zip<Self, R, F> as Cold>⟧.rest result ((m, n), f)
            ≡ runs.zip_run f (Self.rest self m) (R.rest right n) }
    {
        let left = Upstream::new(self);
        let pairs = Pairs {
            left,
            right,
            kept: None,
        };
        Zip { pairs, closure }
    }
}

impl<C: Cold> Chain for C {}
