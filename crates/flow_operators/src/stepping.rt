//! Steps of the terminal operators. None of them starts a chain from the beginning.
ghost use Rattle.std.specs.Prelude.{◌≢◌, ◌⊎◌, ◌<◌, Bool, Result, filter, IfOk, IfErr, IfSome};
ghost use Rattle.std.specs.Fn.{FnReturnsAt};
ghost use Rattle.flow_law.specs.declared.chain.ChainFault.{ChainFault};
ghost use Rattle.flow_law.specs.declared.chain.End.{End};
ghost use Rattle.flow_law.specs.chain.ChainRun.{items, ending};
ghost use Rattle.flow_operators.specs.Closures.{ComputesPairs, Decides, Follows, NeverRefusesPairs};
ghost use Rattle.flow_operators.specs.SameChain.{StaysChain};
ghost use Rattle.flow_operators.specs.Stopping.{StandsAfterFailed, StandsAfterFirst, StandsAfterFound};
ghost use Rattle.flow_operators.specs.Terminal.{CallFails, GivesItem, OnNoItem, first_of, folded, sought};

use crate::cold::{Asked, Cold};
use crate::operators::passes;
use flow_law::ChainFault;

/// Returns the next item, or `None` at the end. Asks again after `Pending`. Fails with the chain's fault.
pub(crate) fn next_item<C: Cold>(chain: &mut C) -> Result<Option<C::Item>, ChainFault>
    requires { C.CanAsk chain.old }
    ensures stays { StaysChain C.Cold chain.old chain.new }
    ensures given { C.IsGiven chain.old
        → IfErr result (λ fault. fault ≢ ChainFault.OutOfMemory) }
    ensures gives { (m : C.Reading) → C.Reads chain.old m →
        GivesItem (C.rest chain.old m) result (C.rest chain.new m) }
    ensures stands { IfOk result (λ found.
        IfSome found (λ item. (m : C.Reading) → C.Reads chain.old m
        → StandsAfterFirst item (C.rest chain.old m) (C.rest chain.new m))) }
    ensures fewer { IfOk result (λ found.
        IfSome found (λ _. C.bound.most_asks chain.new < C.bound.most_asks chain.old)) }
    ensures over { OnNoItem result (C.IsOver chain.new) }
    ensures answered { IfErr result (λ fault. C.HasAnswered chain.new (End.Failed fault)) }
{
    loop {
        match chain.ask() {
            Asked::Item(item) => return Ok(Some(item)),
            Asked::Pending => {}
            Asked::End => return Ok(None),
            Asked::Fault(fault) => return Err(fault),
        }
    }
}

/// Returns the closure's next result, which is that of each function that the closure computes.
fn next_result<A, B, U, F>(closure: &F, last: A, item: B) -> Result<U, ChainFault>
where
    F: Fn(A, B) -> Result<U, ChainFault>,
    requires { F.IsAlwaysCallable closure.now }
    ensures computes { (f : A × B → Result U ChainFault) → ComputesPairs (F.post closure.now) f
        → Follows (f (last, item)) result }
    ensures called { F.post closure.now last item result }
{
    closure(last, item)
}

/// Returns the last result: the closure makes each of the one before and an item, beginning with `initial`.
pub(crate) fn fold_rest<C, U, F>(chain: &mut C, initial: U, closure: &F) -> Result<U, ChainFault>
where
    C: Cold,
    U: Drop,
    F: Fn(U, C::Item) -> Result<U, ChainFault>,
    requires chain { C.CanAsk chain.old }
    requires callable { F.IsAlwaysCallable closure.now }
    ensures stays { StaysChain C.Cold chain.old chain.new }
    ensures given { C.IsGiven chain.old → NeverRefusesPairs (F.post closure.now)
        → IfErr result (λ fault. fault ≢ ChainFault.OutOfMemory) }
    ensures folds { (m : C.Reading) (f : U × C.Item → Result U ChainFault) → C.Reads chain.old m
        → ComputesPairs (F.post closure.now) f
        → Follows (folded f initial (items (C.rest chain.old m)) (ending (C.rest chain.old m)))
        result }
    ensures over { IfOk result (λ _. C.IsOver chain.new) }
    ensures stands { IfErr result (λ fault.
        (C.IsOver chain.new × C.HasAnswered chain.new (End.Failed fault))
        ⊎ ((m : C.Reading) → C.Reads chain.old m
        → StandsAfterFailed (F.post closure.now) fault initial (C.rest chain.old m)
        (C.rest chain.new m))) }
    ensures answered { IfErr result (λ fault.
        C.HasAnswered chain.new (End.Failed fault) ⊎ CallFails (F.post closure.now) fault) }
{
    let mut last = initial;
    loop {
        match next_item(chain)? {
            Some(item) => last = next_result(closure, last, item)?,
            None => return Ok(last),
        }
    }
}

/// Returns the next item for which the test answers `wanted`.
pub(crate) fn find<C, F>(
    chain: &mut C,
    test: &F,
    wanted: bool,
) -> Result<Option<C::Item>, ChainFault>
where
    C: Cold,
    F: Fn(&C::Item) -> bool,
    requires chain { C.CanAsk chain.old }
    requires callable { F.IsAlwaysCallable test.now }
    ensures stays { StaysChain C.Cold chain.old chain.new }
    ensures given { C.IsGiven chain.old
        → IfErr result (λ fault. fault ≢ ChainFault.OutOfMemory) }
    ensures finds { (m : C.Reading) (p : C.Item → Bool) → C.Reads chain.old m
        → Decides (λ x b. FnReturnsAt F.Fn test.now x b) p
        → Follows (first_of (filter (sought wanted p) (items (C.rest chain.old m)))
        (ending (C.rest chain.old m))) result }
    ensures over { OnNoItem result (C.IsOver chain.new) }
    ensures stands { IfOk result (λ found.
        IfSome found (λ item. (m : C.Reading) → C.Reads chain.old m
        → StandsAfterFound (λ x b. FnReturnsAt F.Fn test.now x b) wanted item
        (C.rest chain.old m) (C.rest chain.new m))) }
    ensures answered { IfErr result (λ fault. C.HasAnswered chain.new (End.Failed fault)) }
{
    loop {
        match next_item(chain)? {
            Some(item) => {
                if passes(test, &item) == wanted {
                    return Ok(Some(item));
                }
            }
            None => return Ok(None),
        }
    }
}
