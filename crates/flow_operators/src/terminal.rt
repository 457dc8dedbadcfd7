//! The terminal operators. Each starts the chain from the beginning and asks it.
//!
//! After `Pending` they ask again. If the chain fails before the answer is known, they return its fault. A fault that
//! they return, also `OutOfMemory`, is the chain's own last answer or the answer of a call of the closure (`answered`).
//! After its own fault the chain is over, after one of the closure it is just after the item of that call (`stands`).
//!
//! Some return the fault of a call by a `match` and not by `?`. Then the result is the call's own one, and the prover
//! need not follow a conversion.
ghost use Rattle.std.specs.Bool.{OnFalse, OnTrue};
ghost use Rattle.std.specs.Prelude.{◌≡◌, ◌≢◌, ◌⊎◌, true, false, Bool, Result, filter, IfOk, IfErr, IfSome};
ghost use Rattle.std.specs.Fn.{FnReturnsAt};
ghost use Rattle.flow_law.specs.declared.chain.ChainFault.{ChainFault};
ghost use Rattle.flow_law.specs.chain.ChainRun.{Collects, items, ending};
ghost use Rattle.flow_operators.specs.Closures.{ComputesPairs, Decides, NeverRefusesPairs, NeverRefusesVisits};
ghost use Rattle.flow_operators.specs.Collecting.{StandsAfterItem};
ghost use Rattle.flow_operators.specs.SameChain.{StaysChain};
ghost use Rattle.flow_operators.specs.Stopping.{HasNoSecond, StandsAfterFailed, StandsAfterFirst, StandsAfterFound, StandsAfterOverflow, StandsAfterReduced, StandsAfterSecond, StandsAfterVisited};
ghost use Rattle.flow_operators.specs.Terminal.{CallFails, FollowsRun, OnNoItem, VisitFails, Visits};
ghost use Rattle.flow_operators.specs.Terminal.{all_of, any_of, counted, first_of, folded, last_of, reduced_to, single_of};

use crate::cold::Cold;
use crate::collect::{Collected, collect_all};
use crate::stepping::{find, fold_rest, next_item};
use flow_law::{ChainFault, End};
use std::alloc::Allocator;

/// Terminal operators on any chain.
pub trait Terminal: Cold {
    /// Returns the last result, or `initial` if there is no item: the closure makes each result of the one before and
    /// an item. Stops at the closure's first fault, and returns it.
    final fn fold<U, F>(&mut self, initial: U, closure: F) -> Result<U, ChainFault>
    where
        U: Drop,
        F: Fn(U, Self::Item) -> Result<U, ChainFault>,
        requires chain { Self.CanAsk self.old }
        requires callable { F.IsAlwaysCallable closure }
        ensures stays { StaysChain Self.Cold self.old self.new }
        ensures given { Self.IsGiven self.old → NeverRefusesPairs (F.post closure)
            → IfErr result (λ fault. fault ≢ ChainFault.OutOfMemory) }
        ensures folds { (m : Self.Reading) (f : U × Self.Item → Result U ChainFault) →
            Self.Reads self.old m
            → ComputesPairs (F.post closure) f →
            FollowsRun (folded f initial) (Self.whole self.old m) result }
        ensures over { IfOk result (λ _. Self.IsOver self.new) }
        ensures stands { IfErr result (λ fault.
            (Self.IsOver self.new × Self.HasAnswered self.new (End.Failed fault))
            ⊎ ((m : Self.Reading) → Self.Reads self.old m
            → StandsAfterFailed (F.post closure) fault initial
            (Self.whole self.old m) (Self.rest self.new m))) }
        ensures answered { IfErr result (λ fault.
            Self.HasAnswered self.new (End.Failed fault) ⊎ CallFails (F.post closure) fault) }
    {
        self.rewind();
        fold_rest(self, initial, &closure)
    }

    /// Returns the last result, or `None` if there is no item: the first result is the first item, and the closure
    /// makes each further one of the one before and an item. Stops at the closure's first fault, and returns it.
    final fn reduce<F>(&mut self, closure: F) -> Result<Option<Self::Item>, ChainFault>
    where
        F: Fn(Self::Item, Self::Item) -> Result<Self::Item, ChainFault>,
        requires chain { Self.CanAsk self.old }
        requires callable { F.IsAlwaysCallable closure }
        ensures stays { StaysChain Self.Cold self.old self.new }
        ensures given { Self.IsGiven self.old → NeverRefusesPairs (F.post closure)
            → IfErr result (λ fault. fault ≢ ChainFault.OutOfMemory) }
        ensures reduces { (m : Self.Reading)
            (f : Self.Item × Self.Item → Result Self.Item ChainFault) → Self.Reads self.old m
            → ComputesPairs (F.post closure) f →
            FollowsRun (reduced_to f) (Self.whole self.old m) result }
        ensures over { IfOk result (λ _. Self.IsOver self.new) }
        ensures stands { IfErr result (λ fault.
            (Self.IsOver self.new × Self.HasAnswered self.new (End.Failed fault))
            ⊎ ((m : Self.Reading) → Self.Reads self.old m
            → StandsAfterReduced (F.post closure) fault
            (Self.whole self.old m) (Self.rest self.new m))) }
        ensures answered { IfErr result (λ fault.
            Self.HasAnswered self.new (End.Failed fault) ⊎ CallFails (F.post closure) fault) }
    {
        self.rewind();
        match next_item(self)? {
            Some(first) => match fold_rest(self, first, &closure) {
                Ok(last) => Ok(Some(last)),
                Err(fault) => Err(fault),
            },
            None => Ok(None),
        }
    }

    /// Returns the first item, or `None` if the chain completes without one. Stops asking after that item.
    final fn first(&mut self) -> Result<Option<Self::Item>, ChainFault>
        requires { Self.CanAsk self.old }
        ensures stays { StaysChain Self.Cold self.old self.new }
        ensures given { Self.IsGiven self.old
            → IfErr result (λ fault. fault ≢ ChainFault.OutOfMemory) }
        ensures first { (m : Self.Reading) → Self.Reads self.old m
            → FollowsRun first_of (Self.whole self.old m) result }
        ensures over { OnNoItem result (Self.IsOver self.new) }
        ensures stands { IfOk result (λ found.
            IfSome found (λ item. (m : Self.Reading) → Self.Reads self.old m
            → StandsAfterFirst item (Self.whole self.old m) (Self.rest self.new m))) }
        ensures answered { IfErr result (λ fault. Self.HasAnswered self.new (End.Failed fault)) }
    {
        self.rewind();
        next_item(self)
    }

    /// Returns the first item that passes the test, or `None` if the chain completes without one. Stops asking after
    /// that item.
    final fn first_where<F>(&mut self, test: F) -> Result<Option<Self::Item>, ChainFault>
    where
        F: Fn(&Self::Item) -> bool,
        requires chain { Self.CanAsk self.old }
        requires callable { F.IsAlwaysCallable test }
        ensures stays { StaysChain Self.Cold self.old self.new }
        ensures given { Self.IsGiven self.old
            → IfErr result (λ fault. fault ≢ ChainFault.OutOfMemory) }
        ensures finds { (m : Self.Reading) (p : Self.Item → Bool) → Self.Reads self.old m
            → Decides (λ x b. FnReturnsAt F.Fn test x b) p
            → FollowsRun (λ xs e. first_of (filter p xs) e) (Self.whole self.old m) result }
        ensures over { OnNoItem result (Self.IsOver self.new) }
        ensures stands { IfOk result (λ found.
            IfSome found (λ item. (m : Self.Reading) → Self.Reads self.old m
            → StandsAfterFound (λ x b. FnReturnsAt F.Fn test x b) true item
            (Self.whole self.old m) (Self.rest self.new m))) }
        ensures answered { IfErr result (λ fault. Self.HasAnswered self.new (End.Failed fault)) }
    {
        self.rewind();
        find(self, &test, true)
    }

    /// Returns whether an item passes the test. Stops asking after the first one that does.
    final fn any<F: Fn(&Self::Item) -> bool>(&mut self, test: F) -> Result<bool, ChainFault>
        requires chain { Self.CanAsk self.old }
        requires callable { F.IsAlwaysCallable test }
        ensures stays { StaysChain Self.Cold self.old self.new }
        ensures given { Self.IsGiven self.old
            → IfErr result (λ fault. fault ≢ ChainFault.OutOfMemory) }
        ensures tells { (m : Self.Reading) (p : Self.Item → Bool) → Self.Reads self.old m
            → Decides (λ x b. FnReturnsAt F.Fn test x b) p →
            FollowsRun (any_of p) (Self.whole self.old m) result }
        ensures stands { IfOk result (λ found. OnTrue found ((m : Self.Reading) →
            Self.Reads self.old m → (item : Self.Item)
            × StandsAfterFound (λ x b. FnReturnsAt F.Fn test x b) true item
            (Self.whole self.old m) (Self.rest self.new m))) }
        ensures none { IfOk result (λ found. OnFalse found (Self.IsOver self.new)) }
        ensures over { IfErr result (λ _. Self.IsOver self.new) }
        ensures answered { IfErr result (λ fault. Self.HasAnswered self.new (End.Failed fault)) }
    {
        self.rewind();
        match find(self, &test, true) {
            Ok(Some(_)) => Ok(true),
            Ok(None) => Ok(false),
            Err(fault) => Err(fault),
        }
    }

    /// Returns whether all items pass the test. Stops asking after the first one that fails.
    final fn all<F: Fn(&Self::Item) -> bool>(&mut self, test: F) -> Result<bool, ChainFault>
        requires chain { Self.CanAsk self.old }
        requires callable { F.IsAlwaysCallable test }
        ensures stays { StaysChain Self.Cold self.old self.new }
        ensures given { Self.IsGiven self.old
            → IfErr result (λ fault. fault ≢ ChainFault.OutOfMemory) }
        ensures tells { (m : Self.Reading) (p : Self.Item → Bool) → Self.Reads self.old m
            → Decides (λ x b. FnReturnsAt F.Fn test x b) p →
            FollowsRun (all_of p) (Self.whole self.old m) result }
        ensures stands { IfOk result (λ passed. OnFalse passed ((m : Self.Reading) →
            Self.Reads self.old m → (item : Self.Item)
            × StandsAfterFound (λ x b. FnReturnsAt F.Fn test x b) false item
            (Self.whole self.old m) (Self.rest self.new m))) }
        ensures none { IfOk result (λ passed. OnTrue passed (Self.IsOver self.new)) }
        ensures over { IfErr result (λ _. Self.IsOver self.new) }
        ensures answered { IfErr result (λ fault. Self.HasAnswered self.new (End.Failed fault)) }
    {
        self.rewind();
        match find(self, &test, false) {
            Ok(Some(_)) => Ok(false),
            Ok(None) => Ok(true),
            Err(fault) => Err(fault),
        }
    }

    /// Returns the last item, or `None` if the chain completes without one.
    final fn last(&mut self) -> Result<Option<Self::Item>, ChainFault>
        requires { Self.CanAsk self.old }
        ensures stays { StaysChain Self.Cold self.old self.new }
        ensures given { Self.IsGiven self.old
            → IfErr result (λ fault. fault ≢ ChainFault.OutOfMemory) }
        ensures last { (m : Self.Reading) → Self.Reads self.old m
            → FollowsRun last_of (Self.whole self.old m) result }
        ensures over { Self.IsOver self.new }
        ensures answered { IfErr result (λ fault. Self.HasAnswered self.new (End.Failed fault)) }
    {
        self.rewind();
        let mut last = None;
        loop {
            match next_item(self)? {
                Some(item) => last = Some(item),
                None => return Ok(last),
            }
        }
    }

    /// Returns the item of a chain that has exactly one, else `None`. Stops asking after a second item.
    final fn single(&mut self) -> Result<Option<Self::Item>, ChainFault>
        requires { Self.CanAsk self.old }
        ensures stays { StaysChain Self.Cold self.old self.new }
        ensures given { Self.IsGiven self.old
            → IfErr result (λ fault. fault ≢ ChainFault.OutOfMemory) }
        ensures single { (m : Self.Reading) → Self.Reads self.old m
            → FollowsRun single_of (Self.whole self.old m) result }
        // A chain without a second item is over. Else it is just after that item.
        ensures only { IfOk result (λ found. IfSome found (λ _. Self.IsOver self.new)) }
        ensures stands { IfOk result (λ _. (Self.IsOver self.new
            × ((m : Self.Reading) → Self.Reads self.old m → HasNoSecond (Self.whole self.old m)))
            ⊎ ((m : Self.Reading) → Self.Reads self.old m
            → StandsAfterSecond (Self.whole self.old m) (Self.rest self.new m))) }
        ensures over { IfErr result (λ _. Self.IsOver self.new) }
        ensures answered { IfErr result (λ fault. Self.HasAnswered self.new (End.Failed fault)) }
    {
        self.rewind();
        let Some(first) = next_item(self)? else {
            return Ok(None);
        };
        match next_item(self)? {
            Some(_) => Ok(None),
            None => Ok(Some(first)),
        }
    }

    /// Returns the number of items. Fails with `Overflow` if it needs more than 64 bits.
    final fn count(&mut self) -> Result<u64, ChainFault>
        requires { Self.CanAsk self.old }
        ensures stays { StaysChain Self.Cold self.old self.new }
        ensures given { Self.IsGiven self.old
            → IfErr result (λ fault. fault ≢ ChainFault.OutOfMemory) }
        ensures counts { (m : Self.Reading) → Self.Reads self.old m
            → FollowsRun counted (Self.whole self.old m) result }
        ensures over { IfOk result (λ _. Self.IsOver self.new) }
        // After its own fault the chain is over, after an overflow just after the item that made the count overflow.
        ensures stands { IfErr result (λ fault.
            (Self.IsOver self.new × Self.HasAnswered self.new (End.Failed fault))
            ⊎ ((m : Self.Reading) → Self.Reads self.old m
            → StandsAfterOverflow (Self.whole self.old m) (Self.rest self.new m))) }
        // A fault is the chain's own last answer, unless the count overflows. So is `OutOfMemory`.
        ensures answered { IfErr result (λ fault.
            (fault ≡ ChainFault.Overflow) ⊎ Self.HasAnswered self.new (End.Failed fault)) }
    {
        self.rewind();
        let mut count = 0u64;
        loop {
            match next_item(self)? {
                Some(_) => match count.checked_add(1) {
                    Some(next) => count = next,
                    None => return Err(ChainFault::Overflow),
                },
                None => return Ok(count),
            }
        }
    }

    /// Calls the closure with each item, in order. Stops at the closure's first fault, and returns it.
    final fn for_each<F>(&mut self, mut visit: F) -> Result<(), ChainFault>
    where
        F: FnMut(Self::Item) -> Result<(), ChainFault>,
        requires chain { Self.CanAsk self.old }
        requires callable { F.IsAlwaysCallable visit }
        ensures stays { StaysChain Self.Cold self.old self.new }
        ensures given { Self.IsGiven self.old → NeverRefusesVisits (λ f x r g. F.step f x r g)
            → IfErr result (λ fault. fault ≢ ChainFault.OutOfMemory) }
        ensures visits { (m : Self.Reading) →
            Self.Reads self.old m → Visits (λ f x r g. F.step f x r g) visit
            (items (Self.whole self.old m)) (ending (Self.whole self.old m)) result }
        ensures over { IfOk result (λ _. Self.IsOver self.new) }
        ensures stands { IfErr result (λ fault.
            (Self.IsOver self.new × Self.HasAnswered self.new (End.Failed fault))
            ⊎ ((m : Self.Reading) → Self.Reads self.old m
            → StandsAfterVisited (λ f x r g. F.step f x r g) fault visit
            (Self.whole self.old m) (Self.rest self.new m))) }
        ensures answered { IfErr result (λ fault. Self.HasAnswered self.new (End.Failed fault)
            ⊎ VisitFails (λ f x r g. F.step f x r g) fault) }
    {
        self.rewind();
        loop {
            match next_item(self) {
                Ok(Some(item)) => visit(item)?,
                Ok(None) => return Ok(()),
                Err(fault) => return Err(fault),
            }
        }
    }

    /// Returns all items, and the end. See `collect_all`.
    final fn to_list<A: Allocator>(
        &mut self,
        alloc: A,
    ) -> Result<Collected<Self::Item, A>, ChainFault>
    where
        Self: Sized,
        requires { Self.CanAsk self.old }
        ensures stays { StaysChain Self.Cold self.old self.new }
        ensures given { Self.IsGiven self.old → IfOk result (λ collected.
            collected.end ≢ End.Failed ChainFault.OutOfMemory) }
        ensures collects { IfOk result (λ collected. (m : Self.Reading) → Self.Reads self.old m
            → Collects (Self.whole self.old m) collected.items.items collected.end) }
        ensures over { IfOk result (λ _. Self.IsOver self.new) }
        ensures answered { IfOk result (λ collected. Self.HasAnswered self.new collected.end) }
        ensures memory { IfErr result (λ fault. fault ≡ ChainFault.OutOfMemory) }
        ensures refused { IfErr result (λ _. (m : Self.Reading) → Self.Reads self.old m
            → StandsAfterItem (Self.whole self.old m) (Self.rest self.new m)) }
    {
        collect_all(alloc, self)
    }
}

impl<C: Cold> Terminal for C {}
