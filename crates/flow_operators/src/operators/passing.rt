//! Calls of the caller's tests.
ghost use Rattle.std.specs.Prelude.{◌≡◌, ◌≢◌, ◌⊎◌, ◌<◌, true, Bool, IfOk, IfErr};
ghost use Rattle.std.specs.Fn.{FnReturnsAt};
ghost use Rattle.flow_law.specs.declared.chain.ChainFault.TheVariants.{OutOfMemory};
ghost use Rattle.flow_operators.specs.Asking.{IsFinal};
ghost use Rattle.flow_operators.specs.Closures.{Decides};
ghost use Rattle.flow_operators.specs.Passing.{from_passing};
ghost use Rattle.flow_operators.specs.SameChain.{StaysChain};
ghost use Rattle.flow_operators.specs.Terminal.{sought};
ghost use Rattle.flow_operators.specs.Upstreams.{NextGives, chain_of, is_ended, left_of};

use crate::cold::{Asked, Cold};
use crate::upstream::Upstream;

/// Returns the test's answer for an item, which is that of each function that the test computes.
pub(crate) fn passes<T, F: Fn(&T) -> bool>(test: &F, item: &T) -> bool
    requires { F.IsAlwaysCallable test.now }
    ensures called { FnReturnsAt F.Fn test.now item.now result }
    ensures decides { (p : T → Bool) →
        Decides (λ x b. FnReturnsAt F.Fn test.now x b) p → result ≡ p item.now }
{
    test(item)
}

/// Returns the upstream's next item for which the test answers `wanted`, or the answer in place of one.
pub(crate) fn next_where<C: Cold, U, F: Fn(&C::Item) -> bool>(
    upstream: &mut Upstream<C>,
    test: &F,
    wanted: bool,
) -> Result<C::Item, Asked<U>>
    requires upstream { C.CanAsk (chain_of upstream.old) }
    requires callable { F.IsAlwaysCallable test.now }
    ensures stays { StaysChain C.Cold (chain_of upstream.old) (chain_of upstream.new) }
    ensures gives { (m : C.Reading) (p : C.Item → Bool) → C.Reads (chain_of upstream.old) m
        → Decides (λ x b. FnReturnsAt F.Fn test.now x b) p
        → NextGives (from_passing (sought wanted p) (left_of (λ c. C.rest c m) upstream.old)) result
        (left_of (λ c. C.rest c m) upstream.new) }
    ensures behind { (¬ (is_ended upstream.old ≡ true)) → (m : C.Reading) (p : C.Item → Bool)
        → C.Reads (chain_of upstream.old) m → Decides (λ x b. FnReturnsAt F.Fn test.now x b) p
        → NextGives (from_passing (sought wanted p) (C.rest (chain_of upstream.old) m)) result
        (C.rest (chain_of upstream.new) m) }
    ensures fewer { IfOk result (λ _.
        C.bound.most_asks (chain_of upstream.new) < C.bound.most_asks (chain_of upstream.old)) }
    ensures pends { IfErr result (λ asked. IsFinal asked
        ⊎ C.bound.most_asks (chain_of upstream.new) < C.bound.most_asks (chain_of upstream.old)) }
    ensures over { IfErr result (λ asked. IsFinal asked → is_ended upstream.new ≡ true) }
    ensures given { C.IsGiven (chain_of upstream.old)
        → IfErr result (λ asked. asked ≢ Asked.Fault OutOfMemory) }
    ensures end { is_ended upstream.old ≡ true →
        (result ≡ Err Asked.End) × upstream.new ≡ upstream.old }
{
    loop {
        let item = upstream.next()?;
        if passes(test, &item) == wanted {
            return Ok(item);
        }
    }
}
