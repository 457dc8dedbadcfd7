//! Callers that collect a chain of a list or a range. Their files in `proofs/` name what the closures compute.
ghost use Rattle.std.specs.Prelude.{◌≡◌, ◌+ℤ◌, ◌*ℤ◌, pos, IfOk, IfErr};
ghost use Rattle.flow_law.specs.chain.ChainRun.{Collects, list_run};
ghost use Rattle.flow_law.specs.chain.OperatorRuns.{filter_run, map_run, take_run};
ghost use Rattle.flow_cold.specs.Numbers.{ranged};
ghost use Rattle.flow_operators.specs.Numbers.{is_even};
ghost use Rattle.flow_operators.specs.Sources.{range_run};

use flow_cold::{Chain, ChainFault, Collected, OfList, OfRange, collect_all};
use std::alloc::Global;

/// Collects the items, each plus `k`, up to the first sum that is out of range.
pub fn collect_plus(alloc: Global, items: Vec<i64>, k: i64) -> Result<Collected<i64>, ChainFault>
    ensures collects { IfOk result (λ r. Collects
        (map_run (λ x. ranged (x +ℤ k)) (list_run items.items)) r.items.items r.end) }
    ensures memory { IfErr result (λ fault. fault ≡ ChainFault.OutOfMemory) }
{
    let mut chain = OfList::new(items).map(|x| x.checked_add(k).ok_or(ChainFault::Overflow));
    Ok(collect_all(alloc, &mut chain)?)
}

/// Collects the first three even numbers from 1 to `last`, times `k`, up to the first product that is out of range.
pub fn even_times(alloc: Global, last: i64, k: i64) -> Result<Collected<i64>, ChainFault>
    ensures { IfOk result (λ r. Collects
        (take_run 3 (map_run (λ x. ranged (x *ℤ k)) (filter_run is_even (range_run (pos 1) last))))
        r.items.items r.end) }
{
    let mut chain = OfRange::new(1, last)
        .filter(|x| x % 2 == 0)
        .map(|x| x.checked_mul(k).ok_or(ChainFault::Overflow))
        .take(3)?;
    Ok(collect_all(alloc, &mut chain)?)
}
