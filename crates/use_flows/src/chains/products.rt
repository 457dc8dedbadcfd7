//! A chain whose inner chains capture the outer item, with a contract that says which list it gives.
ghost use Rattle.std.specs.Prelude.{◌≡◌, ◌≢◌, IfOk, IfErr};
ghost use Rattle.flow_law.specs.declared.chain.End.{End};
ghost use Rattle.flow_law.specs.chain.ChainRun.{Collects, list_run};
ghost use Rattle.use_flows.specs.Products.{products};

use anyhow::Result;
use flow_cold::{Chain, ChainFault, Collected, OfRange, collect_all};
use std::alloc::Global;

/// Returns 1, 2 and 3 times x, for each x from 1 to `last`.
fn products_to(alloc: Global, last: u32) -> Result<Collected<i64>, ChainFault>
    ensures collects { IfOk result (λ r. Collects (list_run (products last)) r.items.items r.end) }
    // The chain is never refused memory; only the list of its items may be.
    ensures given { IfOk result (λ r. r.end ≢ End.Failed ChainFault.OutOfMemory) }
    ensures memory { IfErr result (λ fault. fault ≡ ChainFault.OutOfMemory) }
{
    let mut chain = OfRange::new(1, i64::from(last)).flat_map_concat(|x| {
        Ok(OfRange::new(1, 3).map(move |y| x.checked_mul(y).ok_or(ChainFault::Overflow)))
    });
    Ok(collect_all(alloc, &mut chain)?)
}

pub fn show(rt: &HostRuntime) -> Result<()> {
    let collected = products_to(rt.alloc(), 3)?;
    println!(rt; "{:?}, {:?}", collected.items.as_slice(), collected.end)?;
    Ok(())
}
