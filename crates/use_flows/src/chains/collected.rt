//! Chains over plain closures, collected or folded.
use anyhow::Result;
use flow_cold::{Chain, ChainFault, Collected, OfRange, Terminal, collect_all};
use std::alloc::Global;

/// Returns the first three even numbers from 1 to `last`, times `k`.
fn even_times(alloc: Global, last: i64, k: i64) -> Result<Collected<i64>, ChainFault> {
    let mut chain = OfRange::new(1, last)
        .filter(|x| x % 2 == 0)
        .take(3)?
        .map(|x| x.checked_mul(k).ok_or(ChainFault::Overflow));
    collect_all(alloc, &mut chain)
}

/// Returns the sum of the numbers from 1 to `last` that are not below `least`.
fn sum_from(least: i64, last: i64) -> Result<i64, ChainFault> {
    let mut chain = OfRange::new(1, last).filter(|x| *x >= least);
    chain.fold(
        0,
        |all: i64, x| all.checked_add(x).ok_or(ChainFault::Overflow),
    )
}

/// Prints the items of a chain, and how it ended.
pub fn print(rt: &HostRuntime, collected: Result<Collected<i64>, ChainFault>) -> Result<()> {
    let collected = collected?;
    println!(rt; "{:?}, {:?}", collected.items.as_slice(), collected.end)?;
    Ok(())
}

pub fn show(rt: &HostRuntime) -> Result<()> {
    print(rt, even_times(rt.alloc(), 10, 3))?;
    print(rt, even_times(rt.alloc(), 10, i64::MAX))?;
    println!(rt; "{}", sum_from(3, 5)?)?;
    Ok(())
}
