//! Operators whose items become lists or chains.

use crate::chains::gives::{gives, list};
use flow_cold::{Chain, ChainFault, End, OfRange};
use std::alloc::Global;

/// Twice this number is out of range.
const LARGE: i64 = 5_000_000_000_000_000_000;

/// Returns the sum, or the fault `Overflow` if it is out of range.
pub fn sum(x: i64, y: i64) -> Result<i64, ChainFault> {
    x.checked_add(y).ok_or(ChainFault::Overflow)
}

/// Returns a list of the item twice.
fn listed(alloc: Global, x: i64) -> Result<Vec<i64>, ChainFault> {
    let mut items = Vec::new(alloc);
    if items.push(x).is_err() {
        return Err(ChainFault::OutOfMemory);
    }
    if items.push(x).is_err() {
        return Err(ChainFault::OutOfMemory);
    }
    Ok(items)
}

#[test]
fn items_become_lists(rt: HostRuntime) {
    let alloc = rt.alloc();
    let chain = OfRange::new(1, 2).transform(|x| listed(alloc, x));
    gives(&rt, alloc, chain, &[1, 1, 2, 2], End::Completed);
}

#[test]
fn items_become_chains(rt: HostRuntime) {
    let ranges = OfRange::new(1, 3).flat_map_concat(|x| Ok(OfRange::new(1, x)));
    gives(&rt, rt.alloc(), ranges, &[1, 1, 2, 1, 2, 3], End::Completed);
}

/// The closure of the inner chain captures the item.
#[test]
fn items_become_chains_with_closures(rt: HostRuntime) {
    let chain = OfRange::new(1, 3).flat_map_concat(|x| {
        Ok(OfRange::new(1, x).map(move |y| y.checked_mul(x).ok_or(ChainFault::Overflow)))
    });
    gives(&rt, rt.alloc(), chain, &[1, 2, 4, 3, 6, 9], End::Completed);
}

/// The second product of the second item is out of range, so nothing comes of the third one.
#[test]
fn a_closure_of_an_inner_chain_fails(rt: HostRuntime) {
    let alloc = rt.alloc();
    let chain = list(&rt, alloc, &[1, LARGE, 3]).flat_map_concat(|x| {
        Ok(OfRange::new(1, 2).map(move |y| x.checked_mul(y).ok_or(ChainFault::Overflow)))
    });
    let end = End::Failed(ChainFault::Overflow);
    gives(&rt, alloc, chain, &[1, 2, LARGE], end);
}
