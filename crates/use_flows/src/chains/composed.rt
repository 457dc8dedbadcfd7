//! Chains of two sources, chains of chains, and a chain of what came so far.
use super::collected::print;
use anyhow::Result;
use flow_cold::{Chain, ChainFault, Collected, OfList, OfRange, collect_all};
use std::alloc::Global;

/// Returns the numbers from `first` to x, for each x from `first` to `last`.
fn counted_up(alloc: Global, first: i64, last: i64) -> Result<Collected<i64>, ChainFault> {
    let mut chain = OfRange::new(first, last).flat_map_concat(|x| Ok(OfRange::new(first, x)));
    collect_all(alloc, &mut chain)
}

/// Returns the savings before the first payment, and after each payment.
fn savings(alloc: Global, saved: i64, payments: Vec<i64>) -> Result<Collected<i64>, ChainFault> {
    let mut chain = OfList::new(payments).scan(saved, |all, payment| {
        all.checked_add(payment).ok_or(ChainFault::Overflow)
    });
    collect_all(alloc, &mut chain)
}

/// Returns each amount times its price.
fn priced(
    alloc: Global,
    amounts: Vec<i64>,
    prices: Vec<i64>,
) -> Result<Collected<i64>, ChainFault> {
    let mut chain = OfList::new(amounts).zip(OfList::new(prices), |amount, price| {
        amount.checked_mul(price).ok_or(ChainFault::Overflow)
    });
    collect_all(alloc, &mut chain)
}

pub fn show(rt: &HostRuntime) -> Result<()> {
    let alloc = rt.alloc();
    print(rt, counted_up(alloc, 1, 3))?;
    print(rt, savings(alloc, 10, vec![in alloc; 5, 1]?))?;
    let (amounts, prices) = (vec![in alloc; 3, 1]?, vec![in alloc; 2, 7, 9]?);
    print(rt, priced(alloc, amounts, prices))
}
