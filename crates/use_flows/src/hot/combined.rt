//! `combine` of two state flows: `select` over the changes of both, and the newest value of each.
use anyhow::{Error, Result};
use flow_shared::{StateFlow, StateReader};
use futures::executor::block_on;
use futures::future::ready;
use futures::stream::select;
use futures::{StreamExt, TryStreamExt};
use std::alloc::{AllocGlobal, Global};
use std::random::RandomSource;
use std::sync::Wait;

/// A change of one of the two flows.
#[derive(Drop)]
enum Change {
    Price(i64),
    Amount(i64),
}

/// The newest value of each flow, if there is one.
#[derive(Drop)]
struct Newest {
    price: Option<i64>,
    amount: Option<i64>,
}

impl Newest {
    /// Takes a change, and returns the cost, once there is a price and an amount.
    fn cost_after(&mut self, change: Change) -> Option<i64> {
        match change {
            Change::Price(price) => self.price = Some(price),
            Change::Amount(amount) => self.amount = Some(amount),
        }
        Some(self.price?.wrapping_mul(self.amount?))
    }
}

/// Returns the first `count` costs. Each change of a price or of an amount gives one.
fn costs<R: Wait + RandomSource + AllocGlobal>(
    rt: &R,
    alloc: Global,
    (prices, amounts): (StateReader<i64>, StateReader<i64>),
    count: usize,
) -> Result<Vec<i64>> {
    let mut newest = Newest {
        price: None,
        amount: None,
    };
    let prices = prices.into_stream().map_ok(Change::Price);
    let amounts = amounts.into_stream().map_ok(Change::Amount);
    let costs = select(prices, amounts)
        .map_err(Error::from)
        .try_filter_map(move |change| ready(Ok(newest.cost_after(change))))
        .take(count);
    block_on(rt, costs.try_collect(alloc))?
}

/// Returns the first cost of 10 pieces at a price of 3.
pub fn combined<R: Wait + RandomSource + AllocGlobal>(rt: &R, alloc: Global) -> Result<Vec<i64>> {
    let (prices, seat) = StateFlow::new(alloc, 3i64, u64::MAX)?;
    let mut price = prices.into_setter(alloc, seat)?;
    let (amounts, seat) = StateFlow::new(alloc, 10i64, u64::MAX)?;
    let mut amount = amounts.into_setter(alloc, seat)?;
    let readers = (price.subscribe(rt)?, amount.subscribe(rt)?);
    costs(rt, alloc, readers, 1)
}
