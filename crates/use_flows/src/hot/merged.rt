//! `merge` of two hot flows: `select` over the streams of their readers.
use crate::threads::send;
use anyhow::{Error, Result};
use flow_law::Config;
use flow_shared::{Reader, SharedFlow};
use futures::executor::block_on;
use futures::stream::select;
use futures::{StreamExt, TryStreamExt};
use std::alloc::{AllocGlobal, Global};
use std::random::RandomSource;
use std::sync::Wait;

/// Returns the first `count` values of both flows, as they come.
fn both<R: Wait + RandomSource + AllocGlobal>(
    rt: &R,
    alloc: Global,
    (a, b): (Reader<i64>, Reader<i64>),
    count: usize,
) -> Result<Vec<i64>> {
    let both = select(a.into_stream(), b.into_stream()).take(count);
    block_on(rt, both.map_err(Error::from).try_collect(alloc))?
}

/// Returns the numbers from 1 to 3 of one flow, and those from 101 to 103 of another.
pub fn merged<R: Wait + RandomSource + AllocGlobal>(rt: &R, alloc: Global) -> Result<Vec<i64>> {
    let (left, seat) = SharedFlow::new(alloc, Config::new().extra(16))?;
    let mut a = left.into_emitter(alloc, seat)?;
    let (right, seat) = SharedFlow::new(alloc, Config::new().extra(16))?;
    let mut b = right.into_emitter(alloc, seat)?;
    let readers = (a.subscribe(rt)?, b.subscribe(rt)?);
    send(rt, &mut a, 1..4)?;
    send(rt, &mut b, 101..104)?;
    both(rt, alloc, readers, 6)
}
