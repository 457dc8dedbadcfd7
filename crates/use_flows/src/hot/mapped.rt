//! `filter`, `map` and `distinctUntilChanged` of a hot flow: one adapter over the stream of a reader.
use crate::threads::send;
use anyhow::{Error, Result};
use flow_law::Config;
use flow_shared::{Reader, SharedFlow};
use futures::executor::block_on;
use futures::future::ready;
use futures::{StreamExt, TryStreamExt};
use std::alloc::{AllocGlobal, Global};
use std::random::RandomSource;
use std::sync::Wait;

/// The ten that was given last, if there is one.
#[derive(Drop)]
struct LastTen {
    ten: Option<i64>,
}

impl LastTen {
    /// Returns the ten of an even value, unless it is equal to the one before.
    fn next(&mut self, x: i64) -> Option<i64> {
        if x % 2 != 0 {
            return None;
        }
        let ten = x / 10;
        match self.ten.replace(ten) {
            Some(last) if last == ten => None,
            _ => Some(ten),
        }
    }
}

/// Returns the first `count` tens of the even values, without those that are equal to the one before.
fn tens<R: Wait + RandomSource + AllocGlobal>(
    rt: &R,
    alloc: Global,
    reader: Reader<i64>,
    count: usize,
) -> Result<Vec<i64>> {
    let mut last = LastTen { ten: None };
    let tens = reader
        .into_stream()
        .map_err(Error::from)
        .try_filter_map(move |x| ready(Ok(last.next(x))))
        .take(count);
    block_on(rt, tens.try_collect(alloc))?
}

/// Returns the tens of the numbers from 15 to 44.
pub fn mapped<R: Wait + RandomSource + AllocGlobal>(rt: &R, alloc: Global) -> Result<Vec<i64>> {
    let (flow, seat) = SharedFlow::new(alloc, Config::new().extra(64))?;
    let mut emitter = flow.into_emitter(alloc, seat)?;
    let reader = emitter.subscribe(rt)?;
    send(rt, &mut emitter, 15..45)?;
    tens(rt, alloc, reader, 4)
}
