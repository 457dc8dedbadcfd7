//! Two producers and three consumers of one flow, each on a thread of its own. Each consumer gets all ten values.
ghost use Rattle.std.proofs.Common.{rules};

use flow_law::{Config, FlowFault, FlowValue, NumberError};
use flow_shared::{Emitter, Reader, SharedFlow};
use std::alloc::Global;
use std::ops::Range;
use std::sync::Wait;
use std::thread::{Threads, join};

type Consumers = (Reader<Amount>, Reader<Amount>, Reader<Amount>);

/// Returns the sum that each consumer computes.
pub fn add_up<R: Wait + Threads + Sync>(rt: &R, alloc: Global) -> Result<[i64; 3], FlowFault> {
    let (flow, seat) = SharedFlow::new(alloc, Config::new().extra(16))?;
    let mut p = flow.into_emitter(alloc, seat)?;
    let mut consumers = subscribe_all(rt, &mut p)?;
    let mut q = p.another(rt);
    run_all(rt, &mut p, &mut q, &mut consumers)
}

/// Makes a reader for each consumer.
fn subscribe_all<R: Wait>(rt: &R, p: &mut Emitter<Amount>) -> Result<Consumers, NumberError> {
    Ok((p.subscribe(rt)?, p.subscribe(rt)?, p.subscribe(rt)?))
}

/// Runs the producers and the consumers side by side, or the producers first if no thread can be made.
fn run_all<R: Wait + Threads + Sync>(
    rt: &R,
    p: &mut Emitter<Amount>,
    q: &mut Emitter<Amount>,
    consumers: &mut Consumers,
) -> Result<[i64; 3], FlowFault> {
    let (sums, produced) = join(rt, || consume_all(rt, consumers), || produce_all(rt, p, q));
    produced.and(sums)
}

/// Runs both producers.
fn produce_all<R: Wait + Threads + Sync>(
    rt: &R,
    p: &mut Emitter<Amount>,
    q: &mut Emitter<Amount>,
) -> Result<(), FlowFault> {
    let (first, second) = join(rt, || send(rt, p, 1..6), || send(rt, q, 6..11));
    first.and(second)
}

/// Runs all consumers.
fn consume_all<R: Wait + Threads + Sync>(
    rt: &R,
    consumers: &mut Consumers,
) -> Result<[i64; 3], FlowFault> {
    let (a, b, c) = consumers;
    let two = || join(rt, || sum_of(rt, a, 10), || sum_of(rt, b, 10));
    let ((a, b), c) = join(rt, two, || sum_of(rt, c, 10));
    Ok([a?, b?, c?])
}

/// An amount that a producer books.
#[derive(Clone, Copy, Debug, PartialEq)]
pub struct Amount {
    cents: i64,
}

impl FlowValue for Amount {
    ghost is_same = { ⟦<Amount as PartialEq>⟧.eq };

    fn try_copy(&self) -> Result<Amount, FlowFault> {
        Ok(*self)
    }

    fn same(&self, other: &Amount) -> bool {
        *self == *other
    }

    ghost is_same_exact = { Prim.search rules };
}

/// Books the amounts in order, and waits while there is no room.
fn send<R: Wait>(
    rt: &R,
    emitter: &mut Emitter<Amount>,
    amounts: Range<i64>,
) -> Result<(), FlowFault> {
    for cents in amounts {
        emitter.send(rt, Amount { cents })?;
    }
    Ok(())
}

/// Returns the sum of the next `count` amounts.
fn sum_of<R: Wait>(rt: &R, reader: &mut Reader<Amount>, count: u32) -> Result<i64, FlowFault> {
    let mut sum = 0i64;
    for _ in 0..count {
        sum = sum.wrapping_add(reader.receive(rt)?.cents);
    }
    Ok(sum)
}
