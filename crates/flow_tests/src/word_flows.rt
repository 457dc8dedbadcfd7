//! Word flows: calls that no script makes, races, and readers that sleep.
ghost use Rattle.std.specs.Prelude.{◌≡◌};
ghost use Rattle.std.specs.Arc.{arc_value};

mod asleep;
mod calls;
mod latest;
mod quote;
mod races;
mod wide;

use crate::compare::compare;
use flow_law::{Config, Overflow, Words};
use flow_word_shared::{ClosedWordFlow, WordEmitter, WordFlow, WordFlowReader, WordFlowSeat};
use std::alloc::Global;
use std::process::Abort;
use std::sync::{Arc, Wait};

/// Returns the configuration of a flow that drops the oldest values.
pub fn dropping(replay: u32, extra: u32, limit: u64) -> Config {
    Config {
        replay,
        extra,
        overflow: Overflow::DropOldest,
        limit,
    }
}

/// One owner of a flow, and the seat by which it is closed.
#[derive(Drop)]
pub struct Closing<T: Words> {
    flow: Arc<WordFlow<T>>,
    seat: WordFlowSeat<T>,
    ghost of_flow: { seat.table_id ≡ (arc_value flow).table_id },
}

impl<T: Words> Closing<T> {
    /// Returns the owner that closes a new flow, and the flow's first emitter.
    pub fn new(
        rt: &impl Abort,
        alloc: Global,
        flow: WordFlow<T>,
        seat: WordFlowSeat<T>,
    ) -> (Closing<T>, WordEmitter<T>)
        requires { seat.table_id ≡ flow.table_id }
    {
        let mut seat = seat;
        let own = flow.seat(&mut seat);
        let flow = Arc::new(alloc, flow).expect(rt, "memory");
        let again = Arc::try_clone(&flow).expect(rt, "an owner");
        (Closing { flow, seat: own }, WordEmitter::new(again, seat))
    }

    /// Closes the flow. Its handles were dropped before.
    pub fn close(self, rt: &impl Abort) -> ClosedWordFlow<T> {
        let Closing { flow, seat } = self;
        Arc::into_inner(flow)
            .expect(rt, "no other owner")
            .close(seat)
    }
}

/// Returns the owner that closes a new flow, and the flow's first emitter.
pub fn new_word_flow<T: Words>(
    rt: &impl Abort,
    alloc: Global,
    config: Config,
) -> (Closing<T>, WordEmitter<T>) {
    let (flow, seat) = WordFlow::new(alloc, config).expect(rt, "a flow");
    Closing::new(rt, alloc, flow, seat)
}

/// Returns the first emitter of a new flow.
pub fn new_word_emitter<T: Words>(
    rt: &impl Abort,
    alloc: Global,
    config: Config,
) -> WordEmitter<T> {
    let (flow, seat) = WordFlow::new(alloc, config).expect(rt, "a flow");
    flow.into_emitter(alloc, seat).expect(rt, "memory")
}

/// Subscribes.
pub fn new_word_flow_reader<R: Wait + Abort>(
    rt: &R,
    emitter: &mut WordEmitter<i64>,
) -> WordFlowReader<i64> {
    emitter.subscribe(rt).expect(rt, "a reader")
}

/// Emits the numbers from the first to the last one.
pub fn emit_all<R: Wait + Abort>(rt: &R, emitter: &mut WordEmitter<i64>, first: i64, last: i64) {
    for value in first..=last {
        compare(rt, "emit", emitter.emit(rt, value), Ok(()));
    }
}
