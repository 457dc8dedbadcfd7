//! A caller of a shared flow for one thread, of values one copy of which is refused. Each of its calls compares what the
//! flow answers.
use crate::compare::{compare, compare_step};
use flow_core::{SharedCore, SubId};
use flow_law::{Config, Drained, Emit, FlowFault, Next};
use flow_refusals::CopyLimited;
use std::alloc::Global;
use std::cell::Cell;
use std::process::Abort;

/// Returns the number of the value that was received.
fn number_of(next: Result<Next<CopyLimited<'_>>, FlowFault>) -> Result<Next<i64>, FlowFault> {
    match next {
        Ok(Next::Value(value)) => Ok(Next::Value(value.number())),
        Ok(Next::Empty) => Ok(Next::Empty),
        Ok(Next::Gone) => Ok(Next::Gone),
        Err(fault) => Err(fault),
    }
}

/// Compares the numbers of the values of a row.
fn are(rt: &impl Abort, row: &str, values: &[CopyLimited<'_>], numbers: &[i64]) {
    compare(rt, row, values.len(), numbers.len());
    for (value, number) in values.iter().zip(numbers) {
        compare(rt, row, value.number(), *number);
    }
}

/// Returns a list of values of these numbers.
pub fn list_of<'a>(
    rt: &impl Abort,
    alloc: Global,
    copies: &'a Cell<u64>,
    numbers: &[i64],
) -> Vec<CopyLimited<'a>> {
    let mut values = Vec::new(alloc);
    for number in numbers {
        let Ok(()) = values.push(CopyLimited::new(*number, copies)) else {
            panic!(rt; "memory")
        };
    }
    values
}

/// A flow of values that count their copies, and all values that were drained.
#[derive(Drop)]
pub struct Caller<'a> {
    flow: SharedCore<CopyLimited<'a>>,
    copies: &'a Cell<u64>,
    drained: Vec<CopyLimited<'a>>,
}

impl<'a> Caller<'a> {
    pub fn new(
        rt: &impl Abort,
        alloc: Global,
        config: Config,
        copies: &'a Cell<u64>,
    ) -> Caller<'a> {
        Caller {
            flow: SharedCore::new(alloc, config).expect(rt, "a flow"),
            copies,
            drained: Vec::new(alloc),
        }
    }

    /// Refuses the copy of this number, counted from 1 from now on.
    pub fn refuse_copy(&self, number: u64) {
        self.copies.set(number);
    }

    pub fn emit(&mut self, rt: &impl Abort, value: i64, wanted: Emit) {
        let emitted = CopyLimited::new(value, self.copies);
        let came = self.flow.emit(emitted).ok();
        compare_step(rt, "emit", &value, came, Some(wanted));
    }

    /// Emits the numbers from the first to the last one. The flow takes each of them.
    pub fn emit_all(&mut self, rt: &impl Abort, first: i64, last: i64) {
        for value in first..=last {
            self.emit(rt, value, Emit::Done);
        }
    }

    pub fn subscribe(&mut self, rt: &impl Abort) -> SubId {
        self.flow.subscribe().expect(rt, "a subscription")
    }

    /// Subscribes with first values of the subscriber's own.
    pub fn subscribe_with(&mut self, rt: &impl Abort, alloc: Global, first: &[i64]) -> SubId {
        let values = list_of(rt, alloc, self.copies, first);
        match self.flow.subscribe_with(values) {
            Ok(id) => id,
            Err(_refused) => panic!(rt; "a subscription"),
        }
    }

    pub fn unsubscribe(&mut self, rt: &impl Abort, id: SubId) {
        compare(rt, "unsubscribe", self.flow.unsubscribe(id), true);
    }

    pub fn receive(&mut self, rt: &impl Abort, id: SubId, wanted: i64) {
        let received = number_of(self.flow.next(id));
        compare_step(rt, "next", &wanted, received, Ok(Next::Value(wanted)));
    }

    /// Receives the numbers from the first to the last one.
    pub fn receive_all(&mut self, rt: &impl Abort, id: SubId, first: i64, last: i64) {
        for value in first..=last {
            self.receive(rt, id, value);
        }
    }

    /// Makes a `next` that is refused.
    pub fn receive_nothing(&mut self, rt: &impl Abort, id: SubId) {
        let received = number_of(self.flow.next(id));
        compare(rt, "a refused next", received, Err(FlowFault::OutOfMemory));
    }

    /// Takes at most `most` values, and compares why the drain stopped, and all values that were drained so far.
    pub fn drain(
        &mut self,
        rt: &impl Abort,
        id: SubId,
        most: usize,
        wanted: Result<Drained, FlowFault>,
        values: &[i64],
    ) {
        let stopped = self.flow.drain(id, most, &mut self.drained);
        compare_step(rt, "drain, at most", &most, stopped, wanted);
        are(
            rt,
            "the values that were drained",
            self.drained.as_slice(),
            values,
        );
    }

    /// Compares how many values the flow keeps.
    pub fn keeps(&self, rt: &impl Abort, after: &str, wanted: usize) {
        compare_step(rt, "kept after", &after, self.flow.held(), wanted);
    }

    /// Compares the number of values in the replay cache.
    pub fn caches(&self, rt: &impl Abort, wanted: usize) {
        let Ok(cache) = self.flow.replay_cache() else {
            panic!(rt; "memory")
        };
        compare(rt, "values in the cache", cache.len(), wanted);
    }
}
