//! `mapLatest` of a hot flow: the work for a value is dropped when a newer value comes.
use crate::threads::send;
use flow_law::{Config, FlowFault};
use flow_shared::{Reader, SharedFlow};
use std::alloc::Global;
use std::sync::Wait;

/// Work that gives ten times a value, at its fourth step.
#[derive(Drop)]
struct Work {
    value: i64,
    steps_left: u32,
}

impl Work {
    fn new(value: i64) -> Work {
        Work {
            value,
            steps_left: 3,
        }
    }

    /// Takes a step, and returns the result after the last one.
    fn advance(&mut self) -> Option<i64> {
        match self.steps_left.checked_sub(1) {
            Some(left) => {
                self.steps_left = left;
                None
            }
            None => Some(self.value.wrapping_mul(10)),
        }
    }
}

/// Returns the result of the first work that no newer value interrupts. After each step it looks for one.
fn first_result<R: Wait>(rt: &R, reader: &mut Reader<i64>) -> Result<i64, FlowFault> {
    let mut work = Work::new(reader.receive(rt)?);
    for _ in rt.forever() {
        if let Some(result) = work.advance() {
            return Ok(result);
        }
        if let Some(newer) = reader.next(rt)? {
            work = Work::new(newer);
        }
    }
    unreachable!()
}

/// Returns the result of the work for the last number of 1 to 3: the work for the others is dropped.
pub fn latest<R: Wait>(rt: &R, alloc: Global) -> Result<i64, FlowFault> {
    let (flow, seat) = SharedFlow::new(alloc, Config::new().extra(16))?;
    let mut emitter = flow.into_emitter(alloc, seat)?;
    let mut reader = emitter.subscribe(rt)?;
    send(rt, &mut emitter, 1..4)?;
    first_result(rt, &mut reader)
}
