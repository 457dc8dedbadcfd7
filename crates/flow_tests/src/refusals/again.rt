//! Runs of a worked example, each with another allocation refused. A call that is refused is made again.
use crate::compare::{compare, compare_any, compare_step};
use crate::host::Host;
use flow_law::FlowFault;
use flow_refusals::Refusing;
use std::alloc::Global;
use std::process::Abort;

/// A number greater than that of the runs of an example.
const MANY: u64 = 200;

/// The calls of an example that take memory.
#[derive(Drop)]
pub struct RefusedCalls {
    /// How many were made in this run.
    made: u64,
    /// The numbers of those that were refused in some run. The first call of a run has the number 1.
    refused: Vec<u64>,
    /// How many were refused in this run.
    count: u64,
}

impl RefusedCalls {
    /// Makes a call that takes memory, and makes it again if it is refused.
    pub fn again<T, E: Drop, F: FnMut() -> Result<T, E>>(
        &mut self,
        rt: &impl Abort,
        name: &str,
        mut call: F,
    ) -> T
    where
        FlowFault: From<E>,
        requires { F.IsAlwaysCallable call }
    {
        self.made = self.made.wrapping_add(1);
        match call() {
            Ok(answer) => return answer,
            Err(error) => self.add(rt, name, FlowFault::from(error)),
        }
        match call() {
            Ok(answer) => answer,
            Err(_error) => panic!(rt; "{name} is refused twice"),
        }
    }

    /// Adds the last call, which was refused.
    fn add(&mut self, rt: &impl Abort, name: &str, fault: FlowFault) {
        compare(rt, name, fault, FlowFault::OutOfMemory);
        self.count = self.count.wrapping_add(1);
        if !self.refused.as_slice().contains(&self.made) {
            self.refused.push(self.made).expect(rt, "memory");
        }
    }

    /// Checks after the last run that nothing was refused in it, and each call in some other one.
    fn are_refused(&self, rt: &impl Abort) {
        compare(rt, "refused in the last run", self.count, 0);
        for number in 1..=self.made {
            let is_refused = self.refused.as_slice().contains(&number);
            compare_step(rt, "refused, the call", &number, is_refused, true);
        }
    }
}

/// Plays an example with each allocation refused in turn, until a run asks for fewer. At most one call is refused in a
/// run, and none in the last one; each call that takes memory is refused in some run.
pub fn refuse_each<R: Host, F: FnMut(&Refusing<Global>, &mut RefusedCalls)>(rt: &R, mut play: F)
    requires { F.IsAlwaysCallable play }
{
    let memory = Refusing::new(rt.alloc());
    let mut calls = RefusedCalls {
        made: 0,
        refused: Vec::new(rt.alloc()),
        count: 0,
    };
    for number in 1..MANY {
        memory.refuse(number);
        calls.made = 0;
        calls.count = 0;
        play(&memory, &mut calls);
        if memory.is_waiting() {
            return calls.are_refused(rt);
        }
        compare_any(rt, "refused in a run", calls.count, &[0, 1]);
    }
    panic!(rt; "an allocation was refused in each of {MANY} runs")
}
