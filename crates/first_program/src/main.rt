//! One thread sends the numbers from 1 to 5, another one receives them and adds them up.
#![tactic(auto)]

use flow_law::{Config, FlowFault};
use flow_shared::{Emitter, Reader, SharedFlow};
use std::ops::Range;
use std::sync::Wait;
use std::thread::join;

fn main(rt: HostRuntime) -> anyhow::Result<()> {
    let (flow, seat) = SharedFlow::new(rt.alloc(), Config::new().extra(16))?;
    let mut emitter = flow.into_emitter(rt.alloc(), seat)?;
    let mut reader = emitter.subscribe(&rt)?;
    let (sum, sent) = join(
        &rt,
        || sum_of(&rt, &mut reader, 5),
        || send(&rt, &mut emitter, 1..6),
    );
    sent?;
    println!(rt; "the sum is {}", sum?)?;
    Ok(())
}

fn send<R: Wait>(rt: &R, emitter: &mut Emitter<i64>, values: Range<i64>) -> Result<(), FlowFault> {
    for value in values {
        emitter.send(rt, value)?;
    }
    Ok(())
}

fn sum_of<R: Wait>(rt: &R, reader: &mut Reader<i64>, count: u32) -> Result<i64, FlowFault> {
    let mut sum = 0i64;
    for _ in 0..count {
        sum = sum.wrapping_add(reader.receive(rt)?);
    }
    Ok(sum)
}
