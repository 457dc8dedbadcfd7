//! A shared flow: a late reader receives the last two values first.
use anyhow::Result;
use flow_core::SharedCore;
use flow_law::{Config, Next};
use std::io;

pub fn show(rt: &HostRuntime) -> Result<()> {
    let mut flow = SharedCore::<i64>::new(rt.alloc(), Config::new().replay(2))?;
    emit_and_read(rt, &mut flow)
}

fn emit_and_read(rt: &HostRuntime, flow: &mut SharedCore<i64>) -> Result<()> {
    for value in 1..4 {
        flow.try_emit(value)?;
    }
    let reader = flow.subscribe()?;
    for _ in 0..3 {
        print(rt, flow.next(reader)?)?;
    }
    Ok(())
}

fn print(rt: &HostRuntime, next: Next<i64>) -> io::Result<()> {
    match next {
        Next::Value(value) => println!(rt; "value {value}"),
        Next::Empty => println!(rt; "no value yet"),
        Next::Gone => println!(rt; "no such reader"),
    }
}
