//! A state flow: a slow reader receives only the most recent value.
use anyhow::Result;
use flow_core::StateCore;
use flow_law::{Next, Text};
use std::io;

pub fn show(rt: &HostRuntime) -> Result<()> {
    let loading = Text::from_str(rt.alloc(), "loading")?;
    let mut flow = StateCore::new(rt.alloc(), loading, u64::MAX);
    set_and_read(rt, &mut flow)
}

fn set_and_read(rt: &HostRuntime, flow: &mut StateCore<Text>) -> Result<()> {
    let reader = flow.subscribe()?;
    for word in ["page 1", "page 2", "page 3"] {
        flow.set(Text::from_str(rt.alloc(), word)?);
    }
    for _ in 0..2 {
        print(rt, flow.next(reader)?)?;
    }
    Ok(())
}

fn print(rt: &HostRuntime, next: Next<Text>) -> io::Result<()> {
    match next {
        Next::Value(value) => println!(rt; "{}", value.as_str()),
        Next::Empty => println!(rt; "nothing new"),
        Next::Gone => println!(rt; "no such reader"),
    }
}
