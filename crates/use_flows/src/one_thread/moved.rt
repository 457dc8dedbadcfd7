//! A state flow whose values have a type of your own.
use crate::one_thread::position::Position;
use anyhow::Result;
use flow_core::StateCore;
use flow_law::Next;
use std::io;

pub fn show(rt: &HostRuntime) -> Result<()> {
    let mut flow = StateCore::new(rt.alloc(), Position { x: 0, y: 0 }, u64::MAX);
    move_and_read(rt, &mut flow)
}

fn move_and_read(rt: &HostRuntime, flow: &mut StateCore<Position>) -> Result<()> {
    let reader = flow.subscribe()?;
    flow.set(Position { x: 3, y: 4 });
    flow.set(Position { x: 3, y: 4 });
    for _ in 0..2 {
        print(rt, flow.next(reader)?)?;
    }
    Ok(())
}

fn print(rt: &HostRuntime, next: Next<Position>) -> io::Result<()> {
    match next {
        Next::Value(at) => println!(rt; "at {}, {}", at.x, at.y),
        Next::Empty => println!(rt; "not moved"),
        Next::Gone => println!(rt; "no such reader"),
    }
}
