//! Settings that one thread changes, field by field or as a whole, while others wait for a port with a time limit.
mod settings;

use anyhow::Result;
use flow_law::OutOfMemory;
use flow_shared::{Setter, StateFlow, StateReader};
use settings::Settings;
use std::alloc::Global;
use std::sync::Wait;
use std::thread::{Threads, join, sleep};
use std::time::{Clock, Duration};

/// Moves the service to another port, and then to another host.
fn change<R: Wait + Clock>(rt: &R, alloc: Global, setter: &mut Setter<Settings>) -> Result<()> {
    sleep(rt, Duration::from_millis(20));
    setter.update(rt, |old| old.at(8081).map_err(|_| OutOfMemory))?;
    sleep(rt, Duration::from_millis(10));
    setter.set(rt, Settings::new(alloc, "example.org", "/v2", 443)?);
    Ok(())
}

/// Waits until the port is this one, and gives up after `limit` milliseconds.
fn wait_for_port<R: Wait + Clock>(
    rt: &R,
    reader: &mut StateReader<Settings>,
    port: u32,
    limit: u64,
) -> Result<Option<Settings>> {
    let limit = Duration::from_millis(limit);
    Ok(reader.wait_for_timeout(rt, limit, |settings| settings.port == port)?)
}

/// Waits for a port that never comes, while the settings change.
fn wait_and_change<R: Wait + Threads + Clock + Sync>(
    rt: &R,
    alloc: Global,
    reader: &mut StateReader<Settings>,
    setter: &mut Setter<Settings>,
) -> Result<Option<Settings>> {
    let (none, changed) = join(
        rt,
        || wait_for_port(rt, reader, 9999, 50),
        || change(rt, alloc, setter),
    );
    changed?;
    none
}

fn show<R: Print>(rt: &R, reader: &str, settings: &Option<Settings>) -> Result<()> {
    match settings {
        Some(s) => {
            println!(rt;
                "{reader}: {}{} at port {}",
                s.host.as_str(),
                s.path.as_str(),
                s.port
            )?
        }
        None => println!(rt; "{reader}: gave up")?,
    }
    Ok(())
}

pub fn run<R: Wait + Threads + Clock + Print + Sync>(rt: &R, alloc: Global) -> Result<()> {
    let first = Settings::new(alloc, "localhost", "/v1", 8080)?;
    let (flow, seat) = StateFlow::new(alloc, first, u64::MAX)?;
    let mut setter = flow.into_setter(alloc, seat)?;
    let there = wait_for_port(rt, &mut setter.subscribe(rt)?, 8080, 50)?;
    let (mut b, mut c) = (setter.subscribe(rt)?, setter.subscribe(rt)?);
    let (comes, never) = join(
        rt,
        || wait_for_port(rt, &mut b, 443, 5000),
        || wait_and_change(rt, alloc, &mut c, &mut setter),
    );
    let (comes, never) = (comes?, never?);
    show(rt, "a", &there)?;
    show(rt, "b", &comes)?;
    show(rt, "c", &never)
}
