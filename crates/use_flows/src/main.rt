//! A program that uses flows: on one thread, between threads, as chains, and inside a type with contracts of its own.
#![tactic(auto)]

mod bus;
mod chains;
mod clients;
mod hot;
mod one_thread;
mod producers;
mod readings;
mod screen;
mod sensor;
mod setting;
mod spawned;
mod stamped;
mod threads;
mod watching;
mod workers;

use anyhow::Result;
use flow_core::StateCore;
use flow_law::Text;
use std::alloc::{AllocGlobal, Global};
use std::io;
use std::random::RandomSource;
use std::sync::Wait;
use std::thread::Threads;
use std::time::Clock;

fn main(rt: HostRuntime) -> Result<()> {
    one_thread::show(&rt)?;
    chains::show(&rt)?;
    let sum = threads::add_up(&rt, rt.alloc())?;
    let consumers = producers::add_up(&rt, rt.alloc())?;
    let shared = chains::between_threads::add_up(&rt, rt.alloc())?;
    print_sums(&rt, sum, consumers, shared)?;
    let (a, b) = chains::stopped::add_up(&rt, rt.alloc(), 1_000_000)?;
    println!(rt; "before the chain was stopped: {a} and {b}")?;
    sensor::show(&rt)?;
    let page = Text::from_str(rt.alloc(), "page 1")?;
    print_page(&rt, screen::show_page(&rt, rt.alloc(), page)?)?;
    show_best(&rt)?;
    hot::print_streamed(&rt, &hot::stream(&rt, rt.alloc())?)?;
    hot::print_looped(&rt, &hot::read(&rt, rt.alloc())?)?;
    let spawned = spawned::add_up(&rt, rt.alloc())?;
    println!(rt; "spawned: {spawned}")?;
    show_programs(&rt, rt.alloc())
}

/// Runs the programs of several threads, and prints what they return.
fn show_programs<R: Wait + Threads + Clock + Print + RandomSource + AllocGlobal + Sync>(
    rt: &R,
    alloc: Global,
) -> Result<()> {
    println!(rt; "workers: {}", workers::add_up(rt, alloc, 8)?)?;
    let counts = bus::run(rt, alloc)?;
    let (at_once, _after) = counts.late;
    println!(rt; "the late consumer had {at_once} events at once")?;
    println!(rt; "the slow consumer missed some: {}", counts.slow < 3000)?;
    watching::run(rt, alloc)?;
    let clients = clients::run(rt, alloc)?;
    println!(rt;
        "answers: {:?}, and {} subscribers left",
        clients.answers, clients.left
    )?;
    Ok(())
}

/// Prints the sums that threads have computed.
fn print_sums(rt: &HostRuntime, sum: i64, consumers: [i64; 3], shared: i64) -> io::Result<()> {
    let [a, b, c] = consumers;
    println!(rt; "the sum is {sum}")?;
    println!(rt; "the consumers have {a}, {b} and {c}")?;
    println!(rt; "shared between threads: {shared}")
}

/// Calls the functions of `setting`, and prints what they return.
fn show_best(rt: &HostRuntime) -> Result<()> {
    let mut flow = StateCore::new(rt.alloc(), 1i64, u64::MAX);
    let read = setting::set_and_read(&mut flow, 7)?;
    let best = setting::raise(&mut flow, 5)?;
    println!(rt; "set and read: {read}, and the best is {best}")?;
    println!(rt; "the newest came at {}", stamped::newest_at(rt.alloc())?)?;
    Ok(())
}

/// Prints the page that a thread has seen.
fn print_page(rt: &HostRuntime, page: Text) -> io::Result<()> {
    println!(rt; "ready: {}", page.as_str())
}
