//! Operators on hot flows: adapters of the crate `futures` over the stream of a reader, or the loop of a thread.
mod combined;
mod debounced;
mod derived;
mod first;
mod latest;
mod mapped;
mod merged;
mod sampled;

use anyhow::Result;
use std::alloc::{AllocGlobal, Global};
use std::io;
use std::random::RandomSource;
use std::sync::Wait;
use std::thread::Threads;
use std::time::Clock;

/// What the streams of readers gave, through adapters.
#[derive(Drop)]
pub struct Streamed {
    mapped: Vec<i64>,
    merged: Vec<i64>,
    combined: Vec<i64>,
}

/// What the loops of threads gave.
#[derive(Drop)]
pub struct Looped {
    latest: i64,
    first: i64,
    debounced: i64,
    sampled: [Option<i64>; 2],
    derived: i64,
}

pub fn stream<R: Wait + RandomSource + AllocGlobal>(rt: &R, alloc: Global) -> Result<Streamed> {
    Ok(Streamed {
        mapped: mapped::mapped(rt, alloc)?,
        merged: merged::merged(rt, alloc)?,
        combined: combined::combined(rt, alloc)?,
    })
}

pub fn read<R: Wait + Clock + Threads + Sync>(rt: &R, alloc: Global) -> Result<Looped> {
    Ok(Looped {
        latest: latest::latest(rt, alloc)?,
        first: first::first(rt, alloc)?,
        debounced: debounced::debounced(rt, alloc)?,
        sampled: sampled::sampled(rt, alloc)?,
        derived: derived::derived(rt, alloc)?,
    })
}

pub fn print_streamed(rt: &HostRuntime, streamed: &Streamed) -> io::Result<()> {
    println!(rt; "mapped: {:?}", streamed.mapped.as_slice())?;
    println!(rt; "merged: {:?}", streamed.merged.as_slice())?;
    println!(rt; "combined: {:?}", streamed.combined.as_slice())
}

pub fn print_looped(rt: &HostRuntime, looped: &Looped) -> io::Result<()> {
    println!(rt; "latest: {}", looped.latest)?;
    println!(rt; "first: {}", looped.first)?;
    println!(rt; "debounced: {}", looped.debounced)?;
    println!(rt; "sampled: {:?}", looped.sampled)?;
    println!(rt; "derived: {}", looped.derived)
}
