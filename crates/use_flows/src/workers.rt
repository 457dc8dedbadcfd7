//! As many threads as the caller asks for, by a scope. Each thread owns its reader, and so leaves the flow when it is
//! done, also after an error.
use anyhow::Result;
use flow_law::{Config, FlowFault};
use flow_shared::{Emitter, Reader, SharedFlow};
use std::alloc::Global;
use std::sync::Wait;
use std::sync::atomic::{AtomicU64, Ordering};
use std::thread;
use std::thread::Threads;

/// Sends the numbers from 1 to 10, and then the last value.
fn send_all<R: Wait>(rt: &R, emitter: &mut Emitter<Option<u64>>) -> Result<()> {
    for value in 1..11 {
        emitter.send(rt, Some(value))?;
    }
    emitter.send(rt, None)?;
    Ok(())
}

/// Adds to the total what it receives up to the last value.
fn add_all<R: Wait>(
    rt: &R,
    mut reader: Reader<Option<u64>>,
    total: &AtomicU64,
) -> Result<(), FlowFault> {
    for value in reader.values(rt) {
        let Some(value) = value? else { break };
        total.fetch_add(value, Ordering::SeqCst);
    }
    Ok(())
}

/// Returns the sum of what all workers received.
pub fn add_up<R: Wait + Threads + Sync>(rt: &R, alloc: Global, workers: u32) -> Result<u64> {
    // With room for all values no `send` waits, and so none can be refused memory.
    let (flow, seat) = SharedFlow::new(alloc, Config::new().extra(11))?;
    let mut emitter = flow.into_emitter(alloc, seat)?;
    let mut readers = Vec::new(alloc);
    for _ in 0..workers {
        readers.push(emitter.subscribe(rt)?)?;
    }
    let total = &AtomicU64::new(0);
    thread::scope(thread::scope_env(), rt, |scope| -> Result<()> {
        let mut started = Ok(());
        for reader in readers {
            if let Err(refused) = scope.spawn(move || add_all(rt, reader, total)) {
                // This drops the closure, and with it the reader, for which the flow would wait.
                started = Err(refused.into());
            }
        }
        send_all(rt, &mut emitter)?;
        started
    })?;
    Ok(total.load(Ordering::SeqCst))
}
