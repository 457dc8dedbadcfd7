//! A shared chain that fails: it is collected once more (`retry`), and then a last value takes its place (`catch`).
use anyhow::Result;
use flow_cold::{Entry, Scripted};
use flow_core::SharedCore;
use flow_law::Config;
use flow_sharing::{CoreHub, Hub, ShareFault, Sharing, Started};

type Shared = Sharing<Scripted<i64>, CoreHub<i64>>;

/// Takes turns, and restarts after each of the first `retries` faults. Returns the hub after the next fault.
fn retry(mut sharing: Shared, retries: u32) -> Result<CoreHub<i64>> {
    let mut retries_left = retries;
    for moment in 0..u64::MAX {
        match sharing.turn(moment) {
            Ok(_report) => {}
            Err(ShareFault::Chain(_fault)) => match retries_left.checked_sub(1) {
                Some(left) => {
                    retries_left = left;
                    sharing.restart()?;
                }
                None => break,
            },
            Err(refused) => return Err(refused.into()),
        }
    }
    let (_chain, hub) = sharing.into_parts();
    Ok(hub)
}

pub fn show(rt: &HostRuntime) -> Result<()> {
    let alloc = rt.alloc();
    let source = vec![in alloc; Entry::Item(1), Entry::Item(2), Entry::Fault(7)]?;
    let core = SharedCore::new(alloc, Config::new().replay(8))?;
    let sharing = Sharing::new(Scripted::new(source), Started::Eagerly, CoreHub::new(core));
    let mut hub = retry(sharing, 1)?;
    if !hub.poll()? {
        hub.put(0)?;
    }
    println!(rt; "{:?}", hub.core().replay_cache()?.as_slice())?;
    Ok(())
}
