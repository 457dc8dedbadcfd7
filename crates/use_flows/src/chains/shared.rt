//! A chain shared into a flow: it runs while there is a subscriber and two moments longer, and emits one item a turn.
use anyhow::Result;
use flow_cold::OfRange;
use flow_law::Next;
use flow_sharing::{CoreHub, NEVER, Report, Sharing, Started, share_in};
use std::io;

pub fn show(rt: &HostRuntime) -> Result<()> {
    let started = Started::WhileSubscribed {
        stop: 2,
        expire: NEVER,
    };
    let mut sharing = share_in(rt.alloc(), OfRange::new(1, 3), started, 1, u64::MAX)?;
    take_turns(rt, &mut sharing)
}

fn take_turns(rt: &HostRuntime, sharing: &mut Sharing<OfRange, CoreHub<i64>>) -> Result<()> {
    let reader = sharing.subscribe()?;
    for moment in 0..8 {
        if moment == 4 {
            sharing.unsubscribe(reader);
        }
        print(rt, moment, sharing.turn(moment)?)?;
        print_value(rt, sharing.next(reader)?)?;
    }
    Ok(())
}

fn print(rt: &HostRuntime, moment: u64, report: Report) -> io::Result<()> {
    println!(rt; "{moment}: {:?}, {:?}", report.command, report.event)
}

fn print_value(rt: &HostRuntime, next: Next<i64>) -> io::Result<()> {
    match next {
        Next::Value(value) => println!(rt; "value {value}"),
        Next::Empty | Next::Gone => Ok(()),
    }
}
