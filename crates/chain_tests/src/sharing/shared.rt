//! Chains that are shared into flows for several threads.
ghost use Rattle.std.specs.Prelude.{◌≡◌};

use flow_cold::{Entry, Scripted};
use flow_law::{Command, Event, Report, Started};
use flow_shared::{Emitter, Setter, SharedFlow, StateFlow};
use flow_sharing::{SharedFlowHub, Sharing, StateFlowHub, WordHub};
use flow_word::{WordSetter, WordState};
use std::alloc::Global;
use std::process::Abort;
use std::sync::Wait;

/// The report of a turn that starts the chain and puts its first item.
pub const STARTS: Report = Report {
    command: Command::Start,
    event: Event::Put,
};

/// The report of a turn that puts the next item.
pub const PUTS: Report = Report {
    command: Command::Keep,
    event: Event::Put,
};

/// Returns a chain of these items.
pub fn chain_of(rt: &impl Abort, alloc: Global, items: &[i64]) -> Scripted<i64> {
    let mut entries = Vec::new(alloc);
    for item in items {
        entries.push(Entry::Item(*item)).expect(rt, "memory");
    }
    Scripted::new(entries)
}

/// Returns a chain of the numbers from 1 to the last one.
pub fn count_to(rt: &impl Abort, alloc: Global, last: i64) -> Scripted<i64> {
    let mut entries = Vec::new(alloc);
    for item in 1..=last {
        entries.push(Entry::Item(item)).expect(rt, "memory");
    }
    Scripted::new(entries)
}

/// Shares a chain into the flow.
pub fn share_into<'a, R: Wait>(
    rt: &R,
    flow: &'a SharedFlow<i64>,
    emitter: &mut Emitter<i64>,
    chain: Scripted<i64>,
    started: Started,
) -> Sharing<Scripted<i64>, SharedFlowHub<'a, i64>>
    requires { emitter.old.flow ≡ flow.now }
    ensures { emitter.new.flow ≡ emitter.old.flow }
{
    let mut seat = emitter.another(rt).into_seat();
    Sharing::new(chain, started, SharedFlowHub::new(flow, &mut seat))
}

/// Shares a chain into the state flow, whose initial value is 0.
pub fn share_into_state<'a, R: Wait>(
    rt: &R,
    flow: &'a StateFlow<i64>,
    setter: &mut Setter<i64>,
    chain: Scripted<i64>,
    started: Started,
) -> Sharing<Scripted<i64>, StateFlowHub<'a, i64>>
    requires { setter.old.flow ≡ flow.now }
    ensures { setter.new.flow ≡ setter.old.flow }
{
    let mut seat = setter.another(rt).into_seat();
    Sharing::new(chain, started, StateFlowHub::new(flow, &mut seat, 0))
}

/// Shares a chain into the word state, whose initial value is 0.
pub fn share_into_word<'a, R: Wait>(
    rt: &R,
    flow: &'a WordState<i64>,
    setter: &mut WordSetter<i64>,
    chain: Scripted<i64>,
    started: Started,
) -> Sharing<Scripted<i64>, WordHub<'a, i64>>
    requires { setter.old.flow ≡ flow.now }
    ensures { setter.new.flow ≡ setter.old.flow }
{
    let mut seat = setter.another(rt).into_seat();
    Sharing::new(chain, started, WordHub::new(flow, &mut seat, 0))
}
