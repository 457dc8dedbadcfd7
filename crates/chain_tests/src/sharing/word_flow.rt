//! A chain that is shared into a flow that is read without a lock.
ghost use Rattle.std.specs.Prelude.{◌≡◌};
ghost use Rattle.std.specs.Arc.{arc_value};

use crate::compare::compare;
use crate::sharing::shared::{PUTS, STARTS, count_to};
use flow_cold::Scripted;
use flow_law::{Command, Config, Event, Overflow, Report, Started};
use flow_sharing::{Sharing, WordFlowHub};
use flow_word_shared::{WordEmitter, WordFlow, WordFlowReader};
use std::alloc::Global;
use std::process::Abort;
use std::sync::{Arc, Wait};

/// The chain stops and the flow is reset as soon as the last subscriber has gone.
const AT_ONCE: Started = Started::WhileSubscribed { stop: 0, expire: 0 };

/// The report of a turn that stops the chain and empties the replay cache.
const RESETS: Report = Report {
    command: Command::StopAndReset,
    event: Event::Idle,
};

/// Returns a flow that replays a value and keeps another one, and its first emitter.
fn new_word_flow(rt: &impl Abort, alloc: Global) -> (Arc<WordFlow<i64>>, WordEmitter<i64>)
    ensures { result.1.flow ≡ arc_value result.0 }
{
    let config = Config::new()
        .replay(1)
        .extra(1)
        .overflow(Overflow::DropOldest);
    let (flow, seat) = WordFlow::new(alloc, config).expect(rt, "a flow");
    let flow = Arc::new(alloc, flow).expect(rt, "memory");
    let again = Arc::try_clone(&flow).expect(rt, "an owner");
    (flow, WordEmitter::new(again, seat))
}

/// Shares a chain into the flow.
fn share<'a, R: Wait>(
    rt: &R,
    flow: &'a WordFlow<i64>,
    emitter: &mut WordEmitter<i64>,
    chain: Scripted<i64>,
) -> Sharing<Scripted<i64>, WordFlowHub<'a, i64>>
    requires { emitter.old.flow ≡ flow.now }
{
    let mut seat = emitter.another(rt).into_seat();
    Sharing::new(chain, AT_ONCE, WordFlowHub::new(flow, &mut seat))
}

/// Takes a turn, and compares its report.
fn turns(
    rt: &impl Abort,
    sharing: &mut Sharing<Scripted<i64>, WordFlowHub<'_, i64>>,
    moment: u64,
    wanted: Report,
) {
    compare(rt, "turn", sharing.turn(moment), Ok(wanted));
}

/// Receives these values, and nothing after them.
fn receives<R: Wait + Abort>(rt: &R, reader: &mut WordFlowReader<i64>, values: &[i64]) {
    for value in values {
        compare(rt, "next", reader.next(rt), Some(*value));
    }
    compare(rt, "next after the last", reader.next(rt), None);
}

/// Compares the replay cache.
fn replays<R: Wait + Abort>(rt: &R, emitter: &mut WordEmitter<i64>, values: &[i64]) {
    let cache = emitter.replay_cache(rt).expect(rt, "a cache");
    compare(rt, "replay cache", cache.as_slice() == values, true);
}

/// `buffer(1, DROP_OLDEST).shareIn(scope, WhileSubscribed(0, 0), replay = 1)`: the chain does not wait for a subscriber,
/// which misses the oldest of three values. When it has gone, the replay cache is emptied.
#[test]
fn a_shared_chain_does_not_wait_for_a_subscriber(rt: HostRuntime) {
    let (flow, mut emitter) = new_word_flow(&rt, rt.alloc());
    let chain = count_to(&rt, rt.alloc(), 3);
    let mut sharing = share(&rt, &*flow, &mut emitter, chain);
    let mut reader = emitter.subscribe(&rt).expect(&rt, "a reader");
    turns(&rt, &mut sharing, 0, STARTS);
    turns(&rt, &mut sharing, 1, PUTS);
    turns(&rt, &mut sharing, 2, PUTS);
    receives(&rt, &mut reader, &[2, 3]);
    replays(&rt, &mut emitter, &[3]);
    let _left = reader.unsubscribe();
    turns(&rt, &mut sharing, 3, RESETS);
    replays(&rt, &mut emitter, &[]);
}
