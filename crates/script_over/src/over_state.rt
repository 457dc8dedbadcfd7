//! A state flow, which is played by its handles or by futures.
ghost use Rattle.std.specs.Prelude.{◌≡◌};
ghost use Rattle.std.specs.Arc.{arc_value};

use crate::company::{PlacedSaid, play_calls};
use crate::flow_calls::{Calls, PlayedCalls, Shared, made};
use crate::state_future::ChangedMaker;
use crate::token::Host;
use crate::way::Way;
use flow_cold::ScriptChain;
use flow_shared::{Setter, StateFlow, StateSeat};
use flow_sharing::{Sharing, StateFlowHub};
use flow_sleepers::one_more_owner;
use std::alloc::{AllocError, Global};
use std::sync::Arc;
use std::thread::Threads;

/// Shares a chain into a state flow, if there is one.
fn share<'a>(
    flow: &'a StateFlow<i64>,
    seat: &mut StateSeat<i64>,
    initial: i64,
    shared: Option<Shared>,
) -> Option<Sharing<ScriptChain, StateFlowHub<'a, i64>>>
    requires { seat.old.table_id ≡ flow.now.table_id }
    ensures { seat.new.table_id ≡ flow.entry.now.table_id }
{
    let Shared { chain, started } = shared?;
    let hub = StateFlowHub::new(flow, seat, initial);
    Some(Sharing::new(chain, started, hub))
}

/// Plays the calls at a flow that its handles own together with the caller.
fn play_on<R: Threads + Host + Sync>(
    rt: &R,
    alloc: Global,
    flow: &Arc<StateFlow<i64>>,
    seat: StateSeat<i64>,
    initial: i64,
    calls: Calls,
) -> Result<Vec<PlacedSaid>, AllocError>
    requires { seat.table_id ≡ (arc_value flow.now).table_id }
{
    let Calls { way, calls, shared } = calls;
    let mut seat = seat;
    let driver = share(flow, &mut seat, initial, shared);
    let setter = Setter::new(one_more_owner(rt, flow), seat);
    match way {
        Way::Futures => play_calls(rt, alloc, ChangedMaker { setter }, driver, calls),
        _ => play_calls(rt, alloc, setter, driver, calls),
    }
}

/// Makes a state flow, and plays its calls.
pub fn play_state_flow<R: Threads + Host + Sync>(
    rt: &R,
    alloc: Global,
    initial: i64,
    limit: u64,
    calls: Calls,
) -> Result<PlayedCalls, AllocError> {
    let Ok((flow, seat)) = StateFlow::new(alloc, initial, limit) else {
        return Err(AllocError);
    };
    let flow = Arc::new(alloc, flow)?;
    Ok(made(play_on(rt, alloc, &flow, seat, initial, calls)?))
}
