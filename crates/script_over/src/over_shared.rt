//! A shared flow, which is played by its handles or by futures.
ghost use Rattle.std.specs.Prelude.{◌≡◌};
ghost use Rattle.std.specs.Arc.{arc_value};

use crate::company::{PlacedSaid, play_calls};
use crate::flow_calls::{Calls, PlayedCalls, Shared, made, refused_flow, refused_with};
use crate::seated::Seated;
use crate::token::Host;
use crate::way::Way;
use flow_cold::ScriptChain;
use flow_law::Config;
use flow_shared::{Seat, SharedFlow};
use flow_sharing::{SharedFlowHub, Sharing};
use std::alloc::{AllocError, Global};
use std::sync::Arc;
use std::thread::Threads;

/// Shares a chain into a shared flow, if there is one.
fn share<'a>(
    flow: &'a SharedFlow<i64>,
    seat: &mut Seat<i64>,
    shared: Option<Shared>,
) -> Option<Sharing<ScriptChain, SharedFlowHub<'a, i64>>>
    requires { seat.old.table_id ≡ flow.now.table_id }
    ensures { seat.new.table_id ≡ flow.entry.now.table_id }
{
    let Shared { chain, started } = shared?;
    let hub = SharedFlowHub::new(flow, seat);
    Some(Sharing::new(chain, started, hub))
}

/// Plays the calls at a flow that its handles own together with the caller.
fn play_on<R: Threads + Host + Sync>(
    rt: &R,
    alloc: Global,
    flow: &Arc<SharedFlow<i64>>,
    seat: Seat<i64>,
    calls: Calls,
) -> Result<Vec<PlacedSaid>, AllocError>
    requires { seat.table_id ≡ (arc_value flow.now).table_id }
{
    let Calls { way, calls, shared } = calls;
    let mut seat = seat;
    let driver = share(flow, &mut seat, shared);
    let seated = Seated::new(flow, seat);
    match way {
        Way::Futures => play_calls(rt, alloc, seated, driver, calls),
        _ => play_calls(rt, alloc, seated.into_emitter(rt), driver, calls),
    }
}

/// Makes a shared flow, and plays its calls.
pub fn play_shared_flow<R: Threads + Host + Sync>(
    rt: &R,
    alloc: Global,
    config: Config,
    calls: Calls,
) -> Result<PlayedCalls, AllocError> {
    match SharedFlow::new(alloc, config) {
        Ok((flow, seat)) => {
            let flow = Arc::new(alloc, flow)?;
            Ok(made(play_on(rt, alloc, &flow, seat, calls)?))
        }
        Err(fault) => {
            let answer = refused_with(fault, calls.shared.is_some())?;
            Ok(refused_flow(alloc, answer))
        }
    }
}
