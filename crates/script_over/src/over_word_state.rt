//! A state flow without a lock.
ghost use Rattle.std.specs.Prelude.{◌≡◌};
ghost use Rattle.std.specs.Arc.{arc_value};

use crate::company::{PlacedSaid, play_calls};
use crate::flow_calls::{Calls, PlayedCalls, Shared, made};
use crate::token::Host;
use flow_cold::ScriptChain;
use flow_sharing::{Sharing, WordHub};
use flow_sleepers::one_more_owner;
use flow_word::{WordSeat, WordSetter, WordState};
use std::alloc::{AllocError, Global};
use std::sync::Arc;
use std::thread::Threads;

/// Shares a chain into a state flow without a lock, if there is one.
fn share<'a>(
    flow: &'a WordState<i64>,
    seat: &mut WordSeat<i64>,
    initial: i64,
    shared: Option<Shared>,
) -> Option<Sharing<ScriptChain, WordHub<'a, i64>>>
    requires { seat.old.table_id ≡ flow.now.table_id }
    ensures { seat.new.table_id ≡ flow.entry.now.table_id }
{
    let Shared { chain, started } = shared?;
    let hub = WordHub::new(flow, seat, initial);
    Some(Sharing::new(chain, started, hub))
}

/// Plays the calls at a flow that its handles own together with the caller.
fn play_on<R: Threads + Host + Sync>(
    rt: &R,
    alloc: Global,
    flow: &Arc<WordState<i64>>,
    seat: WordSeat<i64>,
    initial: i64,
    calls: Calls,
) -> Result<Vec<PlacedSaid>, AllocError>
    requires { seat.table_id ≡ (arc_value flow.now).table_id }
{
    let Calls {
        way: _,
        calls,
        shared,
    } = calls;
    let mut seat = seat;
    let driver = share(flow, &mut seat, initial, shared);
    let setter = WordSetter::new(one_more_owner(rt, flow), seat);
    play_calls(rt, alloc, setter, driver, calls)
}

/// Returns the limit of a state without a lock. No script subscribes often enough to reach a greater one.
fn word_limit(limit: u64) -> u32 {
    u32::try_from(limit).unwrap_or(u32::MAX)
}

/// Makes a state flow without a lock, and plays its calls.
pub fn play_word_state<R: Threads + Host + Sync>(
    rt: &R,
    alloc: Global,
    initial: i64,
    limit: u64,
    calls: Calls,
) -> Result<PlayedCalls, AllocError> {
    let Ok((flow, seat)) = WordState::new(alloc, initial, word_limit(limit)) else {
        return Err(AllocError);
    };
    let flow = Arc::new(alloc, flow)?;
    Ok(made(play_on(rt, alloc, &flow, seat, initial, calls)?))
}
