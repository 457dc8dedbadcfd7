//! Sharings over flows for one thread (`shareIn`, `stateIn`).
ghost use Rattle.std.specs.Prelude.{◌≡◌, [], None, IsOk, IfOk, IfErr, MatchResult};
ghost use Rattle.flow_law.specs.declared.fault.FlowFault.{FlowFault};
ghost use Rattle.flow_law.specs.flow.SharedFlow.{NoFlow, config_fault, first_state};
ghost use Rattle.flow_law.specs.flow.Standing.{StandsFor};
ghost use Rattle.flow_law.specs.flow.StateFlow.{first_state_flow};
ghost use Rattle.flow_law.specs.sharing.SharingTurn.{at_rest};
ghost use Rattle.flow_turns.specs.CoreHub.{core_of, is_hub_waiting};
ghost use Rattle.flow_turns.specs.ShareIn.{share_config};
ghost use Rattle.flow_turns.specs.StateHub.{state_core_of, reset_value, never_waits};
ghost use Rattle.flow_turns.specs.SharingViews.{sharing_state, sharing_chain, hub_of, CanRun, KeepsReadings, SharesChain, IsBetweenTurns, IsQuietHub, HasObserved};

use crate::core_hub::CoreHub;
use crate::sharing::Sharing;
use crate::state_hub::StateHub;
use flow_cold::Cold;
use flow_core::{SharedCore, StateCore};
use flow_law::{Config, FlowValue, Overflow, ShareFault, Started};
use std::alloc::Allocator;

/// The least number of values that a shared chain keeps for slow subscribers.
const LEAST_BUFFER: u32 = 64;

/// Returns the configuration of the shared flow that `share_in` makes. It replays `replay` values to new subscribers, and
/// buffers the greater of `replay` and 64. An emission waits for a subscriber that is a full buffer behind.
pub fn sharing_config(replay: u32, limit: u64) -> Config
    ensures { result ≡ share_config replay limit }
{
    Config {
        replay,
        extra: replay.max(LEAST_BUFFER) - replay,
        overflow: Overflow::Suspend,
        limit,
    }
}

/// Shares a chain through a new shared flow (`shareIn`). The flow replays `replay` values to new subscribers, and
/// buffers the greater of `replay` and 64. The chain waits for a subscriber that is a full buffer behind. The flow
/// issues at most `limit` numbers.
///
/// # Errors
/// `Flow(TooLarge)` if `replay` is over 65,536, else `Flow(OutOfMemory)`. The chain is dropped.
pub fn share_in<C: Cold, A: Allocator + Copy>(
    alloc: A,
    chain: C,
    started: Started,
    replay: u32,
    limit: u64,
) -> Result<Sharing<C, CoreHub<C::Item, A>>, ShareFault>
    requires { C.CanAsk chain }
    ensures flow { MatchResult result
        (λ sharing. (config_fault (share_config replay limit) ≡ None)
        × StandsFor (core_of (hub_of sharing)) (first_state (share_config replay limit)))
        (λ fault. (refusal : FlowFault) × NoFlow (share_config replay limit) refusal
        × (fault ≡ ShareFault.Flow refusal)) }
    ensures nothing { IfOk result (λ sharing. HasObserved started sharing []) }
    ensures callable { IfOk result (λ sharing. CanRun C.CanAsk sharing) }
    ensures reads { IfOk result (λ sharing. KeepsReadings C.Reads chain (sharing_chain sharing)) }
    ensures state { IfOk result (λ sharing. sharing_state sharing ≡ at_rest) }
    ensures chain { IfOk result (λ sharing. SharesChain C.whole C.rest chain sharing) }
    ensures between { IfOk result (λ sharing. IsBetweenTurns C.whole C.rest sharing) }
    ensures quiet { IfOk result (λ sharing. IsQuietHub C.whole C.rest is_hub_waiting sharing) }
{
    match SharedCore::new(alloc, sharing_config(replay, limit)) {
        Ok(core) => Ok(Sharing::new(chain, started, CoreHub::new(core))),
        Err(fault) => Err(ShareFault::Flow(fault)),
    }
}

/// Shares a chain through a new state flow (`stateIn`). Its value is `initial` until the chain emits an item, and after
/// a reset. The flow issues at most `limit` numbers.
///
/// # Errors
/// `Flow(OutOfMemory)` if `initial` cannot be copied. The chain is dropped.
pub fn state_in<C: Cold, A: Allocator + Copy>(
    alloc: A,
    chain: C,
    started: Started,
    initial: C::Item,
    limit: u64,
) -> Result<Sharing<C, StateHub<C::Item, A>>, ShareFault>
    requires { C.CanAsk chain }
    ensures refused { IfErr result (λ fault. fault ≡ ShareFault.Flow FlowFault.OutOfMemory) }
    ensures given { C.Item.IsAlwaysCopied → IsOk result }
    ensures flow { IfOk result (λ sharing.
        state_core_of (hub_of sharing) ≡ first_state_flow limit initial) }
    ensures initial { IfOk result (λ sharing. reset_value (hub_of sharing) ≡ initial) }
    ensures nothing { IfOk result (λ sharing. HasObserved started sharing []) }
    ensures callable { IfOk result (λ sharing. CanRun C.CanAsk sharing) }
    ensures reads { IfOk result (λ sharing. KeepsReadings C.Reads chain (sharing_chain sharing)) }
    ensures state { IfOk result (λ sharing. sharing_state sharing ≡ at_rest) }
    ensures chain { IfOk result (λ sharing. SharesChain C.whole C.rest chain sharing) }
    ensures between { IfOk result (λ sharing. IsBetweenTurns C.whole C.rest sharing) }
    ensures quiet { IfOk result (λ sharing. IsQuietHub C.whole C.rest never_waits sharing) }
{
    match initial.try_copy() {
        Ok(copy) => {
            let hub = StateHub::new(StateCore::new(alloc, copy, limit), initial);
            Ok(Sharing::new(chain, started, hub))
        }
        Err(fault) => Err(ShareFault::Flow(fault)),
    }
}
