//! A shared flow for several threads.
ghost use Rattle.std.specs.Prelude.{◌≡◌, ◌⊎◌, None, IfErr, MatchResult};
ghost use Rattle.flow_law.specs.history.History.{fault_alone};
ghost use Rattle.flow_law.specs.history.Tokens.{Begins};
ghost use Rattle.flow_law.specs.flow.SharedFlow.{NoFlow, config_fault, first_state};
ghost use Rattle.flow_law.specs.flow.SharedHistory.{shared_flow};
ghost use Rattle.flow_law.specs.declared.fault.FlowFault.TheVariants.{OutOfMemory, Exhausted};
ghost use Rattle.flow_law.specs.declared.call.SharedCall.TheVariants as call;
ghost use Rattle.flow_law.specs.declared.call.SharedReply.TheVariants as reply;
ghost use Rattle.flow_core.specs.SharedCore.{cache_reply};
ghost use Rattle.flow_shared.specs.Calls.{Subscribes};
ghost use Rattle.flow_shared.specs.SharedReplies.{SharedCalls, ResetsNow};

use crate::calling::{AtOnce, Sleepless};
use crate::flow::Flow;
use crate::token::{FlowSeat, FlowSubscription};
use flow_core::SharedCore;
use flow_law::{Config, FlowFault, FlowValue, Refused};
use std::alloc::{Allocator, Global};
use std::sync::Wait;

mod emitting;
mod sending;
mod shared_calls;

pub use sending::SendEnd;
use shared_calls::{ReplayCache, ResetReplayCache, SubscribeWith};

/// A shared flow (`MutableSharedFlow`) for callers on several threads. Each subscriber receives what is emitted, and a
/// new one receives the replay cache first.
pub type SharedFlow<T, A = Global> = Flow<SharedCore<T, A>, A>;

/// A seat at a shared flow.
pub type Seat<T, A = Global> = FlowSeat<SharedCore<T, A>, A>;

/// A subscription to a shared flow.
pub type Subscription<T, A = Global> = FlowSubscription<SharedCore<T, A>, A>;

impl<T: FlowValue, A: Allocator + Copy> Flow<SharedCore<T, A>, A> {
    /// Makes a flow, and its first seat. Every other seat is made through this one, directly or through other seats.
    ///
    /// # Errors
    /// `TooLarge` or `NeedsBuffer` if no flow can have this configuration, else `OutOfMemory`.
    pub fn new(alloc: A, config: Config) -> Result<(SharedFlow<T, A>, Seat<T, A>), FlowFault>
        ensures { MatchResult result
            (λ made. (config_fault config ≡ None) × Begins (first_state config) made)
            (NoFlow config) }
    {
        let core = SharedCore::new(alloc, config)?;
        Flow::begin(alloc, core)
    }

    /// Adds a subscriber, as `subscribe` does. It gets these values before any value of the flow (`onSubscription`).
    ///
    /// They take no number, are in no replay cache, are never dropped, and block no emitter. An error returns them.
    pub fn subscribe_with<R: Wait>(
        &self,
        rt: &R,
        seat: &mut Seat<T, A>,
        first: Vec<T, A>,
    ) -> Result<Subscription<T, A>, Refused<Vec<T, A>>>
        requires { seat.old.table_id ≡ self.now.table_id }
        ensures subscribed { Subscribes shared_flow self.now
            (λ name. call.Subscribe name first.items) seat.old (fault_alone result) seat.new }
        ensures handed_back { IfErr result (λ refused. refused.value ≡ first) }
        ensures refused { IfErr result (λ refused.
            (refused.fault ≡ OutOfMemory) ⊎ (refused.fault ≡ Exhausted)) }
    {
        let id = self.call(rt, seat, SubscribeWith { first }, &mut Sleepless)?;
        let made = self.seat(seat);
        Ok(FlowSubscription { seat: made, id })
    }

    /// Returns the replay cache: copies of at most `replay` values. A new subscriber receives them first, unless a
    /// value is being offered.
    pub fn replay_cache<R: Wait>(
        &self,
        rt: &R,
        seat: &mut Seat<T, A>,
    ) -> Result<Vec<T, A>, FlowFault>
        requires { seat.old.table_id ≡ self.now.table_id }
        ensures called { SharedCalls self.now seat.old call.ReplayCache (cache_reply result) seat.new }
        ensures refused { IfErr result (λ fault. fault ≡ OutOfMemory) }
    {
        self.call(rt, seat, ReplayCache, &mut Sleepless)
    }

    /// Empties the replay cache. Present subscribers still receive the values that they have not received.
    pub fn reset_replay_cache<R: Wait>(&self, rt: &R, seat: &mut Seat<T, A>)
        requires { seat.old.table_id ≡ self.now.table_id }
        ensures { SharedCalls self.now seat.old call.ResetReplayCache reply.Reset seat.new }
    {
        self.call(rt, seat, ResetReplayCache, &mut Sleepless)
    }

    /// Empties the replay cache if no other caller is inside; otherwise returns `Busy`.
    pub fn reset_now(&self, seat: &mut Seat<T, A>) -> Result<(), FlowFault>
        requires { seat.old.table_id ≡ self.now.table_id }
        ensures { ResetsNow self.now seat.old result seat.new }
    {
        match self.call_by(&AtOnce, seat, ResetReplayCache, &mut Sleepless) {
            Ok(()) => Ok(()),
            Err(_back) => Err(FlowFault::Busy),
        }
    }
}
