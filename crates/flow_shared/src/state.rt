//! A state flow for several threads.
ghost use Rattle.std.specs.Prelude.{◌≡◌, Err, IfOk, IfErr, IsOk};
ghost use Rattle.flow_law.specs.history.Tokens.{Begins};
ghost use Rattle.flow_law.specs.flow.StateFlow.{first_state_flow};
ghost use Rattle.flow_law.specs.declared.fault.FlowFault.TheVariants.{OutOfMemory, Unsupported};
ghost use Rattle.flow_law.specs.declared.call.StateCall.TheVariants as call;
ghost use Rattle.flow_law.specs.declared.call.StateReply.TheVariants as reply;
ghost use Rattle.flow_core.specs.StateCore.{value_reply, state_cache_reply, reset_reply};
ghost use Rattle.flow_shared.specs.StateReplies.{StateCalls, SetsNow};

use crate::calling::{AtOnce, Sleepless};
use crate::flow::Flow;
use crate::token::{FlowSeat, FlowSubscription};
use flow_core::StateCore;
use flow_law::{FlowFault, FlowValue, Refused};
use std::alloc::{Allocator, Global};
use std::sync::Wait;

mod state_calls;

use state_calls::{CompareAndSet, GetValue, ReplayCache, ResetReplayCache, Set, TryEmit};

/// A state flow (`MutableStateFlow`) for callers on several threads. It has one current value, which every caller may
/// read and set; a subscriber receives the most recent value that it has not received.
pub type StateFlow<T, A = Global> = Flow<StateCore<T, A>, A>;

/// A seat at a state flow.
pub type StateSeat<T, A = Global> = FlowSeat<StateCore<T, A>, A>;

/// A subscription to a state flow.
pub type StateSubscription<T, A = Global> = FlowSubscription<StateCore<T, A>, A>;

impl<T: FlowValue, A: Allocator + Copy> Flow<StateCore<T, A>, A> {
    /// Makes a state flow with this value, and its first seat. It issues at most `limit` numbers to subscribers.
    ///
    /// Every other seat is made through this one, directly or through other seats. Once all seats and subscriptions are
    /// dropped, no call can be made any more.
    ///
    /// # Errors
    /// `OutOfMemory`; the value is dropped.
    pub fn new(
        alloc: A,
        initial: T,
        limit: u64,
    ) -> Result<(StateFlow<T, A>, StateSeat<T, A>), FlowFault>
        ensures made { IfOk result (Begins (first_state_flow limit initial)) }
        ensures memory { IfErr result (λ fault. fault ≡ FlowFault.OutOfMemory) }
    {
        let core = StateCore::new(alloc, initial, limit);
        Flow::begin(alloc, core)
    }

    /// Returns a copy of the current value. The only error is `OutOfMemory`.
    ///
    /// Another caller may set the value right after. Call `compare_and_set` to set a value that depends on the current
    /// one.
    pub fn value<R: Wait>(&self, rt: &R, seat: &mut StateSeat<T, A>) -> Result<T, FlowFault>
        requires { seat.old.table_id ≡ self.now.table_id }
        ensures called { StateCalls self.now seat.old call.GetValue (value_reply result) seat.new }
        ensures refused { IfErr result (λ fault. fault ≡ OutOfMemory) }
        ensures given { T.IsAlwaysCopied → IsOk result }
    {
        self.call(rt, seat, GetValue, &mut Sleepless)
    }

    /// Returns what `value` returns, through the seat of a subscription. The subscriber does not receive the value by
    /// it.
    pub(crate) fn value_by<R: Wait>(
        &self,
        rt: &R,
        subscription: &mut StateSubscription<T, A>,
    ) -> Result<T, FlowFault>
        requires { subscription.old.token.table_id ≡ self.now.table_id }
        ensures called { StateCalls self.now subscription.old.token call.GetValue
            (value_reply result) subscription.new.token }
        ensures number { subscription.new.number ≡ subscription.old.number }
        ensures refused { IfErr result (λ fault. fault ≡ OutOfMemory) }
        ensures given { T.IsAlwaysCopied → IsOk result }
    {
        self.value(rt, &mut subscription.seat)
    }

    /// Sets the current value. Setting a value that is equal to the current one does nothing: no subscriber gets it
    /// again.
    ///
    /// A slow subscriber skips values and gets the most recent one.
    pub fn set<R: Wait>(&self, rt: &R, seat: &mut StateSeat<T, A>, value: T)
        requires { seat.old.table_id ≡ self.now.table_id }
        ensures { StateCalls self.now seat.old (call.Set value) reply.Done seat.new }
    {
        self.call(rt, seat, Set { value }, &mut Sleepless)
    }

    /// Sets the current value if no other caller is inside; otherwise returns it with `Busy`, and the seat has counted
    /// one lost exchange.
    pub fn set_now(&self, seat: &mut StateSeat<T, A>, value: T) -> Result<(), Refused<T>>
        requires { seat.old.table_id ≡ self.now.table_id }
        ensures { SetsNow self.now seat.old value result seat.new }
    {
        match self.call_by(&AtOnce, seat, Set { value }, &mut Sleepless) {
            Ok(()) => Ok(()),
            Err(Set { value }) => Err(Refused {
                value,
                fault: FlowFault::Busy,
            }),
        }
    }

    /// Sets the value as `set` does, and returns `true`: a state flow takes every value without suspending. It waits
    /// while another caller is inside; `set_now` does not.
    pub fn try_emit<R: Wait>(&self, rt: &R, seat: &mut StateSeat<T, A>, value: T) -> bool
        requires { seat.old.table_id ≡ self.now.table_id }
        ensures { StateCalls self.now seat.old
            (call.TryEmit value) (reply.Answered result) seat.new }
    {
        self.call(rt, seat, TryEmit { value }, &mut Sleepless)
    }

    /// Sets the value to `update` if it is equal to `expect`, and returns whether it was; if not, drops `update`. Both
    /// happen in one event.
    ///
    /// If both `expect` and `update` are equal to the current value, the result is `true`, and subscribers get nothing
    /// new. If the result is `false`, the value was another one: read it and try again.
    pub fn compare_and_set<R: Wait>(
        &self,
        rt: &R,
        seat: &mut StateSeat<T, A>,
        expect: &T,
        update: T,
    ) -> bool
        requires { seat.old.table_id ≡ self.now.table_id }
        ensures { StateCalls self.now seat.old (call.CompareAndSet expect.now update)
            (reply.Answered result) seat.new }
    {
        self.call(rt, seat, CompareAndSet { expect, update }, &mut Sleepless)
    }

    /// Returns a list of the current value, which is a state flow's replay cache. The only error is `OutOfMemory`.
    ///
    /// It lets a state flow be used in place of a shared flow; `value` returns the value itself.
    pub fn replay_cache<R: Wait>(
        &self,
        rt: &R,
        seat: &mut StateSeat<T, A>,
    ) -> Result<Vec<T, A>, FlowFault>
        requires { seat.old.table_id ≡ self.now.table_id }
        ensures called { StateCalls self.now seat.old call.ReplayCache
            (state_cache_reply result) seat.new }
        ensures refused { IfErr result (λ fault. fault ≡ OutOfMemory) }
    {
        self.call(rt, seat, ReplayCache, &mut Sleepless)
    }

    /// Always fails with `Unsupported`: a state flow has a value at any time. To go back to the first value, `set` it.
    pub fn reset_replay_cache<R: Wait>(
        &self,
        rt: &R,
        seat: &mut StateSeat<T, A>,
    ) -> Result<(), FlowFault>
        requires { seat.old.table_id ≡ self.now.table_id }
        ensures called { StateCalls self.now seat.old call.ResetReplayCache
            (reset_reply result) seat.new }
        ensures refused { result ≡ Err Unsupported }
    {
        self.call(rt, seat, ResetReplayCache, &mut Sleepless)
    }
}
