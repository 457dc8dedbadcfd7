//! A state flow for one thread.
ghost use Rattle.std.specs.Prelude.{◌≡◌, ◌↔◌, ℕ, List, Some, Ok, Err, IsTrue, IsOk, IfOk, IfErr};
ghost use Rattle.flow_law.specs.flow.StateFlow as flow;
ghost use Rattle.flow_law.specs.flow.Standing.{StateConforms};
ghost use Rattle.flow_law.specs.declared.call.StateCall.TheVariants as call;
ghost use Rattle.flow_law.specs.declared.call.StateReply.TheVariants as reply;
ghost use Rattle.flow_core.specs.SubId.{number_of};
ghost use Rattle.flow_core.specs.StateCore.{value_reply, state_subscribe_reply, state_next_reply, state_cache_reply, reset_reply};

mod kind;

use crate::sub_id::SubId;
use flow_containers::Members;
use flow_law::{FlowFault, FlowValue, Next};
use std::alloc::{Allocator, Global};
use std::marker::Model;

/// A state flow (`MutableStateFlow`) for one thread. It has one current value; a subscriber receives the most recent
/// value that it has not received.
///
/// It is a conflated shared flow (`law_conflated` of `flow_law`). A subscription stays until `unsubscribe` ends it; it
/// keeps one value, and blocks no caller.
pub struct StateCore<T: FlowValue, A: Allocator + Copy = Global> {
    alloc: A,
    value: T,
    /// The last value that each subscriber received.
    subscribers: Members<Option<T>, A>,
    issued: u64,
    limit: u64,
}

// Not derived, for the reason given at `SharedCore`.
impl<T: FlowValue, A: Allocator + Copy> Drop for StateCore<T, A> {
    fn drop(self) {
        let Self {
            alloc: _,
            value: _,
            subscribers: _,
            issued: _,
            limit: _,
        } = self;
    }
}

impl<T: FlowValue, A: Allocator + Copy> Model for StateCore<T, A> {
    ghost use Rattle.std.specs.Prelude.{◌≤◌};
    ghost use Rattle.flow_law.specs.declared.states.StateFlowState.{StateFlowState};

    ghost Value = { StateFlowState T };

    ghost use Rattle.flow_core.specs.StateCore.{state_fields_of};

    ghost view = { state_fields_of };

    ghost invariant = { λ c. (c.issued ≤ c.limit) × (c.subscribers.last ≤ c.issued) };
}

/// Returns whether the last value that a subscriber received is this one.
fn has_got<T: FlowValue>(last: &Option<T>, value: &T) -> bool
    ensures { IsTrue result ↔ (last.now ≡ Some value.now) }
{
    match last {
        None => false,
        Some(last) => last.same(value),
    }
}

/// Returns two copies: one to keep, and one to return.
fn two_copies<T: FlowValue>(value: &T) -> Result<(T, T), FlowFault>
    ensures copies { IfOk result (λ copies. (copies.0 ≡ value.now) × (copies.1 ≡ value.now)) }
    ensures memory { IfErr result (λ fault. fault ≡ FlowFault.OutOfMemory) }
    ensures given { T.IsAlwaysCopied → IsOk result }
{
    let kept = value.try_copy()?;
    Ok((kept, value.try_copy()?))
}

impl<T: FlowValue, A: Allocator + Copy> StateCore<T, A> {
    /// Makes a state flow with this value, which issues at most `limit` numbers to subscribers. Does not allocate.
    pub fn new(alloc: A, initial: T, limit: u64) -> Self
        ensures { result ≡ flow.first_state_flow limit initial }
    {
        StateCore {
            alloc,
            value: initial,
            subscribers: Members::new(alloc),
            issued: 0,
            limit,
        }
    }

    /// Returns a copy of the current value. The only error is `OutOfMemory`.
    pub fn value(&self) -> Result<T, FlowFault>
        ensures documented { StateConforms self.now call.GetValue (value_reply result) self.now }
        ensures given { T.IsAlwaysCopied → IsOk result }
    {
        match self.value.try_copy() {
            Ok(copy) => Ok(copy),
            Err(fault) => Err(fault),
        }
    }

    /// Sets the current value. Setting the same value does nothing.
    pub fn set(&mut self, value: T)
        ensures documented { StateConforms self.old (call.Set value) reply.Done self.new }
    {
        self.value = value;
    }

    /// Sets the current value, as `set` does, and returns `true`: a state flow always has room.
    pub fn try_emit(&mut self, value: T) -> bool
        ensures documented { StateConforms self.old
            (call.TryEmit value) (reply.Answered result) self.new }
    {
        self.set(value);
        true
    }

    /// Sets the value to `update` if the current value is `expect`, and returns whether it was; if not, drops `update`.
    /// Returns `true` also if `expect` and `update` are both the current value.
    pub fn compare_and_set(&mut self, expect: &T, update: T) -> bool
        ensures documented { StateConforms self.old (call.CompareAndSet expect.now update)
            (reply.Answered result) self.new }
    {
        if self.value.same(expect) {
            self.value = update;
            true
        } else {
            false
        }
    }

    /// Adds a subscriber, which receives the current value first.
    ///
    /// # Errors
    /// `Exhausted` if the flow has issued as many numbers as its limit allows, else `OutOfMemory`.
    pub fn subscribe(&mut self) -> Result<SubId, FlowFault>
        ensures documented { (name : List ℕ)
            → StateConforms self.old (call.Subscribe name) (state_subscribe_reply result) self.new }
    {
        if self.issued == self.limit {
            return Err(FlowFault::Exhausted);
        }
        let number = self.issued + 1;
        match self.subscribers.insert(number, None) {
            Ok(key) => {
                self.issued = number;
                Ok(SubId { number, key })
            }
            Err(_refused) => Err(FlowFault::OutOfMemory),
        }
    }

    /// Returns the current value, or `Empty` if the subscriber received that value last. Values that were set in
    /// between are skipped. The only error is `OutOfMemory`; a later call returns the value.
    pub fn next(&mut self, id: SubId) -> Result<Next<T>, FlowFault>
        ensures documented { StateConforms self.old (call.TakeNext (number_of id))
            (state_next_reply result) self.new }
        ensures given { T.IsAlwaysCopied → IsOk result }
    {
        let Some(last) = self.subscribers.get(id.number, id.key) else {
            return Ok(Next::Gone);
        };
        if has_got(last, &self.value) {
            return Ok(Next::Empty);
        }
        match two_copies(&self.value) {
            Err(fault) => Err(fault),
            Ok((last, value)) => {
                self.subscribers.set(id.number, id.key, Some(last));
                Ok(Next::Value(value))
            }
        }
    }

    /// Ends a subscription, and returns whether it was active.
    pub fn unsubscribe(&mut self, id: SubId) -> bool
        ensures documented { StateConforms self.old (call.Unsubscribe (number_of id))
            (reply.Answered result) self.new }
    {
        self.subscribers.remove(id.number, id.key).is_some()
    }

    /// Returns a list of the current value, which is a state flow's replay cache. The only error is `OutOfMemory`.
    pub fn replay_cache(&self) -> Result<Vec<T, A>, FlowFault>
        ensures documented { StateConforms self.now call.ReplayCache (state_cache_reply result) self.now }
    {
        match self.value.try_copy() {
            Err(fault) => Err(fault),
            Ok(value) => {
                let mut cache = Vec::new(self.alloc);
                match cache.push(value) {
                    Ok(()) => Ok(cache),
                    Err(_refused) => Err(FlowFault::OutOfMemory),
                }
            }
        }
    }

    /// Always fails with `Unsupported`: a state flow has a value at any time.
    pub fn reset_replay_cache(&mut self) -> Result<(), FlowFault>
        ensures documented { StateConforms self.old call.ResetReplayCache
            (reset_reply result) self.new }
    {
        Err(FlowFault::Unsupported)
    }

    /// Returns the number of subscribers.
    pub fn subscription_count(&self) -> u64
        ensures documented { StateConforms self.now call.SubscriptionCount
            (reply.Counted result) self.now }
    {
        self.subscribers.len() as u64
    }
}
