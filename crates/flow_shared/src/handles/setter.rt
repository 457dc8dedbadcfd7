//! Reading and setting the value of a state flow through a handle.
ghost use Rattle.std.specs.Prelude.{◌≡◌, Ok, IfOk, IfErr, IsErr, IsOk, MatchResult};
ghost use Rattle.std.specs.Fn.{FnReturnsAt};
ghost use Rattle.flow_law.specs.history.HandleFaults.{answer_by, handed_by, busy_fault, memory_fault, unsupported_fault};
ghost use Rattle.flow_law.specs.history.Handles.{called_by};
ghost use Rattle.flow_law.specs.history.Promise.{CallsIn};
ghost use Rattle.flow_law.specs.flow.StateFlow.{state_flow};
ghost use Rattle.flow_law.specs.history.Updates.{Accepts, ReadsInVain, Refuses, RefusesOrKeepsNone, StopsAt, Updates};
ghost use Rattle.flow_law.specs.declared.call.StateCall.TheVariants as call;
ghost use Rattle.flow_law.specs.declared.call.StateReply.TheVariants as reply;
ghost use Rattle.flow_core.specs.StateCore.{value_reply, state_cache_reply, reset_reply};
ghost use Rattle.flow_shared.specs.StateReplies.{StateCalls, SetsNow};

use super::caller::FlowCaller;
use crate::flow::Flow;
use crate::state::StateSeat;
use flow_core::StateCore;
use flow_law::{Busy, FlowValue, OutOfMemory, Refused, Rejected, Unsupported};
use std::alloc::{Allocator, Global};
use std::sync::{Arc, Wait};
use std::thread;

/// A caller of a state flow.
pub type Setter<T, A = Global> = FlowCaller<StateCore<T, A>, A>;

impl<T: FlowValue, A: Allocator + Copy> Flow<StateCore<T, A>, A> {
    /// Binds a seat to its flow, and puts the flow into memory that its handles own together: dropping the last one
    /// drops the flow. `another` and `subscribe` make more of them.
    ///
    /// # Errors
    /// `OutOfMemory`. The flow and the seat are dropped.
    pub fn into_setter(self, alloc: A, seat: StateSeat<T, A>) -> Result<Setter<T, A>, OutOfMemory>
        requires { seat.table_id ≡ self.table_id }
        ensures { IfOk result (λ setter. setter ≡ called_by self seat) }
    {
        match Arc::new(alloc, self) {
            Ok(flow) => Ok(FlowCaller::new(flow, seat)),
            Err(_failed) => Err(OutOfMemory),
        }
    }
}

impl<T: FlowValue, A: Allocator + Copy> FlowCaller<StateCore<T, A>, A> {
    /// Returns a copy of the current value.
    ///
    /// Another caller may set the value right after. Call `update` or `compare_and_set` to set a value that depends on
    /// the current one.
    ///
    /// # Errors
    /// `OutOfMemory` if the value could not be copied.
    pub fn value<R: Wait>(&mut self, rt: &R) -> Result<T, OutOfMemory>
        ensures flow { self.new.flow ≡ self.old.flow }
        ensures called { StateCalls self.old.flow self.old.token call.GetValue
            (value_reply (answer_by memory_fault result)) self.new.token }
        ensures given { T.IsAlwaysCopied → IsOk result }
    {
        let value = self.flow.value(rt, &mut self.seat);
        value.map_err(|_fault| OutOfMemory)
    }

    /// Sets the current value. Setting a value that is equal to the current one does nothing: no subscriber gets it
    /// again.
    pub fn set<R: Wait>(&mut self, rt: &R, value: T)
        ensures flow { self.new.flow ≡ self.old.flow }
        ensures called { StateCalls self.old.flow self.old.token
            (call.Set value) reply.Done self.new.token }
    {
        self.flow.set(rt, &mut self.seat, value);
    }

    /// Sets the current value if no other caller holds the flow; otherwise returns it with `Busy`.
    pub fn try_set(&mut self, value: T) -> Result<(), Rejected<T, Busy>>
        ensures flow { self.new.flow ≡ self.old.flow }
        ensures called { SetsNow self.old.flow self.old.token value
            (handed_by busy_fault result) self.new.token }
    {
        match self.flow.set_now(&mut self.seat, value) {
            Ok(()) => Ok(()),
            Err(Refused { value, fault: _ }) => Err(Rejected { value, error: Busy }),
        }
    }

    /// Sets the current value, and returns `true`: a state flow takes every value without suspending (`tryEmit`).
    pub fn try_emit<R: Wait>(&mut self, rt: &R, value: T) -> bool
        ensures flow { self.new.flow ≡ self.old.flow }
        ensures called { StateCalls self.old.flow self.old.token (call.TryEmit value)
            (reply.Answered result) self.new.token }
    {
        self.flow.try_emit(rt, &mut self.seat, value)
    }

    /// Sets the value to `update` if it is equal to `expect`, and returns whether it was. Both happen in one event.
    ///
    /// If both `expect` and `update` are equal to the current value, the result is `true`, and subscribers get nothing
    /// new. If the result is `false`, the value was another one, and `update` is dropped: read the value and try again,
    /// as `update` of the setter does.
    pub fn compare_and_set<R: Wait>(&mut self, rt: &R, expect: &T, update: T) -> bool
        ensures flow { self.new.flow ≡ self.old.flow }
        ensures called { StateCalls self.old.flow self.old.token
            (call.CompareAndSet expect.now update)
            (reply.Answered result) self.new.token }
    {
        self.flow
            .compare_and_set(rt, &mut self.seat, expect, update)
    }

    /// Reads the value, and returns it with the function's result for it.
    fn answered<R: Wait, F: Fn(&T) -> Result<T, OutOfMemory>>(
        &mut self,
        rt: &R,
        f: &F,
    ) -> Result<(T, T), OutOfMemory>
        requires callable { F.IsAlwaysCallable f.now }
        ensures flow { self.new.flow ≡ self.old.flow }
        ensures read { IfOk result (λ round.
            CallsIn state_flow self.old.flow.first self.old.token call.GetValue
            (reply.Got round.0) self.new.token × FnReturnsAt F.Fn f.now round.0 (Ok round.1)) }
        ensures stopped { IfErr result (λ none. ReadsInVain self.old.flow.first
            (Refuses (FnReturnsAt F.Fn f.now)) self.old.token self.new.token) }
    {
        let Ok(old) = self.value(rt) else {
            return Err(OutOfMemory);
        };
        match f(&old) {
            Ok(new) => Ok((old, new)),
            Err(refused) => Err(refused),
        }
    }

    /// Updates the value by a function of it, and returns the previous value.
    ///
    /// The function may be called several times: if another caller sets the value in between, the update reads again.
    /// No other caller waits while the function runs.
    ///
    /// # Errors
    /// `OutOfMemory` if the value could not be copied or the function refuses. Then the update has set nothing.
    pub fn get_and_update<R: Wait, F: Fn(&T) -> Result<T, OutOfMemory>>(
        &mut self,
        rt: &R,
        f: F,
    ) -> Result<T, OutOfMemory>
        requires callable { F.IsAlwaysCallable f }
        ensures flow { self.new.flow ≡ self.old.flow }
        ensures updates { MatchResult result
            (λ read. (set : _) × Updates self.old.flow.first (Accepts (FnReturnsAt F.Fn f))
            self.old.token read set self.new.token)
            (λ none. StopsAt self.old.flow.first
            (Accepts (FnReturnsAt F.Fn f)) (Refuses (FnReturnsAt F.Fn f))
            self.old.token self.new.token) }
    {
        for _ in rt.forever() {
            let (old, new) = match self.answered(rt, &f) {
                Ok(round) => round,
                Err(refused) => return Err(refused),
            };
            if self.compare_and_set(rt, &old, new) {
                return Ok(old);
            }
            thread::yield_now();
        }
        unreachable!()
    }

    /// Updates the value by a function of it, as `get_and_update` does.
    pub fn update<R: Wait, F: Fn(&T) -> Result<T, OutOfMemory>>(
        &mut self,
        rt: &R,
        f: F,
    ) -> Result<(), OutOfMemory>
        requires callable { F.IsAlwaysCallable f }
        ensures flow { self.new.flow ≡ self.old.flow }
        ensures updates { MatchResult result
            (λ none. (read : _) × (set : _) ×
            Updates self.old.flow.first (Accepts (FnReturnsAt F.Fn f))
            self.old.token read set self.new.token)
            (λ none. StopsAt self.old.flow.first
            (Accepts (FnReturnsAt F.Fn f)) (Refuses (FnReturnsAt F.Fn f))
            self.old.token self.new.token) }
    {
        match self.get_and_update(rt, f) {
            Ok(_old) => Ok(()),
            Err(refused) => Err(refused),
        }
    }

    /// Updates the value by a function of it, as `get_and_update` does, and returns the new value: a copy that is made
    /// before the value is set.
    pub fn update_and_get<R: Wait, F: Fn(&T) -> Result<T, OutOfMemory>>(
        &mut self,
        rt: &R,
        f: F,
    ) -> Result<T, OutOfMemory>
        requires callable { F.IsAlwaysCallable f }
        ensures flow { self.new.flow ≡ self.old.flow }
        ensures updates { MatchResult result
            (λ set. (read : _) × Updates self.old.flow.first (Accepts (FnReturnsAt F.Fn f))
            self.old.token read set self.new.token)
            (λ none. StopsAt self.old.flow.first (Accepts (FnReturnsAt F.Fn f))
            (RefusesOrKeepsNone (FnReturnsAt F.Fn f)) self.old.token self.new.token) }
    {
        for _ in rt.forever() {
            let (old, new) = match self.answered(rt, &f) {
                Ok(round) => round,
                Err(refused) => return Err(refused),
            };
            let Ok(kept) = new.try_copy() else {
                return Err(OutOfMemory);
            };
            if self.compare_and_set(rt, &old, new) {
                return Ok(kept);
            }
            thread::yield_now();
        }
        unreachable!()
    }

    /// Returns a snapshot of the replay cache, which for a state flow is a list with a copy of its current value.
    pub fn replay_cache<R: Wait>(&mut self, rt: &R) -> Result<Vec<T, A>, OutOfMemory>
        ensures flow { self.new.flow ≡ self.old.flow }
        ensures called { StateCalls self.old.flow self.old.token call.ReplayCache
            (state_cache_reply (answer_by memory_fault result)) self.new.token }
    {
        let values = self.flow.replay_cache(rt, &mut self.seat);
        values.map_err(|_fault| OutOfMemory)
    }

    /// Returns `Unsupported`: a state flow always has a value, so its replay cache cannot be reset.
    pub fn reset_replay_cache<R: Wait>(&mut self, rt: &R) -> Result<(), Unsupported>
        ensures flow { self.new.flow ≡ self.old.flow }
        ensures called { StateCalls self.old.flow self.old.token call.ResetReplayCache
            (reset_reply (answer_by unsupported_fault result)) self.new.token }
        ensures refused { IsErr result }
    {
        let reset = self.flow.reset_replay_cache(rt, &mut self.seat);
        reset.map_err(|_fault| Unsupported)
    }
}
