//! Waiting for the next value of a reader, or for a state that passes a test: the calling thread sleeps until there is
//! one, or until a time limit.
ghost use Rattle.std.specs.Prelude.{◌≡◌, Ok, None, true, false, IsOk};
ghost use Rattle.std.specs.Fn.{FnReturnsAt};
ghost use Rattle.flow_law.specs.history.HandleFaults.{answer_by, memory_fault};
ghost use Rattle.flow_law.specs.history.Handles.{next_in};
ghost use Rattle.flow_law.specs.flow.SharedHistory.{shared_flow};
ghost use Rattle.flow_law.specs.flow.StateFlow.{state_flow};
ghost use Rattle.flow_shared.specs.Calls.{NextsOf};
ghost use Rattle.flow_shared.specs.Receiving.{FlowReceives, NextsUntil};
ghost use Rattle.flow_shared.specs.WaitingFor.{Looks, NextsIf, ReceivesIf};

use super::reader::FlowReader;
use flow_core::{ReaderCalls, SharedCore, StateCore};
use flow_law::{FlowValue, Next, OutOfMemory};
use flow_sleepers::{Limit, ThreadWaiter, Waiter};
use std::alloc::Allocator;
use std::sync::Wait;
use std::time::{Clock, Duration};

impl<S: ReaderCalls + Drop, A: Allocator + Copy> FlowReader<S, A> {
    /// Takes the next value. If there is none, the caller sleeps or asks again.
    pub(super) fn next_asleep<R: Wait, W: Waiter<A>>(
        &mut self,
        rt: &R,
        waiter: &mut W,
    ) -> Result<Option<S::Item>, OutOfMemory>
        ensures flow { self.new.flow ≡ self.old.flow }
        ensures called { NextsOf S.kind self.old.flow self.old.subscription
            (next_in (answer_by memory_fault result)) self.new.subscription }
        ensures given { S.Item.IsAlwaysCopied → IsOk result }
        ensures armed { (result ≡ Ok None) → W.is_armed waiter.new }
    {
        match self.flow.next_asleep(rt, &mut self.subscription, waiter) {
            Ok(Next::Value(value)) => Ok(Some(value)),
            Ok(_) => Ok(None),
            Err(_fault) => Err(OutOfMemory),
        }
    }

    /// Waits for the next value, and takes it.
    pub(super) fn await_next<R: Wait>(&mut self, rt: &R) -> Result<S::Item, OutOfMemory>
        ensures flow { self.new.flow ≡ self.old.flow }
        ensures received { FlowReceives S.kind self.old.flow self.old.subscription
            (answer_by memory_fault result) self.new.subscription }
        ensures given { S.Item.IsAlwaysCopied → IsOk result }
    {
        let mut waiter = ThreadWaiter::new();
        for _ in rt.forever() {
            match self.next_asleep(rt, &mut waiter) {
                Ok(Some(value)) => return Ok(value),
                Ok(None) => waiter.wait(rt),
                Err(refused) => return Err(refused),
            }
        }
        unreachable!()
    }

    /// Waits for the next value, and takes it, or returns `None` when the time is up.
    pub(super) fn await_next_within<R: Wait + Clock>(
        &mut self,
        rt: &R,
        limit: &Limit,
    ) -> Result<Option<S::Item>, OutOfMemory>
        ensures flow { self.new.flow ≡ self.old.flow }
        ensures received { NextsUntil S.kind self.old.flow self.old.subscription
            (next_in (answer_by memory_fault result)) self.new.subscription }
        ensures given { S.Item.IsAlwaysCopied → IsOk result }
    {
        let mut waiter = ThreadWaiter::new();
        for _ in rt.forever() {
            match self.next_asleep(rt, &mut waiter) {
                Ok(Some(value)) => return Ok(Some(value)),
                Ok(None) => {
                    if !waiter.wait_within(rt, limit) {
                        return Ok(None);
                    }
                }
                Err(refused) => return Err(refused),
            }
        }
        unreachable!()
    }
}

impl<T: FlowValue, A: Allocator + Copy> FlowReader<SharedCore<T, A>, A> {
    /// Waits for the next value, and takes it. The thread asks several times, and yields in between; then it sleeps,
    /// and the call that gives the subscriber a value wakes it. If there is no memory for its waker, it asks again.
    ///
    /// # Errors
    /// `OutOfMemory` if the value could not be copied: a later call returns it.
    ///
    /// # Source
    /// A collector of a `SharedFlow`, which suspends until there is a value.
    pub fn receive<R: Wait>(&mut self, rt: &R) -> Result<T, OutOfMemory>
        ensures flow { self.new.flow ≡ self.old.flow }
        ensures received { FlowReceives shared_flow self.old.flow self.old.subscription
            (answer_by memory_fault result) self.new.subscription }
        ensures given { T.IsAlwaysCopied → IsOk result }
    {
        self.await_next(rt)
    }

    /// Takes the next value as `receive` does, and returns `None` if there is none within `limit`. If the clock cannot
    /// be read, it asks once.
    ///
    /// # Errors
    /// `OutOfMemory` if the value could not be copied: a later call returns it.
    ///
    /// # Source
    /// `withTimeoutOrNull` around a collection of one value.
    pub fn receive_timeout<R: Wait + Clock>(
        &mut self,
        rt: &R,
        limit: Duration,
    ) -> Result<Option<T>, OutOfMemory>
        ensures flow { self.new.flow ≡ self.old.flow }
        ensures received { NextsUntil shared_flow self.old.flow self.old.subscription
            (next_in (answer_by memory_fault result)) self.new.subscription }
        ensures given { T.IsAlwaysCopied → IsOk result }
    {
        self.await_next_within(rt, &Limit::new(rt, limit))
    }
}

impl<T: FlowValue, A: Allocator + Copy> FlowReader<StateCore<T, A>, A> {
    /// Waits until the current value differs from the one that the subscriber received last, and takes it. A new
    /// subscriber gets the current value at once. The thread waits as in `receive` of a shared flow's reader.
    ///
    /// # Errors
    /// `OutOfMemory` if the value could not be copied: a later call returns it, or a newer one.
    ///
    /// # Source
    /// A collector of a `StateFlow`, which suspends until the value is another one.
    pub fn changed<R: Wait>(&mut self, rt: &R) -> Result<T, OutOfMemory>
        ensures flow { self.new.flow ≡ self.old.flow }
        ensures received { FlowReceives state_flow self.old.flow self.old.subscription
            (answer_by memory_fault result) self.new.subscription }
        ensures given { T.IsAlwaysCopied → IsOk result }
    {
        self.await_next(rt)
    }

    /// Takes the current value as `changed` does, and returns `None` if it does not change within `limit`. If the clock
    /// cannot be read, it asks once.
    ///
    /// # Errors
    /// `OutOfMemory` if the value could not be copied: a later call returns it, or a newer one.
    ///
    /// # Source
    /// `withTimeoutOrNull` around a collection of one value.
    pub fn changed_timeout<R: Wait + Clock>(
        &mut self,
        rt: &R,
        limit: Duration,
    ) -> Result<Option<T>, OutOfMemory>
        ensures flow { self.new.flow ≡ self.old.flow }
        ensures received { NextsUntil state_flow self.old.flow self.old.subscription
            (next_in (answer_by memory_fault result)) self.new.subscription }
        ensures given { T.IsAlwaysCopied → IsOk result }
    {
        self.await_next_within(rt, &Limit::new(rt, limit))
    }

    /// Returns the current value, and takes it if the subscriber has not received it.
    fn current<R: Wait>(&mut self, rt: &R) -> Result<T, OutOfMemory>
        ensures flow { self.new.flow ≡ self.old.flow }
        ensures looked { Looks self.old.flow self.old.subscription
            (answer_by memory_fault result) self.new.subscription }
        ensures given { T.IsAlwaysCopied → IsOk result }
    {
        let value = match self.flow.value_by(rt, &mut self.subscription) {
            Ok(value) => value,
            Err(_fault) => return Err(OutOfMemory),
        };
        match self.next(rt) {
            Ok(Some(newer)) => Ok(newer),
            Ok(None) => Ok(value),
            Err(refused) => Err(refused),
        }
    }

    /// Waits until the current value passes a test, and returns it. The current value is tested at once, even if the
    /// subscriber received it before. The subscriber has then received all tested values, as by `changed`, which does
    /// not return them again.
    ///
    /// # Errors
    /// `OutOfMemory` if a value could not be copied: a later call tests it, or a newer one.
    ///
    /// # Source
    /// `StateFlow.first { }`.
    pub fn wait_for<R: Wait, F: Fn(&T) -> bool>(
        &mut self,
        rt: &R,
        test: F,
    ) -> Result<T, OutOfMemory>
        requires callable { F.IsAlwaysCallable test }
        ensures flow { self.new.flow ≡ self.old.flow }
        ensures received { ReceivesIf self.old.flow
            (λ value. FnReturnsAt F.Fn test value true) (λ value. FnReturnsAt F.Fn test value false)
            self.old.subscription (answer_by memory_fault result) self.new.subscription }
        ensures given { T.IsAlwaysCopied → IsOk result }
    {
        let mut value = match self.current(rt) {
            Ok(value) => value,
            Err(refused) => return Err(refused),
        };
        for _ in rt.forever() {
            if test(&value) {
                return Ok(value);
            }
            value = match self.changed(rt) {
                Ok(newer) => newer,
                Err(refused) => return Err(refused),
            };
        }
        unreachable!()
    }

    /// Waits as `wait_for` does, for no longer than `limit`, and returns `None` if no value has passed the test by
    /// then. The current value is tested in any case. If the clock cannot be read, it returns `None` at the first
    /// `next` after that which finds nothing. Values that failed count as received.
    ///
    /// # Errors
    /// `OutOfMemory` if a value could not be copied: a later call tests it, or a newer one.
    ///
    /// # Source
    /// `withTimeoutOrNull` around `StateFlow.first { }`.
    pub fn wait_for_timeout<R: Wait + Clock, F: Fn(&T) -> bool>(
        &mut self,
        rt: &R,
        limit: Duration,
        test: F,
    ) -> Result<Option<T>, OutOfMemory>
        requires callable { F.IsAlwaysCallable test }
        ensures flow { self.new.flow ≡ self.old.flow }
        ensures received { NextsIf self.old.flow
            (λ value. FnReturnsAt F.Fn test value true) (λ value. FnReturnsAt F.Fn test value false)
            self.old.subscription (next_in (answer_by memory_fault result)) self.new.subscription }
        ensures given { T.IsAlwaysCopied → IsOk result }
    {
        let limit = Limit::new(rt, limit);
        let mut newest = match self.current(rt) {
            Ok(value) => value,
            Err(refused) => return Err(refused),
        };
        for _ in rt.forever() {
            if test(&newest) {
                return Ok(Some(newest));
            }
            newest = match self.await_next_within(rt, &limit) {
                Ok(Some(newer)) => newer,
                Ok(None) => return Ok(None),
                Err(refused) => return Err(refused),
            };
        }
        unreachable!()
    }
}
