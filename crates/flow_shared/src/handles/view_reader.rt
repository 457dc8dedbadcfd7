//! A reader of a view: it receives, and gives neither an emitter nor a setter.
ghost use Rattle.std.specs.Prelude.{◌≡◌, true, false, IsOk};
ghost use Rattle.std.specs.Fn.{FnReturnsAt};
ghost use Rattle.flow_law.specs.history.HandleFaults.{answer_by, memory_fault};
ghost use Rattle.flow_law.specs.history.Handles.{next_in};
ghost use Rattle.flow_law.specs.flow.SharedHistory.{shared_flow};
ghost use Rattle.flow_law.specs.flow.StateFlow.{state_flow};
ghost use Rattle.flow_shared.specs.Calls.{NextsOf, Unsubscribes};
ghost use Rattle.flow_shared.specs.Receiving.{FlowReceives, NextsUntil};
ghost use Rattle.flow_shared.specs.WaitingFor.{ReceivesIf};

use super::iterating::{Values, ValuesUntil};
use super::reader::FlowReader;
use super::view::FlowView;
use flow_core::{ReaderCalls, SharedCore, StateCore};
use flow_law::{FlowValue, OutOfMemory};
use std::alloc::{Allocator, Global};
use std::marker::Model;
use std::sync::Wait;
use std::time::{Clock, Duration};

/// A subscription of a view, and its flow. Contracts see both. Its calls are those of a `FlowReader` that only read.
///
/// # Dropping
/// Dropping it ends its subscription, as dropping a `FlowReader` does.
#[derive(Drop)]
pub struct ViewReader<S: ReaderCalls, A: Allocator + Copy = Global> {
    pub(super) reader: FlowReader<S, A>,
}

impl<S: ReaderCalls, A: Allocator + Copy> Model for ViewReader<S, A> {
    ghost use Rattle.atomic_table.specs.Seated.{TableId};
    ghost use Rattle.flow_law.specs.declared.history.Said.{Said};
    ghost use Rattle.flow_law.specs.history.Handles.{ReaderOf};

    ghost Value = { ReaderOf TableId S.State (Said S.Call S.Reply) };

    ghost view = { λ r. r.reader };
}

impl<S: ReaderCalls + Drop, A: Allocator + Copy> ViewReader<S, A> {
    /// Takes the next value, as `next` of a `FlowReader` does.
    pub fn next<R: Wait>(&mut self, rt: &R) -> Result<Option<S::Item>, OutOfMemory>
        ensures flow { self.new.flow ≡ self.old.flow }
        ensures called { NextsOf S.kind self.old.flow self.old.subscription
            (next_in (answer_by memory_fault result)) self.new.subscription }
        ensures given { S.Item.IsAlwaysCopied → IsOk result }
    {
        self.reader.next(rt)
    }

    /// Returns an iterator over the next values, as `values` of a `FlowReader` does.
    pub fn values<'r, R: Wait>(&'r mut self, rt: &'r R) -> Values<'r, S, R, A>
        ensures { result.reader.now ≡ self.old }
    {
        self.reader.values(rt)
    }

    /// Returns an iterator over the values that come within `limit`, as `values_until` of a `FlowReader` does.
    pub fn values_until<'r, R: Wait + Clock>(
        &'r mut self,
        rt: &'r R,
        limit: Duration,
    ) -> ValuesUntil<'r, S, R, A>
        ensures { result.reader.now ≡ self.old }
    {
        self.reader.values_until(rt, limit)
    }

    /// Ends the subscription, and returns a view with its seat.
    pub fn unsubscribe<R: Wait>(self, rt: &R) -> FlowView<S, A>
        ensures flow { result.flow ≡ self.flow }
        ensures left { Unsubscribes S.kind self.flow self.subscription result.token }
    {
        let ViewReader { reader } = self;
        FlowView {
            caller: reader.unsubscribe(rt),
        }
    }
}

impl<T: FlowValue, A: Allocator + Copy> ViewReader<SharedCore<T, A>, A> {
    /// Waits for the next value, and takes it, as `receive` of a `Reader` does.
    ///
    /// # Errors
    /// `OutOfMemory` if the value could not be copied: a later call returns it.
    pub fn receive<R: Wait>(&mut self, rt: &R) -> Result<T, OutOfMemory>
        ensures flow { self.new.flow ≡ self.old.flow }
        ensures received { FlowReceives shared_flow self.old.flow self.old.subscription
            (answer_by memory_fault result) self.new.subscription }
        ensures given { T.IsAlwaysCopied → IsOk result }
    {
        self.reader.receive(rt)
    }

    /// Takes the next value, or returns `None` if there is none within `limit`, as `receive_timeout` of a `Reader`
    /// does.
    ///
    /// # Errors
    /// `OutOfMemory` if the value could not be copied: a later call returns it.
    pub fn receive_timeout<R: Wait + Clock>(
        &mut self,
        rt: &R,
        limit: Duration,
    ) -> Result<Option<T>, OutOfMemory>
        ensures flow { self.new.flow ≡ self.old.flow }
        ensures received { NextsUntil shared_flow self.old.flow self.old.subscription
            (next_in (answer_by memory_fault result)) self.new.subscription }
        ensures given { T.IsAlwaysCopied → IsOk result }
    {
        self.reader.receive_timeout(rt, limit)
    }
}

impl<T: FlowValue, A: Allocator + Copy> ViewReader<StateCore<T, A>, A> {
    /// Waits until the current value is another one than the last, and takes it, as `changed` of a `StateReader` does.
    ///
    /// # Errors
    /// `OutOfMemory` if the value could not be copied: a later call returns it, or a newer one.
    pub fn changed<R: Wait>(&mut self, rt: &R) -> Result<T, OutOfMemory>
        ensures flow { self.new.flow ≡ self.old.flow }
        ensures received { FlowReceives state_flow self.old.flow self.old.subscription
            (answer_by memory_fault result) self.new.subscription }
        ensures given { T.IsAlwaysCopied → IsOk result }
    {
        self.reader.changed(rt)
    }

    /// Takes the current value, or returns `None` if it does not change within `limit`, as `changed_timeout` of a
    /// `StateReader` does.
    ///
    /// # Errors
    /// `OutOfMemory` if the value could not be copied: a later call returns it, or a newer one.
    pub fn changed_timeout<R: Wait + Clock>(
        &mut self,
        rt: &R,
        limit: Duration,
    ) -> Result<Option<T>, OutOfMemory>
        ensures flow { self.new.flow ≡ self.old.flow }
        ensures received { NextsUntil state_flow self.old.flow self.old.subscription
            (next_in (answer_by memory_fault result)) self.new.subscription }
        ensures given { T.IsAlwaysCopied → IsOk result }
    {
        self.reader.changed_timeout(rt, limit)
    }

    /// Waits until the current value passes a test, and returns it, as `wait_for` of a `StateReader` does.
    ///
    /// # Errors
    /// `OutOfMemory` if a value could not be copied: a later call tests it, or a newer one.
    pub fn wait_for<R: Wait, F: Fn(&T) -> bool>(
        &mut self,
        rt: &R,
        test: F,
    ) -> Result<T, OutOfMemory>
        requires callable { F.IsAlwaysCallable test }
        ensures flow { self.new.flow ≡ self.old.flow }
        ensures received { ReceivesIf self.old.flow
            (λ value. FnReturnsAt F.Fn test value true) (λ value. FnReturnsAt F.Fn test value false)
            self.old.subscription (answer_by memory_fault result) self.new.subscription }
        ensures given { T.IsAlwaysCopied → IsOk result }
    {
        self.reader.wait_for(rt, test)
    }
}
