//! The values of a reader as a stream, and its next value as a future. Both are woken.
ghost use Rattle.std.specs.Prelude.{◌≡◌, ⊤, List, [], Option, Some, IfSome, OnSome};
ghost use Rattle.futures.specs.Poll.{IfReady, OnPending};
ghost use Rattle.futures.specs.Runs.{After, Within};
ghost use Rattle.futures.specs.Task.{Covers, IsArmed, Keeps};
ghost use Rattle.flow_shared.specs.Polling.{GivesNext, PollsItem, PollsNext, PollsReader, Yields, polled_by};

use super::reader::{FlowReader, Reader, StateReader};
use crate::calling::AtOnce;
use flow_core::{ReaderCalls, SharedCore, StateCore};
use flow_law::{FlowFault, FlowValue, Next, OutOfMemory};
use futures::task::{Context, Poll};
use futures::{Future, Stream};
use std::alloc::{Allocator, Global};
use std::marker::Model;

/// Turns the answer of the flow into that of a poll.
fn polled<T>(answer: Result<Next<T>, FlowFault>) -> Poll<Result<T, OutOfMemory>>
    ensures { result ≡ polled_by answer }
{
    match answer {
        Ok(Next::Value(value)) => Poll::Ready(Ok(value)),
        Ok(Next::Empty | Next::Gone) | Err(FlowFault::Busy) => Poll::Pending,
        Err(_fault) => Poll::Ready(Err(OutOfMemory)),
    }
}

impl<S: ReaderCalls + Drop, A: Allocator + Copy> FlowReader<S, A> {
    /// Takes the next value if no other caller holds the flow. If there is none, the polled task sleeps.
    pub(super) fn poll_next_value(
        &mut self,
        cx: &mut Context<'_>,
    ) -> Poll<Result<S::Item, OutOfMemory>>
        ensures flow { self.new.flow ≡ self.old.flow }
        ensures polls { PollsNext S.kind self.old.flow
            self.old.subscription result self.new.subscription }
        ensures armed { OnPending result (IsArmed cx.new) }
        ensures kept { Keeps cx.old cx.new }
    {
        let answer = self.flow.next_by(&AtOnce, &mut self.subscription, cx);
        polled(answer)
    }
}

impl<S: ReaderCalls + Drop, A: Allocator + Copy> FlowReader<S, A> {
    /// Returns the values that the subscriber receives, as a stream that is woken.
    pub fn into_stream(self) -> FlowValues<S, A>
        ensures stream { result ≡ self }
        ensures yields { (values : List _) (next : Option _)
            → ⟦<FlowValues<S, A> as Stream>⟧.yields result values next
            → Yields S.kind self.flow self.subscription values next }
    {
        FlowValues { reader: self }
    }
}

/// A stream of the values that a reader receives. It does not end.
///
/// A poll makes one call of the flow that does not wait, as a `ReceiveFuture` does. An item is `OutOfMemory` if a value
/// could not be copied; the value is then the next item.
///
/// # Dropping
/// Dropping the stream ends its subscription, as dropping its reader does. Call `into_reader` to keep it.
#[derive(Drop)]
pub struct FlowValues<S: ReaderCalls, A: Allocator + Copy = Global> {
    reader: FlowReader<S, A>,
}

impl<S: ReaderCalls, A: Allocator + Copy> Model for FlowValues<S, A> {
    ghost use Rattle.atomic_table.specs.Seated.{TableId};
    ghost use Rattle.flow_law.specs.declared.history.Said.{Said};
    ghost use Rattle.flow_law.specs.history.Handles.{ReaderOf};

    ghost Value = { ReaderOf TableId S.State (Said S.Call S.Reply) };

    ghost view = { λ s. s.reader };
}

impl<S: ReaderCalls + Drop, A: Allocator + Copy> FlowValues<S, A> {
    /// Ends the stream, and returns its reader.
    pub fn into_reader(self) -> FlowReader<S, A>
        ensures { result ≡ self }
    {
        let FlowValues { reader } = self;
        reader
    }

    /// Polls the reader once.
    fn advance(&mut self, cx: &mut Context<'_>) -> Poll<Result<S::Item, OutOfMemory>>
        ensures flow { self.new.flow ≡ self.old.flow }
        ensures polls { PollsNext S.kind self.old.flow
            self.old.subscription result self.new.subscription }
        ensures armed { OnPending result (IsArmed cx.new) }
        ensures kept { Keeps cx.old cx.new }
    {
        self.reader.poll_next_value(cx)
    }
}

impl<S: ReaderCalls + Drop, A: Allocator + Copy> Stream for FlowValues<S, A> {
    type Item = Result<S::Item, OutOfMemory>;

    ghost yields = { λ s xs next. Yields S.kind s.flow s.subscription xs next };

    fn poll_next(&mut self, cx: &mut Context<'_>) -> Poll<Option<Result<S::Item, OutOfMemory>>>
        ensures flow { self.new.flow ≡ self.old.flow }
        ensures polls { PollsItem S.kind self.old.flow
            self.old.subscription result self.new.subscription }
        // The clauses of the trait. A pending poll has left its waker, or asked to be polled again (`registered`).
        ensures value { IfReady result (Yields S.kind self.old.flow self.old.subscription []) }
        ensures rest { IfReady result (λ o. IfSome o (λ x.
            After (Yields S.kind self.old.flow self.old.subscription) x
            (Yields S.kind self.new.flow self.new.subscription))) }
        ensures goes { IfReady result (λ o. OnSome o ⊤) }
        ensures again { OnPending result ⊤ }
        ensures same { OnPending result (Within
            (Yields S.kind self.old.flow self.old.subscription)
            (Yields S.kind self.new.flow self.new.subscription)) }
        ensures registered { OnPending result (Covers cx.new (λ _. ⊥)) }
        ensures kept { Keeps cx.old cx.new }
    {
        match self.advance(cx) {
            Poll::Ready(received) => Poll::Ready(Some(received)),
            Poll::Pending => Poll::Pending,
        }
    }
}

/// A future that waits for the next value of a reader: of a state flow, for a value that differs from the one that the
/// reader got last. Its output is the reader, with the value, or with `OutOfMemory` if the value could not be copied: a
/// later call returns it, or in a state flow a newer one.
///
/// A poll makes one call of the flow that does not wait. If there is nothing to receive, it leaves the task's waker
/// inside the flow; the call that gives the reader something removes it, and wakes the task once it has left the flow.
/// If another caller is inside the flow, or memory for the waker is refused, the task asks to be polled again. After
/// `Ready` a poll is pending and calls nothing.
///
/// # Dropping
/// Dropping the future ends its subscription, as dropping its reader does. Its task may be woken once more. Call
/// `into_reader` to get the reader back.
#[derive(Drop)]
pub struct ReceiveFuture<S: ReaderCalls, A: Allocator + Copy = Global> {
    reader: Option<FlowReader<S, A>>,
}

impl<S: ReaderCalls, A: Allocator + Copy> Model for ReceiveFuture<S, A> {
    ghost use Rattle.std.specs.Prelude.{Option};
    ghost use Rattle.atomic_table.specs.Seated.{TableId};
    ghost use Rattle.flow_law.specs.declared.history.Said.{Said};
    ghost use Rattle.flow_law.specs.history.Handles.{ReaderOf};

    ghost Value = { Option (ReaderOf TableId S.State (Said S.Call S.Reply)) };

    ghost view = { λ f. f.reader };
}

impl<T: FlowValue, A: Allocator + Copy> Reader<T, A> {
    /// Returns a future that waits for the next value. Nothing is received before it is polled.
    pub fn into_receive(self) -> ReceiveFuture<SharedCore<T, A>, A>
        ensures { result ≡ Some self }
    {
        ReceiveFuture { reader: Some(self) }
    }
}

impl<T: FlowValue, A: Allocator + Copy> StateReader<T, A> {
    /// Returns a future that waits until the value changes. Nothing is received before it is polled.
    pub fn into_changed(self) -> ReceiveFuture<StateCore<T, A>, A>
        ensures { result ≡ Some self }
    {
        ReceiveFuture { reader: Some(self) }
    }
}

impl<S: ReaderCalls + Drop, A: Allocator + Copy> ReceiveFuture<S, A> {
    /// Ends the future, and returns the reader, or `None` after `Ready`, when the output had it.
    pub fn into_reader(self) -> Option<FlowReader<S, A>>
        ensures { result ≡ self }
    {
        let ReceiveFuture { reader } = self;
        reader
    }
}

impl<S: ReaderCalls + Drop, A: Allocator + Copy> Future for ReceiveFuture<S, A> {
    type Output = (FlowReader<S, A>, Result<S::Item, OutOfMemory>);

    ghost gives = { λ f given. GivesNext S.kind f given };

    fn poll(
        &mut self,
        cx: &mut Context<'_>,
    ) -> Poll<(FlowReader<S, A>, Result<S::Item, OutOfMemory>)>
        ensures polls { PollsReader S.kind self.old result self.new }
        // The clauses of the trait. A pending poll has left its waker, or asked to be polled again (`registered`).
        ensures value { IfReady result (GivesNext S.kind self.old) }
        ensures again { OnPending result ⊤ }
        ensures same { OnPending result ((x : _)
            → GivesNext S.kind self.new x → GivesNext S.kind self.old x) }
        ensures registered { OnPending result (Covers cx.new (λ _. ⊥)) }
        ensures kept { Keeps cx.old cx.new }
    {
        let mut reader = match self.reader.take() {
            Some(reader) => reader,
            None => return cx.yield_now(),
        };
        match reader.poll_next_value(cx) {
            Poll::Ready(given) => Poll::Ready((reader, given)),
            Poll::Pending => {
                self.reader = Some(reader);
                Poll::Pending
            }
        }
    }
}
