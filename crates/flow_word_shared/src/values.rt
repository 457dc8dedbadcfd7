//! The values of a subscription, as a stream that is woken.
ghost use Rattle.std.specs.Prelude.{◌≡◌, ⊤, [], None, IfSome, OnSome};
ghost use Rattle.futures.specs.Poll.{IfReady, OnPending};
ghost use Rattle.futures.specs.Runs.{After, Within};
ghost use Rattle.futures.specs.Task.{Covers, IsArmed, Keeps};
ghost use Rattle.flow_law.specs.flow.SharedHistory.{shared_flow};
ghost use Rattle.flow_word.specs.Receiving.{WordYields};
ghost use Rattle.flow_word_shared.specs.Receiving.{WordFlowPolls, WordFlowPollsItem};

use crate::handles::WordFlowReader;
use flow_law::Words;
use futures::Stream;
use futures::task::{Context, Poll};
use std::marker::Model;

/// A stream of the values that a reader receives. It does not end.
///
/// A poll that finds nothing leaves its task's waker with the flow, and looks once more. An emission wakes the task. If
/// no waker can be kept at that moment, or emitters have overwritten all that the poll read, the task asks to be polled
/// again.
///
/// # Dropping
/// Dropping the stream ends its subscription, as dropping its reader does. Its task may be woken once more. Call
/// `into_reader` to get the reader back.
///
/// # Source
/// `SharedFlow.collect`.
#[derive(Drop)]
pub struct WordFlowValues<T: Words> {
    reader: WordFlowReader<T>,
}

impl<T: Words> Model for WordFlowValues<T> {
    ghost use Rattle.flow_word_shared.specs.Handles.{WordFlowReaderOf};

    ghost Value = { WordFlowReaderOf T };

    ghost view = { λ v. v.reader };
}

impl<T: Words> WordFlowReader<T> {
    /// Returns the values that the subscriber receives, as a stream that is woken.
    pub fn into_stream(self) -> WordFlowValues<T>
        ensures { result ≡ self }
    {
        WordFlowValues { reader: self }
    }
}

impl<T: Words> WordFlowValues<T> {
    /// Ends the stream, and returns the reader.
    pub fn into_reader(self) -> WordFlowReader<T>
        ensures { result ≡ self }
    {
        let WordFlowValues { reader } = self;
        reader
    }

    /// Takes the next value if there is one. If not, leaves the task's waker, and looks once more.
    fn look_or_leave_waker(&mut self, cx: &mut Context<'_>) -> Option<T>
        ensures flow { self.new.flow ≡ self.old.flow }
        ensures polled { WordFlowPolls self.old.flow.first
            self.old.subscription result self.new.subscription }
        ensures armed { result ≡ None → IsArmed cx.new }
        ensures kept { Keeps cx.old cx.new }
    {
        self.reader.look_or_leave_waker(cx)
    }
}

impl<T: Words> Stream for WordFlowValues<T> {
    type Item = T;

    ghost yields = { λ v values next. WordYields shared_flow v.flow.first v.subscription values next };

    fn poll_next(&mut self, cx: &mut Context<'_>) -> Poll<Option<T>>
        ensures flow { self.new.flow ≡ self.old.flow }
        ensures polls { WordFlowPollsItem self.old.flow.first
            self.old.subscription result self.new.subscription }
        // The clauses of the trait. A pending poll has left its waker, or asked to be polled again (`registered`).
        ensures value { IfReady result (WordYields shared_flow
            self.old.flow.first self.old.subscription []) }
        ensures rest { IfReady result (λ o. IfSome o (λ x.
            After (WordYields shared_flow self.old.flow.first self.old.subscription) x
            (WordYields shared_flow self.new.flow.first self.new.subscription))) }
        ensures goes { IfReady result (λ o. OnSome o ⊤) }
        ensures again { OnPending result ⊤ }
        ensures same { OnPending result (Within
            (WordYields shared_flow self.old.flow.first self.old.subscription)
            (WordYields shared_flow self.new.flow.first self.new.subscription)) }
        ensures registered { OnPending result (Covers cx.new (λ _. ⊥)) }
        ensures kept { Keeps cx.old cx.new }
    {
        match self.look_or_leave_waker(cx) {
            Some(value) => Poll::Ready(Some(value)),
            None => Poll::Pending,
        }
    }
}
