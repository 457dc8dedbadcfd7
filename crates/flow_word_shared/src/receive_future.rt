//! The next value of a subscription, as a future that is woken.
ghost use Rattle.std.specs.Prelude.{◌≡◌, ⊤, Some, None};
ghost use Rattle.futures.specs.Task.{Covers, Keeps};
ghost use Rattle.futures.specs.Poll.{IfReady, OnPending};
ghost use Rattle.flow_word_shared.specs.Receiving.{WordFlowGives, WordFlowPollsOnce};

use crate::handles::WordFlowReader;
use flow_law::Words;
use futures::Future;
use futures::task::{Context, Poll};
use std::marker::Model;

/// A future that waits for the next value of a reader, and gives the reader and the value.
///
/// A poll that finds nothing leaves its task's waker with the flow, and looks once more. An emission wakes the task. If
/// no waker can be kept at that moment, or emitters have overwritten all that the poll read, the task asks to be polled
/// again. After `Ready` a poll is pending and calls nothing.
///
/// # Dropping
/// Dropping the future ends its subscription, as dropping its reader does. Its task may be woken once more. Call
/// `into_reader` to get the reader back.
#[derive(Drop)]
pub struct WordReceiveFuture<T: Words> {
    reader: Option<WordFlowReader<T>>,
}

impl<T: Words> Model for WordReceiveFuture<T> {
    ghost use Rattle.std.specs.Prelude.{Option};
    ghost use Rattle.flow_word_shared.specs.Handles.{WordFlowReaderOf};

    ghost Value = { Option (WordFlowReaderOf T) };

    ghost view = { λ f. f.reader };
}

impl<T: Words> WordFlowReader<T> {
    /// Returns a future that waits for the next value, and is woken when there is one. Nothing is received before it is
    /// polled.
    pub fn into_receive(self) -> WordReceiveFuture<T>
        ensures { result ≡ Some self }
    {
        WordReceiveFuture { reader: Some(self) }
    }
}

impl<T: Words> WordReceiveFuture<T> {
    /// Ends the future, and returns the reader, or `None` after `Ready`, when the output had it.
    pub fn into_reader(self) -> Option<WordFlowReader<T>>
        ensures { result ≡ self }
    {
        let WordReceiveFuture { reader } = self;
        reader
    }
}

impl<T: Words> Future for WordReceiveFuture<T> {
    type Output = (WordFlowReader<T>, T);

    ghost gives = { λ f given. WordFlowGives f given };

    fn poll(&mut self, cx: &mut Context<'_>) -> Poll<(WordFlowReader<T>, T)>
        ensures polls { WordFlowPollsOnce self.old result self.new }
        // The clauses of the trait. A pending poll has left its waker, or asked to be polled again (`registered`).
        ensures value { IfReady result (WordFlowGives self.old) }
        ensures again { OnPending result ⊤ }
        ensures same { OnPending result ((x : _)
            → WordFlowGives self.new x → WordFlowGives self.old x) }
        ensures registered { OnPending result (Covers cx.new (λ _. ⊥)) }
        ensures kept { Keeps cx.old cx.new }
    {
        let mut reader = match self.reader.take() {
            Some(reader) => reader,
            None => return cx.yield_now(),
        };
        match reader.look_or_leave_waker(cx) {
            Some(value) => Poll::Ready((reader, value)),
            None => {
                self.reader = Some(reader);
                Poll::Pending
            }
        }
    }
}
