//! The next change of a word state, as a future that is woken.
ghost use Rattle.std.specs.Prelude.{◌≡◌, ⊤, Some, None};
ghost use Rattle.futures.specs.Task.{Covers, Keeps};
ghost use Rattle.futures.specs.Poll.{IfReady, OnPending};
ghost use Rattle.flow_law.specs.flow.StateFlow.{state_flow};
ghost use Rattle.flow_word.specs.Receiving.{WordGivesChanged, WordPollsChange};

use crate::handles::WordReader;
use flow_law::Packed;
use futures::Future;
use futures::task::{Context, Poll};
use std::marker::Model;

/// A future that waits until the value differs from the one that a reader got last, and gives the reader and the value.
///
/// A poll that finds nothing leaves its task's waker with the flow, and looks once more. The call that changes the
/// value wakes the task. If no waker can be kept at that moment, the task asks to be polled again. After `Ready` a poll
/// is pending and calls nothing.
///
/// # Dropping
/// Dropping the future ends its subscription, as dropping its reader does. Its task may be woken once more. Call
/// `into_reader` to get the reader back.
#[derive(Drop)]
pub struct ChangedFuture<T: Packed> {
    reader: Option<WordReader<T>>,
}

impl<T: Packed> Model for ChangedFuture<T> {
    ghost use Rattle.std.specs.Prelude.{Option};
    ghost use Rattle.flow_law.specs.declared.history.Said.{Said};
    ghost use Rattle.flow_law.specs.declared.call.StateCall.{StateCall};
    ghost use Rattle.flow_law.specs.declared.call.StateReply.{StateReply};
    ghost use Rattle.flow_law.specs.declared.states.StateFlowState.{StateFlowState};
    ghost use Rattle.flow_law.specs.history.Handles.{ReaderOf};
    ghost use Rattle.flow_word.specs.Tokens.{WordId};

    ghost Value = { Option
        (ReaderOf WordId (StateFlowState T) (Said (StateCall T) (StateReply T))) };

    ghost view = { λ f. f.reader };
}

impl<T: Packed> WordReader<T> {
    /// Returns a future that waits until the value changes. Nothing is received before it is polled.
    pub fn into_changed(self) -> ChangedFuture<T>
        ensures { result ≡ Some self }
    {
        ChangedFuture { reader: Some(self) }
    }
}

impl<T: Packed> ChangedFuture<T> {
    /// Ends the future, and returns the reader, or `None` after `Ready`, when the output had it.
    pub fn into_reader(self) -> Option<WordReader<T>>
        ensures { result ≡ self }
    {
        let ChangedFuture { reader } = self;
        reader
    }
}

impl<T: Packed> Future for ChangedFuture<T> {
    type Output = (WordReader<T>, T);

    ghost gives = { λ f given. WordGivesChanged state_flow f given };

    fn poll(&mut self, cx: &mut Context<'_>) -> Poll<(WordReader<T>, T)>
        ensures polls { WordPollsChange state_flow self.old result self.new }
        // The clauses of the trait. A pending poll has left its waker, or asked to be polled again (`registered`).
        ensures value { IfReady result (WordGivesChanged state_flow self.old) }
        ensures again { OnPending result ⊤ }
        ensures same { OnPending result ((x : _)
            → WordGivesChanged state_flow self.new x → WordGivesChanged state_flow self.old x) }
        ensures registered { OnPending result (Covers cx.new (λ _. ⊥)) }
        ensures kept { Keeps cx.old cx.new }
    {
        let mut reader = match self.reader.take() {
            Some(reader) => reader,
            None => return cx.yield_now(),
        };
        match reader.look_or_leave_waker(cx) {
            Some(value) => Poll::Ready((reader, value)),
            None => {
                self.reader = Some(reader);
                Poll::Pending
            }
        }
    }
}
