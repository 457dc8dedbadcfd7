//! The values of a subscription to a word state, as a stream that is woken.
ghost use Rattle.std.specs.Prelude.{◌≡◌, ⊤, [], None, IfSome, OnSome};
ghost use Rattle.futures.specs.Poll.{IfReady, OnPending};
ghost use Rattle.futures.specs.Runs.{After, Within};
ghost use Rattle.futures.specs.Task.{Covers, IsArmed, Keeps};
ghost use Rattle.flow_law.specs.flow.StateFlow.{state_flow};
ghost use Rattle.flow_word.specs.Receiving.{WordPollsItem, ReceivesInTime, WordYields};

use crate::handles::WordReader;
use flow_law::Packed;
use futures::Stream;
use futures::task::{Context, Poll};
use std::marker::Model;

/// A stream of the values that a reader receives. It does not end.
///
/// A poll that finds nothing leaves its task's waker with the flow, and looks once more. The call that changes the
/// value wakes the task. If no waker can be kept at that moment, the task asks to be polled again.
///
/// # Dropping
/// Dropping the stream ends its subscription, as dropping its reader does. Its task may be woken once more. Call
/// `into_reader` to get the reader back.
///
/// # Source
/// `StateFlow.collect`.
#[derive(Drop)]
pub struct WordValues<T: Packed> {
    reader: WordReader<T>,
}

impl<T: Packed> Model for WordValues<T> {
    ghost use Rattle.flow_law.specs.declared.history.Said.{Said};
    ghost use Rattle.flow_law.specs.declared.call.StateCall.{StateCall};
    ghost use Rattle.flow_law.specs.declared.call.StateReply.{StateReply};
    ghost use Rattle.flow_law.specs.declared.states.StateFlowState.{StateFlowState};
    ghost use Rattle.flow_law.specs.history.Handles.{ReaderOf};
    ghost use Rattle.flow_word.specs.Tokens.{WordId};

    ghost Value = { ReaderOf WordId (StateFlowState T) (Said (StateCall T) (StateReply T)) };

    ghost view = { λ v. v.reader };
}

impl<T: Packed> WordReader<T> {
    /// Returns the values that the subscriber receives, as a stream that is woken.
    pub fn into_stream(self) -> WordValues<T>
        ensures { result ≡ self }
    {
        WordValues { reader: self }
    }
}

impl<T: Packed> WordValues<T> {
    /// Ends the stream, and returns the reader.
    pub fn into_reader(self) -> WordReader<T>
        ensures { result ≡ self }
    {
        let WordValues { reader } = self;
        reader
    }

    /// Takes the value if it has changed. If it has not, leaves the task's waker, and looks once more.
    fn look_or_leave_waker(&mut self, cx: &mut Context<'_>) -> Option<T>
        ensures flow { self.new.flow ≡ self.old.flow }
        ensures received { ReceivesInTime state_flow self.old.flow.first
            self.old.subscription result self.new.subscription }
        ensures armed { result ≡ None → IsArmed cx.new }
        ensures kept { Keeps cx.old cx.new }
    {
        self.reader.look_or_leave_waker(cx)
    }
}

impl<T: Packed> Stream for WordValues<T> {
    type Item = T;

    ghost yields = { λ v values next. WordYields state_flow v.flow.first v.subscription values next };

    fn poll_next(&mut self, cx: &mut Context<'_>) -> Poll<Option<T>>
        ensures flow { self.new.flow ≡ self.old.flow }
        ensures polls { WordPollsItem state_flow self.old.flow.first
            self.old.subscription result self.new.subscription }
        // The clauses of the trait. A pending poll has left its waker, or asked to be polled again (`registered`).
        ensures value { IfReady result (WordYields state_flow
            self.old.flow.first self.old.subscription []) }
        ensures rest { IfReady result (λ o. IfSome o (λ x.
            After (WordYields state_flow self.old.flow.first self.old.subscription) x
            (WordYields state_flow self.new.flow.first self.new.subscription))) }
        ensures goes { IfReady result (λ o. OnSome o ⊤) }
        ensures again { OnPending result ⊤ }
        ensures same { OnPending result (Within
            (WordYields state_flow self.old.flow.first self.old.subscription)
            (WordYields state_flow self.new.flow.first self.new.subscription)) }
        ensures registered { OnPending result (Covers cx.new (λ _. ⊥)) }
        ensures kept { Keeps cx.old cx.new }
    {
        match self.look_or_leave_waker(cx) {
            Some(value) => Poll::Ready(Some(value)),
            None => Poll::Pending,
        }
    }
}
