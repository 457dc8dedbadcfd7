//! Calls of a reader that sleep until there is a value.
ghost use Rattle.std.specs.Prelude.{◌≡◌, None};
ghost use Rattle.futures.specs.Task.{IsArmed, Keeps};
ghost use Rattle.flow_law.specs.flow.SharedHistory.{shared_flow};
ghost use Rattle.flow_word.specs.Receiving.{FindsNone, WordReceives, ReceivesInTime};
ghost use Rattle.flow_word_shared.specs.Handles.{WordFlowReaderOf};
ghost use Rattle.flow_word_shared.specs.Receiving.{WordFlowPolls};

use super::reader::WordFlowReader;
use flow_law::Words;
use flow_sleepers::{Limit, one_more_owner};
use flow_word::sleepers::Sleeper;
use futures::task::{Context, Poll};
use std::sync::Wait;
use std::time::{Clock, Duration};

impl<T: Words> Sleeper for WordFlowReader<T> {
    ghost has_looked = { λ before now. FindsNone shared_flow
        before.flow.first before.subscription now.subscription };
}

impl<T: Words> WordFlowReader<T> {
    /// Takes the next value if there is one.
    fn look<R: Wait>(&mut self, rt: &R) -> Option<T>
        ensures flow { self.new.flow ≡ self.old.flow }
        ensures received { ReceivesInTime shared_flow self.old.flow.first
            self.old.subscription result self.new.subscription }
    {
        self.next(rt)
    }

    /// Takes the next value if there is one. If not, sleeps until the next emission, or for `most`, if that is given, and
    /// returns `None`.
    fn look_or_sleep<R: Wait>(&mut self, rt: &R, most: Option<Duration>) -> Option<T>
        ensures flow { self.new.flow ≡ self.old.flow }
        ensures received { ReceivesInTime shared_flow self.old.flow.first
            self.old.subscription result self.new.subscription }
    {
        let flow = one_more_owner(rt, &self.flow);
        let announced = flow.readers.announce_caller(&*self);
        match self.look(rt) {
            Some(value) => Some(value),
            None => {
                announced.sleep(rt, self, most);
                None
            }
        }
    }

    /// Waits for the next value, and takes it. A new subscriber receives the replay cache first.
    ///
    /// The thread sleeps meanwhile: an emission wakes it. Under `DropOldest` a reader that is more than a buffer behind
    /// misses the oldest values.
    ///
    /// # Source
    /// A collector of a `SharedFlow`, which suspends until there is a value.
    pub fn receive<R: Wait>(&mut self, rt: &R) -> T
        ensures flow { self.new.flow ≡ self.old.flow }
        ensures received { WordReceives shared_flow self.old.flow.first
            self.old.subscription result self.new.subscription }
    {
        match self.look(rt) {
            Some(value) => return value,
            None => {}
        }
        for _ in rt.forever() {
            match self.look_or_sleep(rt, None) {
                Some(value) => return value,
                None => {}
            }
        }
        unreachable!()
    }

    fn receive_within<R: Wait + Clock>(&mut self, rt: &R, limit: &Limit) -> Option<T>
        ensures flow { self.new.flow ≡ self.old.flow }
        ensures received { ReceivesInTime shared_flow self.old.flow.first
            self.old.subscription result self.new.subscription }
    {
        for _ in rt.forever() {
            match limit.left(rt) {
                Some(left) => match self.look_or_sleep(rt, Some(left)) {
                    Some(value) => return Some(value),
                    None => {}
                },
                None => return self.look(rt),
            }
        }
        unreachable!()
    }

    /// Waits as `receive` does, for no longer than `limit`, and returns `None` if there is no value by then. If the clock
    /// cannot be read, it looks once.
    ///
    /// # Source
    /// `withTimeoutOrNull` around a collection of one value.
    pub fn receive_timeout<R: Wait + Clock>(&mut self, rt: &R, limit: Duration) -> Option<T>
        ensures flow { self.new.flow ≡ self.old.flow }
        ensures received { ReceivesInTime shared_flow self.old.flow.first
            self.old.subscription result self.new.subscription }
    {
        self.receive_within(rt, &Limit::new(rt, limit))
    }

    /// Takes the next value, if one attempt gives it.
    fn look_in_poll(&mut self) -> Option<T>
        ensures flow { self.new.flow ≡ self.old.flow }
        ensures polled { WordFlowPolls self.old.flow.first
            self.old.subscription result self.new.subscription }
    {
        match self.try_next() {
            Ok(given) => given,
            Err(_busy) => None,
        }
    }

    /// Leaves the waker of the polled task, to be woken by the next emission. The task may sleep only if a further look
    /// finds nothing.
    fn leave_waker(&mut self, cx: &mut Context<'_>)
        ensures same { self.new ≡ self.old }
        ensures armed { (now : WordFlowReaderOf T) → FindsNone shared_flow self.old.flow.first
            self.old.subscription now.subscription → IsArmed cx.new }
        ensures kept { Keeps cx.old cx.new }
    {
        let number = self.subscription.note_waker();
        self.flow.readers.leave_waker(cx, number, &*self);
    }

    /// Leaves the waker of the polled task, and then takes the next value, if one attempt gives it. If emitters have
    /// overwritten all that the attempt read, the task asks to be polled again.
    fn leave_waker_and_look(&mut self, cx: &mut Context<'_>) -> Option<T>
        ensures flow { self.new.flow ≡ self.old.flow }
        ensures polled { WordFlowPolls self.old.flow.first
            self.old.subscription result self.new.subscription }
        ensures armed { result ≡ None → IsArmed cx.new }
        ensures kept { Keeps cx.old cx.new }
    {
        self.leave_waker(cx);
        match self.try_next() {
            Ok(given) => given,
            Err(_busy) => {
                let _again: Poll<()> = cx.yield_now();
                None
            }
        }
    }

    /// Takes the next value if there is one. If not, leaves the waker of the polled task, and looks once more.
    pub(crate) fn look_or_leave_waker(&mut self, cx: &mut Context<'_>) -> Option<T>
        ensures flow { self.new.flow ≡ self.old.flow }
        ensures polled { WordFlowPolls self.old.flow.first
            self.old.subscription result self.new.subscription }
        ensures armed { result ≡ None → IsArmed cx.new }
        ensures kept { Keeps cx.old cx.new }
    {
        match self.look_in_poll() {
            Some(value) => return Some(value),
            None => {}
        }
        self.leave_waker_and_look(cx)
    }
}
