//! Calls of a reader that sleep until there is a value.
ghost use Rattle.std.specs.Prelude.{◌≡◌, true, false, None};
ghost use Rattle.std.specs.Fn.{FnReturnsAt};
ghost use Rattle.futures.specs.Task.{IsArmed, Keeps};
ghost use Rattle.flow_law.specs.flow.StateFlow.{state_flow};
ghost use Rattle.flow_word.specs.Handles.{ReaderOfWord};
ghost use Rattle.flow_word.specs.Receiving.{FindsNone, WordReceives, ReceivesInTime};
ghost use Rattle.flow_word.specs.WaitingFor.{WordLooks, WordReceivesIf, ReceivesIfInTime};

use super::reader::WordReader;
use crate::sleepers::Sleeper;
use flow_law::Packed;
use flow_sleepers::{Limit, one_more_owner};
use futures::task::Context;
use std::sync::Wait;
use std::time::{Clock, Duration};

impl<T: Packed> Sleeper for WordReader<T> {
    ghost has_looked = { λ before now. FindsNone state_flow
        before.flow.first before.subscription now.subscription };
}

impl<T: Packed> WordReader<T> {
    /// Takes the value if it has changed.
    fn look(&mut self) -> Option<T>
        ensures flow { self.new.flow ≡ self.old.flow }
        ensures received { ReceivesInTime state_flow self.old.flow.first
            self.old.subscription result self.new.subscription }
    {
        self.next()
    }

    /// Takes the value if it has changed. If it has not, sleeps until the next change, or for `most`, if that is given,
    /// and returns `None`.
    fn look_or_sleep<R: Wait>(&mut self, rt: &R, most: Option<Duration>) -> Option<T>
        ensures flow { self.new.flow ≡ self.old.flow }
        ensures received { ReceivesInTime state_flow self.old.flow.first
            self.old.subscription result self.new.subscription }
    {
        let flow = one_more_owner(rt, &self.flow);
        let announced = flow.readers.announce_caller(&*self);
        match self.look() {
            Some(value) => Some(value),
            None => {
                announced.sleep(rt, self, most);
                None
            }
        }
    }

    /// Leaves the waker of the polled task, to be woken when the value changes. The task may sleep only if a further look
    /// finds nothing.
    fn leave_waker(&mut self, cx: &mut Context<'_>)
        ensures same { self.new ≡ self.old }
        ensures armed { (now : ReaderOfWord T) → FindsNone state_flow self.old.flow.first
            self.old.subscription now.subscription → IsArmed cx.new }
        ensures kept { Keeps cx.old cx.new }
    {
        let number = self.subscription.note_waker();
        self.flow.readers.leave_waker(cx, number, &*self);
    }

    /// Takes the value if it has changed. If it has not, leaves the waker of the polled task, and looks once more.
    pub(crate) fn look_or_leave_waker(&mut self, cx: &mut Context<'_>) -> Option<T>
        ensures flow { self.new.flow ≡ self.old.flow }
        ensures received { ReceivesInTime state_flow self.old.flow.first
            self.old.subscription result self.new.subscription }
        ensures armed { result ≡ None → IsArmed cx.new }
        ensures kept { Keeps cx.old cx.new }
    {
        match self.look() {
            Some(value) => return Some(value),
            None => {}
        }
        self.leave_waker(cx);
        self.look()
    }

    /// Waits until the value differs from the one that the subscriber got last, and returns it. A new subscriber gets
    /// the current value at once.
    ///
    /// The thread sleeps meanwhile: `set`, `compare_and_set` and the updates of setters and of the flow wake it. A slow
    /// subscriber skips values and gets the most recent one.
    ///
    /// # Source
    /// `StateFlow.collect`: the next value that it emits.
    pub fn changed<R: Wait>(&mut self, rt: &R) -> T
        ensures flow { self.new.flow ≡ self.old.flow }
        ensures received { WordReceives state_flow self.old.flow.first
            self.old.subscription result self.new.subscription }
    {
        match self.look() {
            Some(value) => return value,
            None => {}
        }
        for _ in rt.forever() {
            match self.look_or_sleep(rt, None) {
                Some(value) => return value,
                None => {}
            }
        }
        unreachable!()
    }

    fn changed_within<R: Wait + Clock>(&mut self, rt: &R, limit: &Limit) -> Option<T>
        ensures flow { self.new.flow ≡ self.old.flow }
        ensures received { ReceivesInTime state_flow self.old.flow.first
            self.old.subscription result self.new.subscription }
    {
        for _ in rt.forever() {
            match limit.left(rt) {
                Some(left) => match self.look_or_sleep(rt, Some(left)) {
                    Some(value) => return Some(value),
                    None => {}
                },
                None => return self.look(),
            }
        }
        unreachable!()
    }

    /// Waits as `changed` does, for no longer than `limit`, and returns `None` if the value has not changed by then. If
    /// the clock cannot be read, it looks once.
    ///
    /// # Source
    /// `withTimeoutOrNull` around a collection of one value.
    pub fn changed_timeout<R: Wait + Clock>(&mut self, rt: &R, limit: Duration) -> Option<T>
        ensures flow { self.new.flow ≡ self.old.flow }
        ensures received { ReceivesInTime state_flow self.old.flow.first
            self.old.subscription result self.new.subscription }
    {
        self.changed_within(rt, &Limit::new(rt, limit))
    }
}

impl<T: Packed + Drop> WordReader<T> {
    /// Returns the current value, and takes it if the subscriber has not received it.
    fn current(&mut self) -> T
        ensures flow { self.new.flow ≡ self.old.flow }
        ensures looked { WordLooks self.old.flow.first
            self.old.subscription result self.new.subscription }
    {
        let value = self.flow.value_by(&mut self.subscription);
        match self.next() {
            Some(newer) => newer,
            None => value,
        }
    }

    /// Waits until the current value passes a test, and returns it. The current value is tested at once, even if the
    /// subscriber received it before. The subscriber has then received all tested values, as by `changed`, which does not
    /// return them again.
    ///
    /// # Source
    /// `StateFlow.first { }`.
    pub fn wait_for<R: Wait, F: Fn(&T) -> bool>(&mut self, rt: &R, test: F) -> T
        requires callable { F.IsAlwaysCallable test }
        ensures flow { self.new.flow ≡ self.old.flow }
        ensures received { WordReceivesIf self.old.flow.first
            (λ value. FnReturnsAt F.Fn test value true) (λ value. FnReturnsAt F.Fn test value false)
            self.old.subscription result self.new.subscription }
    {
        let mut value = self.current();
        for _ in rt.forever() {
            if test(&value) {
                return value;
            }
            value = self.changed(rt);
        }
        unreachable!()
    }

    /// Waits as `wait_for` does, for no longer than `limit`, and returns `None` if no value has passed the test by
    /// then. The current value is tested in any case. If the clock cannot be read, it does not sleep: it looks once
    /// after each value that fails, and returns `None` if that look finds nothing. Values that failed count as
    /// received.
    ///
    /// # Source
    /// `withTimeoutOrNull` around `StateFlow.first { }`.
    pub fn wait_for_timeout<R: Wait + Clock, F: Fn(&T) -> bool>(
        &mut self,
        rt: &R,
        limit: Duration,
        test: F,
    ) -> Option<T>
        requires callable { F.IsAlwaysCallable test }
        ensures flow { self.new.flow ≡ self.old.flow }
        ensures received { ReceivesIfInTime self.old.flow.first
            (λ value. FnReturnsAt F.Fn test value true) (λ value. FnReturnsAt F.Fn test value false)
            self.old.subscription result self.new.subscription }
    {
        let limit = Limit::new(rt, limit);
        let mut newest = self.current();
        for _ in rt.forever() {
            if test(&newest) {
                return Some(newest);
            }
            newest = self.changed_within(rt, &limit)?;
        }
        unreachable!()
    }
}
