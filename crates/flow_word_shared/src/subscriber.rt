//! Receiving one value.
ghost use Rattle.std.specs.Prelude.{◌≡◌, ◌≢◌, IfSome, None, Ok};
ghost use Rattle.flow_law.specs.declared.call.SharedCall.TheVariants as call;
ghost use Rattle.flow_law.specs.declared.call.SharedReply.TheVariants as reply;
ghost use Rattle.flow_law.specs.declared.outcome.Next.TheVariants.{Gone};
ghost use Rattle.flow_law.specs.flow.SharedHistory.{shared_flow};
ghost use Rattle.flow_law.specs.history.Tokens.{NextsIn};
ghost use Rattle.flow_law.specs.history.Promise.{CallsAtOnceIn};
ghost use Rattle.flow_word_shared.specs.Answers.{IsOverrun, WordNextsNow};

use crate::reading::AHEAD;
use crate::token::{WordFlow, WordFlowSubscription};
use flow_law::{FlowFault, Next, Words};
use std::sync::Wait;

impl<T: Words> WordFlow<T> {
    /// Tries once to receive the next value. Returns `None` if emitters have overwritten it meanwhile.
    #[inline(always)]
    fn try_next(&self, subscription: &mut WordFlowSubscription<T>) -> Option<Next<T>>
        requires { subscription.old.token.table_id ≡ self.now.table_id }
        ensures called { IfSome result (λ next. CallsAtOnceIn shared_flow self.now.first
            subscription.old.token (call.TakeNext subscription.old.number) (reply.Received next)
            subscription.new.token) }
        ensures live { IfSome result (λ next. next ≢ Gone) }
        ensures number { subscription.new.number ≡ subscription.old.number }
        ensures late { result ≡ None → IsOverrun subscription.old.token subscription.new.token }
    {
        let WordFlowSubscription {
            seat,
            number,
            position,
            seen,
            place,
            has_left_waker: _,
        } = subscription;
        if *seen <= *position {
            if let Some(place) = place {
                return Some(self.next_at(seat, *number, position, place));
            }
        }
        *seen = self.look(seat, *number, *position, *seen);
        if *seen <= *position {
            return Some(Next::Empty);
        }
        let (words, length) = self.read(seat, *number, *position, *seen);
        *seen = length;
        if length > *position + self.capacity {
            *position = length - self.capacity;
            return None;
        }
        *position += 1;
        Some(Next::Value(T::of_words(words.as_slice())))
    }

    /// Tries once to receive the next value, and reads the cells of `ahead` values for it. Returns `None` if emitters have
    /// overwritten all of them meanwhile.
    #[inline(never)]
    pub(crate) fn try_ahead(
        &self,
        subscription: &mut WordFlowSubscription<T>,
        ahead: usize,
    ) -> Option<Next<T>>
        requires { subscription.old.token.table_id ≡ self.now.table_id }
        ensures called { IfSome result (λ next. CallsAtOnceIn shared_flow self.now.first
            subscription.old.token (call.TakeNext subscription.old.number) (reply.Received next)
            subscription.new.token) }
        ensures live { IfSome result (λ next. next ≢ Gone) }
        ensures number { subscription.new.number ≡ subscription.old.number }
        ensures late { result ≡ None → IsOverrun subscription.old.token subscription.new.token }
    {
        let WordFlowSubscription {
            seat,
            number,
            position,
            seen,
            place,
            has_left_waker: _,
        } = subscription;
        if let Some(place) = place {
            return Some(self.next_at(seat, *number, position, place));
        }
        *seen = self.look(seat, *number, *position, *seen);
        if *seen <= *position {
            return Some(Next::Empty);
        }
        let count = (*seen - *position).min(ahead.min(AHEAD / T::WIDTH) as u64) as usize;
        match self.read_ahead(seat, *number, *position, *seen, count) {
            Ok((value, length)) => {
                *seen = length;
                *position = (*position).max(length.saturating_sub(self.capacity)) + 1;
                return Some(Next::Value(value));
            }
            Err(length) => {
                *seen = length;
                *position = (*position).max(length.saturating_sub(self.capacity));
                return None;
            }
        }
    }

    /// Returns the next value, or `Empty` if the subscriber has received all values.
    ///
    /// The subscriber waits for no other caller. Under `DropOldest` it misses the oldest values if it is more than a buffer
    /// behind: it loads the words of the value and then the number of emitted values, and tries again if the value has
    /// left the buffer in between. Each try reads twice as many values as the one before, up to 64 words or the whole
    /// buffer if that is less, and fails only if at least as many values were emitted meanwhile. Under `DropLatest` it
    /// misses no emitted value, and tries once.
    ///
    /// # Source
    /// `SharedFlow.collect`: the next value that it emits.
    pub fn next<R: Wait>(&self, rt: &R, subscription: &mut WordFlowSubscription<T>) -> Next<T>
        requires { subscription.old.token.table_id ≡ self.now.table_id }
        ensures called { NextsIn shared_flow self.now.first subscription.old
            (Ok result) subscription.new }
        ensures number { subscription.new.number ≡ subscription.old.number }
        ensures live { result ≢ Gone }
    {
        match self.try_next(subscription) {
            Some(next) => return next,
            None => {}
        }
        let mut ahead: usize = 2;
        for _ in rt.forever() {
            match self.try_ahead(subscription, ahead) {
                Some(next) => return next,
                None => ahead = ahead.saturating_mul(2),
            }
        }
        unreachable!()
    }

    /// Tries once to receive the next value. If the value leaves the buffer before it is read, returns `Busy`: the
    /// subscriber is then at the oldest value of the buffer. Under `DropLatest` no value leaves the buffer before.
    pub fn next_now(&self, subscription: &mut WordFlowSubscription<T>) -> Result<Next<T>, FlowFault>
        requires { subscription.old.token.table_id ≡ self.now.table_id }
        ensures { WordNextsNow self.now.first subscription.old result subscription.new }
    {
        match self.try_next(subscription) {
            Some(next) => Ok(next),
            None => Err(FlowFault::Busy),
        }
    }
}
