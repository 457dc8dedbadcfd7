//! What a shared flow answers, in the state that the checker keeps.
ghost use Rattle.std.specs.Prelude.{◌≡◌, Some};
ghost use Rattle.flow_check.specs.SharedMachine.{done, tested, counted, cached, agrees, own_answer};
ghost use Rattle.flow_check.specs.SharedMachine.{done_if, try_emit_answer, kept_cache};
ghost use Rattle.flow_check.specs.SharedMachine.{emitted_answer, next_value, next_answer};
ghost use Rattle.flow_check.specs.SharedMachine.{own_left};
ghost use Rattle.flow_check.specs.Subscribed.{kept_of};

use crate::shared_calls::{SharedAnswer, SharedOperation};
use crate::shared_machine::{EmitCase, SharedMachine, last_values};
use crate::shared_same::same_values;
use crate::subscribed::present;

/// Returns whether the recorded answer is `Done`, or no answer was recorded.
fn is_done(recorded: Option<SharedAnswer<'_>>) -> bool
    ensures { result ≡ agrees (Some done) recorded.entry }
{
    match recorded {
        None | Some(SharedAnswer::Done) => true,
        Some(_) => false,
    }
}

fn is_done_if(may: bool, recorded: Option<SharedAnswer<'_>>) -> bool
    ensures { result ≡ agrees (done_if may) recorded.entry }
{
    may && is_done(recorded)
}

fn is_truth(truth: bool, recorded: Option<SharedAnswer<'_>>) -> bool
    ensures { result ≡ agrees (Some (tested truth)) recorded.entry }
{
    match recorded {
        None => true,
        Some(SharedAnswer::Truth(other)) => if truth { other } else { !other },
        Some(_) => false,
    }
}

fn is_number(number: u64, recorded: Option<SharedAnswer<'_>>) -> bool
    ensures { result ≡ agrees (Some (counted number)) recorded.entry }
{
    match recorded {
        None => true,
        Some(SharedAnswer::Number(other)) => number == other,
        Some(_) => false,
    }
}

fn are_values(values: &[u64], recorded: Option<SharedAnswer<'_>>) -> bool
    ensures { result ≡ agrees (Some (cached values.now)) recorded.entry }
{
    match recorded {
        None => true,
        Some(SharedAnswer::Values(others)) => same_values(values, others),
        Some(_) => false,
    }
}

/// Returns whether the recorded answer is this value (Empty for None) or speaks of it, or no answer was recorded.
fn is_received(value: Option<u64>, recorded: Option<SharedAnswer<'_>>) -> bool
    ensures { result ≡ agrees (Some (emitted_answer value)) recorded.entry }
{
    match (value, recorded) {
        (_, None) => true,
        (Some(value), Some(SharedAnswer::Value(other))) => value == other,
        (Some(_), Some(SharedAnswer::SomeValue)) => true,
        (None, Some(SharedAnswer::Empty)) => true,
        _ => false,
    }
}

fn try_emit_answer(case: EmitCase) -> bool
    ensures { result ≡ try_emit_answer case }
{
    match case {
        EmitCase::Appends | EmitCase::DropsLatest | EmitCase::DropsOldest => true,
        EmitCase::Offers | EmitCase::Queues => false,
    }
}

impl SharedMachine {
    /// Returns the value that a caller receives next: one of its own first ones, or an emitted one.
    fn next_value(&self, caller: usize, lag: usize) -> Option<u64>
        ensures { result ≡ next_value (own_left caller self.now.owns) lag self.now.values }
    {
        match self.own(caller).first() {
            Some(value) => Some(*value),
            None => self.value_at(lag),
        }
    }

    fn is_next(&self, caller: usize, recorded: Option<SharedAnswer<'_>>) -> bool
        ensures { result ≡ agrees
            (next_answer (own_left caller self.now.owns)
            (kept_of caller self.now.lags) self.now.values)
            recorded.entry }
    {
        match self.lag(caller) {
            None => false,
            Some(lag) => is_received(self.next_value(caller, lag), recorded),
        }
    }

    /// Returns whether the flow may give the recorded answer, and the caller may make the call.
    /// `next` and `unsubscribe` need a subscription, and `subscribe` needs that the caller has none;
    /// a caller makes one `emit` at a time.
    pub fn is_answer(
        &self,
        caller: usize,
        operation: SharedOperation<'_>,
        recorded: Option<SharedAnswer<'_>>,
    ) -> bool
        ensures { result ≡ agrees (own_answer caller operation.entry self.now) recorded.entry }
    {
        match operation {
            SharedOperation::TryEmit(_) => is_truth(try_emit_answer(self.emit_case()), recorded),
            SharedOperation::Emit(_)
            | SharedOperation::EmitOrNot(_)
            | SharedOperation::EmitReturned => is_done_if(!self.is_waiting(caller), recorded),
            SharedOperation::EmitCancelled | SharedOperation::ResetReplayCache => is_done(recorded),
            SharedOperation::Subscribe(_) => is_done_if(self.lag(caller).is_none(), recorded),
            SharedOperation::Next => self.is_next(caller, recorded),
            SharedOperation::Unsubscribe => is_done_if(self.lag(caller).is_some(), recorded),
            SharedOperation::ReplayCache => {
                are_values(last_values(self.values.as_slice(), self.cached), recorded)
            }
            SharedOperation::SubscriptionCount => {
                is_number(present(self.lags.as_slice()) as u64, recorded)
            }
        }
    }
}
