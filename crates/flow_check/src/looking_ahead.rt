//! Whether a shared flow still has to give a subscriber a value that the record contradicts. This is not proved: it only
//! makes a search shorter that looks for an order.
ghost use Rattle.std.specs.Prelude.{◌≡◌};

use crate::remaining::next_call;
use crate::shared_calls::{SharedAnswer, SharedEntry, SharedOperation};
use crate::shared_machine::{SharedMachine, last_values};
use crate::timed::Timed;
use flow_law::Overflow;

/// The number of a subscriber's next calls that are compared with the values that are due to it.
const MOST_CALLS: usize = 64;

/// Returns whether a caller's next call cancels its `emit`.
fn is_cancelled(callers: &[Vec<Timed<SharedEntry<'_>>>], placed: &Vec<u32>, caller: usize) -> bool {
    match next_call(callers, placed, caller) {
        None => false,
        Some(call) => matches!(call.call.operation, SharedOperation::EmitCancelled),
    }
}

impl SharedMachine {
    /// Returns the value of this index that a subscriber with this lag receives, if it is known: first its own values,
    /// then those emitted, then those queued.
    fn due_at(&self, caller: usize, lag: usize, index: usize) -> Option<u64> {
        let own = self.own(caller);
        if let Some(value) = own.get(index) {
            return Some(*value);
        }
        let index = index.saturating_sub(own.len());
        let emitted = last_values(self.values.as_slice(), lag);
        if let Some(value) = emitted.get(index) {
            return Some(*value);
        }
        let held = self
            .queue
            .as_slice()
            .get(index.saturating_sub(emitted.len()))?;
        Some(held.value)
    }

    /// Returns whether the next of these calls of a subscriber with this lag receive another value than the one that is
    /// due. The first `placed` calls have happened.
    fn is_contradicted(
        &self,
        caller: usize,
        lag: usize,
        calls: &[Timed<SharedEntry<'_>>],
        placed: usize,
    ) -> bool {
        let rest = calls.get(placed..).unwrap_or(&[]);
        let mut index: usize = 0;
        for call in rest.iter().take(MOST_CALLS) {
            if call.end.is_none() {
                return false;
            }
            match (call.call.operation, call.call.answer) {
                (SharedOperation::Unsubscribe, _) => return false,
                (SharedOperation::Next, Some(SharedAnswer::Value(value))) => {
                    match self.due_at(caller, lag, index) {
                        None => return false,
                        Some(due) if due != value => return true,
                        Some(_) => {}
                    }
                    index = index.saturating_add(1);
                }
                _ => {}
            }
        }
        false
    }

    /// Returns whether a value that waits may be withdrawn.
    fn may_withdraw(&self, callers: &[Vec<Timed<SharedEntry<'_>>>], placed: &Vec<u32>) -> bool {
        if let Some(caller) = self.offering() {
            if is_cancelled(callers, placed, caller) {
                return true;
            }
        }
        self.queue
            .iter()
            .any(|held| is_cancelled(callers, placed, held.caller))
    }

    /// Returns whether some subscriber's next calls receive another value than the one that is due to it. A flow that
    /// drops the oldest value may drop it first.
    pub fn has_wrong_due(
        &self,
        callers: &[Vec<Timed<SharedEntry<'_>>>],
        placed: &Vec<u32>,
    ) -> bool {
        if self.config.overflow == Overflow::DropOldest || self.may_withdraw(callers, placed) {
            return false;
        }
        for (caller, calls) in callers.iter().enumerate() {
            let lag = self.lags.as_slice().get(caller).copied().flatten();
            let placed = placed.as_slice().get(caller).copied().unwrap_or(0);
            if let Some(lag) = lag {
                if self.is_contradicted(caller, lag, calls.as_slice(), placed as usize) {
                    return true;
                }
            }
        }
        false
    }
}
