//! A state flow as the checker keeps it.
ghost use Rattle.std.specs.Prelude.{◌≡◌, IsTrue, IfOk};
ghost use Rattle.flow_check.specs.Subscribed.{none_subscribed};
ghost use Rattle.flow_check.specs.StateTwins.{is_out};
ghost use Rattle.flow_check.specs.StateMachine.{reader_of, with_reader};
ghost use Rattle.flow_check.specs.StateMachine.{state_own_answer, state_moved, state_agrees, reader_in, read_state_kept};

use crate::machine::Machine;
use crate::marks::mix;
use crate::same::{Same, are_same};
use crate::state_answers::{agrees, next_answer, subscribe_answer, unsubscribe_answer};
use crate::state_calls::{StateAnswer, StateEntry, StateOperation};
use crate::subscribed::present;
use crate::timed::Timed;
use crate::words::{Part, number_of, read_parts, word_at, words_from, write_number, write_parts};
use std::alloc::{AllocError, Global};
use std::marker::Model;

/// A state flow: its value, and what each caller has received. A caller that is not subscribed
/// has None, and one that is has the last value that it received.
#[derive(Drop)]
pub struct StateMachine {
    value: u64,
    readers: Vec<Option<Option<u64>>>,
}

impl Model for StateMachine {
    ghost use Rattle.flow_check.specs.StateMachine.{StateKept};

    ghost Value = { StateKept };

    ghost view = { λ m. record { value = m.value; readers = m.readers.items } };
}

impl StateMachine {
    /// Returns what a caller has received.
    fn reader(&self, caller: usize) -> Option<Option<u64>>
        ensures { result ≡ reader_of caller self.now.readers }
    {
        match self.readers.as_slice().get(caller) {
            None => None,
            Some(reader) => *reader,
        }
    }

    /// Returns the flow's own answer, or None if the caller may not make the call.
    fn own_answer(&self, caller: usize, operation: StateOperation) -> Option<StateAnswer>
        ensures { result ≡ state_own_answer caller operation self.now }
    {
        match operation {
            StateOperation::Value => Some(StateAnswer::Value(self.value)),
            StateOperation::Set(_) => Some(StateAnswer::Done),
            StateOperation::TryEmit(_) => Some(StateAnswer::Truth(true)),
            StateOperation::CompareAndSet(expected, _) => {
                Some(StateAnswer::Truth(self.value == expected))
            }
            StateOperation::Subscribe => subscribe_answer(self.reader(caller)),
            StateOperation::Next => next_answer(self.value, self.reader(caller)),
            StateOperation::Unsubscribe => unsubscribe_answer(self.reader(caller)),
            StateOperation::SubscriptionCount => {
                Some(StateAnswer::Number(present(self.readers.as_slice()) as u64))
            }
            StateOperation::ReplayCache => Some(StateAnswer::Value(self.value)),
        }
    }

    /// Copies the state, with this value.
    fn copied(&self, alloc: Global, value: u64) -> Result<StateMachine, AllocError>
        ensures { IfOk result (λ copy.
            copy ≡ record { value = value; readers = self.now.readers }) }
    {
        let readers = Vec::from_slice(alloc, self.readers.as_slice())?;
        Ok(StateMachine { value, readers })
    }

    /// Copies the state after the caller has received this.
    fn with_reader(
        &self,
        alloc: Global,
        caller: usize,
        reader: Option<Option<u64>>,
    ) -> Result<StateMachine, AllocError>
        ensures { IfOk result (λ after. after ≡ with_reader caller reader self.now) }
    {
        let mut readers = Vec::from_slice(alloc, self.readers.as_slice())?;
        if caller < readers.len() {
            readers[caller] = reader;
        }
        Ok(StateMachine {
            value: self.value,
            readers,
        })
    }

    /// Returns the state after a call that had the flow's own answer.
    fn moved(
        &self,
        alloc: Global,
        caller: usize,
        operation: StateOperation,
    ) -> Result<StateMachine, AllocError>
        ensures { IfOk result (λ after. after ≡ state_moved caller operation self.now) }
    {
        match operation {
            StateOperation::Set(value) => self.copied(alloc, value),
            StateOperation::TryEmit(value) => self.copied(alloc, value),
            StateOperation::CompareAndSet(expected, value) => {
                if self.value == expected {
                    self.copied(alloc, value)
                } else {
                    self.copied(alloc, self.value)
                }
            }
            StateOperation::Subscribe => self.with_reader(alloc, caller, Some(None)),
            StateOperation::Next => self.with_reader(alloc, caller, Some(Some(self.value))),
            StateOperation::Unsubscribe => self.with_reader(alloc, caller, None),
            StateOperation::Value
            | StateOperation::SubscriptionCount
            | StateOperation::ReplayCache => self.copied(alloc, self.value),
        }
    }
}

impl Same for Option<Option<u64>> {
    fn is_same(self, other: Self) -> bool {
        match (self, other) {
            (None, None) => true,
            (Some(None), Some(None)) => true,
            (Some(Some(v)), Some(Some(w))) => v == w,
            _ => false,
        }
    }
}

/// Returns what a caller has received, as words encode it.
fn reader_in(words: &[u32]) -> Option<Option<u64>>
    ensures { result ≡ reader_in words.now }
{
    match word_at(words, 0) {
        0 => None,
        1 => Some(None),
        _ => Some(Some(number_of(words_from(words, 1)))),
    }
}

impl Part for Option<Option<u64>> {
    ghost use Rattle.std.specs.Prelude.{drop};
    ghost use Rattle.flow_check.specs.StateMachine.{reader_in};

    ghost part = { reader_in };

    ghost others = { drop 3 };

    fn read(_alloc: Global, words: &[u32]) -> Result<Self, AllocError> {
        Ok(reader_in(words))
    }

    fn others(words: &[u32]) -> &[u32] {
        words_from(words, 3)
    }

    fn write(&self, words: &mut Vec<u32>) -> Result<(), AllocError> {
        let (kind, last) = match self {
            None => (0, 0),
            Some(None) => (1, 0),
            Some(Some(last)) => (2, *last),
        };
        words.push(kind)?;
        write_number(words, last)
    }
}

impl Machine<StateEntry> for StateMachine {
    ghost use Rattle.flow_check.specs.StateMachine.{state_stepped, state_may_skip, read_state_kept};
    ghost use Rattle.flow_check.specs.StateLooks.{IsAlwaysSound};
    ghost use Rattle.flow_check.specs.StatePrivate.{is_state_private, IsStateAhead};
    ghost use Rattle.flow_check.specs.StateTwins.{IsStateSwapped};

    ghost stepped = { state_stepped };

    fn step(
        &self,
        alloc: Global,
        caller: usize,
        call: &StateEntry,
    ) -> Result<Option<Self>, AllocError> {
        let own = self.own_answer(caller, call.operation);
        if !agrees(own, call.answer) {
            return Ok(None);
        }
        let after = self.moved(alloc, caller, call.operation)?;
        Ok(Some(after))
    }

    ghost may_skip = { state_may_skip };

    fn may_skip(&self, _call: &StateEntry) -> bool {
        false
    }

    ghost is_private = { is_state_private };

    ghost Ahead = { IsStateAhead };

    ghost Swapped = { IsStateSwapped };

    ghost IsSound = { IsAlwaysSound };

    fn is_private(&self, call: &StateEntry) -> bool {
        match (call.operation, call.answer) {
            (StateOperation::Value, _)
            | (StateOperation::SubscriptionCount, _)
            | (StateOperation::ReplayCache, _) => true,
            (StateOperation::CompareAndSet(_, _), Some(StateAnswer::Truth(succeeded))) =>
                !succeeded,
            (StateOperation::Next, Some(StateAnswer::Empty | StateAnswer::Value(_))) => true,
            _ => false,
        }
    }

    fn are_twins(&self, caller: usize, call: &StateEntry, other: usize, twin: &StateEntry) -> bool {
        self.may_swap(caller, *call, other, *twin)
    }

    fn may_answer(&self, caller: usize, call: &StateEntry) -> bool {
        agrees(self.own_answer(caller, call.operation), call.answer)
    }

    fn is_contradicted(&self, _callers: &[Vec<Timed<StateEntry>>], _placed: &Vec<u32>) -> bool {
        false
    }

    fn try_copy(&self, alloc: Global) -> Result<Self, AllocError> {
        self.copied(alloc, self.value)
    }

    fn same(&self, other: &Self) -> bool {
        self.value == other.value && are_same(self.readers.as_slice(), other.readers.as_slice())
    }

    fn write(&self, words: &mut Vec<u32>) -> Result<(), AllocError> {
        write_number(words, self.value)?;
        write_parts(words, self.readers.as_slice())
    }

    ghost read = { read_state_kept };

    fn read(&self, alloc: Global, words: &[u32]) -> Result<Self, AllocError> {
        let readers = read_parts(alloc, words_from(words, 2), self.readers.len())?;
        Ok(StateMachine {
            value: number_of(words),
            readers,
        })
    }

    fn mixed_into(&self, mark: u64) -> u64 {
        let mut mixed = mix(mark, self.value);
        for reader in self.readers.as_slice() {
            mixed = match reader {
                None => mix(mixed, 0),
                Some(None) => mix(mixed, 1),
                Some(Some(last)) => mix(mix(mixed, 2), *last),
            };
        }
        mixed
    }
}

impl StateMachine {
    /// Returns whether a caller is not subscribed.
    pub fn is_out(&self, caller: usize) -> bool
        ensures { result ≡ is_out caller self.now }
    {
        matches!(self.readers.as_slice().get(caller), Some(None))
    }

    /// Makes a state flow with this value, to which none of these callers is subscribed.
    pub fn new<C>(alloc: Global, value: u64, callers: &[C]) -> Result<Self, AllocError>
        ensures { IfOk result (λ made.
            made ≡ record { value = value; readers = none_subscribed callers.now }) }
    {
        let mut readers = Vec::new(alloc);
        for _caller in callers {
            readers.push(None)?;
        }
        Ok(StateMachine { value, readers })
    }
}
