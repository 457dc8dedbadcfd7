//! The checker's machine of a shared flow.
ghost use Rattle.std.specs.Prelude.{◌≡◌, IfOk, IsTrue};
ghost use Rattle.flow_check.specs.SharedMachine.{read_kept};

use crate::machine::Machine;
use crate::marks::{mix, mix_all};
use crate::same::{Same, are_same};
use crate::shared_calls::{SharedAnswer, SharedEntry, SharedOperation};
use crate::shared_machine::{Held, Own, SharedMachine};
use crate::shared_same::{are_same_owns, are_same_values, is_same_config};
use crate::timed::Timed;
use std::alloc::{AllocError, Global};

/// Mixes the lag of each caller into a hash.
fn mix_lags(mark: u64, lags: &[Option<usize>]) -> u64 {
    let mut mixed = mark;
    for lag in lags {
        mixed = match lag {
            None => mix(mixed, 0),
            Some(lag) => mix(mixed, (*lag as u64).wrapping_add(1)),
        };
    }
    mixed
}

fn mix_owns(mark: u64, owns: &[Own]) -> u64 {
    let mut mixed = mark;
    for own in owns {
        mixed = mix_all(mixed, own.values.as_slice());
    }
    mixed
}

fn mix_queue(mark: u64, queue: &[Held]) -> u64 {
    let mut mixed = mark;
    for held in queue {
        mixed = mix(mix(mixed, held.caller as u64), held.value);
    }
    mixed
}

impl<'a> Machine<SharedEntry<'a>> for SharedMachine {
    ghost use Rattle.std.specs.Prelude.{◌≡◌};
    ghost use Rattle.flow_check.specs.SharedMachine.{stepped, may_skip, read_kept};
    ghost use Rattle.flow_check.specs.SharedLooks.{is_look, KeepsWhatIsNeeded};

    ghost stepped = { stepped };

    fn step(
        &self,
        alloc: Global,
        caller: usize,
        call: &SharedEntry<'a>,
    ) -> Result<Option<Self>, AllocError> {
        if !self.is_answer(caller, call.operation, call.answer) {
            return Ok(None);
        }
        let mut after = self.copied(alloc)?;
        after.make(alloc, caller, call.operation)?;
        Ok(Some(after))
    }

    ghost may_skip = { may_skip };

    fn may_skip(&self, call: &SharedEntry<'a>) -> bool {
        matches!(call.operation, SharedOperation::EmitOrNot(_))
    }

    ghost is_private = { is_look };

    ghost Ahead = { λ caller call state ahead. ahead ≡ state };

    ghost Swapped = { λ caller other call twin state instead. ⊥ };

    ghost IsSound = { KeepsWhatIsNeeded };

    fn is_private(&self, call: &SharedEntry<'a>) -> bool {
        match (call.operation, call.answer) {
            (SharedOperation::EmitReturned, _)
            | (SharedOperation::ReplayCache, _)
            | (SharedOperation::SubscriptionCount, _) => true,
            (SharedOperation::TryEmit(_), Some(SharedAnswer::Truth(taken))) => !taken,
            (SharedOperation::Next, Some(SharedAnswer::Empty)) => true,
            _ => false,
        }
    }

    fn are_twins(
        &self,
        _caller: usize,
        _call: &SharedEntry<'a>,
        _other: usize,
        _twin: &SharedEntry<'a>,
    ) -> bool {
        false
    }

    fn may_answer(&self, caller: usize, call: &SharedEntry<'a>) -> bool {
        self.is_answer(caller, call.operation, call.answer)
    }

    fn is_contradicted(&self, callers: &[Vec<Timed<SharedEntry<'a>>>], placed: &Vec<u32>) -> bool {
        self.has_wrong_due(callers, placed)
    }

    fn try_copy(&self, alloc: Global) -> Result<Self, AllocError>
        ensures { IfOk result (λ copy. copy ≡ self.now) }
    {
        self.copied(alloc)
    }

    #[tactic(auto, using(crate::proofs::QueueLemmas::kept_same))]
    fn same(&self, other: &Self) -> bool
        ensures { IsTrue result → self.now ≡ other.now }
    {
        is_same_config(self.config, other.config)
            && are_same_values(self.values.as_slice(), other.values.as_slice())
            && self.cached == other.cached
            && are_same(self.lags.as_slice(), other.lags.as_slice())
            && are_same_owns(self.owns.as_slice(), other.owns.as_slice())
            && are_same(self.queue.as_slice(), other.queue.as_slice())
            && self.offered.is_same(other.offered)
    }

    fn write(&self, words: &mut Vec<u32>) -> Result<(), AllocError> {
        self.write_words(words)
    }

    ghost read = { read_kept };

    fn read(&self, alloc: Global, words: &[u32]) -> Result<Self, AllocError>
        ensures { IfOk result (λ state. state ≡ read_kept self.now words.now) }
    {
        self.read_words(alloc, words)
    }

    fn mixed_into(&self, mark: u64) -> u64 {
        let mixed = mix_all(mix(mark, self.cached as u64), self.values.as_slice());
        let offered = self
            .offered
            .map_or(0, |caller| (caller as u64).wrapping_add(1));
        let mixed = mix_lags(mix(mixed, offered), self.lags.as_slice());
        mix_queue(mix_owns(mixed, self.owns.as_slice()), self.queue.as_slice())
    }
}
