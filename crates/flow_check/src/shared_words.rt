//! States of a shared flow as words.
ghost use Rattle.std.specs.Prelude.{◌≡◌, IfOk};
ghost use Rattle.flow_check.specs.SharedMachine.{read_kept};

use crate::shared_machine::{Held, Own, SharedMachine};
use crate::words::{
    Part, maybe_of, number_of, read_parts, word_at, words_from, write_maybe, write_number,
    write_parts, write_small,
};
use std::alloc::{AllocError, Global};

impl Part for Option<usize> {
    ghost use Rattle.std.specs.Prelude.{drop};
    ghost use Rattle.flow_check.specs.SharedMachine.{lag_in};

    ghost part = { lag_in };

    ghost others = { drop 1 };

    fn read(_alloc: Global, words: &[u32]) -> Result<Self, AllocError> {
        Ok(maybe_of(word_at(words, 0)))
    }

    fn others(words: &[u32]) -> &[u32] {
        words_from(words, 1)
    }

    fn write(&self, words: &mut Vec<u32>) -> Result<(), AllocError> {
        write_maybe(words, *self)
    }
}

impl Part for Held {
    ghost use Rattle.std.specs.Prelude.{drop};
    ghost use Rattle.flow_check.specs.SharedMachine.{held_in};

    ghost part = { held_in };

    ghost others = { drop 3 };

    fn read(_alloc: Global, words: &[u32]) -> Result<Self, AllocError> {
        Ok(Held {
            caller: word_at(words, 0) as usize,
            value: number_of(words_from(words, 1)),
        })
    }

    fn others(words: &[u32]) -> &[u32] {
        words_from(words, 3)
    }

    fn write(&self, words: &mut Vec<u32>) -> Result<(), AllocError> {
        write_small(words, self.caller)?;
        write_number(words, self.value)
    }
}

impl Part for Own {
    ghost use Rattle.flow_check.specs.SharedMachine.{own_values_in, own_others};

    ghost part = { own_values_in };

    ghost others = { own_others };

    fn read(alloc: Global, words: &[u32]) -> Result<Self, AllocError> {
        let count = word_at(words, 0) as usize;
        let values = read_parts(alloc, words_from(words, 1), count)?;
        Ok(Own { values })
    }

    fn others(words: &[u32]) -> &[u32] {
        words_from(words, 1 + 2 * word_at(words, 0) as usize)
    }

    fn write(&self, words: &mut Vec<u32>) -> Result<(), AllocError> {
        write_small(words, self.values.len())?;
        write_parts(words, self.values.as_slice())
    }
}

impl SharedMachine {
    /// Writes the state as words. They are not proved to be right.
    pub fn write_words(&self, words: &mut Vec<u32>) -> Result<(), AllocError> {
        write_small(words, self.cached)?;
        write_maybe(words, self.offered)?;
        write_small(words, self.values.len())?;
        write_small(words, self.queue.len())?;
        write_parts(words, self.lags.as_slice())?;
        write_parts(words, self.values.as_slice())?;
        write_parts(words, self.queue.as_slice())?;
        write_parts(words, self.owns.as_slice())
    }

    /// Reads a state of this flow.
    pub fn read_words(&self, alloc: Global, words: &[u32]) -> Result<SharedMachine, AllocError>
        ensures { IfOk result (λ state. state ≡ read_kept self.now words.now) }
    {
        let callers = self.lags.len();
        let value_count = word_at(words, 2) as usize;
        let queue_count = word_at(words, 3) as usize;
        let values = words_from(words, 4 + callers);
        let queue = words_from(values, 2 * value_count);
        let owns = words_from(queue, 3 * queue_count);
        Ok(SharedMachine {
            config: self.config,
            values: read_parts(alloc, values, value_count)?,
            cached: word_at(words, 0) as usize,
            lags: read_parts(alloc, words_from(words, 4), callers)?,
            owns: read_parts(alloc, owns, callers)?,
            queue: read_parts(alloc, queue, queue_count)?,
            offered: maybe_of(word_at(words, 1)),
        })
    }
}
