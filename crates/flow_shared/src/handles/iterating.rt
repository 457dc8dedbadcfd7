//! The values of a reader as an iterator: a `for` receives one after the other.
ghost use Rattle.std.specs.Prelude.{◌≡◌};
ghost use Rattle.std.specs.Iterator.{at_most};
ghost use Rattle.std.specs.Sync.Forever.{forever_left};
ghost use Rattle.flow_shared.specs.Iterating.{GivesNextReceived, GivesInTime};

use super::reader::FlowReader;
use flow_core::ReaderCalls;
use flow_law::OutOfMemory;
use flow_sleepers::Limit;
use std::alloc::Allocator;
use std::sync::{Forever, Wait};
use std::time::{Clock, Duration};

/// An iterator over the values of a reader. Each item is what one `receive`, or one `changed` of a state flow's reader,
/// gives: the thread sleeps while there is no value. It does not end: leave the loop by `break`, `return` or `?`.
#[derive(Drop)]
pub struct Values<'r, S: ReaderCalls, R: Wait, A: Allocator + Copy> {
    reader: &'r mut FlowReader<S, A>,
    rt: &'r R,
    turns: Forever<'r, R>,
}

/// An iterator over the values of a reader that ends when its time is up, or if the clock cannot be read.
#[derive(Drop)]
pub struct ValuesUntil<'r, S: ReaderCalls, R: Wait, A: Allocator + Copy> {
    reader: &'r mut FlowReader<S, A>,
    rt: &'r R,
    limit: Limit,
    turns: Forever<'r, R>,
}

impl<S: ReaderCalls + Drop, A: Allocator + Copy> FlowReader<S, A> {
    /// Returns an iterator over the next values. Each item is a value, or `OutOfMemory` if it could not be copied: it
    /// is then the next item.
    ///
    /// # Source
    /// `Flow.collect`.
    pub fn values<'r, R: Wait>(&'r mut self, rt: &'r R) -> Values<'r, S, R, A>
        ensures { result.reader.now ≡ self.old }
    {
        Values {
            reader: self,
            rt,
            turns: rt.forever(),
        }
    }

    /// Returns an iterator over the values that come within `limit` from now. Its items are those of `values`. The
    /// thread sleeps until there is a value or the time is up.
    ///
    /// # Source
    /// `withTimeoutOrNull` around `Flow.collect`.
    pub fn values_until<'r, R: Wait + Clock>(
        &'r mut self,
        rt: &'r R,
        limit: Duration,
    ) -> ValuesUntil<'r, S, R, A>
        ensures { result.reader.now ≡ self.old }
    {
        ValuesUntil {
            reader: self,
            rt,
            limit: Limit::new(rt, limit),
            turns: rt.forever(),
        }
    }
}

impl<'r, S: ReaderCalls + Drop, R: Wait, A: Allocator + Copy> Iterator for Values<'r, S, R, A> {
    type Item = Result<S::Item, OutOfMemory>;

    ghost next_gives = { λ s item t. GivesNextReceived S.kind s.reader.now item t.reader.now };

    ghost remaining = { λ s. at_most (forever_left s.turns) };

    fn next(&mut self) -> Option<Result<S::Item, OutOfMemory>> {
        self.turns.next();
        Some(self.reader.await_next(self.rt))
    }

    fn size_hint(&self) -> (usize, Option<usize>) {
        (0, None)
    }
}

impl<'r, S: ReaderCalls + Drop, R: Wait + Clock, A: Allocator + Copy> Iterator
    for ValuesUntil<'r, S, R, A> {
    type Item = Result<S::Item, OutOfMemory>;

    ghost next_gives = { λ s item t. GivesInTime S.kind s.reader.now item t.reader.now };

    ghost remaining = { λ s. at_most (forever_left s.turns) };

    fn next(&mut self) -> Option<Result<S::Item, OutOfMemory>> {
        self.turns.next();
        self.limit.left(self.rt)?;
        self.reader
            .await_next_within(self.rt, &self.limit)
            .transpose()
    }

    fn size_hint(&self) -> (usize, Option<usize>) {
        (0, None)
    }
}
