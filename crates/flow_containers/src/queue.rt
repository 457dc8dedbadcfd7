//! The values whose emitters wait, in the order of their numbers.
ghost use Rattle.std.specs.Prelude.{◌≡◌, ◌-◌, ◌<◌, ◌==◌, ◌∷◌, ◌++◌, [], length, map, filter, not, MatchOption, MatchResult};
ghost use Rattle.std.specs.List.{list_any};
ghost use Rattle.flow_law.specs.laws.Laws.{RisesTo};
ghost use Rattle.flow_law.specs.history.Sleeping.{first_queued};
ghost use Rattle.flow_containers.specs.Queue.{numbered_of, IsPlace};

use std::alloc::{AllocError, Allocator};
use std::collections::VecDeque;
use std::marker::Model;

/// A value whose emitter waits, with the number that was issued to it.
#[derive(Drop)]
pub struct Queued<T> {
    pub value: T,
    pub number: u64,
}

/// A queue whose numbers rise. A number is found by binary search.
#[derive(Drop)]
pub struct Queue<T: Drop, A: Allocator> {
    items: VecDeque<Queued<T>, A>,
}

impl<T: Drop, A: Allocator> Model for Queue<T, A> {
    ghost use Rattle.std.specs.Prelude.{List};
    ghost use Rattle.flow_law.specs.declared.states.Numbered.{Numbered};

    ghost Value = { List (Numbered T) };

    ghost use Rattle.flow_law.specs.history.Sleeping.{first_queued};
    ghost use Rattle.flow_containers.specs.Queue.{queue_of, Rises};

    ghost view = { queue_of };

    ghost invariant = { λ q. Rises (queue_of q) };
}

impl<T: Drop, A: Allocator> Queue<T, A> {
    /// Returns an empty queue. Does not allocate.
    pub fn new(alloc: A) -> Self
        ensures { result ≡ [] }
    {
        Queue {
            items: VecDeque::new(alloc),
        }
    }

    /// Returns the number of values.
    pub fn len(&self) -> usize
        ensures { result ≡ length self.now }
    {
        self.items.len()
    }

    /// Returns the place of the value with this number.
    fn place_of(&self, number: u64) -> Option<usize>
        ensures { IsPlace number self.now result }
    {
        let place = self.items.partition_point(|queued| queued.number < number);
        match self.items.get(place) {
            None => None,
            Some(found) => {
                if found.number == number {
                    Some(place)
                } else {
                    None
                }
            }
        }
    }

    /// Returns whether the value with this number is queued.
    pub fn contains(&self, number: u64) -> bool
        ensures { result ≡ list_any (λ q. q.number == number) self.now }
    {
        self.place_of(number).is_some()
    }

    /// Returns the number of the first value.
    pub fn first(&self) -> Option<u64>
        ensures { result ≡ first_queued self.now }
    {
        match self.items.front() {
            Some(queued) => Some(queued.number),
            None => None,
        }
    }

    /// Appends a value, whose number is above those in the queue. If memory is refused, returns the value.
    pub fn push(&mut self, value: T, number: u64) -> Result<(), T>
        requires positive { 0 < number }
        requires above { RisesTo 0 (map (λ q. q.number) self.old) (number - 1) }
        ensures { MatchResult result
            (λ _. self.new ≡ self.old ++ record { value = value; number = number } ∷ [])
            (λ refused. (refused ≡ value) × self.new ≡ self.old) }
    {
        match self.items.push_back(Queued { value, number }) {
            Ok(()) => Ok(()),
            Err(refused) => Err(refused.value.value),
        }
    }

    /// Removes the first value, and returns it.
    pub fn pop_front(&mut self) -> Option<Queued<T>>
        ensures { MatchOption result ((self.old ≡ []) × self.new ≡ [])
            (λ first. self.old ≡ numbered_of first ∷ self.new) }
    {
        self.items.pop_front()
    }

    /// Removes the value with this number, if it is queued.
    pub fn remove(&mut self, number: u64)
        ensures { self.new ≡ filter (λ q. not (q.number == number)) self.old }
    {
        if let Some(place) = self.place_of(number) {
            let _ = self.items.remove(place);
        }
    }
}
