//! Subscribers with their positions, and whether one of them is a whole window behind.
ghost use Rattle.std.specs.Prelude.{◌≡◌, ◌+◌, ◌-◌, ◌<◌, ◌≤◌, ◌^◌, ◌∷◌, ◌++◌, [], Some, None, false, is_some, length, map, IfOk, MatchResult};
ghost use Rattle.std.specs.Option.{option_map};
ghost use Rattle.flow_law.specs.flow.SharedFlow as flow;
ghost use Rattle.flow_law.specs.flow.Standing.{least_position};
ghost use Rattle.flow_containers.specs.Members.{EntersAt, OthersStay};
ghost use Rattle.flow_containers.specs.Subscribers.{is_full};

mod receive;
mod taking;

use crate::members::{Members, Row};
use crate::position_counts::PositionCounts;
pub use receive::Received;
use std::alloc::{AllocError, Allocator};
use std::marker::Model;

/// Subscribers, in the order of their numbers.
///
/// A position below the floor is read as the floor. So raising the floor moves all slow subscribers without visiting
/// them.
#[derive(Drop)]
pub struct Subscribers<T: Drop, A: Allocator> {
    members: Members<Row<T, A>, A>,
    counts: PositionCounts<A>,
    floor: u64,
}

impl<T: Drop, A: Allocator> Model for Subscribers<T, A> {
    ghost use Rattle.flow_containers.specs.Subscribers.{Standing, standing_of, RowsAgree};

    ghost Value = { Standing T };

    ghost view = { standing_of };

    ghost invariant = { λ s. RowsAgree s };
}

impl<T: Drop, A: Allocator> Subscribers<T, A> {
    /// Returns an empty list, before any value was emitted. `window` is the greatest possible lag.
    pub fn new(alloc: A, window: usize) -> Result<Self, AllocError>
    where
        A: Copy,
        requires some { 0 < window }
        requires room { window + 1 < 2 ^ 64 }
        ensures { IfOk result (λ s.
            s ≡ record {
              list = [];
              emitted = 0;
              window = window;
              floor = 0;
              last = 0;
              by_key = [];
            }) }
    {
        let counts = PositionCounts::new(alloc, window + 1)?;
        Ok(Subscribers {
            members: Members::new(alloc),
            counts,
            floor: 0,
        })
    }

    pub fn len(&self) -> usize
        ensures { result ≡ length self.now.list }
    {
        self.members.len()
    }

    /// Returns the number of the subscriber that came last, or 0.
    pub fn last(&self) -> u64
        ensures { result ≡ self.now.last }
    {
        self.members.last()
    }

    pub fn emitted(&self) -> u64
        ensures { result ≡ self.now.emitted }
    {
        self.counts.emitted()
    }

    /// Returns how many emitted values a subscriber has not received yet, or `None` if no subscriber has this number.
    pub fn lag(&self, number: u64, key: usize) -> Option<u64>
        ensures { result ≡ option_map (λ position. self.now.emitted - position)
            (flow.position_of number self.now.list) }
    {
        match self.members.get(number, key) {
            Some(row) => Some(self.counts.emitted() - row.position.max(self.floor)),
            None => None,
        }
    }

    /// Returns whether a subscriber is a whole window behind.
    pub fn is_blocked(&self) -> bool
        ensures { result ≡ is_full self.now.window self.now.emitted self.now.list }
    {
        self.counts.at_oldest() > 0
    }

    /// Returns the least of `first` and all positions. No position is below `start`.
    pub fn least(&self, start: u64, first: u64) -> u64
        requires below { start ≤ least_position first self.now.list }
        requires within { (first ≤ self.now.emitted) ×
            (self.now.emitted ≤ start + self.now.window) }
        ensures { result ≡ least_position first self.now.list }
    {
        self.counts.least(start, first)
    }

    /// Records that a value was emitted while no subscriber was a whole window behind.
    pub fn add(&mut self)
        requires free { is_full self.old.window self.old.emitted self.old.list ≡ false }
        requires room { self.old.emitted + 1 < 2 ^ 64 }
        ensures { self.new ≡ record self.old { emitted = self.old.emitted + 1 } }
    {
        self.counts.add();
    }

    /// Records that a value was emitted. A subscriber that was a whole window behind loses the oldest value of the window.
    pub fn add_dropping(&mut self)
        requires full { self.old.window ≤ self.old.emitted }
        requires room { self.old.emitted + 1 < 2 ^ 64 }
        ensures { self.new ≡ record self.old {
          emitted = self.old.emitted + 1;
          list = flow.raise_to (self.old.emitted + 1 - self.old.window) self.old.list;
          floor = self.old.emitted + 1 - self.old.window;
        } }
    {
        let oldest = self.counts.emitted() - self.counts.window() as u64;
        self.counts.shift(oldest);
        self.counts.add();
        self.floor = oldest + 1;
    }

    /// Records that the offered value was withdrawn: no subscriber receives it any more.
    pub fn gather(&mut self)
        requires { self.old.window ≡ 1 }
        ensures { self.new ≡ record self.old {
          list = map (flow.stand_at self.old.emitted) self.old.list;
          floor = self.old.emitted;
        } }
    {
        let emitted = self.counts.emitted();
        if emitted > 0 {
            self.counts.shift(emitted - 1);
            self.floor = emitted;
        }
    }

    /// Adds a subscriber with its own first values, and returns its key. If memory is refused, returns the values.
    pub fn push(&mut self, number: u64, first: Vec<T, A>, position: u64) -> Result<usize, Vec<T, A>>
        requires later { self.old.last < number }
        requires above { self.old.floor ≤ position }
        requires within { (position ≤ self.old.emitted) ×
            (self.old.emitted ≤ position + self.old.window) }
        ensures key { IfOk result (λ key. EntersAt number key self.old.by_key self.new.by_key) }
        ensures added { MatchResult result
            (λ _key. self.new ≡ record self.old {
              list = self.old.list ++
                  record { number = number; own = first.items; position = position } ∷ [];
              last = number;
              by_key = self.new.by_key;
            })
            (λ refused. (refused ≡ first) × self.new ≡ self.old) }
    {
        match self.members.enroll(number, first, position) {
            Ok(key) => {
                self.counts.enter(position);
                Ok(key)
            }
            Err(first) => Err(first),
        }
    }

    /// Removes a subscriber, and returns whether it was present.
    pub fn remove(&mut self, number: u64, key: usize) -> bool
        ensures there { result ≡ is_some (flow.position_of number self.old.list) }
        ensures removed { self.new ≡ record self.old {
          list = flow.without number self.old.list;
          by_key = self.new.by_key;
        } }
        ensures others { OthersStay number self.old.by_key self.new.by_key }
    {
        match self.members.remove(number, key) {
            Some(row) => {
                self.counts.leave(row.position.max(self.floor));
                true
            }
            None => false,
        }
    }
}
