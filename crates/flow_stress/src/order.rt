//! Checks the order of the values that a subscriber receives: those of each emitter in the order of its emissions, none
//! twice, and those of a state that never falls.
use crate::arguments::MOST_THREADS;
use crate::found::{Found, NOTHING};

/// A number greater than the number of threads.
const EMITTERS: u64 = 100;

/// Returns the value that the emitter of this number emits at this place, counted from 0. All these values differ.
pub fn value_of(number: u32, place: u64) -> u64 {
    place.wrapping_mul(EMITTERS).wrapping_add(u64::from(number))
}

/// The values of each emitter that a subscriber must receive.
#[derive(Clone, Copy)]
pub enum Gets {
    /// Any of them, in order, none twice.
    Rising,
    /// Every value after the first one that it received.
    Following,
    /// All of them.
    All,
}

impl Gets {
    /// Returns whether the value at `place` may follow the one at `before`, or may be the first.
    fn allows(self, before: Option<u64>, place: u64) -> bool {
        let Some(before) = before else {
            return place == 0 || !matches!(self, Gets::All);
        };
        match self {
            Gets::Rising => before < place,
            Gets::Following | Gets::All => before.checked_add(1) == Some(place),
        }
    }
}

/// The place of the last value that a subscriber received of each emitter, and what was wrong.
#[derive(Clone, Copy)]
pub struct Order {
    last: [Option<u64>; MOST_THREADS as usize],
    gets: Gets,
    pub found: Found,
}

impl Order {
    /// Returns the order of a subscriber that has received nothing yet.
    pub fn new(gets: Gets) -> Order {
        Order {
            last: [None; MOST_THREADS as usize],
            gets,
            found: NOTHING,
        }
    }

    /// Adds a value that the subscriber received, and checks it.
    pub fn add(&mut self, value: u64) {
        let place = value / EMITTERS;
        let gets = self.gets;
        let is_next = match self.last.get_mut((value % EMITTERS) as usize) {
            Some(last) => gets.allows(last.replace(place), place),
            None => false,
        };
        self.found.check(is_next);
        self.found.read = self.found.read.saturating_add(1);
    }
}

/// Returns whether a new subscriber may receive these values of a state that never falls: a first one that is at least
/// `last`, and then a greater one, or none.
pub fn are_in_order(last: u64, first: Option<u64>, second: Option<u64>) -> bool {
    match (first, second) {
        (Some(first), Some(second)) => last <= first && first < second,
        (Some(first), None) => last <= first,
        _ => false,
    }
}
