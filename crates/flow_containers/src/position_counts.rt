//! The number of subscribers at each position. One of these counts shows whether a subscriber is a whole window behind.
ghost use Rattle.std.specs.Prelude.{◌≡◌, ℕ, ◌+◌, ◌-◌, ◌<◌, ◌≤◌, ◌%◌, ◌^◌, length, get_or, set, replicate, IfOk};
ghost use Rattle.flow_containers.specs.PositionCounts.{IsLeast, one_more_at, one_less_at};

use std::alloc::{AllocError, Allocator};
use std::marker::Model;

/// A row of counts. The count of a position is at the place that is the position modulo the length of the row.
///
/// Subscribers have at most as many different positions as the row has places, so no two positions share a place. A
/// place is computed without a division, from the place of the last position and the distance to it.
#[derive(Drop)]
pub struct PositionCounts<A: Allocator> {
    row: Vec<u64, A>,
    /// The number of emitted values, which is also the last position.
    emitted: u64,
    /// The place of the last position.
    end: usize,
}

impl<A: Allocator> Model for PositionCounts<A> {
    ghost use Rattle.flow_containers.specs.PositionCounts.{Counted, counted_of, IsPlaced};

    ghost Value = { Counted };

    ghost view = { counted_of };

    ghost invariant = { λ c. IsPlaced c };
}

/// Returns a row of zeros.
fn empty_row<A: Allocator>(alloc: A, places: usize) -> Result<Vec<u64, A>, AllocError>
    ensures { IfOk result (λ row. row.items ≡ replicate places 0) }
{
    vec![in alloc; 0; places]
}

impl<A: Allocator> PositionCounts<A> {
    /// Returns a row of `places` counts, all zero.
    pub fn new(alloc: A, places: usize) -> Result<Self, AllocError>
        requires { 0 < places }
        ensures row { IfOk result (λ counts. counts.row ≡ replicate places 0) }
        ensures emitted { IfOk result (λ counts. counts.emitted ≡ 0) }
    {
        let row = empty_row(alloc, places)?;
        Ok(PositionCounts {
            row,
            emitted: 0,
            end: 0,
        })
    }

    /// Returns the number of emitted values.
    pub fn emitted(&self) -> u64
        ensures { result ≡ self.now.emitted }
    {
        self.emitted
    }

    /// Returns the greatest possible lag: one less than the number of places.
    pub fn window(&self) -> usize
        ensures { result ≡ length self.now.row - 1 }
    {
        self.row.len() - 1
    }

    fn place_of(&self, position: u64) -> usize
        requires past { position ≤ self.now.emitted }
        requires near { self.now.emitted < position + length self.now.row }
        ensures place { result ≡ position % length self.now.row }
        ensures within { result < length self.now.row }
    {
        let distance = (self.emitted - position) as usize;
        if distance <= self.end {
            self.end - distance
        } else {
            self.row.len() - (distance - self.end)
        }
    }

    fn place_after(&self, place: usize) -> usize
        requires { place < length self.now.row }
        ensures place { result ≡ (place + 1) % length self.now.row }
        ensures within { result < length self.now.row }
    {
        if place == self.row.len() - 1 {
            0
        } else {
            place + 1
        }
    }

    fn count(&self, place: usize) -> u64
        requires { place < length self.now.row }
        ensures { result ≡ get_or self.now.row place 0 }
    {
        self.row[place]
    }

    fn set_count(&mut self, place: usize, count: u64)
        requires { place < length self.old.row }
        ensures row { self.new.row ≡ set self.old.row place count }
        ensures emitted { self.new.emitted ≡ self.old.emitted }
    {
        self.row[place] = count;
    }

    /// Counts the subscribers that are a whole window behind. The next position will take their place in the row.
    pub fn at_oldest(&self) -> u64
        ensures { result ≡ get_or self.now.row ((self.now.emitted + 1) % length self.now.row) 0 }
    {
        self.count(self.place_after(self.end))
    }

    /// Counts the subscribers at a position.
    pub fn at(&self, position: u64) -> u64
        requires past { position ≤ self.now.emitted }
        requires near { self.now.emitted < position + length self.now.row }
        ensures { result ≡ get_or self.now.row (position % length self.now.row) 0 }
    {
        self.count(self.place_of(position))
    }

    /// Records that one more value was emitted.
    pub fn add(&mut self)
        requires { self.old.emitted + 1 < 2 ^ 64 }
        ensures row { self.new.row ≡ self.old.row }
        ensures emitted { self.new.emitted ≡ self.old.emitted + 1 }
    {
        self.end = self.place_after(self.end);
        self.emitted += 1;
    }

    /// Adds a subscriber at a position.
    pub fn enter(&mut self, position: u64)
        requires past { position ≤ self.old.emitted }
        requires near { self.old.emitted < position + length self.old.row }
        requires room { get_or self.old.row (position % length self.old.row) 0 + 1 < 2 ^ 64 }
        ensures row { self.new.row ≡ one_more_at self.old.row position }
        ensures emitted { self.new.emitted ≡ self.old.emitted }
    {
        let place = self.place_of(position);
        self.set_count(place, self.count(place) + 1);
    }

    /// Removes a subscriber from a position.
    pub fn leave(&mut self, position: u64)
        requires past { position ≤ self.old.emitted }
        requires near { self.old.emitted < position + length self.old.row }
        requires some { 0 < get_or self.old.row (position % length self.old.row) 0 }
        ensures row { self.new.row ≡ one_less_at self.old.row position }
        ensures emitted { self.new.emitted ≡ self.old.emitted }
    {
        let place = self.place_of(position);
        self.set_count(place, self.count(place) - 1);
    }

    /// Moves a subscriber from a position, which is not the last, to the next one. Returns how many stay at the
    /// position.
    #[inline]
    pub fn move_on(&mut self, position: u64) -> u64
        requires past { position < self.old.emitted }
        requires near { self.old.emitted < position + length self.old.row }
        requires some { 0 < get_or self.old.row (position % length self.old.row) 0 }
        requires room { get_or (one_less_at self.old.row position)
            ((position + 1) % length (one_less_at self.old.row position)) 0 + 1 < 2 ^ 64 }
        ensures others { result ≡ get_or self.old.row (position % length self.old.row) 0 - 1 }
        ensures row { self.new.row ≡ one_more_at (one_less_at self.old.row position) (position + 1) }
        ensures emitted { self.new.emitted ≡ self.old.emitted }
    {
        let place = self.place_of(position);
        let next = self.place_after(place);
        let others = self.count(place) - 1;
        self.set_count(place, others);
        self.set_count(next, self.count(next) + 1);
        others
    }

    /// Moves all subscribers at a position, which is not the last, to the next one.
    pub fn shift(&mut self, position: u64)
        requires past { position < self.old.emitted }
        requires near { self.old.emitted < position + length self.old.row }
        requires room { get_or self.old.row (position % length self.old.row) 0
            + get_or self.old.row ((position + 1) % length self.old.row) 0 < 2 ^ 64 }
        ensures row { self.new.row ≡ set (set self.old.row ((position + 1) % length self.old.row)
            (get_or self.old.row (position % length self.old.row) 0 +
            get_or self.old.row ((position + 1) % length self.old.row) 0))
            (position % length self.old.row) 0 }
        ensures emitted { self.new.emitted ≡ self.old.emitted }
    {
        let place = self.place_of(position);
        let further = self.place_after(place);
        self.set_count(further, self.count(place) + self.count(further));
        self.set_count(place, 0);
    }

    /// Returns the least position from `start` on that has a subscriber, or `first` if that is less.
    pub fn least(&self, start: u64, first: u64) -> u64
        requires order { start ≤ first }
        requires past { first ≤ self.now.emitted }
        requires near { self.now.emitted < start + length self.now.row }
        ensures { IsLeast self.now.row start first result }
    {
        for position in start..first {
            if self.at(position) > 0 {
                return position;
            }
        }
        first
    }
}
