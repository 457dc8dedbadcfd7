//! The wakers of callers that sleep, each under a number.
ghost use Rattle.std.specs.Prelude.{◌≡◌, ◌<◌, ◌≤◌, nat_le, ◌↔◌, ◌==◌, not, filter, length, [], IsTrue, IfSome, ◌⊎◌, Contains};
ghost use Rattle.std.specs.Bool.{OnTrue};
ghost use Rattle.std.specs.Vec.{vec_len};
ghost use Rattle.flow_sleepers.specs.Sleepers.{AddsSleeper, HasNumber, numbers_of};

use crate::waiter::{Waiter, Wakers};
use futures::task::Poll;
use std::alloc::{Allocator, Global};
use std::marker::Model;
use std::mem;

/// A caller that sleeps, under its number.
struct Sleeper<A: Allocator = Global> {
    number: u64,
    wakers: Wakers<A>,
}

// Not derived, nor are the next ones: each crate that drops a flow would have to prove again how its sleepers are
// dropped.
impl<A: Allocator> Drop for Sleeper<A> {
    fn drop(self) {
        let Self {
            number: _,
            wakers: _,
        } = self;
    }
}

/// Callers that sleep, each under a number, in the order of the numbers. Several may sleep under one number.
pub struct Sleepers<A: Allocator = Global> {
    list: Vec<Sleeper<A>, A>,
}

impl<A: Allocator> Drop for Sleepers<A> {
    fn drop(self) {
        let Self { list: _ } = self;
    }
}

impl<A: Allocator> Model for Sleepers<A> {
    ghost use Rattle.std.specs.Prelude.{List, ℕ};

    ghost Value = { List ℕ };

    ghost use Rattle.flow_sleepers.specs.Sleepers.{numbers_of};

    ghost view = { λ s. numbers_of s.list.items };
}

/// Sleepers that were removed from a list and are still to be woken. It has no `Drop`: it ends by `wake`.
pub struct Woken<A: Allocator = Global> {
    list: Vec<Sleeper<A>, A>,
}

impl<A: Allocator> Model for Woken<A> {
    ghost use Rattle.std.specs.Prelude.{List, ℕ};

    ghost Value = { List ℕ };

    ghost use Rattle.flow_sleepers.specs.Sleepers.{numbers_of};

    ghost view = { λ w. numbers_of w.list.items };
}

/// Returns whether the sleeper at this place has this number.
fn is_at<A: Allocator>(list: &[Sleeper<A>], place: usize, number: u64) -> bool
    ensures { OnTrue result ((place < length list.now) × HasNumber (numbers_of list.now) place number) }
{
    match list.get(place) {
        Some(sleeper) => sleeper.number == number,
        None => false,
    }
}

/// Returns the place of the first sleeper of this number whose wakers another caller may join, or else the place behind
/// the sleepers of this number.
fn place_of<A: Allocator>(list: &[Sleeper<A>], number: u64) -> usize
    ensures { result ≤ length list.now }
{
    let first = list.partition_point(|sleeper| sleeper.number < number);
    for place in first..list.len() {
        let sleeper = &list[place];
        if sleeper.number != number || sleeper.wakers.is_free() {
            return place;
        }
    }
    list.len()
}

/// Returns the place of a sleeper of this number, after adding one if there is none whose wakers another caller may
/// join, or `None` if memory is refused.
fn place_in<A: Allocator>(list: &mut Vec<Sleeper<A>, A>, number: u64) -> Option<usize>
    ensures within { IfSome result (λ place. place < vec_len list.new) }
    ensures found { IfSome result (λ place. HasNumber (numbers_of list.new.items) place number) }
    ensures adds { AddsSleeper number (numbers_of list.old.items) (numbers_of list.new.items) }
{
    let place = place_of(list, number);
    if is_at(list, place, number) {
        return Some(place);
    }
    let sleeper = Sleeper {
        number,
        wakers: Wakers::none(),
    };
    match list.insert(place, sleeper) {
        Ok(()) => Some(place),
        Err(_refused) => None,
    }
}

impl<A: Allocator + Copy> Woken<A> {
    /// Returns an empty list. Does not allocate.
    pub fn new(alloc: A) -> Self
        ensures { result ≡ [] }
    {
        Woken {
            list: Vec::new(alloc),
        }
    }

    /// Takes all sleepers out, and leaves an empty list.
    pub fn take(&mut self) -> Self
        ensures all { result ≡ self.old }
        ensures none { self.new ≡ [] }
    {
        let alloc = *self.list.allocator();
        Woken {
            list: mem::replace(&mut self.list, Vec::new(alloc)),
        }
    }

    /// Holds these sleepers in place of its own, which are woken.
    pub fn replace(&mut self, others: Self)
        ensures { self.new ≡ others }
    {
        mem::replace(self, others).wake();
    }

    /// Wakes the sleepers.
    pub fn wake(self) {
        let Self { list } = self;
        drop(list);
    }
}

impl<A: Allocator + Copy> Sleepers<A> {
    /// Returns an empty list. Does not allocate.
    pub fn new(alloc: A) -> Self
        ensures { result ≡ [] }
    {
        Sleepers {
            list: Vec::new(alloc),
        }
    }

    /// Returns whether no caller sleeps.
    pub fn is_empty(&self) -> bool
        ensures { IsTrue result ↔ (self.now ≡ []) }
    {
        self.list.is_empty()
    }

    /// Keeps the waker of a caller under this number. If the caller asks again first, or memory is refused, keeps no
    /// waker, and the caller asks again. Always returns `Pending`.
    pub fn sleep<W: Waiter<A>, T>(&mut self, waiter: &mut W, number: u64) -> Poll<T>
        ensures pending { result ≡ Poll.Pending }
        ensures armed { W.is_armed waiter.new }
        ensures kept { W.keeps waiter.old waiter.new }
        ensures listed { (W.asks_again waiter.new) ⊎ (Contains self.new number) }
        ensures adds { AddsSleeper number self.old self.new }
    {
        if waiter.asks_first() {
            waiter.ask_again();
            return Poll::Pending;
        }
        let alloc = *self.list.allocator();
        let Some(place) = place_in(&mut self.list, number) else {
            waiter.ask_again();
            return Poll::Pending;
        };
        let sleeper = &mut self.list[place];
        waiter.leave_waker(alloc, &mut sleeper.wakers);
        Poll::Pending
    }

    /// Removes the sleepers of this number, and wakes them.
    pub fn wake(&mut self, number: u64)
        ensures { self.new ≡ filter (λ k. not (k == number)) self.old }
    {
        self.list.retain(|sleeper| sleeper.number != number);
    }

    /// Removes the sleepers below this number, and wakes them.
    pub fn wake_below(&mut self, number: u64)
        ensures { self.new ≡ filter (λ k. nat_le number k) self.old }
    {
        self.list.retain(|sleeper| number <= sleeper.number);
    }

    /// Removes all sleepers, and returns them to be woken.
    pub fn take_all(&mut self) -> Woken<A>
        ensures all { result ≡ self.old }
        ensures none { self.new ≡ [] }
    {
        let alloc = *self.list.allocator();
        Woken {
            list: mem::replace(&mut self.list, Vec::new(alloc)),
        }
    }
}
