//! A word flow, and the tokens of its callers.
ghost use Rattle.std.specs.Prelude.{◌≡◌, ◌<◌, ◌≤◌, ◌^◌, ◌+◌, ◌*◌, ◌%◌, None};
ghost use Rattle.std.specs.Int.{IsPowerOfTwo};
ghost use Rattle.flow_law.specs.history.Tokens.{origin, numbered_token};
ghost use Rattle.flow_word_shared.specs.Rule.{IsStart, capacity_of, words_in};
ghost use Rattle.flow_word_shared.specs.View.{began_as};
ghost use Rattle.flow_word_shared.specs.Tokens.{WordFlowToken, WordFlowOrigin, WordFlowNumbered, word_flow_id, ring_token, IsHolding, IsSubscriberAt};

use crate::place::Place;
use crate::rule::WordFlowRule;
use crate::view::{RingKnown, RingStart};
use atomic_table::{Seat, Table};
use flow_law::{Sequence, Words};
use flow_word::sleepers::WordSleepers;
use std::alloc::Global;
use std::marker::Model;

/// The number of words before the cells.
pub(crate) const HEAD: usize = 4;

/// How many words lie between two places: each has a cache line of its own.
pub(crate) const STRIDE: usize = 8;

/// A shared flow (`MutableSharedFlow` with `DROP_OLDEST` or `DROP_LATEST`) of values of up to four words, for callers on
/// several threads. Subscribers wait for no other caller. Under `DROP_OLDEST` they store nothing into the flow; under
/// `DROP_LATEST` each has a place, into which it stores its position.
#[derive(Drop)]
pub struct WordFlow<T: Words> {
    /// Word 0 is twice the number of emitted values, plus one while a caller holds the lock bit. Word 1 is the number of
    /// subscriptions ever made, word 2 the number of subscribers, word 3 the reset mark. The cells follow: the words of the
    /// value at position k are in the cells from `WIDTH` times (k mod `room`) on. If subscribers have places, a lower bound
    /// of the positions in them is next, and then the places. A free place is 0; else it is twice the number of values
    /// that its subscriber has passed, and 2, and 1 more while the subscriber comes or leaves.
    pub(crate) table: Table<(), Sequence<RingKnown<T>>, RingStart, WordFlowRule, Global>,
    pub(crate) alloc: Global,
    /// How many values the cells have room for: a power of two, greater than `capacity`.
    pub(crate) room: u64,
    /// `room` less 1.
    pub(crate) mask: u64,
    pub(crate) capacity: u64,
    pub(crate) replay: u64,
    pub(crate) limit: u64,
    /// How many subscribers have a place: none under `DROP_OLDEST`.
    pub(crate) places: u64,
    /// The word of the lower bound, if there are places.
    pub(crate) low: usize,
    /// The callers that sleep until a value is emitted.
    pub(crate) readers: WordSleepers,
}

impl<T: Words> Model for WordFlow<T> {
    ghost Value = { WordFlowOrigin T };

    ghost view = { λ w. origin (word_flow_id w.table.shared.table_id w.table.shared.key) (began_as w.table.shared.key) };

    ghost invariant = { λ w.
        (4 + w.room * T.WIDTH ≤ w.table.shared.table_id.words) × IsStart w.table.shared.key
        × (w.table.shared.key.room ≡ w.room) × (capacity_of w.table.shared.key ≡ w.capacity)
        × (w.table.shared.key.config.replay ≡ w.replay) × (w.table.shared.key.config.limit ≡ w.limit)
        × (4 + w.room * T.WIDTH < 2 ^ 63) × (w.capacity < w.room)
        × IsPowerOfTwo w.room × (w.mask + 1 ≡ w.room) × (w.table.shared.table_id.slots ≡ 0)
        × (w.table.shared.key.width ≡ T.WIDTH) × (w.table.shared.key.places ≡ w.places)
        × (w.low ≡ 4 + w.room * T.WIDTH)
        × (w.table.shared.table_id.words ≡ words_in w.table.shared.key)
        × (w.table.shared.table_id.words < 2 ^ 63) };
}

/// A seat at a word flow, by which a caller calls the flow. Contracts see the history that it has seen.
///
/// After a seat is dropped, no call is made under its name. The flow does not change.
pub struct WordFlowSeat<T> {
    pub(crate) seat: Seat<(), Sequence<RingKnown<T>>>,
    /// Word 0 as the seat found or left it last, without the lock bit: what it expects to find there.
    pub(crate) expected: u64,
}

// Not derived: each crate that drops a seat would have to prove again how it is dropped.
impl<T> Drop for WordFlowSeat<T> {
    fn drop(self) {
        let Self {
            seat: _,
            expected: _,
        } = self;
    }
}

impl<T> Model for WordFlowSeat<T> {
    ghost Value = { WordFlowToken T };

    ghost view = { λ s. ring_token s.seat };

    ghost invariant = { λ s. IsHolding None s.seat × (s.expected % 2 ≡ 0) };
}

impl<T> WordFlowSeat<T> {
    /// Returns the seat at the table.
    pub(crate) fn into_inner(self) -> Seat<(), Sequence<RingKnown<T>>>
        ensures token { ring_token result ≡ self }
        ensures idle { IsHolding None result }
    {
        let WordFlowSeat { seat, expected: _ } = self;
        seat
    }
}

/// A subscription to a word flow: a seat of its own, its number, the position of the value that it reads next, and a
/// number of values of which it knows that they were emitted.
///
/// A dropped subscription stays, and still counts; its seat is lost. Call `unsubscribe` to end it.
#[derive(Drop)]
pub struct WordFlowSubscription<T: Words> {
    pub(crate) seat: Seat<(), Sequence<RingKnown<T>>>,
    pub(crate) number: u64,
    pub(crate) position: u64,
    /// 0 if it has a place: that has the number then.
    pub(crate) seen: u64,
    pub(crate) place: Option<Place>,
    /// Whether a task has left its waker under the number. `unsubscribe` removes it.
    pub(crate) has_left_waker: bool,
}

impl<T: Words> Model for WordFlowSubscription<T> {
    ghost Value = { WordFlowNumbered T };

    ghost view = { λ s. numbered_token (ring_token s.seat) s.number };

    ghost invariant = { λ s.
        IsSubscriberAt s.place s.seat s.number s.position s.seen × (s.position < 2 ^ 63) × (s.seen < 2 ^ 63) };
}

impl<T: Words> WordFlowSubscription<T> {
    /// Notes that a task leaves its waker under the subscription's number, and returns the number.
    pub(crate) fn note_waker(&mut self) -> u64
        ensures { self.new ≡ self.old }
    {
        self.has_left_waker = true;
        self.number
    }
}
