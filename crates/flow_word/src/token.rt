//! A word state, and the tokens of its callers.
ghost use Rattle.std.specs.Prelude.{◌≡◌};
ghost use Rattle.flow_law.specs.history.Tokens.{origin, numbered_token};
ghost use Rattle.flow_word.specs.View.{begun};
ghost use Rattle.flow_word.specs.Tokens.{WordToken, WordOrigin, WordNumbered, word_id, token_of, HasOneToken, IsWordSubscription};

use crate::rule::WordRule;
use crate::sleepers::WordSleepers;
use crate::view::{Known, Start};
use atomic_table::{Seat, Table};
use flow_law::{Packed, Sequence};
use std::alloc::Global;
use std::marker::Model;

/// A state flow (`MutableStateFlow`) of a value that fits a word, for callers on several threads. Its calls wait
/// for no other caller, except `subscribe` and the updates, which try again.
#[derive(Drop)]
pub struct WordState<T: Packed> {
    /// Word 0 is the pack of the current value. Word 1 is the number of issued numbers, times 2^32, plus the number of
    /// subscribers.
    pub(crate) table: Table<(), Sequence<Known<T>>, Start, WordRule, Global>,
    pub(crate) limit: u32,
    /// The callers that sleep until the value changes.
    pub(crate) readers: WordSleepers,
    /// The callers that sleep until the number of subscribers changes.
    pub(crate) watchers: WordSleepers,
}

impl<T: Packed> Model for WordState<T> {
    ghost Value = { WordOrigin T };

    ghost view = { λ w. origin (word_id w.table.shared.table_id w.table.shared.key)
        (begun T.value_of w.table.shared.key) };

    ghost invariant = { λ w.
        (w.table.shared.table_id.words ≡ 2) × (w.table.shared.key.limit ≡ w.limit) };
}

/// A seat at a word state, by which a caller calls the flow. Contracts see the history that it has seen.
///
/// After a seat is dropped, no call is made under its name. The flow does not change.
pub struct WordSeat<T> {
    pub(crate) seat: Seat<(), Sequence<Known<T>>>,
}

// Not derived: each crate that drops a seat would have to prove again how it is dropped.
impl<T> Drop for WordSeat<T> {
    fn drop(self) {
        let Self { seat: _ } = self;
    }
}

impl<T> Model for WordSeat<T> {
    ghost Value = { WordToken T };

    ghost view = { λ s. token_of s.seat };

    ghost invariant = { λ s. HasOneToken s.seat };
}

/// A subscription to a word state: a seat of its own, its number, and the pack of the last value that it got.
///
/// A dropped subscription stays, and still counts; its seat is lost. Call `unsubscribe` to end it.
#[derive(Drop)]
pub struct WordSubscription<T: Packed> {
    pub(crate) seat: Seat<(), Sequence<Known<T>>>,
    pub(crate) number: u64,
    pub(crate) last: Option<u64>,
    /// Whether a task has left its waker under the number. `unsubscribe` removes it.
    pub(crate) has_left_waker: bool,
}

impl<T: Packed> Model for WordSubscription<T> {
    ghost Value = { WordNumbered T };

    ghost view = { λ s. numbered_token (token_of s.seat) s.number };

    ghost invariant = { λ s. IsWordSubscription T.packs T.value_of s.seat s.number s.last };
}

impl<T: Packed> WordSubscription<T> {
    /// Notes that a task leaves its waker under the subscription's number, and returns the number.
    pub(crate) fn note_waker(&mut self) -> u64
        ensures { self.new ≡ self.old }
    {
        self.has_left_waker = true;
        self.number
    }
}
