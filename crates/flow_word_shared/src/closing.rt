//! The end of a flow.
ghost use Rattle.std.specs.Prelude.{◌≡◌, ◌+◌, ◌≤◌, ◌++◌, length, IfOk};
ghost use Rattle.std.specs.Vec.{vec_len, vec_capacity};
ghost use Rattle.std.specs.Mem.Slots.{slots_items, slots_len, IsFull};
ghost use Rattle.flow_word_shared.specs.Closing.{WordFlowEndsAs};
ghost use Rattle.flow_word_shared.specs.Rule.{words_from};

use crate::reading::Pack;
use crate::token::{HEAD, WordFlow, WordFlowSeat};
use atomic_table::Closed;
use flow_law::{OutOfMemory, Words};
use std::alloc::Global;
use std::marker::{Model, PhantomData};

/// A flow that was closed. Contracts see the number of emitted values, the number of subscribers and the replay cache.
pub struct ClosedWordFlow<T: Words> {
    closed: Closed<(), Global>,
    alloc: Global,
    room: u64,
    emitted: u64,
    subscribers: u64,
    /// The position of the first value of the replay cache.
    first: u64,
    values: PhantomData<T>,
}

impl<T: Words> Model for ClosedWordFlow<T> {
    ghost use Rattle.std.specs.Prelude.{◌≡◌, ℕ, ◌+◌, ◌*◌, ◌%◌, ◌<◌, ◌≤◌, ◌^◌};
    ghost use Rattle.std.specs.Mem.Slots.{slots_items, slots_len, IsFull};
    ghost use Rattle.flow_word_shared.specs.Closing.{ClosedFlow, closed_flow};
    ghost use Rattle.flow_word_shared.specs.Rule.{head, words_from};

    ghost Value = { ClosedFlow T };

    ghost view = { λ c. closed_flow T.value_in T.WIDTH c.room (slots_items c.closed.words) c.emitted c.subscribers c.first };

    ghost invariant = { λ c.
        (slots_len c.closed.slots ≡ 0) × IsFull c.closed.words
        × (4 + c.room * T.WIDTH ≤ slots_len c.closed.words) × (4 + c.room * T.WIDTH < 2 ^ 63)
        × (0 < c.room)
        × (c.first ≤ c.emitted)
        × ((k : ℕ) → c.first ≤ k → k < c.emitted
        → T.are_words (words_from T.WIDTH (slots_items c.closed.words) (head + k % c.room * T.WIDTH))) };
}

/// Returns the value in the cells of a closed table from this one on.
fn value_at<T: Words>(closed: &Closed<(), Global>, cell: usize) -> T
    requires full { IsFull closed.now.words }
    requires there { cell + T.WIDTH ≤ slots_len closed.now.words }
    requires words { T.are_words (words_from T.WIDTH (slots_items closed.now.words) cell) }
    ensures { result ≡ T.value_in (words_from T.WIDTH (slots_items closed.now.words) cell) }
{
    let width = T::WIDTH;
    let mut words = Pack::new();
    for place in 0..width {
        let word = closed.word(cell + place);
        words.push(word);
    }
    T::of_words(words.as_slice())
}

impl<T: Words> Drop for ClosedWordFlow<T> {
    fn drop(self) {
        let Self {
            closed,
            alloc: _,
            room: _,
            emitted: _,
            subscribers: _,
            first: _,
            values: _,
        } = self;
        closed.free();
    }
}

impl<T: Words> WordFlow<T> {
    /// Ends the flow, and returns what it has then: the state to which all calls so far led.
    ///
    /// It adds no event to the history, does not wait and takes no memory. Call it when all threads have ended; the
    /// closed flow also has what calls of other seats did. Other seats and subscriptions are of no further use.
    pub fn close(self, seat: WordFlowSeat<T>) -> ClosedWordFlow<T>
        requires { seat.table_id ≡ self.table_id }
        ensures { WordFlowEndsAs self.first seat result }
    {
        let WordFlow {
            table,
            alloc,
            room,
            mask: _,
            capacity: _,
            replay,
            limit: _,
            places: _,
            low: _,
            readers: _,
        } = self;
        let closed = table.close_with(seat.into_inner());
        let word = closed.word(0);
        let subscribers = closed.word(2);
        let mark = closed.word(3);
        let emitted = word / 2;
        let first = mark.max(emitted.saturating_sub(replay));
        ClosedWordFlow {
            closed,
            alloc,
            room,
            emitted,
            subscribers,
            first,
            values: PhantomData,
        }
    }
}

impl<T: Words> ClosedWordFlow<T> {
    /// Returns how many values were emitted.
    pub fn emitted(&self) -> u64
        ensures { result ≡ self.now.emitted }
    {
        self.emitted
    }

    /// Returns how many subscribers the flow has: subscriptions that were made, and not ended by `unsubscribe`.
    pub fn subscription_count(&self) -> u64
        ensures { result ≡ self.now.subscribers }
    {
        self.subscribers
    }

    /// Appends the replay cache to a list that has room for it.
    fn copy_cache(&self, values: &mut Vec<T, Global>)
        requires { vec_len values.old + length self.now.replay_cache ≤ vec_capacity values.old }
        ensures { values.new.items ≡ values.old.items ++ self.now.replay_cache }
    {
        let first = self.first;
        let width = T::WIDTH;
        for i in 0..self.emitted - first {
            let cell = HEAD + ((first + i) % self.room) as usize * width;
            values.push_reserved(value_at(&self.closed, cell));
        }
    }

    /// Returns the replay cache: copies of at most `replay` values.
    ///
    /// # Errors
    /// `OutOfMemory` if there is no memory for the list.
    pub fn replay_cache(&self) -> Result<Vec<T, Global>, OutOfMemory>
        ensures { IfOk result (λ values. values.items ≡ self.now.replay_cache) }
    {
        let count = (self.emitted - self.first) as usize;
        let Ok(mut values) = Vec::with_capacity(self.alloc, count) else {
            return Err(OutOfMemory);
        };
        self.copy_cache(&mut values);
        Ok(values)
    }
}
