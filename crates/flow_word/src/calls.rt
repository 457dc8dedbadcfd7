//! Making a word state and its seats, and reading and setting the value.
ghost use Rattle.std.specs.Prelude.{◌≡◌, IfOk, IfErr};
ghost use Rattle.flow_law.specs.declared.call.StateCall.TheVariants as call;
ghost use Rattle.flow_law.specs.declared.call.StateReply.TheVariants as reply;
ghost use Rattle.flow_law.specs.history.Growth.{makes, child};
ghost use Rattle.flow_law.specs.flow.StateFlow.{first_state_flow, state_flow};
ghost use Rattle.flow_law.specs.history.Tokens.{Begins, knowing};
ghost use Rattle.flow_law.specs.history.Promise.{CallsAtOnceIn};

use crate::plays::{Exchange, Make, Put, Read};
use crate::sleepers::WordSleepers;
use crate::token::{WordSeat, WordState};
use crate::view::Start;
use atomic_table::Table;
use flow_law::{FlowFault, Packed};
use std::alloc::Global;

impl<T: Packed> WordState<T> {
    /// Makes a state flow with this value, and its first seat. It issues at most `limit` numbers to subscribers.
    ///
    /// Every other seat is made through this one, directly or through other seats. Once all seats and subscriptions are
    /// dropped, no call can be made any more.
    ///
    /// # Errors
    /// `OutOfMemory`. No other call of the flow takes memory; a task that waits takes some for its waker.
    pub fn new(
        alloc: Global,
        initial: T,
        limit: u32,
    ) -> Result<(WordState<T>, WordSeat<T>), FlowFault>
        ensures made { IfOk result (Begins (first_state_flow limit initial)) }
        ensures memory { IfErr result (λ fault. fault ≡ FlowFault.OutOfMemory) }
    {
        let start = Start {
            word: initial.pack(),
            limit: u64::from(limit),
        };
        match Table::of_words(alloc, &[start.word, 0], &start) {
            Ok((table, seat)) => {
                let state = WordState {
                    table,
                    limit,
                    readers: WordSleepers::new(alloc),
                    watchers: WordSleepers::new(alloc),
                };
                Ok((state, WordSeat { seat }))
            }
            Err(_) => Err(FlowFault::OutOfMemory),
        }
    }

    /// Makes a seat through another one. Call it for each thread, before the thread starts.
    ///
    /// The new seat has seen what its maker had seen, and has a name of its own. After it is dropped, no call is made
    /// under its name; the flow does not change.
    pub fn seat(&self, seat: &mut WordSeat<T>) -> WordSeat<T>
        requires { seat.old.table_id ≡ self.now.table_id }
        ensures maker { seat.new ≡ knowing seat.old (makes seat.old.knows) }
        ensures made { result ≡ knowing seat.old (child seat.old.knows) }
    {
        WordSeat {
            seat: self.table.shared.split_seat::<Make>(&mut seat.seat),
        }
    }

    /// Returns the pack of the current value, by a call of `value`.
    pub(crate) fn word(&self, seat: &mut WordSeat<T>) -> u64
        requires { seat.old.table_id ≡ self.now.table_id }
        ensures packs { T.packs result }
        ensures called { CallsAtOnceIn state_flow self.now.first seat.old call.GetValue
            (reply.Got (T.value_of result)) seat.new }
    {
        self.table.shared.load::<Read>(&mut seat.seat, 0)
    }

    /// Makes a call of `compare_and_set`, with the packs of its arguments.
    pub(crate) fn exchange(&self, seat: &mut WordSeat<T>, expect: u64, update: u64) -> bool
        requires flow { seat.old.table_id ≡ self.now.table_id }
        requires packs { T.packs expect × T.packs update }
        ensures { CallsAtOnceIn state_flow self.now.first seat.old
            (call.CompareAndSet (T.value_of expect) (T.value_of update))
            (reply.Answered result) seat.new }
    {
        let found = self
            .table
            .shared
            .compare_exchange::<Exchange>(&mut seat.seat, 0, expect, update);
        let won = found == expect;
        if won && expect != update {
            self.readers.wake();
        }
        won
    }

    /// Returns the current value.
    ///
    /// Another caller may set the value right after. Call `update` or `compare_and_set` to set a value that depends on
    /// the current one.
    pub fn value(&self, seat: &mut WordSeat<T>) -> T
        requires { seat.old.table_id ≡ self.now.table_id }
        ensures { CallsAtOnceIn state_flow self.now.first seat.old call.GetValue
            (reply.Got result) seat.new }
    {
        T::unpack(self.word(seat))
    }

    /// Sets the current value. Setting a value that is equal to the current one does nothing: no subscriber gets it
    /// again.
    ///
    /// A slow subscriber skips values and gets the most recent one.
    pub fn set(&self, seat: &mut WordSeat<T>, value: T)
        requires { seat.old.table_id ≡ self.now.table_id }
        ensures { CallsAtOnceIn state_flow self.now.first seat.old
            (call.Set value) reply.Done seat.new }
    {
        let word = value.pack();
        let old = self.table.shared.swap::<Put>(&mut seat.seat, 0, word);
        if old != word {
            self.readers.wake();
        }
    }

    /// Sets the value to `update` if it is equal to `expect`, and returns whether it was. Both happen in one event.
    ///
    /// If both are equal to the current value, returns `true`, and subscribers get nothing new. If the result is
    /// `false`, the value was another one: read it and try again, as `update` does.
    pub fn compare_and_set(&self, seat: &mut WordSeat<T>, expect: T, update: T) -> bool
        requires { seat.old.table_id ≡ self.now.table_id }
        ensures { CallsAtOnceIn state_flow self.now.first seat.old
            (call.CompareAndSet expect update)
            (reply.Answered result) seat.new }
    {
        self.exchange(seat, expect.pack(), update.pack())
    }
}
