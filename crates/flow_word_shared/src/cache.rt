//! The replay cache.
ghost use Rattle.std.specs.Prelude.{◌≡◌, ◌+◌, ◌-◌, ◌<◌, ◌≤◌, ◌++◌, drop, take, slice_get, IfSome, IfErr, Some, None, true, false};
ghost use Rattle.std.specs.Vec.{vec_len, vec_capacity};
ghost use Rattle.flow_law.specs.declared.fault.FlowFault.TheVariants.{OutOfMemory};
ghost use Rattle.flow_law.specs.declared.call.SharedCall.TheVariants as call;
ghost use Rattle.flow_law.specs.declared.call.SharedReply.TheVariants as reply;
ghost use Rattle.flow_law.specs.history.History.{replied};
ghost use Rattle.flow_law.specs.flow.SharedHistory.{shared_flow};
ghost use Rattle.flow_law.specs.history.Tokens.{IsBusy};
ghost use Rattle.flow_law.specs.history.Promise.{CallsIn, CallsAtOnceIn};
ghost use Rattle.flow_word_shared.specs.Answers.{WordResetsNow};
ghost use Rattle.flow_word_shared.specs.Rule.{capacity_of};
ghost use Rattle.flow_word_shared.specs.Steps.{log_after};
ghost use Rattle.flow_word_shared.specs.Tokens.{ring_token, HoldsAll};

use crate::plays::{Cache, CountMark, ReadHeld, RefuseCache, Release, ResetMark, Take};
use crate::reading::Pack;
use crate::token::{HEAD, WordFlow, WordFlowSeat};
use crate::view::RingKnown;
use atomic_table::Seat;
use flow_law::{FlowFault, Sequence, Words};
use std::alloc::Global;
use std::sync::Wait;
use std::thread;

impl<T: Words> WordFlow<T> {
    /// Reads word 0 again, for a call that tries once.
    #[inline(always)]
    pub(crate) fn look_up(&self, seat: &mut WordFlowSeat<T>)
        requires { seat.old.table_id ≡ self.now.table_id }
        ensures { seat.new ≡ seat.old }
    {
        let found = self.table.shared.peek(0);
        seat.expected = found - found % 2;
    }

    /// Tries once to empty the replay cache. Returns `false` if another caller was faster.
    fn try_reset(&self, seat: &mut WordFlowSeat<T>) -> bool
        requires { seat.old.table_id ≡ self.now.table_id }
        ensures done { result ≡ true → CallsAtOnceIn shared_flow self.now.first seat.old
            call.ResetReplayCache reply.Reset seat.new }
        ensures lost { result ≡ false → IsBusy seat.old seat.new }
    {
        let expected = seat.expected;
        let shared = &self.table.shared;
        let found = shared.compare_exchange::<Take>(&mut seat.seat, 0, expected, expected + 1);
        if found != expected {
            seat.expected = found - found % 2;
            return false;
        }
        shared.store::<ResetMark>(&mut seat.seat, 3, expected / 2);
        shared.store::<Release>(&mut seat.seat, 0, expected);
        true
    }

    /// Empties the replay cache. Present subscribers still receive the values that they have not received.
    ///
    /// # Source
    /// `MutableSharedFlow.resetReplayCache`.
    pub fn reset_replay_cache<R: Wait>(&self, rt: &R, seat: &mut WordFlowSeat<T>)
        requires { seat.old.table_id ≡ self.now.table_id }
        ensures { CallsIn shared_flow self.now.first seat.old call.ResetReplayCache
            reply.Reset seat.new }
    {
        for _ in rt.forever() {
            if self.try_reset(seat) {
                return;
            }
            thread::yield_now();
        }
        unreachable!()
    }

    /// Empties the replay cache if no other caller is faster; otherwise returns `Busy`.
    pub fn reset_now(&self, seat: &mut WordFlowSeat<T>) -> Result<(), FlowFault>
        requires { seat.old.table_id ≡ self.now.table_id }
        ensures { WordResetsNow self.now.first seat.old result seat.new }
    {
        self.look_up(seat);
        if self.try_reset(seat) {
            return Ok(());
        }
        Err(FlowFault::Busy)
    }

    /// Loads the cells of a position of the buffer, for a caller that holds the lock bit. Returns the value there.
    fn read_held(
        &self,
        seat: &mut Seat<(), Sequence<RingKnown<T>>>,
        length: u64,
        position: u64,
    ) -> T
        requires flow { (ring_token seat.old).table_id ≡ self.now.table_id }
        requires held { HoldsAll seat.old length }
        requires there { position < length }
        requires kept { length ≤ position + capacity_of self.now.table_id.start }
        ensures same { (seat.new.me ≡ seat.old.me) × (seat.new.table_id ≡ seat.old.table_id) }
        ensures value { slice_get (log_after self.now.table_id.start (ring_token seat.old).knows.seen) position
            ≡ Some result }
    {
        let width = T::WIDTH;
        let first = HEAD + (position & self.mask) as usize * width;
        let mut words = Pack::new();
        for place in 0..width {
            let word = self.table.shared.load::<ReadHeld>(seat, first + place);
            words.push(word);
        }
        T::of_words(words.as_slice())
    }

    /// Appends the values of the positions from `start` to before `length`, of a caller that holds the lock bit.
    fn copy_held(
        &self,
        seat: &mut Seat<(), Sequence<RingKnown<T>>>,
        start: u64,
        length: u64,
        values: &mut Vec<T, Global>,
    )
        requires flow { (ring_token seat.old).table_id ≡ self.now.table_id }
        requires held { HoldsAll seat.old length }
        requires kept { length ≤ start + capacity_of self.now.table_id.start }
        requires room { vec_len values.old + (length - start) ≤ vec_capacity values.old }
        ensures same { (seat.new.me ≡ seat.old.me) × (seat.new.table_id ≡ seat.old.table_id) }
        ensures copied { values.new.items ≡ values.old.items ++ take (length - start)
            (drop start (log_after self.now.table_id.start (ring_token seat.old).knows.seen)) }
    {
        for k in start..length {
            values.push_reserved(self.read_held(seat, length, k));
        }
    }

    /// Tries once to copy the replay cache. Returns `None` if another caller was faster.
    fn try_replay_cache(
        &self,
        seat: &mut WordFlowSeat<T>,
    ) -> Option<Result<Vec<T, Global>, FlowFault>>
        requires { seat.old.table_id ≡ self.now.table_id }
        ensures called { IfSome result (λ answer. CallsAtOnceIn shared_flow self.now.first seat.old
            call.ReplayCache (replied shared_flow (λ values. reply.Cached values.items) answer)
            seat.new) }
        ensures refused { IfSome result (λ answer. IfErr answer (λ fault. fault ≡ OutOfMemory)) }
        ensures lost { result ≡ None → IsBusy seat.old seat.new }
    {
        let expected = seat.expected;
        let shared = &self.table.shared;
        let found = shared.compare_exchange::<Take>(&mut seat.seat, 0, expected, expected + 1);
        if found != expected {
            seat.expected = found - found % 2;
            return None;
        }
        let length = expected / 2;
        let mark = shared.load::<CountMark>(&mut seat.seat, 3);
        let start = mark.max(length.saturating_sub(self.replay));
        let count = length.saturating_sub(start) as usize;
        let mut values = match Vec::with_capacity(self.alloc, count) {
            Ok(values) => values,
            Err(_failed) => {
                shared.load::<RefuseCache>(&mut seat.seat, 3);
                shared.store::<Release>(&mut seat.seat, 0, expected);
                return Some(Err(FlowFault::OutOfMemory));
            }
        };
        shared.load::<Cache>(&mut seat.seat, 3);
        self.copy_held(&mut seat.seat, start, length, &mut values);
        shared.store::<Release>(&mut seat.seat, 0, expected);
        Some(Ok(values))
    }

    /// Returns the replay cache: copies of at most `replay` values. A new subscriber receives them first.
    ///
    /// Emitters, `subscribe` and `reset_replay_cache` wait while the values are copied; subscribers do not.
    ///
    /// # Errors
    /// `OutOfMemory` if the cache has values and there is no memory for the list.
    ///
    /// # Source
    /// `SharedFlow.replayCache`.
    pub fn replay_cache<R: Wait>(
        &self,
        rt: &R,
        seat: &mut WordFlowSeat<T>,
    ) -> Result<Vec<T, Global>, FlowFault>
        requires { seat.old.table_id ≡ self.now.table_id }
        ensures called { CallsIn shared_flow self.now.first seat.old call.ReplayCache
            (replied shared_flow (λ values. reply.Cached values.items) result) seat.new }
        ensures refused { IfErr result (λ fault. fault ≡ OutOfMemory) }
    {
        for _ in rt.forever() {
            match self.try_replay_cache(seat) {
                Some(answer) => return answer,
                None => thread::yield_now(),
            }
        }
        unreachable!()
    }
}
