//! Emitting.
ghost use Rattle.std.specs.Prelude.{◌≡◌, ◌<◌, take, length, IfErr, Ok, true, false};
ghost use Rattle.flow_law.specs.declared.fault.FlowFault.TheVariants.{Exhausted};
ghost use Rattle.flow_law.specs.declared.call.SharedCall.TheVariants as call;
ghost use Rattle.flow_law.specs.declared.call.SharedReply.TheVariants as reply;
ghost use Rattle.flow_law.specs.declared.outcome.Emit.TheVariants.{Done};
ghost use Rattle.flow_law.specs.history.History.{replied, fault_alone};
ghost use Rattle.flow_law.specs.flow.SharedHistory.{shared_flow};
ghost use Rattle.flow_law.specs.history.Tokens.{IsBusy};
ghost use Rattle.flow_law.specs.history.Promise.{CallsIn, CallsAtOnceIn};
ghost use Rattle.flow_word_shared.specs.Answers.{WordEmitsNow};
ghost use Rattle.flow_word_shared.specs.Steps.{Fills, emission_of, emission_done};
ghost use Rattle.flow_word_shared.specs.Tokens.{ring_token, IsFilling};

use crate::plays::{CountIssued, Fill, Publish, Refuse, Release, Take};
use crate::token::{HEAD, WordFlow, WordFlowSeat};
use crate::view::RingKnown;
use atomic_table::Seat;
use flow_law::{FlowFault, Refused, Sequence, Words};
use std::sync::Wait;
use std::thread;

/// Returns the words of a value, without those that mean nothing.
#[inline(always)]
fn kept<T: Words>(words: &[u64; 4]) -> &[u64]
    ensures kept { result.now ≡ take T.WIDTH words.now }
    ensures width { length result.now ≡ T.WIDTH }
{
    &words[..T::WIDTH]
}

impl<T: Words> WordFlow<T> {
    /// Stores the words of a value into the free cells, for a caller that holds the lock bit.
    #[inline(always)]
    pub(crate) fn fill(
        &self,
        seat: &mut Seat<(), Sequence<RingKnown<T>>>,
        position: u64,
        words: &[u64],
    )
        requires flow { (ring_token seat.old).table_id ≡ self.now.table_id }
        requires width { length words.now ≡ T.WIDTH }
        requires holds { IsFilling seat.old position }
        ensures flow { seat.new.table_id ≡ seat.old.table_id }
        ensures filled { Fills seat.old.me words.now seat.new.me }
    {
        let width = T::WIDTH;
        let first = HEAD + (position & self.mask) as usize * width;
        for place in 0..words.len() {
            self.table
                .shared
                .store::<Fill>(seat, first + place, words[place]);
        }
    }

    /// Tries once to emit into a flow without places, by `try_emit` or by `emit`, and returns whether a number was left for
    /// the value. The error says that another emitter was faster, and whether it holds the lock bit.
    #[inline(always)]
    fn emit_once<const TRIES: bool>(
        &self,
        seat: &mut WordFlowSeat<T>,
        words: &[u64],
    ) -> Result<bool, bool>
        requires flow { seat.old.table_id ≡ self.now.table_id }
        requires places { self.now.table_id.start.places ≡ 0 }
        requires words { T.are_words words.now }
        requires width { length words.now ≡ T.WIDTH }
        ensures emitted { result ≡ Ok true → CallsAtOnceIn shared_flow self.now.first seat.old
            (emission_of TRIES (T.value_in words.now)) (emission_done TRIES) seat.new }
        ensures refused { result ≡ Ok false → CallsAtOnceIn shared_flow self.now.first seat.old
            (emission_of TRIES (T.value_in words.now)) (reply.Refused Exhausted) seat.new }
        ensures lost { IfErr result (λ _. IsBusy seat.old seat.new) }
    {
        let expected = seat.expected;
        let shared = &self.table.shared;
        let found = shared.compare_exchange::<Take>(&mut seat.seat, 0, expected, expected + 1);
        if found != expected {
            let odd = found % 2;
            seat.expected = found - odd;
            return Err(odd == 1);
        }
        let length = expected / 2;
        let made = shared.load::<CountIssued>(&mut seat.seat, 1);
        self.fill(&mut seat.seat, length, words);
        if made + length >= self.limit {
            shared.load::<Refuse<TRIES>>(&mut seat.seat, 1);
            shared.store::<Release>(&mut seat.seat, 0, expected);
            return Ok(false);
        }
        shared.store::<Publish<TRIES>>(&mut seat.seat, 0, expected + 2);
        seat.expected = expected + 2;
        self.readers.wake();
        Ok(true)
    }

    /// Tries once to emit, in the way of the flow's strategy.
    #[inline(always)]
    fn try_emission<const TRIES: bool>(
        &self,
        seat: &mut WordFlowSeat<T>,
        words: &[u64],
    ) -> Result<bool, bool>
        requires flow { seat.old.table_id ≡ self.now.table_id }
        requires words { T.are_words words.now }
        requires width { length words.now ≡ T.WIDTH }
        ensures emitted { result ≡ Ok true → CallsAtOnceIn shared_flow self.now.first seat.old
            (emission_of TRIES (T.value_in words.now)) (emission_done TRIES) seat.new }
        ensures refused { result ≡ Ok false → CallsAtOnceIn shared_flow self.now.first seat.old
            (emission_of TRIES (T.value_in words.now)) (reply.Refused Exhausted) seat.new }
        ensures lost { IfErr result (λ _. IsBusy seat.old seat.new) }
    {
        if self.places > 0 {
            return self.emit_checked::<TRIES>(seat, words);
        }
        self.emit_once::<TRIES>(seat, words)
    }

    /// Emits by `try_emit` or by `emit`. While another emitter holds the lock bit, the thread yields. Returns whether a
    /// number was left.
    #[inline(always)]
    fn emission<R: Wait, const TRIES: bool>(
        &self,
        rt: &R,
        seat: &mut WordFlowSeat<T>,
        words: &[u64],
    ) -> bool
        requires flow { seat.old.table_id ≡ self.now.table_id }
        requires words { T.are_words words.now }
        requires width { length words.now ≡ T.WIDTH }
        ensures emitted { result ≡ true → CallsIn shared_flow self.now.first seat.old
            (emission_of TRIES (T.value_in words.now)) (emission_done TRIES) seat.new }
        ensures refused { result ≡ false → CallsIn shared_flow self.now.first seat.old
            (emission_of TRIES (T.value_in words.now)) (reply.Refused Exhausted) seat.new }
    {
        for _ in rt.forever() {
            match self.try_emission::<TRIES>(seat, words) {
                Ok(emitted) => return emitted,
                Err(is_locked) => {
                    if is_locked {
                        thread::yield_now();
                    }
                }
            }
        }
        unreachable!()
    }

    /// Emits a value, and wakes the readers that sleep. If a subscriber is a full buffer behind, it misses the oldest value
    /// of the buffer under `DropOldest`; under `DropLatest` the emitted value is dropped.
    ///
    /// No subscriber is waited for. Emitters, `subscribe`, `replay_cache` and `reset_replay_cache` wait for each other.
    ///
    /// # Errors
    /// `Exhausted` if the flow has issued as many numbers as its limit allows. The error returns the value.
    ///
    /// # Source
    /// `MutableSharedFlow.emit`.
    pub fn emit<R: Wait>(
        &self,
        rt: &R,
        seat: &mut WordFlowSeat<T>,
        value: T,
    ) -> Result<(), Refused<T>>
        requires { seat.old.table_id ≡ self.now.table_id }
        ensures called { CallsIn shared_flow self.now.first seat.old (call.Emit value)
            (replied shared_flow (λ _. reply.Emitted Done) (fault_alone result)) seat.new }
        ensures refused { IfErr result (λ refused. refused.fault ≡ Exhausted) }
        ensures handed_back { IfErr result (λ refused. refused.value ≡ value) }
    {
        let all = value.words();
        let words = kept::<T>(&all);
        if self.emission::<R, false>(rt, seat, words) {
            return Ok(());
        }
        Err(Refused {
            value: T::of_words(words),
            fault: FlowFault::Exhausted,
        })
    }

    /// Emits a value as `emit` does, and returns `true`: an emission into this flow never waits for subscribers.
    ///
    /// # Errors
    /// `Exhausted` if the flow has issued as many numbers as its limit allows. The error returns the value.
    ///
    /// # Source
    /// `MutableSharedFlow.tryEmit`.
    pub fn try_emit<R: Wait>(
        &self,
        rt: &R,
        seat: &mut WordFlowSeat<T>,
        value: T,
    ) -> Result<bool, Refused<T>>
        requires { seat.old.table_id ≡ self.now.table_id }
        ensures called { CallsIn shared_flow self.now.first seat.old (call.TryEmit value)
            (replied shared_flow reply.Tested (fault_alone result)) seat.new }
        ensures refused { IfErr result (λ refused. refused.fault ≡ Exhausted) }
        ensures handed_back { IfErr result (λ refused. refused.value ≡ value) }
    {
        let all = value.words();
        let words = kept::<T>(&all);
        if self.emission::<R, true>(rt, seat, words) {
            return Ok(true);
        }
        Err(Refused {
            value: T::of_words(words),
            fault: FlowFault::Exhausted,
        })
    }

    /// Emits a value as `emit` does if no other caller is faster; otherwise returns it with `Busy`. Under `DropLatest` a
    /// subscriber that is a full buffer behind and just leaves is faster, too.
    pub fn emit_now(&self, seat: &mut WordFlowSeat<T>, value: T) -> Result<(), Refused<T>>
        requires { seat.old.table_id ≡ self.now.table_id }
        ensures called { WordEmitsNow self.now.first seat.old value (fault_alone result) seat.new }
        ensures handed_back { IfErr result (λ refused. refused.value ≡ value) }
    {
        self.look_up(seat);
        let all = value.words();
        let words = kept::<T>(&all);
        let fault = match self.try_emission::<false>(seat, words) {
            Ok(true) => return Ok(()),
            Ok(false) => FlowFault::Exhausted,
            Err(_is_locked) => FlowFault::Busy,
        };
        Err(Refused {
            value: T::of_words(words),
            fault,
        })
    }
}
