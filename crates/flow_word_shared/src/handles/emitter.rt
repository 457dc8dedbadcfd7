//! A seat that is bound to its flow.
ghost use Rattle.std.specs.Prelude.{◌≡◌, ℕ, [], IfOk, IfErr};
ghost use Rattle.std.specs.Arc.{arc_value};
ghost use Rattle.flow_law.specs.declared.call.SharedCall.TheVariants as call;
ghost use Rattle.flow_law.specs.declared.call.SharedReply.TheVariants as reply;
ghost use Rattle.flow_law.specs.declared.config.Overflow.TheVariants.{DropOldest};
ghost use Rattle.flow_law.specs.declared.errors.NumberError.TheVariants as number;
ghost use Rattle.flow_law.specs.declared.outcome.Emit.TheVariants.{Done};
ghost use Rattle.flow_law.specs.history.Growth.{makes, child};
ghost use Rattle.flow_law.specs.history.HandleFaults.{answer_by, handed_by, busy_fault, limit_fault, number_fault, memory_fault};
ghost use Rattle.flow_law.specs.history.Handles.{called_by, SubscribesBound};
ghost use Rattle.flow_law.specs.history.History.{IsHistory, replied, fault_alone};
ghost use Rattle.flow_law.specs.laws.Lagging.{EachLags};
ghost use Rattle.flow_law.specs.laws.Laws.{Delivers, NoIdleQueue};
ghost use Rattle.flow_law.specs.history.Promise.{CallsIn, CallsAtOnceIn};
ghost use Rattle.flow_law.specs.history.RealTime.{InRealTime};
ghost use Rattle.flow_law.specs.laws.Replaying.{EachReplays};
ghost use Rattle.flow_law.specs.flow.SharedHistory.{shared_flow, state_after};
ghost use Rattle.flow_law.specs.history.Tokens.{MeetsIn, knowing};
ghost use Rattle.flow_law.specs.laws.Waiting.{EachWaits};
ghost use Rattle.flow_word_shared.specs.Answers.{WordEmitsNow, WordResetsNow};

use super::reader::WordFlowReader;
use crate::token::{WordFlow, WordFlowSeat};
use flow_law::{Busy, Exhausted, FlowFault, NumberError, OutOfMemory, Refused, Rejected, Words};
use flow_sleepers::one_more_owner;
use std::alloc::Global;
use std::marker::Model;
use std::sync::{Arc, Wait};

/// A seat, and its flow. Contracts see both.
///
/// # Dropping
/// Dropping it drops its seat: no call is made under its name any more, and the flow does not change. The last handle
/// drops the flow.
pub struct WordEmitter<T: Words> {
    pub(crate) flow: Arc<WordFlow<T>>,
    pub(crate) seat: WordFlowSeat<T>,
}

// Not derived, for the reason given at `WordFlowSeat`.
impl<T: Words> Drop for WordEmitter<T> {
    fn drop(self) {
        let Self { flow: _, seat: _ } = self;
    }
}

impl<T: Words> Model for WordEmitter<T> {
    ghost use Rattle.std.specs.Prelude.{◌≡◌};
    ghost use Rattle.std.specs.Arc.{arc_value};
    ghost use Rattle.flow_law.specs.history.Handles.{called_by};
    ghost use Rattle.flow_word_shared.specs.Handles.{WordFlowCallerOf};

    ghost Value = { WordFlowCallerOf T };

    ghost view = { λ c. called_by (arc_value c.flow) c.seat };

    ghost invariant = { λ c. c.seat.table_id ≡ (arc_value c.flow).table_id };
}

impl<T: Words> WordFlow<T> {
    /// Binds a seat to its flow, and puts the flow into memory that its handles own together: dropping the last one
    /// drops the flow. `another` and `subscribe` make more of them.
    ///
    /// # Errors
    /// `OutOfMemory`. The flow and the seat are dropped.
    pub fn into_emitter(
        self,
        alloc: Global,
        seat: WordFlowSeat<T>,
    ) -> Result<WordEmitter<T>, OutOfMemory>
        requires { seat.table_id ≡ self.table_id }
        ensures { IfOk result (λ emitter. emitter ≡ called_by self seat) }
    {
        match Arc::new(alloc, self) {
            Ok(flow) => Ok(WordEmitter::new(flow, seat)),
            Err(_failed) => Err(OutOfMemory),
        }
    }
}

impl<T: Words> WordEmitter<T> {
    /// Binds a seat to its flow.
    pub fn new(flow: Arc<WordFlow<T>>, seat: WordFlowSeat<T>) -> WordEmitter<T>
        requires { seat.table_id ≡ (arc_value flow).table_id }
        ensures { result ≡ called_by (arc_value flow) seat }
    {
        WordEmitter { flow, seat }
    }

    /// Makes one more caller through this one. Call it for each thread, before the thread starts. It waits while the flow
    /// has 2^63 owners.
    pub fn another<R: Wait>(&mut self, rt: &R) -> WordEmitter<T>
        ensures flow { (self.new.flow ≡ self.old.flow) × (result.flow ≡ self.old.flow) }
        ensures maker { self.new.token ≡ knowing self.old.token (makes self.old.token.knows) }
        ensures made { result.token ≡ knowing self.old.token (child self.old.token.knows) }
    {
        let flow = one_more_owner(rt, &self.flow);
        let made = self.flow.seat(&mut self.seat);
        WordEmitter::new(flow, made)
    }

    /// Subscribes. The reader receives the replay cache first.
    ///
    /// # Errors
    /// `Exhausted` if the flow has issued as many numbers as its limit allows. Under `DropLatest` `OutOfMemory` if no place
    /// is free.
    pub fn subscribe<R: Wait>(&mut self, rt: &R) -> Result<WordFlowReader<T>, NumberError>
        ensures flow { self.new.flow ≡ self.old.flow }
        ensures subscribed { SubscribesBound shared_flow (λ name. call.Subscribe name []) self.old
            (answer_by number_fault result) self.new.token }
        ensures exhausted { self.old.flow.first.config.overflow ≡ DropOldest →
            IfErr result (λ error. error ≡ number.Exhausted) }
    {
        let flow = one_more_owner(rt, &self.flow);
        match self.flow.subscribe(rt, &mut self.seat) {
            Ok(subscription) => Ok(WordFlowReader::new(flow, subscription)),
            Err(FlowFault::OutOfMemory) => Err(NumberError::OutOfMemory),
            Err(_exhausted) => Err(NumberError::Exhausted),
        }
    }

    /// Emits a value, and wakes the readers that sleep: no reader is waited for. If a reader is a full buffer behind, it
    /// misses the oldest value of the buffer under `DropOldest`; under `DropLatest` the emitted value is dropped.
    ///
    /// # Errors
    /// `Exhausted` if the flow has issued as many numbers as its limit allows. The error returns the value.
    ///
    /// # Source
    /// `MutableSharedFlow.emit`.
    pub fn emit<R: Wait>(&mut self, rt: &R, value: T) -> Result<(), Rejected<T, Exhausted>>
        ensures flow { self.new.flow ≡ self.old.flow }
        ensures called { CallsIn shared_flow self.old.flow.first self.old.token (call.Emit value)
            (replied shared_flow (λ _. reply.Emitted Done)
            (fault_alone (handed_by limit_fault result))) self.new.token }
        ensures handed_back { IfErr result (λ rejected. rejected.value ≡ value) }
    {
        match self.flow.emit(rt, &mut self.seat, value) {
            Ok(()) => Ok(()),
            Err(Refused { value, fault: _ }) => Err(Rejected {
                value,
                error: Exhausted,
            }),
        }
    }

    /// Emits a value as `emit` does, and returns `true`: an emission into this flow never waits for readers.
    ///
    /// # Errors
    /// `Exhausted` if the flow has issued as many numbers as its limit allows. The error returns the value.
    ///
    /// # Source
    /// `MutableSharedFlow.tryEmit`.
    pub fn try_emit<R: Wait>(&mut self, rt: &R, value: T) -> Result<bool, Rejected<T, Exhausted>>
        ensures flow { self.new.flow ≡ self.old.flow }
        ensures called { CallsIn shared_flow self.old.flow.first self.old.token (call.TryEmit value)
            (replied shared_flow reply.Tested (fault_alone (handed_by limit_fault result)))
            self.new.token }
        ensures handed_back { IfErr result (λ rejected. rejected.value ≡ value) }
    {
        match self.flow.try_emit(rt, &mut self.seat, value) {
            Ok(taken) => Ok(taken),
            Err(Refused { value, fault: _ }) => Err(Rejected {
                value,
                error: Exhausted,
            }),
        }
    }

    /// Emits a value as `emit` does if no other caller is faster; otherwise returns it with `Busy`. Under `DropLatest` a
    /// reader that is a full buffer behind and just leaves is faster, too.
    pub fn emit_now(&mut self, value: T) -> Result<(), Refused<T>>
        ensures flow { self.new.flow ≡ self.old.flow }
        ensures called { WordEmitsNow self.old.flow.first self.old.token value
            (fault_alone result) self.new.token }
        ensures handed_back { IfErr result (λ refused. refused.value ≡ value) }
    {
        self.flow.emit_now(&mut self.seat, value)
    }

    /// Returns the replay cache: copies of at most `replay` values.
    ///
    /// # Errors
    /// `OutOfMemory` if the cache has values and there is no memory for the list.
    pub fn replay_cache<R: Wait>(&mut self, rt: &R) -> Result<Vec<T, Global>, OutOfMemory>
        ensures flow { self.new.flow ≡ self.old.flow }
        ensures called { CallsIn shared_flow self.old.flow.first self.old.token call.ReplayCache
            (replied shared_flow (λ values. reply.Cached values.items)
            (answer_by memory_fault result)) self.new.token }
    {
        match self.flow.replay_cache(rt, &mut self.seat) {
            Ok(values) => Ok(values),
            Err(_fault) => Err(OutOfMemory),
        }
    }

    /// Empties the replay cache. Present readers still receive the values that they have not received.
    pub fn reset_replay_cache<R: Wait>(&mut self, rt: &R)
        ensures flow { self.new.flow ≡ self.old.flow }
        ensures called { CallsIn shared_flow self.old.flow.first self.old.token
            call.ResetReplayCache reply.Reset self.new.token }
    {
        self.flow.reset_replay_cache(rt, &mut self.seat);
    }

    /// Empties the replay cache if no other caller is faster; otherwise returns `Busy`.
    pub fn try_reset_replay_cache(&mut self) -> Result<(), Busy>
        ensures flow { self.new.flow ≡ self.old.flow }
        ensures called { WordResetsNow self.old.flow.first self.old.token
            (answer_by busy_fault result) self.new.token }
    {
        match self.flow.reset_now(&mut self.seat) {
            Ok(()) => Ok(()),
            Err(_busy) => Err(Busy),
        }
    }

    /// Counts the subscribers. A subscription whose token was dropped still counts; one whose handle was dropped has
    /// ended.
    pub fn subscription_count(&mut self) -> u64
        ensures flow { self.new.flow ≡ self.old.flow }
        ensures counted { CallsAtOnceIn shared_flow self.old.flow.first self.old.token
            call.SubscriptionCount (reply.Counted result) self.new.token }
    {
        self.flow.subscription_count(&mut self.seat)
    }

    /// Joins what two callers of one flow have seen: afterwards both have seen the same history, with all calls so far.
    pub fn meet(&mut self, other: &mut WordEmitter<T>)
        requires { other.old.flow.table_id ≡ self.old.flow.table_id }
        ensures flow { (self.new.flow ≡ self.old.flow) × (other.new.flow ≡ other.old.flow) }
        ensures met { MeetsIn shared_flow self.old.flow.first self.old.token other.old.token
            self.new.token other.new.token }
    {
        self.flow.meet(&mut self.seat, &mut other.seat);
    }

    /// Joins what a caller and a reader of one flow have seen, as `meet` does.
    pub fn meet_reader(&mut self, reader: &mut WordFlowReader<T>)
        requires { reader.old.flow.table_id ≡ self.old.flow.table_id }
        ensures flow { (self.new.flow ≡ self.old.flow) × (reader.new.flow ≡ reader.old.flow) }
        ensures met { MeetsIn shared_flow self.old.flow.first
            reader.old.subscription.token self.old.token
            reader.new.subscription.token self.new.token }
        ensures number { reader.new.subscription.number ≡ reader.old.subscription.number }
    {
        self.flow
            .meet_subscription(&mut reader.subscription, &mut self.seat);
    }

    /// Proves the laws of shared flows for what the caller has seen. It makes no call of the flow and changes nothing.
    pub fn seen(&mut self)
        ensures unchanged { self.new ≡ self.old }
        ensures history { IsHistory shared_flow self.new.flow.first self.new.token.knows.seen }
        ensures in_real_time { InRealTime self.new.token.knows.seen }
        ensures delivered { (u : ℕ) →
            Delivers u self.new.flow.first.config self.new.token.knows.seen }
        ensures no_idle_queue { NoIdleQueue
            (state_after self.new.flow.first.config self.new.token.knows.seen) }
        ensures admitted { EachWaits self.new.flow.first.config self.new.token.knows.seen }
        ensures lagged { EachLags self.new.flow.first.config self.new.token.knows.seen }
        ensures replayed { EachReplays self.new.flow.first.config self.new.token.knows.seen }
    {
        self.flow.seen(&mut self.seat);
    }

    /// Returns the seat, for the flow's own calls.
    pub fn into_seat(self) -> WordFlowSeat<T>
        ensures token { result ≡ self.token }
        ensures flow { result.table_id ≡ self.flow.table_id }
    {
        let WordEmitter { flow: _, seat } = self;
        seat
    }
}
