//! Emissions into a shared core: their cases, how they wait, and how they are cancelled.
ghost use Rattle.std.specs.Prelude.{◌≡◌, ◌≢◌, ◌+◌, ◌<◌, true, false, length, IfErr, MatchResult};
ghost use Rattle.std.specs.Bool.{OnTrue};
ghost use Rattle.flow_law.specs.flow.SharedFlow as flow;
ghost use Rattle.flow_law.specs.flow.EmitRule as rule;
ghost use Rattle.flow_law.specs.flow.SharedStep as step;
ghost use Rattle.flow_law.specs.flow.Standing.{StandsFor, Conforms};
ghost use Rattle.flow_law.specs.history.Sleeping.{first_waiting};
ghost use Rattle.flow_law.specs.declared.states.SharedFlowState.{SharedFlowState};
ghost use Rattle.flow_law.specs.declared.call.SharedCall.TheVariants as call;
ghost use Rattle.flow_law.specs.declared.call.SharedReply.TheVariants as reply;
ghost use Rattle.flow_core.specs.SharedCore.{try_emit_reply, emit_reply, case_of, kept_full, pushed, dropped, MayAppend, CoreShows, Leads, Keeps, CoreReaches, IsExhausted, RefusedFor};

use super::SharedCore;
use flow_law::{Emit, FlowFault, FlowValue, Overflow, Refused};
use std::alloc::Allocator;

/// What an emission does (`BufferOverflow`).
#[derive(Clone, Copy, Debug, PartialEq, Eq)]
pub enum EmitCase {
    /// The flow takes the value at once.
    Appends,
    /// The flow has no buffer, and offers the value to its subscribers. An emitter that may wait waits.
    Offers,
    /// The flow is blocked. An emitter that may wait waits.
    Queues,
    /// The flow is blocked, and drops the value.
    DropsLatest,
    /// The flow is blocked, and takes the value. Subscribers that are a whole buffer behind lose their oldest one.
    DropsOldest,
}

impl<T: FlowValue, A: Allocator + Copy> SharedCore<T, A> {
    /// Returns what an emission would do now, if a number is left. It changes nothing.
    pub fn emission_case(&self) -> EmitCase
        ensures documented { (s : SharedFlowState T) →
            StandsFor self.now s → case_of result ≡ rule.emit_case s }
    {
        self.emit_case()
    }

    fn emit_case(&self) -> EmitCase
        ensures found { MayAppend result self.now }
        ensures shown { CoreShows self.now rule.emit_case (case_of result) }
    {
        if self.subscribers.len() == 0 {
            return EmitCase::Appends;
        }
        if !self.is_blocked() {
            if self.capacity() > 0 {
                return EmitCase::Appends;
            }
            return EmitCase::Offers;
        }
        match self.config.overflow {
            Overflow::Suspend => EmitCase::Queues,
            Overflow::DropLatest => EmitCase::DropsLatest,
            Overflow::DropOldest => EmitCase::DropsOldest,
        }
    }

    /// Emits a value while no subscriber blocks the flow, and returns its number.
    #[inline]
    fn append(&mut self, value: T) -> Result<u64, Refused<T>>
        requires free { kept_full self.old ≡ false }
        ensures { MatchResult result
            (λ number. (number ≡ self.old.issued + 1) × (self.old.issued ≢ self.old.config.limit) ×
            Keeps self.old (rule.append value) self.new)
            (λ refused. (refused.value ≡ value) ×
            (self.new ≡ self.old) × IsExhausted refused.fault self.old) }
    {
        if self.issued == self.config.limit {
            return Err(Refused {
                value,
                fault: FlowFault::Exhausted,
            });
        }
        let by_cache = self.held_from() == self.cache_start();
        let number = self.issued + 1;
        self.issued = number;
        self.push(value, number);
        self.trim_after(by_cache);
        Ok(number)
    }

    /// Emits a value, and returns its number. A subscriber that was a whole buffer behind loses the oldest emitted
    /// value that it has not received.
    fn append_dropping(&mut self, value: T) -> Result<u64, Refused<T>>
        requires full { (kept_full self.old ≡ true) ×
            (self.old.config.overflow ≡ Overflow.DropOldest) }
        ensures { MatchResult result
            (λ number. (number ≡ self.old.issued + 1) × (self.old.issued ≢ self.old.config.limit) ×
            CoreReaches self.old (λ s. rule.drop_oldest (rule.append value s)) self.new)
            (λ refused. (refused.value ≡ value) ×
            (self.new ≡ self.old) × IsExhausted refused.fault self.old) }
    {
        if self.issued == self.config.limit {
            return Err(Refused {
                value,
                fault: FlowFault::Exhausted,
            });
        }
        let number = self.issued + 1;
        self.issued = number;
        self.push_dropping(value, number);
        self.trim();
        Ok(number)
    }

    /// Appends a value. A subscriber that was a whole buffer behind loses the oldest emitted value that it has not
    /// received.
    fn push_dropping(&mut self, value: T, number: u64)
        requires full { (kept_full self.old ≡ true) ×
            (self.old.config.overflow ≡ Overflow.DropOldest) }
        requires issued { self.old.appended + length self.old.queue < self.old.issued }
        ensures { self.new ≡ dropped (pushed value number self.old) }
    {
        let _oldest = self.values.push_back(value);
        self.subscribers.add_dropping();
        self.newest = number;
    }

    /// Queues a value, and returns its number.
    fn suspend(&mut self, value: T) -> Result<u64, Refused<T>>
        ensures { MatchResult result
            (λ number. (number ≡ self.old.issued + 1) × (self.old.issued ≢ self.old.config.limit) ×
            Keeps self.old (rule.suspend value) self.new)
            (λ refused. (refused.value ≡ value) ×
            (self.new ≡ self.old) × RefusedFor refused.fault self.old) }
    {
        if self.issued == self.config.limit {
            return Err(Refused {
                value,
                fault: FlowFault::Exhausted,
            });
        }
        let number = self.issued + 1;
        match self.queue.push(value, number) {
            Ok(()) => {
                self.issued = number;
                Ok(number)
            }
            Err(value) => Err(Refused {
                value,
                fault: FlowFault::OutOfMemory,
            }),
        }
    }

    /// Emits a value if it need not wait. Returns `true` if the flow took it or, under `DropLatest`, dropped it.
    ///
    /// If `emit` would wait, drops the value, changes nothing and returns `false`. The call takes no memory, so its
    /// only error is `Exhausted`, which returns the value.
    #[inline]
    pub fn try_emit(&mut self, value: T) -> Result<bool, Refused<T>>
        ensures documented { Conforms self.old
            (call.TryEmit value) (try_emit_reply result) self.new }
        ensures handed_back { IfErr result (λ refused. refused.value ≡ value) }
    {
        match self.emit_case() {
            EmitCase::Appends => match self.append(value) {
                Ok(_number) => Ok(true),
                Err(refused) => Err(refused),
            },
            EmitCase::Offers | EmitCase::Queues => Ok(false),
            EmitCase::DropsLatest => Ok(true),
            EmitCase::DropsOldest => match self.append_dropping(value) {
                Ok(_number) => Ok(true),
                Err(refused) => Err(refused),
            },
        }
    }

    /// Emits a value, or queues it.
    ///
    /// After `Queued` the emitter waits: `poll` returns whether it still waits, and `cancel` ends the wait. An emission
    /// that is neither polled nor cancelled stays, and is emitted when there is room. Only a queued value takes memory.
    /// An error, `Exhausted` or else `OutOfMemory`, returns the value.
    #[inline]
    pub fn emit(&mut self, value: T) -> Result<Emit, Refused<T>>
        ensures documented { Conforms self.old (call.Emit value) (emit_reply result) self.new }
        ensures handed_back { IfErr result (λ refused. refused.value ≡ value) }
    {
        match self.emit_case() {
            EmitCase::Appends => match self.append(value) {
                Ok(_number) => Ok(Emit::Done),
                Err(refused) => Err(refused),
            },
            EmitCase::Offers => match self.append(value) {
                Ok(number) => Ok(Emit::Queued(number)),
                Err(refused) => Err(refused),
            },
            EmitCase::Queues => match self.suspend(value) {
                Ok(number) => Ok(Emit::Queued(number)),
                Err(refused) => Err(refused),
            },
            EmitCase::DropsLatest => Ok(Emit::Done),
            EmitCase::DropsOldest => match self.append_dropping(value) {
                Ok(_number) => Ok(Emit::Done),
                Err(refused) => Err(refused),
            },
        }
    }

    fn is_offered_as(&self, number: u64) -> bool
        ensures own { OnTrue result (self.now.config.replay + self.now.config.extra ≡ 0) }
        ensures shown { CoreShows self.now (flow.is_offered_as number) result }
    {
        self.is_offering() && self.newest == number
    }

    /// Returns whether the emission of this number still waits: its value is queued, or offered to a subscriber.
    ///
    /// `false` means that its call is done, that it was cancelled, or that no emission has this number. With a buffer,
    /// a call is done once the flow has taken its value; without one, once each subscriber has received it or left.
    pub fn poll(&self, number: u64) -> bool
        ensures documented { Conforms self.now (call.Poll number) (reply.Tested result) self.now }
    {
        self.queue.contains(number) || self.is_offered_as(number)
    }

    /// Returns the number of the first emission that waits: of the value that is offered, or of the first in the queue.
    pub fn first_waiting(&self) -> Option<u64>
        ensures first { (s : SharedFlowState T) → StandsFor self.now s → result ≡ first_waiting s }
    {
        if self.is_offering() {
            Some(self.newest)
        } else {
            self.queue.first()
        }
    }

    /// Cancels an emission, and returns whether it waited.
    ///
    /// A queued value is never emitted. An offered one is withdrawn from the subscribers that have not received it.
    pub fn cancel(&mut self, number: u64) -> bool
        ensures documented { Conforms self.old (call.Cancel number) (reply.Tested result) self.new }
    {
        let was_waiting = self.poll(number);
        self.withdraw(number);
        self.settle();
        was_waiting
    }

    /// Withdraws an emission's value.
    fn withdraw(&mut self, number: u64)
        ensures { Leads self.old (step.withdraw number) self.new }
    {
        if self.is_offered_as(number) {
            self.subscribers.gather();
        } else {
            self.queue.remove(number);
        }
    }
}
