//! What calls of a shared flow do to the state that the checker keeps.
ghost use Rattle.std.specs.Prelude.{◌≡◌, ◌<◌, IfOk, OnOk, IsTrue, IsFalse, map, filter, length};
ghost use Rattle.std.specs.Prelude.{not, ◌==◌};
ghost use Rattle.flow_check.specs.SharedMachine.{raised, cleared, with_lag, with_own_kept, append_kept};
ghost use Rattle.flow_check.specs.SharedMachine.{settle_kept, trim, emit_in_kept, try_emit_in_kept, kept_emit_case};
ghost use Rattle.flow_check.specs.SharedMachine.{withdraw_kept, cancel_kept, receive, made_kept};

use crate::shared_calls::SharedOperation;
use crate::shared_machine::{EmitCase, Held, Own, SharedMachine, last_values, most_lag};
use std::alloc::{AllocError, Global};

/// Copies the lags after one more value was emitted; none becomes greater than the window.
fn raised(
    alloc: Global,
    lags: &[Option<usize>],
    window: usize,
) -> Result<Vec<Option<usize>>, AllocError>
    ensures { IfOk result (λ copy. copy.items ≡ map (raised window) lags.now) }
{
    let mut copy = Vec::new(alloc);
    for lag in lags {
        copy.push(match lag {
            None => None,
            Some(lag) => Some(lag.saturating_add(1).min(window)),
        })?;
    }
    Ok(copy)
}

/// Copies the lags after the offered value was withdrawn: no subscriber has an emitted value to receive.
fn cleared(alloc: Global, lags: &[Option<usize>]) -> Result<Vec<Option<usize>>, AllocError>
    ensures { IfOk result (λ copy. copy.items ≡ map cleared lags.now) }
{
    let mut copy = Vec::new(alloc);
    for lag in lags {
        copy.push(match lag {
            None => None,
            Some(_) => Some(0),
        })?;
    }
    Ok(copy)
}

/// Copies the queue without the values of this caller.
fn without(alloc: Global, queue: &[Held], caller: usize) -> Result<Vec<Held>, AllocError>
    ensures { IfOk result (λ copy.
        copy.items ≡ filter (λ held. not (held.caller == caller)) queue.now) }
{
    let mut copy = Vec::new(alloc);
    let mut rest = queue;
    while let Some((first, others)) = rest.split_first() {
        if first.caller != caller {
            copy.push(*first)?;
        }
        rest = others;
    }
    Ok(copy)
}

impl SharedMachine {
    /// Emits a caller's value. Without a buffer it is offered to the subscribers.
    fn append(&mut self, alloc: Global, caller: usize, value: u64) -> Result<(), AllocError>
        ensures { OnOk result (self.new ≡ append_kept caller value self.old) }
    {
        let lags = raised(alloc, self.lags.as_slice(), self.window())?;
        self.values.push(value)?;
        let cached = self.cached.saturating_add(1);
        self.cached = cached.min(self.config.replay as usize);
        self.lags = lags;
        self.offered = if self.capacity() == 0 {
            Some(caller)
        } else {
            None
        };
        Ok(())
    }

    /// Emits the first queued value, if there is one and the flow is not blocked. Returns whether it
    /// did.
    #[tactic(auto, using(crate::proofs::QueueLemmas::admitted_first, crate::proofs::QueueLemmas::settled_blocked, crate::proofs::QueueLemmas::settled_empty))]
    fn admit(&mut self, alloc: Global) -> Result<bool, AllocError>
        ensures settled { IfOk result (λ more. settle_kept self.new ≡ settle_kept self.old) }
        ensures fewer { IfOk result (λ more.
            IsTrue more → length self.new.queue < length self.old.queue) }
        ensures last { IfOk result (λ more. IsFalse more → self.new ≡ settle_kept self.old) }
    {
        if self.is_blocked() {
            return Ok(false);
        }
        let Some((first, rest)) = self.queue.as_slice().split_first() else {
            return Ok(false);
        };
        let held = *first;
        let queue = Vec::from_slice(alloc, rest)?;
        self.queue = queue;
        self.append(alloc, held.caller, held.value)?;
        Ok(true)
    }

    /// Emits the queued values until the flow is blocked.
    fn settle(&mut self, alloc: Global) -> Result<(), AllocError>
        ensures { OnOk result (self.new ≡ settle_kept self.old) }
    {
        while self.admit(alloc)? {}
        Ok(())
    }

    /// Drops the values that can be neither received nor replayed, and an offer that no subscriber has still to
    /// receive.
    fn trim(&mut self, alloc: Global) -> Result<(), AllocError>
        ensures { OnOk result (self.new ≡ trim self.old) }
    {
        let needed = most_lag(self.lags.as_slice()).max(self.cached);
        let values = Vec::from_slice(alloc, last_values(self.values.as_slice(), needed))?;
        self.values = values;
        self.offered = self.offering();
        Ok(())
    }

    fn emit(&mut self, alloc: Global, held: Held, case: EmitCase) -> Result<(), AllocError>
        ensures { OnOk result (self.new ≡ emit_in_kept case held.caller held.value self.old) }
    {
        match case {
            EmitCase::Appends | EmitCase::Offers | EmitCase::DropsOldest => {
                self.append(alloc, held.caller, held.value)
            }
            EmitCase::Queues => {
                self.queue.push(held)?;
                Ok(())
            }
            EmitCase::DropsLatest => Ok(()),
        }
    }

    fn try_emit(&mut self, alloc: Global, held: Held, case: EmitCase) -> Result<(), AllocError>
        ensures { OnOk result (self.new ≡ try_emit_in_kept case held.caller held.value self.old) }
    {
        match case {
            EmitCase::Appends | EmitCase::DropsOldest => {
                self.append(alloc, held.caller, held.value)
            }
            EmitCase::Offers | EmitCase::Queues | EmitCase::DropsLatest => Ok(()),
        }
    }

    /// Withdraws the caller's value: subscribers that have not received an offered one miss it, and a
    /// queued one is dropped.
    fn withdraw(&mut self, alloc: Global, caller: usize) -> Result<(), AllocError>
        ensures { OnOk result (self.new ≡ withdraw_kept caller self.old) }
    {
        if self.is_offering(caller) {
            let lags = cleared(alloc, self.lags.as_slice())?;
            self.lags = lags;
        } else {
            let queue = without(alloc, self.queue.as_slice(), caller)?;
            self.queue = queue;
        }
        Ok(())
    }

    fn cancel(&mut self, alloc: Global, caller: usize) -> Result<(), AllocError>
        ensures { OnOk result (self.new ≡ cancel_kept caller self.old) }
    {
        if !self.is_waiting(caller) {
            return Ok(());
        }
        self.withdraw(alloc, caller)?;
        self.settle(alloc)
    }

    fn set_lag(&mut self, caller: usize, lag: Option<usize>)
        ensures { self.new ≡ with_lag caller lag self.old }
    {
        if caller < self.lags.len() {
            self.lags[caller] = lag;
        }
    }

    fn set_own(&mut self, caller: usize, own: Own)
        ensures { self.new ≡ with_own_kept caller own self.old }
    {
        if caller < self.owns.len() {
            self.owns[caller] = own;
        }
    }

    /// Takes the first of the caller's own values, or the next emitted one if none is left.
    fn receive(&mut self, alloc: Global, caller: usize) -> Result<(), AllocError>
        ensures { OnOk result (self.new ≡ receive caller self.old) }
    {
        if let Some((_value, rest)) = self.own(caller).split_first() {
            let own = Own::new(alloc, rest)?;
            self.set_own(caller, own);
            return Ok(());
        }
        let Some(lag) = self.lag(caller) else {
            return Ok(());
        };
        if lag == 0 {
            return Ok(());
        }
        self.set_lag(caller, Some(lag - 1));
        self.settle(alloc)
    }

    /// Makes a call that has the flow's own answer.
    fn make_call(
        &mut self,
        alloc: Global,
        caller: usize,
        operation: SharedOperation<'_>,
    ) -> Result<(), AllocError>
        ensures { OnOk result (self.new ≡ made_kept caller operation.entry self.old) }
    {
        match operation {
            SharedOperation::TryEmit(value) => {
                let case = self.emit_case();
                self.try_emit(alloc, Held { caller, value }, case)
            }
            SharedOperation::Emit(value) | SharedOperation::EmitOrNot(value) => {
                let case = self.emit_case();
                self.emit(alloc, Held { caller, value }, case)
            }
            SharedOperation::EmitCancelled => self.cancel(alloc, caller),
            SharedOperation::Subscribe(values) => {
                let own = Own::new(alloc, values)?;
                let lag = self.first_lag();
                self.set_lag(caller, Some(lag));
                self.set_own(caller, own);
                Ok(())
            }
            SharedOperation::Next => self.receive(alloc, caller),
            SharedOperation::Unsubscribe => {
                let own = Own::new(alloc, &[])?;
                self.set_lag(caller, None);
                self.set_own(caller, own);
                self.settle(alloc)
            }
            SharedOperation::ResetReplayCache => {
                self.cached = 0;
                Ok(())
            }
            SharedOperation::EmitReturned
            | SharedOperation::ReplayCache
            | SharedOperation::SubscriptionCount => Ok(()),
        }
    }

    /// Makes a call that has the flow's own answer, and brings the state into its normal form.
    pub fn make(
        &mut self,
        alloc: Global,
        caller: usize,
        operation: SharedOperation<'_>,
    ) -> Result<(), AllocError>
        ensures { OnOk result (self.new ≡ trim (made_kept caller operation.entry self.old)) }
    {
        self.make_call(alloc, caller, operation)?;
        self.trim(alloc)
    }
}
