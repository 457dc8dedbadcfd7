//! The one path of a call: enter the gate, call the core, leave with the event that names the call.
ghost use Rattle.std.specs.Prelude.{◌≡◌, ◌≤◌, ◌∷◌, [], ⊤, IfOk, IfErr, MatchResult, true, false};
ghost use Rattle.flow_law.specs.history.Growth.{loses};
ghost use Rattle.flow_law.specs.history.History.{MayCall};
ghost use Rattle.flow_law.specs.history.Promise.{said};
ghost use Rattle.flow_law.specs.history.Tokens.{subscription_name, knowing, IsBusy};
ghost use Rattle.flow_gate.specs.Tokens.{idle_seat, IsIdle, Finds};
ghost use Rattle.flow_shared.specs.Attended.{AttendedAs};
ghost use Rattle.flow_shared.specs.Calls.{Calls, HoldsFor, SaysIn};
ghost use Rattle.flow_shared.specs.CoreCalls.{IsSleep};

use crate::attended::Attended;
use crate::core_call::CoreCall;
use crate::flow::Flow;
use crate::token::FlowSeat;
use flow_core::{FlowCore, ReaderCalls};
use flow_gate::{Gate, NamesEvents, Seat};
use flow_law::{Guarded, Said};
use flow_sleepers::{Waiter, Wakers};
use std::alloc::Allocator;
use std::snapshot::Snapshot;
use std::sync::Wait;

/// How a call enters the gate.
pub(crate) trait Entry {
    /// The call does not wait: if another caller is inside, it is not made.
    ghost is_at_once: { Type 0 };

    /// Returns whether it entered.
    fn enter<S: Guarded, A: Allocator>(&self, gate: &Gate<S, A>, seat: &mut Seat<S>) -> bool
        requires gate { seat.old.token.table_id ≡ gate.now.table_id }
        requires idle { IsIdle seat.old }
        ensures found { result ≡ true → Finds S.stands gate.now seat.old.token seat.new }
        ensures lost { seat.old.token.knows.lost ≤ seat.new.token.knows.lost }
        ensures at_once { result ≡ true → is_at_once
            → seat.new.token.knows.lost ≡ seat.old.token.knows.lost }
        ensures busy { result ≡ false → is_at_once
            × (seat.new ≡ idle_seat (knowing seat.old.token (loses seat.old.token.knows))) };
}

/// It waits while another caller is inside.
#[derive(Drop)]
pub(crate) struct Waiting<'a, R>(pub(crate) &'a R);

impl<'a, R: Wait> Entry for Waiting<'a, R> {
    ghost is_at_once = { ⊥ };

    #[inline(always)]
    fn enter<S: Guarded, A: Allocator>(&self, gate: &Gate<S, A>, seat: &mut Seat<S>) -> bool {
        gate.enter(self.0, seat);
        true
    }
}

/// It does not wait.
#[derive(Drop)]
pub(crate) struct AtOnce;

impl Entry for AtOnce {
    ghost is_at_once = { Unit {0} };

    #[inline(always)]
    fn enter<S: Guarded, A: Allocator>(&self, gate: &Gate<S, A>, seat: &mut Seat<S>) -> bool {
        gate.try_enter(seat)
    }
}

/// A caller that does not sleep: it leaves no waker, and asks again by itself.
#[derive(Drop)]
pub(crate) struct Sleepless;

impl<A: Allocator> Waiter<A> for Sleepless {
    ghost is_armed = { λ w. ⊤ };

    ghost asks_again = { λ w. ⊤ };

    ghost keeps = { λ old new. ⊤ };

    ghost keeps_same = { λ w. tt };

    fn leave_waker(&mut self, _alloc: A, _wakers: &mut Wakers<A>) {}

    fn ask_again(&mut self) {}

    fn asks_first(&self) -> bool {
        true
    }
}

/// A call that was made, and its answer: the event with which its caller leaves.
#[derive(Drop)]
struct Called<'a, S: FlowCore, C: CoreCall<S>> {
    call: Snapshot<C>,
    answer: &'a C::Answer,
}

impl<'a, S: FlowCore, C: CoreCall<S>> NamesEvents<Said<S::Call, S::Reply>> for Called<'a, S, C> {
    ghost events = { λ e knows. said (C.call e.call.value (subscription_name knows)) (C.reply e.answer.now) ∷ [] };
}

impl<S: ReaderCalls + Drop, A: Allocator + Copy> Flow<S, A> {
    /// Makes a call. If its answer says that the caller has to wait for something, the caller sleeps. If another caller
    /// is inside and this one does not wait for that, returns the call; the caller then asks again.
    #[inline(always)]
    pub(crate) fn call_by<E: Entry, C: CoreCall<S>, W: Waiter<A>>(
        &self,
        entry: &E,
        seat: &mut FlowSeat<S, A>,
        call: C,
        waiter: &mut W,
    ) -> Result<C::Answer, C>
        requires flow { seat.old.table_id ≡ self.now.table_id }
        requires may { MayCall S.kind (C.call call (subscription_name seat.old.knows))
            seat.old.knows.name seat.old.knows.seen }
        ensures called { IfOk result (λ answer. Calls S.kind self.now seat.old
            (C.call call (subscription_name seat.old.knows)) (C.reply answer) seat.new) }
        ensures at_once { IfOk result (λ _. E.is_at_once
            → seat.new.knows.lost ≡ seat.old.knows.lost) }
        ensures also { IfOk result (C.also call) }
        ensures busy { IfErr result (λ back.
            E.is_at_once × IsBusy seat.old seat.new × (back ≡ call)) }
        ensures armed { MatchResult result
            (λ answer. IsSleep (C.then call answer) → W.is_armed waiter.new)
            (λ _. W.is_armed waiter.new) }
        ensures kept { W.keeps waiter.old waiter.new }
    {
        if !entry.enter(&self.gate, &mut seat.seat) {
            waiter.ask_again();
            return Err(call);
        }
        let state = seat.seat.state(&self.gate);
        if !state.is_alone() {
            return Ok(self.call_and_wake(&mut seat.seat, call, waiter));
        }
        let made = Snapshot::of(&call);
        let answer = state.call_alone(call, waiter);
        self.gate.leave(
            &mut seat.seat,
            &Called::<S, C> {
                call: made,
                answer: &answer,
            },
        );
        Ok(answer)
    }

    /// Makes a call as `call_by` does. It waits while another caller is inside.
    #[inline(always)]
    pub(crate) fn call<R: Wait, C: CoreCall<S>, W: Waiter<A>>(
        &self,
        rt: &R,
        seat: &mut FlowSeat<S, A>,
        call: C,
        waiter: &mut W,
    ) -> C::Answer
        requires flow { seat.old.table_id ≡ self.now.table_id }
        requires may { MayCall S.kind (C.call call (subscription_name seat.old.knows))
            seat.old.knows.name seat.old.knows.seen }
        ensures called { Calls S.kind self.now seat.old
            (C.call call (subscription_name seat.old.knows)) (C.reply result) seat.new }
        ensures also { C.also call result }
        ensures armed { IsSleep (C.then call result) → W.is_armed waiter.new }
        ensures kept { W.keeps waiter.old waiter.new }
    {
        match self.call_by(&Waiting(rt), seat, call, waiter) {
            Ok(answer) => answer,
            Err(_call) => unreachable!(),
        }
    }

    /// Makes the call of a caller inside while others sleep, leaves, and wakes those that have something now. This is a
    /// separate function, so that a call while no caller sleeps saves no registers for it.
    #[cold]
    #[inline(never)]
    fn call_and_wake<C: CoreCall<S>, W: Waiter<A>>(
        &self,
        seat: &mut Seat<Attended<S, A>>,
        call: C,
        waiter: &mut W,
    ) -> C::Answer
        requires flow { seat.old.token.table_id ≡ self.now.table_id }
        requires stood { HoldsFor S.kind (AttendedAs S.sleeping S.stands_as)
            self.now.first seat.old }
        requires may { MayCall S.kind (C.call call (subscription_name seat.old.token.knows))
            seat.old.token.knows.name seat.old.token.knows.seen }
        ensures said { SaysIn S.kind self.now.first seat.old.token
            (C.call call (subscription_name seat.old.token.knows)) (C.reply result) seat.new }
        ensures also { C.also call result }
        ensures armed { IsSleep (C.then call result) → W.is_armed waiter.new }
        ensures kept { W.keeps waiter.old waiter.new }
    {
        let made = Snapshot::of(&call);
        let state = seat.state(&self.gate);
        let mut woken = state.none_to_wake();
        let answer = state.call_among_sleepers(call, waiter, &mut woken);
        self.gate.leave(
            seat,
            &Called::<S, C> {
                call: made,
                answer: &answer,
            },
        );
        woken.wake();
        answer
    }
}
