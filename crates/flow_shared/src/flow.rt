//! A flow of any kind for several threads.
ghost use Rattle.std.specs.Prelude.{◌≡◌, IfOk, IfErr, IfSome};
ghost use Rattle.flow_law.specs.history.History.{IsHistory};
ghost use Rattle.flow_law.specs.history.Growth.{makes, child};
ghost use Rattle.flow_law.specs.history.RealTime.{IsTimed};
ghost use Rattle.flow_law.specs.history.Tokens.{Begins, knowing};
ghost use Rattle.flow_law.specs.declared.fault.FlowFault.TheVariants.{OutOfMemory};
ghost use Rattle.flow_shared.specs.Calls.{ClosesAs, Meets};

use crate::attended::Attended;
use crate::token::{FlowSeat, FlowSubscription};
use flow_core::FlowCore;
use flow_gate::Gate;
use flow_law::FlowFault;
use std::alloc::{Allocator, Global};
use std::marker::Model;
use std::sync::atomic::AtomicU64;

/// A flow for callers on several threads.
pub struct Flow<S: FlowCore, A: Allocator + Copy = Global> {
    pub(crate) gate: Gate<Attended<S, A>, A>,
    /// How many watchers were made.
    pub(crate) watchers: AtomicU64,
}

// Not derived: each crate that drops a flow would have to prove again how its gate is dropped.
impl<S: FlowCore + Drop, A: Allocator + Copy> Drop for Flow<S, A> {
    fn drop(self) {
        let Self {
            gate: _,
            watchers: _,
        } = self;
    }
}

impl<S: FlowCore, A: Allocator + Copy> Model for Flow<S, A> {
    ghost use Rattle.flow_law.specs.history.Tokens.{origin};
    ghost use Rattle.flow_gate.specs.Tokens.{GateOrigin};

    ghost Value = { GateOrigin S.State };

    ghost view = { λ f. origin f.gate.table_id (S.first f.gate.first.core) };
}

impl<S: FlowCore + Drop, A: Allocator + Copy> Flow<S, A> {
    /// Puts a core behind a gate, and makes the first seat. The only error is `OutOfMemory`.
    pub(crate) fn begin(alloc: A, core: S) -> Result<(Flow<S, A>, FlowSeat<S, A>), FlowFault>
        requires may { S.kind.MayBegin (S.first core) }
        requires stands { S.stands_as core (S.first core) }
        ensures begun { IfOk result (Begins (S.first core)) }
        ensures memory { IfErr result (λ fault. fault ≡ OutOfMemory) }
    {
        match Gate::new(alloc, Attended::new(alloc, core)) {
            Ok((gate, seat)) => {
                let watchers = AtomicU64::new(0);
                Ok((Flow { gate, watchers }, FlowSeat { seat }))
            }
            Err(_failed) => Err(FlowFault::OutOfMemory),
        }
    }

    /// Makes a seat through another one. Call it for each thread, before the thread starts, or for one more emission
    /// that may wait.
    ///
    /// The new seat has seen what its maker had seen, and has a name of its own. After it is dropped, no call is made
    /// under its name; the flow does not change.
    pub fn seat(&self, seat: &mut FlowSeat<S, A>) -> FlowSeat<S, A>
        requires { seat.old.table_id ≡ self.now.table_id }
        ensures maker { seat.new ≡ knowing seat.old (makes seat.old.knows) }
        ensures made { result ≡ knowing seat.old (child seat.old.knows) }
    {
        FlowSeat {
            seat: self.gate.seat(&mut seat.seat),
        }
    }

    /// Makes a seat through the seat of a subscription.
    pub(crate) fn seat_by(&self, subscription: &mut FlowSubscription<S, A>) -> FlowSeat<S, A>
        requires { subscription.old.token.table_id ≡ self.now.table_id }
        ensures maker { subscription.new.token
            ≡ knowing subscription.old.token (makes subscription.old.token.knows) }
        ensures number { subscription.new.number ≡ subscription.old.number }
        ensures made { result ≡
            knowing subscription.old.token (child subscription.old.token.knows) }
    {
        self.seat(&mut subscription.seat)
    }

    /// Lets two seats meet: both have then seen the same history, which has all calls so far. It makes no call of
    /// the flow and does not wait.
    ///
    /// Call it if a caller relies on what the other one did, for instance after a thread has ended and returned its
    /// seat.
    pub fn meet(&self, one: &mut FlowSeat<S, A>, other: &mut FlowSeat<S, A>)
        requires { (one.old.table_id ≡ self.now.table_id) ×
            (other.old.table_id ≡ self.now.table_id) }
        ensures { Meets S.kind self.now one.old other.old one.new other.new }
    {
        self.gate.meet(&mut one.seat, &mut other.seat);
    }

    /// Lets a subscription and a seat meet, as `meet` does.
    pub fn meet_subscription(
        &self,
        subscription: &mut FlowSubscription<S, A>,
        seat: &mut FlowSeat<S, A>,
    )
        requires { (subscription.old.token.table_id ≡ self.now.table_id)
            × (seat.old.table_id ≡ self.now.table_id) }
        ensures met { Meets S.kind self.now
            subscription.old.token seat.old subscription.new.token seat.new }
        ensures number { subscription.new.number ≡ subscription.old.number }
    {
        self.meet(&mut subscription.seat, seat);
    }

    /// Proves that what the seat has seen is a history of the flow. It makes no call and does not wait.
    pub(crate) fn look(&self, seat: &mut FlowSeat<S, A>)
        requires { seat.old.table_id ≡ self.now.table_id }
        ensures unchanged { seat.new ≡ seat.old }
        ensures history { IsHistory S.kind self.now.first seat.new.knows.seen }
        ensures timed { IsTimed seat.new.knows.seen }
    {
        self.gate.look(&mut seat.seat);
    }

    /// Ends the flow, and returns its core: a flow for one thread, in the state to which all calls so far led. Returns
    /// `None` only if a caller that was inside never left.
    ///
    /// It adds no event to the history, does not wait and takes no memory. Call it when all threads have ended; the
    /// core also has what calls of other seats did. Other seats, subscriptions and emissions are of no further use.
    pub fn close(self, seat: FlowSeat<S, A>) -> Option<S>
        requires { seat.table_id ≡ self.table_id }
        ensures { IfSome result (ClosesAs S.kind self S.stands_as seat) }
    {
        let Self { gate, watchers: _ } = self;
        match gate.close_with(seat.into_inner()) {
            Some(state) => Some(state.into_core()),
            None => None,
        }
    }
}
