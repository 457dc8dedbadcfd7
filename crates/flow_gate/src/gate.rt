//! The gate: its seats, their meetings, and its end.
ghost use Rattle.std.specs.Prelude.{◌≡◌, [], Some, IfOk, IfErr, IfSome};
ghost use Rattle.flow_law.specs.history.Growth.{makes, child};
ghost use Rattle.flow_law.specs.history.Tokens.{knowing};
ghost use Rattle.flow_gate.specs.Tokens.{idle_seat, IsIdle, BeginsIdle, MeetsAtGate, StandsForSome, StandsAfter, HasStood};

use crate::seat::Seat;
use crate::steps::{GateRule, Look, Make, Meet, Observe, Part, Spare, StartsFrom};
use crate::view::SeatView;
use atomic_table::{Refused, Table};
use flow_law::Guarded;
use std::alloc::{AllocFailed, Allocator, Global};
use std::marker::{Brand, Model};
use std::mem;
use std::snapshot::Snapshot;

/// A lock whose state stands for a history. Each seat has seen a beginning of that history.
#[derive(Drop)]
pub struct Gate<S: Guarded, A: Allocator = Global> {
    pub(crate) table: Table<S, SeatView<S::Said>, Snapshot<S>, GateRule, A>,
}

impl<S: Guarded, A: Allocator> Model for Gate<S, A> {
    ghost use Rattle.std.specs.Prelude.{◌≡◌};
    ghost use Rattle.flow_law.specs.history.Tokens.{origin};
    ghost use Rattle.flow_gate.specs.Tokens.{GateOrigin};

    ghost Value = { GateOrigin S };

    ghost view = { λ g. origin g.table.shared.table_id g.table.shared.key.value };

    ghost invariant = { λ g.
        (g.table.shared.table_id.words ≡ 1) × (g.table.shared.table_id.slots ≡ 1) };
}

impl<S: Guarded + Drop, A: Allocator + Copy> Gate<S, A> {
    /// Makes a gate with this state, and its first seat. If memory is refused, returns the state.
    pub fn new(alloc: A, state: S) -> Result<(Gate<S, A>, Seat<S>), AllocFailed<S>>
        requires { S.stands state state [] }
        ensures made { IfOk result (BeginsIdle state) }
        ensures handed_back { IfErr result (λ failed. failed.value ≡ state) }
    {
        let first = Snapshot::of(&state);
        let mut slots = match Vec::with_capacity(alloc, 1) {
            Ok(slots) => slots,
            Err(_) => return Err(AllocFailed { value: state }),
        };
        slots.push_reserved(state);
        match Table::new(alloc, &[0], slots, &first) {
            Ok((table, seat)) => Ok((Gate { table }, Seat { seat })),
            Err(Refused { mut slots }) => Err(AllocFailed {
                value: slots.pop().unwrap(),
            }),
        }
    }

    /// Returns the state, or `None` if a caller entered and never left. It does not wait.
    ///
    /// Call it if there is no seat left; with a seat, `close_with` says more about the state.
    pub fn close(self) -> Option<S>
        ensures { IfSome result (StandsForSome S.stands self) }
    {
        let Gate { table } = self;
        let mut closed = table.close();
        let is_free = closed.word(0) == 0;
        let state = closed.take(0);
        closed.free();
        if is_free { Some(state) } else { None }
    }

    /// Closes the gate with one of its seats, and returns the state, or `None` if a caller entered and never left. The
    /// state stands for a history that begins with all that the seat has seen.
    ///
    /// Other seats of the gate are of no further use.
    pub fn close_with(self, seat: Seat<S>) -> Option<S>
        requires gate { seat.token.table_id ≡ self.table_id }
        requires idle { IsIdle seat }
        ensures { IfSome result (StandsAfter S.stands self seat.token) }
    {
        let Gate { table } = self;
        let Seat { seat } = seat;
        let mut closed = table.close_with(seat);
        let is_home = closed.word(0) == 0;
        let state = closed.take(0);
        closed.free();
        if is_home { Some(state) } else { None }
    }
}

impl<S: Guarded, A: Allocator> Gate<S, A> {
    /// Makes a seat through another one, which counts it. The new seat has seen what its maker had seen.
    pub fn seat(&self, seat: &mut Seat<S>) -> Seat<S>
        requires gate { seat.old.token.table_id ≡ self.now.table_id }
        requires idle { IsIdle seat.old }
        ensures maker { seat.new ≡ idle_seat (knowing seat.old.token (makes seat.old.token.knows)) }
        ensures made { result ≡ idle_seat (knowing seat.old.token (child seat.old.token.knows)) }
    {
        Seat {
            seat: self.table.shared.split_seat::<Make>(&mut seat.seat),
        }
    }

    /// `meet`, for the state `B.first` with which the gate began.
    fn meet_from<B: StartsFrom<S>>(&self, one: &mut Seat<S>, other: &mut Seat<S>)
        requires first { B.first ≡ Some self.now.first }
        requires gate { (one.old.token.table_id ≡ self.now.table_id) ×
            (other.old.token.table_id ≡ self.now.table_id) }
        requires idle { IsIdle one.old × IsIdle other.old }
        ensures meets { MeetsAtGate S.stands self.now
            one.old.token other.old.token one.new.token other.new.token }
        ensures idle { IsIdle one.new × IsIdle other.new }
    {
        let shared = &self.table.shared;
        // Joining takes a seat by value, so `other` has one without a token meanwhile.
        let without_token = shared.split_seat::<Spare>(&mut one.seat);
        let seat = mem::replace(&mut other.seat, without_token);
        shared.join_seat::<Meet>(&mut one.seat, seat);
        shared.load::<Observe<B>>(&mut one.seat, 0);
        other.seat = shared.split_seat::<Part>(&mut one.seat);
    }

    /// Lets two seats meet: both have then seen the history so far, which begins with what each had seen.
    ///
    /// Call it if a caller relies on what the other one did, for instance after a thread has ended.
    pub fn meet(&self, one: &mut Seat<S>, other: &mut Seat<S>)
        requires gate { (one.old.token.table_id ≡ self.now.table_id) ×
            (other.old.token.table_id ≡ self.now.table_id) }
        requires idle { IsIdle one.old × IsIdle other.old }
        ensures meets { MeetsAtGate S.stands self.now
            one.old.token other.old.token one.new.token other.new.token }
        ensures idle { IsIdle one.new × IsIdle other.new }
    {
        self.meet_from::<Brand>(one, other)
    }

    /// `look`, for the state `B.first` with which the gate began.
    fn look_from<B: StartsFrom<S>>(&self, seat: &mut Seat<S>)
        requires first { B.first ≡ Some self.now.first }
        requires gate { seat.old.token.table_id ≡ self.now.table_id }
        ensures unchanged { seat.new ≡ seat.old }
        ensures stood { HasStood S.stands self.now seat.new.token }
    {
        self.table.shared.load::<Look<B>>(&mut seat.seat, 0);
    }

    /// Proves that what the seat has seen begins a history for which some state stood. It changes nothing and does not
    /// wait.
    ///
    /// Call it if the gate was lent and nothing else is known of what its seat has seen.
    pub fn look(&self, seat: &mut Seat<S>)
        requires { seat.old.token.table_id ≡ self.now.table_id }
        ensures unchanged { seat.new ≡ seat.old }
        ensures stood { HasStood S.stands self.now seat.new.token }
    {
        self.look_from::<Brand>(seat)
    }
}
