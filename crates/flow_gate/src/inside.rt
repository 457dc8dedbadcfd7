//! What a caller inside a gate does.
ghost use Rattle.std.specs.Prelude.{◌≡◌};
ghost use Rattle.flow_law.specs.history.Growth.{adds};
ghost use Rattle.flow_law.specs.history.Tokens.{knowing};
ghost use Rattle.flow_gate.specs.Tokens.{idle_seat, StandsWith};

use crate::gate::Gate;
use crate::seat::Seat;
use crate::steps::{Adds, Leave, NamesEvents};
use flow_law::Guarded;
use std::alloc::Allocator;
use std::marker::Brand;

impl<S: Guarded> Seat<S> {
    ghost use Rattle.std.specs.Prelude.{◌≡◌, Some};
    ghost use Rattle.std.specs.Borrow.{sem};
    ghost use Rattle.flow_gate.specs.Lending.{LendsState};
    ghost use Rattle.flow_gate.specs.Tokens.{IsInside};

    /// Returns a mutable reference to the state. The state stays in its gate: entering and leaving do not move it.
    #[inline(always)]
    pub fn state<'a, A: Allocator>(&'a mut self, gate: &'a Gate<S, A>) -> &'a mut S
        requires gate { self.old.token.table_id ≡ gate.now.table_id }
        requires inside { IsInside self.old }
        ensures* writes_back { sem 𝓛 (LendsState S.row S.Said.row S.Guarded self.entry result) }
        ensures value { self.old.held ≡ Some result.now }
    {
        self.seat.slot_mut(&gate.table.shared, 0)
    }
}

impl<S: Guarded, A: Allocator> Gate<S, A> {
    /// `leave`, with the events of `W`, which may depend on the evidence if `W` is `Brand`.
    #[inline(always)]
    fn leave_adding<W: Adds<S::Said>, X>(&self, seat: &mut Seat<S>, _evidence: &X)
        requires gate { seat.old.token.table_id ≡ self.now.table_id }
        requires stands { StandsWith S.stands self.now seat.old W.adds }
        ensures { seat.new ≡ idle_seat
            (knowing seat.old.token (adds W.adds seat.old.token.knows)) }
    {
        self.table.shared.store::<Leave<W>>(&mut seat.seat, 0, 0);
    }

    /// Leaves, so that another caller may enter. The evidence says which events were added.
    #[inline(always)]
    pub fn leave<X: NamesEvents<S::Said>>(&self, seat: &mut Seat<S>, evidence: &X)
        requires gate { seat.old.token.table_id ≡ self.now.table_id }
        requires stands { StandsWith S.stands self.now seat.old
            (X.events evidence.now seat.old.token.knows) }
        ensures { seat.new ≡ idle_seat (knowing seat.old.token
            (adds (X.events evidence.now seat.old.token.knows) seat.old.token.knows)) }
    {
        self.leave_adding::<Brand, X>(seat, evidence)
    }
}
