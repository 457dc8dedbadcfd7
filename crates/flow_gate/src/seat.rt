//! The seats of a gate.
ghost use Rattle.flow_gate.specs.Tokens.{IsIdle};

use crate::view::SeatView;
use flow_law::Guarded;
use std::marker::Model;

/// A seat at a gate, by which a caller may enter. Contracts see its token (its gate, its name, its counts and the
/// history that it has seen) and, while its caller is inside, the state that it holds.
///
/// A seat has no `Drop`: a caller that entered has to leave before its seat ends.
pub struct Seat<S: Guarded> {
    pub(crate) seat: atomic_table::Seat<S, SeatView<S::Said>>,
}

impl<S: Guarded> Model for Seat<S> {
    ghost use Rattle.flow_gate.specs.Tokens.{SeatState};
    ghost use Rattle.flow_gate.specs.Seats.{seat_state, IsIdleOrInside};

    ghost Value = { SeatState S S.Said };

    ghost view = { λ s. seat_state s.seat };

    ghost invariant = { λ s. IsIdleOrInside s.seat };
}

impl<S: Guarded> Seat<S> {
    /// Ends the seat. No call is made under its name any more; other seats are not affected.
    #[inline]
    pub fn end(self)
        requires { IsIdle self }
    {
        let Seat { seat: _ } = self;
    }
}
