//! A type of your own for the values of flows: a position on a grid.
ghost use Rattle.std.proofs.Common.{rules};

use flow_law::{FlowFault, FlowValue};

#[derive(Clone, Copy, Debug, PartialEq)]
pub struct Position {
    pub x: i64,
    pub y: i64,
}

impl FlowValue for Position {
    ghost is_same = { ⟦<Position as PartialEq>⟧.eq };

    fn try_copy(&self) -> Result<Position, FlowFault> {
        Ok(*self)
    }

    fn same(&self, other: &Position) -> bool {
        *self == *other
    }

    ghost is_same_exact = { Prim.search rules };
}
