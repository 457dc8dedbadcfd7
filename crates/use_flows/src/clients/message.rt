//! What clients ask and are answered.
ghost use Rattle.std.proofs.Common.{rules};

use flow_law::{FlowFault, FlowValue};

#[derive(Clone, Copy, Debug, PartialEq)]
pub struct Message {
    /// The number of the client, or `STOP`.
    pub client: u32,
    pub number: u64,
}

impl FlowValue for Message {
    ghost is_same = { ⟦<Message as PartialEq>⟧.eq };

    fn try_copy(&self) -> Result<Message, FlowFault> {
        Ok(*self)
    }

    fn same(&self, other: &Message) -> bool {
        *self == *other
    }

    ghost is_same_exact = { Prim.search rules };
}
