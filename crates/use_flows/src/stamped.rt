//! A generic value of flows: a value, and when it came.
ghost use Rattle.std.specs.Prelude.{◌&&◌, nat_eq};
ghost use Rattle.std.proofs.Common.{rules};

use flow_core::StateCore;
use flow_law::{FlowFault, FlowValue};
use std::alloc::Global;

/// A value, and the second in which it came.
#[derive(Drop)]
pub struct Stamped<T: FlowValue> {
    pub at: u64,
    pub value: T,
}

impl<T: FlowValue> FlowValue for Stamped<T> {
    ghost is_same = { λ x y. nat_eq x.at y.at && T.is_same x.value y.value };

    fn try_copy(&self) -> Result<Stamped<T>, FlowFault> {
        let value = self.value.try_copy()?;
        Ok(Stamped { at: self.at, value })
    }

    fn same(&self, other: &Stamped<T>) -> bool {
        self.at == other.at && self.value.same(&other.value)
    }

    ghost is_same_exact = { Prim.search rules };
}

/// Returns when the newest temperature came.
pub fn newest_at(alloc: Global) -> Result<u64, FlowFault> {
    let mut flow = StateCore::new(
        alloc,
        Stamped {
            at: 0,
            value: 18i64,
        },
        u64::MAX,
    );
    flow.set(Stamped { at: 5, value: 21 });
    Ok(flow.value()?.at)
}
