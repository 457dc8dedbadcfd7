//! Booleans as values of flows.
ghost use Rattle.std.specs.Bool.{beq};
ghost use Rattle.std.specs.Prelude.{◌≡◌, Ok, ⊤};
ghost use Rattle.flow_law.specs.flow.Values.{truth_exact};

use super::FlowValue;
use crate::fault::FlowFault;

impl FlowValue for bool {
    ghost is_same = { beq };

    ghost IsAlwaysCopied = { ⊤ };

    fn try_copy(&self) -> Result<bool, FlowFault>
        ensures given { result ≡ Ok self.now }
    {
        Ok(*self)
    }

    fn same(&self, other: &bool) -> bool {
        *self == *other
    }

    ghost is_same_exact = { truth_exact };
}
