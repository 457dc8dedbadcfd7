//! Options and tuples as values of flows. A copy fails if the copy of a part fails.
ghost use Rattle.std.specs.Prelude.{◌≡◌, ◌&&◌, Bool, true, false, Ok, Some, None, nat_eq, ⊤};
ghost use Rattle.flow_law.specs.flow.Values.{is_same_option, is_same_pair, is_same_triple};

use super::FlowValue;
use crate::fault::FlowFault;

impl FlowValue for () {
    ghost use Rattle.flow_law.specs.flow.Values.{unit_exact};

    ghost is_same = { λ x y. true };

    ghost IsAlwaysCopied = { ⊤ };

    fn try_copy(&self) -> Result<(), FlowFault>
        ensures given { result ≡ Ok self.now }
    {
        Ok(())
    }

    fn same(&self, _other: &()) -> bool {
        true
    }

    ghost is_same_exact = { unit_exact };
}

impl<T: FlowValue> FlowValue for Option<T> {
    ghost use Rattle.flow_law.specs.flow.Values.{option_exact};

    ghost is_same = { is_same_option T.is_same };

    ghost IsAlwaysCopied = { T.IsAlwaysCopied };

    fn try_copy(&self) -> Result<Option<T>, FlowFault> {
        match self {
            None => Ok(None),
            Some(value) => Ok(Some(value.try_copy()?)),
        }
    }

    fn same(&self, other: &Option<T>) -> bool {
        match (self, other) {
            (None, None) => true,
            (Some(value), Some(other)) => value.same(other),
            _ => false,
        }
    }

    ghost is_same_exact = { option_exact T.is_same T.is_same_exact };
}

impl<A: FlowValue, B: FlowValue> FlowValue for (A, B) {
    ghost use Rattle.flow_law.specs.flow.Values.{pair_exact};

    ghost is_same = { is_same_pair A.is_same B.is_same };

    ghost IsAlwaysCopied = { A.IsAlwaysCopied × B.IsAlwaysCopied };

    fn try_copy(&self) -> Result<(A, B), FlowFault> {
        Ok((self.0.try_copy()?, self.1.try_copy()?))
    }

    fn same(&self, other: &(A, B)) -> bool {
        self.0.same(&other.0) && self.1.same(&other.1)
    }

    ghost is_same_exact = { pair_exact A.is_same B.is_same A.is_same_exact B.is_same_exact };
}

impl<A: FlowValue, B: FlowValue, C: FlowValue> FlowValue for (A, B, C) {
    ghost use Rattle.flow_law.specs.flow.Values.{triple_exact};

    ghost is_same = { is_same_triple A.is_same B.is_same C.is_same };

    ghost IsAlwaysCopied = { A.IsAlwaysCopied × B.IsAlwaysCopied × C.IsAlwaysCopied };

    fn try_copy(&self) -> Result<(A, B, C), FlowFault> {
        Ok((self.0.try_copy()?, self.1.try_copy()?, self.2.try_copy()?))
    }

    fn same(&self, other: &(A, B, C)) -> bool {
        self.0.same(&other.0) && self.1.same(&other.1) && self.2.same(&other.2)
    }

    ghost is_same_exact = { triple_exact A.is_same B.is_same
        C.is_same A.is_same_exact B.is_same_exact C.is_same_exact };
}
