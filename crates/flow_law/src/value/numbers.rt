//! Numbers and characters as values of flows. A copy of one takes no memory.
ghost use Rattle.std.specs.Ordering.{int_eq};
ghost use Rattle.std.specs.Prelude.{◌≡◌, Ok, nat_eq, ⊤};
ghost use Rattle.flow_law.specs.flow.Values.{whole_exact, number_exact};

use super::FlowValue;
use crate::fault::FlowFault;

impl FlowValue for i8 {
    ghost is_same = { int_eq };

    ghost IsAlwaysCopied = { ⊤ };

    fn try_copy(&self) -> Result<i8, FlowFault>
        ensures given { result ≡ Ok self.now }
    {
        Ok(*self)
    }

    fn same(&self, other: &i8) -> bool {
        *self == *other
    }

    ghost is_same_exact = { whole_exact };
}

impl FlowValue for i16 {
    ghost is_same = { int_eq };

    ghost IsAlwaysCopied = { ⊤ };

    fn try_copy(&self) -> Result<i16, FlowFault>
        ensures given { result ≡ Ok self.now }
    {
        Ok(*self)
    }

    fn same(&self, other: &i16) -> bool {
        *self == *other
    }

    ghost is_same_exact = { whole_exact };
}

impl FlowValue for i32 {
    ghost is_same = { int_eq };

    ghost IsAlwaysCopied = { ⊤ };

    fn try_copy(&self) -> Result<i32, FlowFault>
        ensures given { result ≡ Ok self.now }
    {
        Ok(*self)
    }

    fn same(&self, other: &i32) -> bool {
        *self == *other
    }

    ghost is_same_exact = { whole_exact };
}

impl FlowValue for i64 {
    ghost is_same = { int_eq };

    ghost IsAlwaysCopied = { ⊤ };

    fn try_copy(&self) -> Result<i64, FlowFault>
        ensures given { result ≡ Ok self.now }
    {
        Ok(*self)
    }

    fn same(&self, other: &i64) -> bool {
        *self == *other
    }

    ghost is_same_exact = { whole_exact };
}

impl FlowValue for i128 {
    ghost is_same = { int_eq };

    ghost IsAlwaysCopied = { ⊤ };

    fn try_copy(&self) -> Result<i128, FlowFault>
        ensures given { result ≡ Ok self.now }
    {
        Ok(*self)
    }

    fn same(&self, other: &i128) -> bool {
        *self == *other
    }

    ghost is_same_exact = { whole_exact };
}

impl FlowValue for isize {
    ghost is_same = { int_eq };

    ghost IsAlwaysCopied = { ⊤ };

    fn try_copy(&self) -> Result<isize, FlowFault>
        ensures given { result ≡ Ok self.now }
    {
        Ok(*self)
    }

    fn same(&self, other: &isize) -> bool {
        *self == *other
    }

    ghost is_same_exact = { whole_exact };
}

impl FlowValue for u8 {
    ghost is_same = { nat_eq };

    ghost IsAlwaysCopied = { ⊤ };

    fn try_copy(&self) -> Result<u8, FlowFault>
        ensures given { result ≡ Ok self.now }
    {
        Ok(*self)
    }

    fn same(&self, other: &u8) -> bool {
        *self == *other
    }

    ghost is_same_exact = { number_exact };
}

impl FlowValue for u16 {
    ghost is_same = { nat_eq };

    ghost IsAlwaysCopied = { ⊤ };

    fn try_copy(&self) -> Result<u16, FlowFault>
        ensures given { result ≡ Ok self.now }
    {
        Ok(*self)
    }

    fn same(&self, other: &u16) -> bool {
        *self == *other
    }

    ghost is_same_exact = { number_exact };
}

impl FlowValue for u32 {
    ghost is_same = { nat_eq };

    ghost IsAlwaysCopied = { ⊤ };

    fn try_copy(&self) -> Result<u32, FlowFault>
        ensures given { result ≡ Ok self.now }
    {
        Ok(*self)
    }

    fn same(&self, other: &u32) -> bool {
        *self == *other
    }

    ghost is_same_exact = { number_exact };
}

impl FlowValue for u64 {
    ghost is_same = { nat_eq };

    ghost IsAlwaysCopied = { ⊤ };

    fn try_copy(&self) -> Result<u64, FlowFault>
        ensures given { result ≡ Ok self.now }
    {
        Ok(*self)
    }

    fn same(&self, other: &u64) -> bool {
        *self == *other
    }

    ghost is_same_exact = { number_exact };
}

impl FlowValue for u128 {
    ghost is_same = { nat_eq };

    ghost IsAlwaysCopied = { ⊤ };

    fn try_copy(&self) -> Result<u128, FlowFault>
        ensures given { result ≡ Ok self.now }
    {
        Ok(*self)
    }

    fn same(&self, other: &u128) -> bool {
        *self == *other
    }

    ghost is_same_exact = { number_exact };
}

impl FlowValue for usize {
    ghost is_same = { nat_eq };

    ghost IsAlwaysCopied = { ⊤ };

    fn try_copy(&self) -> Result<usize, FlowFault>
        ensures given { result ≡ Ok self.now }
    {
        Ok(*self)
    }

    fn same(&self, other: &usize) -> bool {
        *self == *other
    }

    ghost is_same_exact = { number_exact };
}

impl FlowValue for char {
    ghost is_same = { nat_eq };

    ghost IsAlwaysCopied = { ⊤ };

    fn try_copy(&self) -> Result<char, FlowFault>
        ensures given { result ≡ Ok self.now }
    {
        Ok(*self)
    }

    fn same(&self, other: &char) -> bool {
        *self == *other
    }

    ghost is_same_exact = { number_exact };
}
