//! What the operators on whole numbers compute.
ghost use Rattle.std.specs.Prelude.{◌≡◌, ◌+ℤ◌, ◌*ℤ◌, pos};
ghost use Rattle.std.specs.List.{list_all};
ghost use Rattle.flow_cold.specs.Numbers as numbers;

use crate::script_chain::op::{Arithmetic, Joining, Test};
use flow_law::ChainFault;

fn add(x: i64, y: i64) -> Result<i64, ChainFault>
    ensures { result ≡ numbers.ranged (x +ℤ y) }
{
    match x.checked_add(y) {
        Some(sum) => Ok(sum),
        None => Err(ChainFault::Overflow),
    }
}

fn multiply(x: i64, y: i64) -> Result<i64, ChainFault>
    ensures { result ≡ numbers.ranged (x *ℤ y) }
{
    match x.checked_mul(y) {
        Some(product) => Ok(product),
        None => Err(ChainFault::Overflow),
    }
}

impl Arithmetic {
    pub(crate) fn compute(self, x: i64, y: i64) -> Result<i64, ChainFault>
        ensures { result ≡ numbers.computed self (x, y) }
    {
        match self {
            Arithmetic::Add => add(x, y),
            Arithmetic::Mul => multiply(x, y),
        }
    }
}

impl Joining {
    pub(crate) fn join(self, x: i64, y: i64) -> Result<i64, ChainFault>
        ensures { result ≡ numbers.joined self (x, y) }
    {
        match self {
            Joining::Add => add(x, y),
            Joining::Mul => multiply(x, y),
            Joining::Left => Ok(x),
            Joining::Right => Ok(y),
        }
    }
}

impl Test {
    pub(crate) fn passes(self, x: i64) -> bool
        ensures { result ≡ numbers.passes self x }
    {
        match self {
            Test::Even => x.unsigned_abs() % 2 == 0,
            Test::Odd => x.unsigned_abs() % 2 == 1,
            Test::Less(k) => x < k,
            Test::Greater(k) => x > k,
            Test::NotEqual(k) => x != k,
        }
    }
}

/// Returns whether each sum of `x` and an entry is in range.
pub(crate) fn all_sums_fit(entries: &[i64], x: i64) -> bool
    ensures { result ≡ list_all (λ d. numbers.is_i64 (x +ℤ d)) entries.now }
{
    entries.iter().all(|d| add(x, *d).is_ok())
}

/// Returns `x + before`, the last of `before + 1` numbers from `x` on.
pub(crate) fn last_of(x: i64, before: u64) -> Result<i64, ChainFault>
    ensures { result ≡ numbers.ranged (x +ℤ pos before) }
{
    match x.checked_add_unsigned(before) {
        Some(last) => Ok(last),
        None => Err(ChainFault::Overflow),
    }
}
