//! Whether parts of two states of a shared flow are the same.
ghost use Rattle.std.specs.Prelude.{◌≡◌, IsTrue};
ghost use Rattle.flow_check.specs.SharedMachine.{same_values};

use crate::same::Same;
use crate::shared_machine::{Held, Own, own_at};
use flow_law::{Config, Overflow};

pub fn same_values(one: &[u64], other: &[u64]) -> bool
    ensures { result ≡ same_values one.now other.now }
{
    let mut left = one;
    let mut right = other;
    while let (Some((first, rest)), Some((second, more))) = (
        left.split_first(),
        right.split_first(),
    ) {
        if *first != *second {
            return false;
        }
        left = rest;
        right = more;
    }
    left.is_empty() && right.is_empty()
}

pub fn is_same_config(one: Config, other: Config) -> bool
    ensures { IsTrue result → one ≡ other }
{
    let is_same_overflow = match (one.overflow, other.overflow) {
        (Overflow::Suspend, Overflow::Suspend) => true,
        (Overflow::DropOldest, Overflow::DropOldest) => true,
        (Overflow::DropLatest, Overflow::DropLatest) => true,
        _ => false,
    };
    is_same_overflow
        && one.replay == other.replay
        && one.extra == other.extra
        && one.limit == other.limit
}

#[tactic(auto, using(crate::proofs::QueueLemmas::values_are))]
pub fn are_same_values(one: &[u64], other: &[u64]) -> bool
    ensures { IsTrue result → one.now ≡ other.now }
{
    same_values(one, other)
}

impl Same for Option<usize> {
    fn is_same(self, other: Self) -> bool {
        match (self, other) {
            (None, None) => true,
            (Some(one), Some(other)) => one == other,
            _ => false,
        }
    }
}

impl Same for Held {
    fn is_same(self, other: Self) -> bool {
        self.caller == other.caller && self.value == other.value
    }
}

pub fn are_same_owns(one: &[Own], other: &[Own]) -> bool
    ensures { IsTrue result → one.now ≡ other.now }
{
    let count = one.len();
    let others = other.len();
    if count != others {
        return false;
    }
    for index in 0..count {
        let left = own_at(one, index);
        let right = own_at(other, index);
        if !same_values(left, right) {
            return false;
        }
    }
    true
}
