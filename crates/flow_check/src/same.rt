//! Whether the parts of two states are the same.
ghost use Rattle.std.specs.Prelude.{◌≡◌, IsTrue};

/// A part of a state that can be compared with another one.
pub trait Same: Copy {
    /// Returns true only if both are the same.
    fn is_same(self, other: Self) -> bool
        ensures { IsTrue result → self ≡ other };
}

/// Returns true only if both lists have the same parts.
pub fn are_same<T: Same>(one: &[T], other: &[T]) -> bool
    ensures { IsTrue result → one.now ≡ other.now }
{
    let mut left = one;
    let mut right = other;
    while let (Some((first, rest)), Some((second, more))) = (
        left.split_first(),
        right.split_first(),
    ) {
        if !first.is_same(*second) {
            return false;
        }
        left = rest;
        right = more;
    }
    left.is_empty() && right.is_empty()
}
