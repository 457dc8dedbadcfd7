//! The values of flows.
ghost use Rattle.std.specs.Prelude.{Bool, ◌≡◌, ◌↔◌, IsTrue, IfOk, IfErr, IsOk};

mod boxed;
mod compound;
mod items;
mod numbers;
mod owned;
mod packed;
mod packed_compound;
mod truth;
mod words;

use crate::fault::FlowFault;
pub use boxed::Boxed;
pub use items::Items;
pub use owned::Text;
pub use packed::{Half, Packed};
pub use words::{OneWord, Words};

/// A value that a flow can keep, and give to several subscribers.
///
/// A type that holds more than its value, for example a buffer with spare room, needs a `Model` whose value is what two
/// copies have in common, because contracts compare values by it.
pub trait FlowValue: Drop {
    /// Whether two values are the same.
    ghost is_same: { Self → Self → Bool };

    /// The claim that a copy of a value of the type never fails, because it takes no memory. By default a type makes no
    /// claim.
    ghost IsAlwaysCopied: { Type 0 } = { ⊥ };

    /// Copies the value, or fails with `OutOfMemory`.
    fn try_copy(&self) -> Result<Self, FlowFault>
        ensures copy { IfOk result (λ copy. copy ≡ self.now) }
        ensures memory { IfErr result (λ fault. fault ≡ FlowFault.OutOfMemory) }
        ensures given { IsAlwaysCopied → IsOk result };

    /// Returns whether both are the same value.
    fn same(&self, other: &Self) -> bool
        ensures { result ≡ is_same self.now other.now };

    /// `is_same` holds of equal values, and of no others.
    ghost is_same_exact: { (x y : Self) → IsTrue (is_same x y) ↔ x ≡ y };
}
