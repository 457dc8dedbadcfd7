//! One more owner of a value that several own together.
ghost use Rattle.std.specs.Prelude.{◌≡◌};
ghost use Rattle.std.specs.Arc.{arc_value};

use std::alloc::Allocator;
use std::sync::{Arc, Wait};
use std::thread;

/// Owns a value once more. It waits while the value has 2^63 owners, the most that an `Arc` can count.
pub fn one_more_owner<T: Drop, A: Allocator + Copy, R: Wait>(rt: &R, owned: &Arc<T, A>) -> Arc<T, A>
    ensures { arc_value result ≡ arc_value owned.now }
{
    for _ in rt.forever() {
        if let Ok(again) = Arc::try_clone(owned) {
            return again;
        }
        thread::yield_now();
    }
    unreachable!()
}
