//! An allocator that refuses one allocation.
use std::alloc::{AllocError, Allocator};
use std::sync::atomic::{AtomicU64, Ordering};

/// An allocator that refuses one allocation, and passes all other calls to another allocator. A `&` to it is an
/// allocator, too, for one thread or several. The growth of a list counts as an allocation.
pub struct Refusing<B: Allocator> {
    inner: B,
    left: AtomicU64,
}

impl<B: Allocator> Refusing<B> {
    /// Returns an allocator that refuses nothing yet.
    pub fn new(inner: B) -> Refusing<B> {
        Refusing {
            inner,
            left: AtomicU64::new(0),
        }
    }

    /// Refuses the allocation of this number, counted from 1 from now on, and no other; with 0, none of the next 2^63.
    pub fn refuse(&self, number: u64) {
        self.left.store(number, Ordering::SeqCst);
    }

    /// Returns whether an allocation will still be refused.
    pub fn is_waiting(&self) -> bool {
        let left = self.left.load(Ordering::SeqCst);
        left > 0 && left <= u64::MAX / 2
    }
}

impl<B: Allocator> Drop for Refusing<B> {
    fn drop(self) {
        let Self { inner: _, left: _ } = self;
    }
}

/// Counts an allocation. Returns whether it is refused.
fn refuses(left: &AtomicU64) -> bool {
    left.fetch_sub(1, Ordering::SeqCst) == 1
}

unsafe impl<B: Allocator> Allocator for Refusing<B> {
    ghost dealloc_token = { λ memory ty ptr. B.dealloc_token memory.inner ty ptr };

    fn allocate(&self, size: usize, align: usize) -> Result<*mut u8, AllocError> {
        if refuses(&self.left) {
            return Err(AllocError);
        }
        self.inner.allocate(size, align)
    }

    unsafe fn deallocate(&self, ptr: *mut u8, size: usize, align: usize) {
        self.inner.deallocate(ptr, size, align);
    }
}
