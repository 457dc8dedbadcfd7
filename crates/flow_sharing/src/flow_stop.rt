//! How the run of a sharing over a flow with a gate is asked to stop.
ghost use Rattle.std.specs.Prelude.{◌≡◌};
ghost use Rattle.flow_shared.specs.Calls.{Counts};

use flow_core::ReaderCalls;
use flow_shared::FlowCaller;
use flow_turns::StopSignal;
use std::alloc::Allocator;
use std::sync::Wait;
use std::sync::atomic::{AtomicBool, Ordering};

/// A signal that asks runs of sharings over a `SharedFlow` or a `StateFlow` to stop. It ends each run to which it was
/// passed.
///
/// # Source
/// `cancel` of the scope in which `shareIn` and `stateIn` launch.
#[derive(Drop)]
pub struct FlowStop {
    is_asked: AtomicBool,
}

impl FlowStop {
    /// Returns a signal that has not asked yet.
    pub fn new() -> FlowStop {
        FlowStop {
            is_asked: AtomicBool::new(false),
        }
    }

    /// Asks the runs to stop, and wakes those that sleep at the flow of this caller. Returns the number of subscribers:
    /// in the history, this is one `subscription_count`.
    pub fn ask<R: Wait, S: ReaderCalls + Drop, A: Allocator + Copy>(
        &self,
        rt: &R,
        caller: &mut FlowCaller<S, A>,
    ) -> u64
        ensures flow { caller.new.flow ≡ caller.old.flow }
        ensures counted { Counts S.kind caller.old.flow caller.old.token result caller.new.token }
    {
        self.is_asked.store(true, Ordering::SeqCst);
        caller.count_and_wake_watchers(rt)
    }
}

impl StopSignal for FlowStop {
    fn is_asked(&self) -> bool {
        self.is_asked.load(Ordering::SeqCst)
    }
}
