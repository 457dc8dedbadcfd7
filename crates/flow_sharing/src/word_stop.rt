//! How the driver of a sharing over a word state sleeps, and how its run is asked to stop.
use crate::word_hub::WordHub;
use flow_law::{FlowFault, Packed};
use flow_turns::{CountSince, StopSignal, WatchedHub};
use flow_word::WordState;
use std::sync::Wait;
use std::sync::atomic::{AtomicBool, Ordering};
use std::time::Duration;

/// `subscribe` and `unsubscribe` wake the driver, and so does `ask` of a `WordStop`. No item of it ever waits.
impl<'a, T: Packed> WatchedHub for WordHub<'a, T> {
    ghost use Rattle.flow_sharing.specs.WordHub.{HasCome};

    ghost Came = { HasCome };

    fn count_since(&mut self) -> Result<CountSince, FlowFault> {
        Ok(self.counted_since())
    }

    fn watch<R: Wait>(&mut self, _rt: &R) {
        self.watch = Some(self.flow.watch_count());
    }

    fn sleep<R: Wait>(&mut self, rt: &R, most: Option<Duration>) {
        if let Some(watch) = self.watch.take() {
            watch.sleep(rt, most);
        }
    }

    fn unwatch(&mut self) {
        self.watch = None;
    }
}

/// A signal that asks runs of sharings over a word state to stop. It ends each run to which it was passed.
///
/// # Source
/// `cancel` of the scope in which `shareIn` and `stateIn` launch.
#[derive(Drop)]
pub struct WordStop<'a, T: Packed> {
    flow: &'a WordState<T>,
    is_asked: AtomicBool,
}

impl<'a, T: Packed> WordStop<'a, T> {
    /// Returns a signal that has not asked yet.
    pub fn new(flow: &'a WordState<T>) -> WordStop<'a, T> {
        WordStop {
            flow,
            is_asked: AtomicBool::new(false),
        }
    }

    /// Asks the runs to stop, and wakes those that sleep.
    pub fn ask(&self) {
        self.is_asked.store(true, Ordering::SeqCst);
        self.flow.wake_count_watchers();
    }
}

impl<'a, T: Packed> StopSignal for WordStop<'a, T> {
    fn is_asked(&self) -> bool {
        self.is_asked.load(Ordering::SeqCst)
    }
}
