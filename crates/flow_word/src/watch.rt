//! Callers that sleep until the number of subscribers changes.
use crate::sleepers::Announcement;
use crate::token::WordState;
use flow_law::Packed;
use std::sync::Wait;
use std::time::Duration;

/// A thread that is registered to be woken when the number of subscribers changes.
///
/// # Dropping
/// Dropping it ends the registration.
#[derive(Drop)]
pub struct CountWatch<'a> {
    announced: Announcement<'a>,
}

impl<T: Packed> WordState<T> {
    /// Registers the thread to be woken when the number of subscribers changes. After that, call `subscription_count`,
    /// and then sleep or drop the result.
    pub fn watch_count(&self) -> CountWatch<'_> {
        CountWatch {
            announced: self.watchers.announce(),
        }
    }

    /// Wakes the threads that sleep until the number of subscribers changes, as `subscribe` and `unsubscribe` do.
    pub fn wake_count_watchers(&self) {
        self.watchers.wake();
    }
}

impl CountWatch<'_> {
    /// Sleeps until a subscriber was added or removed since the thread was registered, or for `most`, if that is given.
    /// It may return early.
    pub fn sleep<R: Wait>(self, rt: &R, most: Option<Duration>) {
        let CountWatch { announced } = self;
        announced.sleep(rt, most);
    }
}
