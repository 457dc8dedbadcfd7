//! Futures that are polled by hand.

use crate::token::Host;
use futures::task::Context;
use futures::test::MockTask;
use std::alloc::AllocError;

/// A future that can be polled.
pub trait Polled: Drop {
    type Output;

    /// Polls the future, and returns its output, or the future if that is pending.
    fn poll_once(self, cx: &mut Context<'_>) -> Result<Self::Output, Self>;
}

/// Makes the task that polls a future. It is woken for the first poll.
pub fn new_task<R: Host>(rt: &R) -> Result<MockTask, AllocError> {
    match MockTask::new(rt) {
        Ok(task) => Ok(task),
        Err(_) => Err(AllocError),
    }
}

/// Polls a future if its task was woken since the last poll, and returns its output, or the future if that is pending.
pub fn poll_if_woken<F: Polled>(task: &MockTask, future: F) -> Result<F::Output, F> {
    if task.is_woken() {
        return task.enter(move |cx| future.poll_once(cx));
    }
    Err(future)
}
