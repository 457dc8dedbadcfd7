//! Time limits of waits.
use std::time::{Clock, Duration, Instant};

/// A time limit that runs from the moment at which it was made.
#[derive(Clone, Copy)]
pub struct Limit {
    /// `None` if the clock could not be read.
    start: Option<Instant>,
    most: Duration,
}

impl Limit {
    /// Makes a limit that ends when `most` has passed from now.
    pub fn new<C: Clock>(clock: &C, most: Duration) -> Limit {
        Limit {
            start: Instant::now(clock).ok(),
            most,
        }
    }

    /// Returns how much time is left, or `None` if the time is up or the clock cannot be read.
    pub fn left<C: Clock>(&self, clock: &C) -> Option<Duration> {
        let spent = self.start?.elapsed(clock).ok()?;
        let left = self.most.checked_sub(spent)?;
        if left.is_zero() { None } else { Some(left) }
    }
}
