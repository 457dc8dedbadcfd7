//! The size of a count.
ghost use Rattle.std.specs.Prelude.{◌≡◌};
ghost use Rattle.flow_program.specs.Counting.{count_size};

use std::marker::Model;

/// How many threads count, and how many updates each of them makes: 1 to 8 threads, and at most 10,000 updates of each.
#[derive(Clone, Copy)]
pub struct CountSize {
    pub(crate) threads: u32,
    pub(crate) updates: u32,
}

impl Model for CountSize {
    ghost use Rattle.std.specs.Prelude.{◌≤◌};
    ghost use Rattle.flow_program.specs.Counting.{Counting, counting};

    ghost Value = { Counting };

    ghost view = { λ s. counting s.threads s.updates };

    ghost inverse = { λ c. record { threads = c.threads; updates = c.updates } };

    ghost invariant = { λ s. (s.threads ≤ 8) × (s.updates ≤ 10000) };
}

impl CountSize {
    /// Returns the size of a count, or `None` if a number is out of its range.
    pub fn new(threads: u32, updates: u32) -> Option<CountSize>
        ensures { result ≡ count_size threads updates }
    {
        if 1 <= threads && threads <= 8 && updates <= 10_000 {
            Some(CountSize { threads, updates })
        } else {
            None
        }
    }
}
