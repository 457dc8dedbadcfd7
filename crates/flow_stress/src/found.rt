//! What a thread found.

/// The numbers of failed checks and of values read from a shared flow, and the sum that was added to a state flow.
#[derive(Clone, Copy)]
pub struct Found {
    pub wrong: u64,
    pub read: u64,
    pub added: u64,
}

pub const NOTHING: Found = Found {
    wrong: 0,
    read: 0,
    added: 0,
};

impl Found {
    /// Counts a failed check unless this holds.
    pub fn check(&mut self, holds: bool) {
        if !holds {
            self.wrong = self.wrong.saturating_add(1);
        }
    }

    /// Returns the sum of both.
    pub fn plus(self, other: Found) -> Found {
        Found {
            wrong: self.wrong.saturating_add(other.wrong),
            read: self.read.saturating_add(other.read),
            added: self.added.saturating_add(other.added),
        }
    }
}
