//! Recorded calls.
ghost use Rattle.std.specs.Prelude.{◌≡◌};

/// A recorded call, with the moments of its beginning and of its end. A call that has no end is
/// pending: it was not over when the record was made.
#[derive(Clone, Copy, Debug)]
pub struct Timed<C> {
    pub call: C,
    pub begin: u64,
    pub end: Option<u64>,
}
