//! The verdict of the checker.
ghost use Rattle.std.specs.Prelude.{◌≡◌};

/// The verdict of the checker on recorded calls.
#[derive(Debug, Drop)]
pub enum Verdict {
    /// A legal history explains the calls in this order: at each turn the next call of the given caller.
    Legal(Vec<usize>),
    /// No legal history explains the calls, in any order.
    Illegal,
    /// The search took more turns than were allowed, or what it found was not confirmed. Nothing is known of the calls.
    GaveUp,
}
