//! A flow as the checker sees it.
ghost use Rattle.std.specs.Prelude.{◌≡◌, ℕ, Bool, List, Option, IfOk, IsTrue};
ghost use Rattle.flow_check.specs.Twins.{AreTwins};

use crate::timed::Timed;
use std::alloc::{AllocError, Global};

/// The states of a flow, and what calls of type `C` do to them.
pub trait Machine<C>: Drop {
    /// The state after a caller's call, if the flow may give the recorded answer.
    ghost stepped: { Self → ℕ → C → Option Self };

    /// Whether a call may have done nothing, whatever was recorded of it.
    ghost may_skip: { C → Bool };

    /// Whether no other caller can see when a call happens, if it is answered as recorded.
    ghost is_private: { C → Bool };

    /// Whether one state is another one, in which a caller's private call has happened already.
    ghost Ahead: { ℕ → C → Self → Self → Type 0 };

    /// Whether one state is another one, but that the other caller's call has happened in it instead of the caller's.
    ghost Swapped: { ℕ → ℕ → C → C → Self → Self → Type 0 };

    /// What holds of each state that the flow reaches.
    ghost IsSound: { Self → Type 0 };

    /// The state that words encode, for a flow that may be in this state.
    ghost read: { Self → List ℕ → Self };

    /// Returns the state after the step, or None if the flow may not give the recorded answer.
    fn step(&self, alloc: Global, caller: usize, call: &C) -> Result<Option<Self>, AllocError>
        ensures { IfOk result (λ after. after ≡ stepped self.now caller call.now) };

    /// Returns whether a call may have done nothing.
    fn may_skip(&self, call: &C) -> bool
        ensures { result ≡ may_skip call.now };

    /// Returns whether no other caller can see when a call happens, if it is answered as recorded.
    fn is_private(&self, call: &C) -> bool
        ensures { result ≡ is_private call.now };

    /// Returns true only if it does not matter which of a caller's call and another caller's twin of it comes first.
    fn are_twins(&self, caller: usize, call: &C, other: usize, twin: &C) -> bool
        ensures { IsTrue result →
            AreTwins stepped may_skip Swapped self.now caller other call.now twin.now };

    /// Returns whether the flow may give the recorded answer. This is not proved.
    fn may_answer(&self, caller: usize, call: &C) -> bool;

    /// Returns whether the calls that have not happened contradict the state, so that no order goes through them. This
    /// is not proved.
    fn is_contradicted(&self, callers: &[Vec<Timed<C>>], placed: &Vec<u32>) -> bool;

    /// Copies the state.
    fn try_copy(&self, alloc: Global) -> Result<Self, AllocError>
        ensures { IfOk result (λ copy. copy ≡ self.now) };

    /// Returns true only if both are the same state.
    fn same(&self, other: &Self) -> bool
        ensures { IsTrue result → self.now ≡ other.now };

    /// Writes the state as words. They are not proved to be right.
    fn write(&self, words: &mut Vec<u32>) -> Result<(), AllocError>;

    /// Reads a state of this flow from the first of these words.
    fn read(&self, alloc: Global, words: &[u32]) -> Result<Self, AllocError>
        ensures { IfOk result (λ state. state ≡ read self.now words.now) };

    /// Mixes the state into a hash by which a search finds it again.
    fn mixed_into(&self, mark: u64) -> u64;
}
