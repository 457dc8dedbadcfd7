//! The turns that a search tries next at a node. They are not proved.
ghost use Rattle.std.specs.Prelude.{◌≡◌};

use crate::machine::Machine;
use crate::node::{Move, Node};
use crate::remaining::next_call;
use crate::timed::Timed;

/// A turn that may come next, and the end of its call.
#[derive(Clone, Copy)]
pub struct Candidate {
    pub turn: Move,
    end: u64,
}

impl Candidate {
    /// Returns whether this turn is tried before another one. Calls that end earlier are tried first, and a call that
    /// may be skipped is made before it is skipped.
    fn is_before(self, other: Candidate) -> bool {
        if self.end != other.end {
            return self.end < other.end;
        }
        if self.turn.caller != other.turn.caller {
            return self.turn.caller < other.turn.caller;
        }
        !self.turn.skips && other.turn.skips
    }

    /// Returns whether this turn is tried after another one, if there was one.
    fn is_after(self, last: Option<Candidate>) -> bool {
        match last {
            None => true,
            Some(last) => last.is_before(self),
        }
    }
}

/// Returns the end of a call; a pending call ends last.
fn end_of<C: Copy>(call: &Timed<C>) -> u64 {
    match call.end {
        Some(end) => end,
        None => u64::MAX,
    }
}

/// Returns the first end of the callers' next calls. No call that begins later may come next.
pub fn deadline_of<C: Copy>(callers: &[Vec<Timed<C>>], placed: &Vec<u32>) -> u64 {
    let mut deadline = u64::MAX;
    for caller in 0..callers.len() {
        if let Some(call) = next_call(callers, placed, caller) {
            deadline = deadline.min(end_of(&call));
        }
    }
    deadline
}

/// Returns the first turn of a caller that is tried after the last one, if its next call may come next.
fn turn_of<C: Copy, M: Machine<C>>(
    callers: &[Vec<Timed<C>>],
    node: &Node<M>,
    caller: usize,
    deadline: u64,
    last: Option<Candidate>,
) -> Option<Candidate> {
    let call = next_call(callers, &node.placed, caller)?;
    if call.begin > deadline {
        return None;
    }
    let turn = Move {
        caller,
        skips: false,
    };
    let end = end_of(&call);
    let made = Candidate { turn, end };
    if made.is_after(last) {
        return Some(made);
    }
    let turn = Move {
        caller,
        skips: true,
    };
    let skipped = Candidate { turn, end };
    (node.state.may_skip(&call.call) && skipped.is_after(last)).then_some(skipped)
}

/// Returns the turn that is tried after the last one at a node.
pub fn turn_after<C: Copy, M: Machine<C>>(
    callers: &[Vec<Timed<C>>],
    node: &Node<M>,
    last: Option<Candidate>,
) -> Option<Candidate> {
    let deadline = deadline_of(callers, &node.placed);
    let mut first: Option<Candidate> = None;
    for caller in 0..callers.len() {
        if let Some(candidate) = turn_of(callers, node, caller, deadline, last) {
            if first.is_none_or(|other| candidate.is_before(other)) {
                first = Some(candidate);
            }
        }
    }
    first
}

/// Returns the turn of a caller whose next call is a private one that ended and may come next, if the flow may give its
/// answer.
fn private_of<C: Copy, M: Machine<C>>(
    callers: &[Vec<Timed<C>>],
    node: &Node<M>,
    caller: usize,
    deadline: u64,
) -> Option<Move> {
    let call = next_call(callers, &node.placed, caller)?;
    let may_come = call.end.is_some()
        && call.begin <= deadline
        && node.state.is_private(&call.call);
    let turn = Move {
        caller,
        skips: false,
    };
    (may_come && node.state.may_answer(caller, &call.call)).then_some(turn)
}

/// Returns the first private call at a node that may come next. If any order continues from the node, one that begins
/// with that call does, so no other turn has to be tried.
pub fn first_private<C: Copy, M: Machine<C>>(
    callers: &[Vec<Timed<C>>],
    node: &Node<M>,
) -> Option<Move> {
    let deadline = deadline_of(callers, &node.placed);
    for caller in 0..callers.len() {
        let private = private_of(callers, node, caller, deadline);
        if private.is_some() {
            return private;
        }
    }
    None
}
