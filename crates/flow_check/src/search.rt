//! Searches for an order. What it finds is not proved, so its caller checks that.
ghost use Rattle.std.specs.Prelude.{◌≡◌};

use crate::candidates::{Candidate, first_private, turn_after};
use crate::machine::Machine;
use crate::node::{Move, Node};
use crate::remaining::{next_call, none_placed, owes_nothing, place};
use crate::settling::{MOST_CALLS, settled};
use crate::table::Table;
use crate::timed::Timed;
use crate::twins::has_earlier_twin;
use std::alloc::{AllocError, Global};

/// What the search found.
#[derive(Drop)]
pub enum Found<M> {
    Order(Vec<Move>),
    /// The search found no order, and went through all of these nodes.
    Table(Table<M>),
    GaveUp,
}

/// Which nodes a search goes through.
#[derive(Clone, Copy, PartialEq, Eq)]
enum Pace {
    /// All that may lead to an order, but none that the calls to come contradict. If it finds no order, its table need
    /// not be complete.
    Hasty,
    /// All that may lead to an order.
    Whole,
}

/// A node of the path, and the turn that was tried last there.
#[derive(Clone, Copy)]
struct Frame {
    node: usize,
    tried: Option<Candidate>,
}

/// Returns whether a turn has to be tried: the call is skipped, or the flow may give its answer. If the call of another
/// caller does the same and comes first, only that is tried.
fn is_tried<C: Copy, M: Machine<C>>(callers: &[Vec<Timed<C>>], node: &Node<M>, turn: Move) -> bool {
    let Some(call) = next_call(callers, &node.placed, turn.caller) else {
        return false;
    };
    (turn.skips || node.state.may_answer(turn.caller, &call.call))
        && !has_earlier_twin(callers, node, turn.caller)
}

/// Takes the next turn at a node, which is the last one of the path.
fn take_turn<C: Copy, M: Machine<C>>(
    callers: &[Vec<Timed<C>>],
    node: &Node<M>,
    path: &mut Vec<Frame>,
) -> Option<Move> {
    let frame = path.last_mut()?;
    // Each caller has at most two turns: its call is made, or is skipped.
    for _ in 0..callers.len().saturating_mul(2) {
        let candidate = turn_after(callers, node, frame.tried)?;
        frame.tried = Some(candidate);
        if is_tried(callers, node, candidate.turn) {
            return Some(candidate.turn);
        }
    }
    None
}

/// Returns the node that follows this turn, if the call is skipped or the flow may give the recorded answer.
fn advance<C: Copy, M: Machine<C>>(
    alloc: Global,
    callers: &[Vec<Timed<C>>],
    node: &Node<M>,
    turn: Move,
) -> Result<Option<Node<M>>, AllocError> {
    let Some(call) = next_call(callers, &node.placed, turn.caller) else {
        return Ok(None);
    };
    let stepped = if turn.skips {
        Some(node.state.try_copy(alloc)?)
    } else {
        node.state.step(alloc, turn.caller, &call.call)?
    };
    let Some(state) = stepped else {
        return Ok(None);
    };
    let mut placed = Vec::from_slice(alloc, node.placed.as_slice())?;
    if !place(&mut placed, turn.caller) {
        return Ok(None);
    }
    Ok(Some(Node { state, placed }))
}

/// Makes the private calls that may come next at this node, and adds their turns to an order.
fn settle_into<C: Copy, M: Machine<C>>(
    alloc: Global,
    callers: &[Vec<Timed<C>>],
    first: Node<M>,
    order: &mut Vec<Move>,
) -> Result<Node<M>, AllocError> {
    let mut node = first;
    for _ in 0..MOST_CALLS {
        let Some(turn) = first_private(callers, &node) else {
            return Ok(node);
        };
        let Some(next) = advance(alloc, callers, &node, turn)? else {
            return Ok(node);
        };
        order.push(turn)?;
        node = next;
    }
    Ok(node)
}

/// Returns the order of the turns that were tried last at each node of the path, and of the private calls between them.
fn order_of<C: Copy, M: Machine<C>>(
    alloc: Global,
    callers: &[Vec<Timed<C>>],
    first: &M,
    path: &[Frame],
) -> Result<Vec<Move>, AllocError> {
    let mut order = Vec::new(alloc);
    let state = first.try_copy(alloc)?;
    let placed = none_placed(alloc, callers)?;
    let mut node = settle_into(alloc, callers, Node { state, placed }, &mut order)?;
    for frame in path {
        if let Some(candidate) = frame.tried {
            let Some(next) = advance(alloc, callers, &node, candidate.turn)? else {
                return Ok(order);
            };
            order.push(candidate.turn)?;
            node = settle_into(alloc, callers, next, &mut order)?;
        }
    }
    Ok(order)
}

/// What follows a turn of the search.
#[derive(Clone, Copy)]
enum Turned {
    GoesOn,
    /// The turns that were tried last are an order.
    Ordered,
    /// No turn is left.
    Exhausted,
}

/// The nodes that a search has found, and its current node, which is the last one of the path.
#[derive(Drop)]
struct Walk<M> {
    table: Table<M>,
    path: Vec<Frame>,
    node: Node<M>,
    pace: Pace,
    /// A node was left out.
    has_left_out: bool,
}

impl<M> Walk<M> {
    /// Begins in this state, before any call.
    fn new<C: Copy>(
        alloc: Global,
        first: &M,
        callers: &[Vec<Timed<C>>],
        pace: Pace,
    ) -> Result<Walk<M>, AllocError>
    where
        M: Machine<C>,
    {
        let table = Table::new(alloc, first.try_copy(alloc)?, callers.len());
        let state = first.try_copy(alloc)?;
        let placed = none_placed(alloc, callers)?;
        let node = settled(alloc, callers, Node { state, placed })?;
        let mut walk = Walk {
            table,
            path: Vec::new(alloc),
            node,
            pace,
            has_left_out: false,
        };
        walk.keep_node()?;
        Ok(walk)
    }

    /// Adds the node to the table and to the path.
    fn keep_node<C>(&mut self) -> Result<(), AllocError>
    where
        M: Machine<C>,
    {
        let place = self.table.add(&self.node)?;
        self.path.push(Frame {
            node: place,
            tried: None,
        })?;
        Ok(())
    }

    /// Goes back to the node before the last one of the path, if there is one.
    fn go_back<C>(&mut self, alloc: Global) -> Result<Turned, AllocError>
    where
        M: Machine<C>,
    {
        let _ = self.path.pop();
        let Some(frame) = self.path.last() else {
            return Ok(Turned::Exhausted);
        };
        match self.table.at(alloc, frame.node)? {
            None => Ok(Turned::Exhausted),
            Some(node) => {
                self.node = node;
                Ok(Turned::GoesOn)
            }
        }
    }

    /// Returns whether the search leaves out this node.
    fn leaves_out<C: Copy>(&self, callers: &[Vec<Timed<C>>], next: &Node<M>) -> bool
    where
        M: Machine<C>,
    {
        self.pace == Pace::Hasty && next.state.is_contradicted(callers, &next.placed)
    }

    /// Goes to the next node, if it is a new one that is not left out.
    fn go_to<C: Copy>(
        &mut self,
        callers: &[Vec<Timed<C>>],
        next: Node<M>,
    ) -> Result<Turned, AllocError>
    where
        M: Machine<C>,
    {
        if self.table.find(&next.state, &next.placed).is_some() {
            return Ok(Turned::GoesOn);
        }
        if owes_nothing(callers, &next.placed) {
            return Ok(Turned::Ordered);
        }
        if self.leaves_out(callers, &next) {
            self.has_left_out = true;
            return Ok(Turned::GoesOn);
        }
        self.node = next;
        self.keep_node()?;
        Ok(Turned::GoesOn)
    }

    /// Takes the next turn.
    fn turn<C: Copy>(
        &mut self,
        alloc: Global,
        callers: &[Vec<Timed<C>>],
    ) -> Result<Turned, AllocError>
    where
        M: Machine<C>,
    {
        let Some(turn) = take_turn(callers, &self.node, &mut self.path) else {
            return self.go_back(alloc);
        };
        match advance(alloc, callers, &self.node, turn)? {
            None => Ok(Turned::GoesOn),
            Some(next) => {
                let next = settled(alloc, callers, next)?;
                self.go_to(callers, next)
            }
        }
    }

    /// Takes turns until the search ends, at most `budget` of them.
    fn turns<C: Copy>(
        &mut self,
        alloc: Global,
        callers: &[Vec<Timed<C>>],
        budget: u64,
    ) -> Result<Turned, AllocError>
    where
        M: Machine<C>,
    {
        if owes_nothing(callers, &self.node.placed) {
            return Ok(Turned::Ordered);
        }
        for _ in 0..budget {
            let turned = self.turn(alloc, callers)?;
            if !matches!(turned, Turned::GoesOn) {
                return Ok(turned);
            }
        }
        Ok(Turned::GoesOn)
    }
}

/// Returns a walk that has taken at most `budget` turns, and what its last turn was.
fn walk_of<C: Copy, M: Machine<C>>(
    alloc: Global,
    first: &M,
    callers: &[Vec<Timed<C>>],
    budget: u64,
    pace: Pace,
) -> Result<(Walk<M>, Turned), AllocError> {
    let mut walk = Walk::new(alloc, first, callers, pace)?;
    let turned = walk.turns(alloc, callers, budget)?;
    Ok((walk, turned))
}

/// Returns what a walk found.
fn found_by<C: Copy, M: Machine<C>>(
    alloc: Global,
    first: &M,
    callers: &[Vec<Timed<C>>],
    walk: Walk<M>,
    turned: Turned,
) -> Result<Found<M>, AllocError> {
    match turned {
        Turned::GoesOn => Ok(Found::GaveUp),
        Turned::Ordered => {
            let order = order_of(alloc, callers, first, walk.path.as_slice())?;
            Ok(Found::Order(order))
        }
        Turned::Exhausted => Ok(Found::Table(walk.table)),
    }
}

/// Goes through nodes, each once, until it finds an order, no node is left, or `budget` turns are taken.
pub fn search_whole<C: Copy, M: Machine<C>>(
    alloc: Global,
    first: &M,
    callers: &[Vec<Timed<C>>],
    budget: u64,
) -> Result<Found<M>, AllocError> {
    let (walk, turned) = walk_of(alloc, first, callers, budget, Pace::Whole)?;
    found_by(alloc, first, callers, walk, turned)
}

/// Searches as `search_whole` does, but first leaves out the nodes that the calls to come contradict. An order is found
/// sooner so; if there is none, the search goes through those nodes, too.
pub fn search<C: Copy, M: Machine<C>>(
    alloc: Global,
    first: &M,
    callers: &[Vec<Timed<C>>],
    budget: u64,
) -> Result<Found<M>, AllocError> {
    let (walk, turned) = walk_of(alloc, first, callers, budget, Pace::Hasty)?;
    if walk.has_left_out && !matches!(turned, Turned::Ordered) {
        return search_whole(alloc, first, callers, budget);
    }
    found_by(alloc, first, callers, walk, turned)
}

/// Returns whether a search finds no order. It is not proved that there is none.
pub fn finds_none<C: Copy, M: Machine<C>>(
    alloc: Global,
    first: &M,
    callers: &[Vec<Timed<C>>],
    budget: u64,
) -> Result<bool, AllocError> {
    let (_walk, turned) = walk_of(alloc, first, callers, budget, Pace::Hasty)?;
    Ok(matches!(turned, Turned::Exhausted))
}
