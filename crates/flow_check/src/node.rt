//! The nodes of a search.
ghost use Rattle.std.specs.Prelude.{◌≡◌};

use crate::machine::Machine;
use crate::marks::{FIRST_MARK, mix};
use std::alloc::{AllocError, Global};
use std::collections::HashMap;

/// A state, and how many calls of each caller have happened in it.
#[derive(Drop)]
pub struct Node<S> {
    pub state: S,
    pub placed: Vec<u32>,
}

/// A turn of an order: a caller's next call is made, or is skipped since it may have done nothing.
#[derive(Clone, Copy)]
pub struct Move {
    pub caller: usize,
    pub skips: bool,
}

/// The places of the nodes in a table, by a hash of each node. If two nodes have the same hash, one place is known.
#[derive(Drop)]
pub struct Places {
    by_mark: HashMap<u64, usize>,
}

fn mark_of<C, M: Machine<C>>(state: &M, placed: &Vec<u32>) -> u64 {
    let mut mark = FIRST_MARK;
    for count in placed.as_slice() {
        mark = mix(mark, *count as u64);
    }
    state.mixed_into(mark)
}

impl Places {
    pub fn new(alloc: Global) -> Places {
        Places {
            by_mark: HashMap::new(alloc),
        }
    }

    /// Returns the place where a node with this state and these counts of calls may be.
    pub fn find<C, M: Machine<C>>(&self, state: &M, placed: &Vec<u32>) -> Option<usize> {
        let mark = mark_of(state, placed);
        self.by_mark.get(&mark).copied()
    }

    /// Keeps the place of a node.
    pub fn add<C, M: Machine<C>>(
        &mut self,
        node: &Node<M>,
        place: usize,
    ) -> Result<(), AllocError> {
        let mark = mark_of(&node.state, &node.placed);
        let _ = self.by_mark.insert(mark, place)?;
        Ok(())
    }
}
