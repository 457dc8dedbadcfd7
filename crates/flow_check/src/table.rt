//! The nodes of a search, packed into words.
ghost use Rattle.std.specs.Prelude.{◌≡◌, Some, IfOk, IfSome, length, slice_get};
ghost use Rattle.flow_check.specs.Reached.{reached};
ghost use Rattle.flow_check.specs.Tables.{nodes_of};

use crate::machine::Machine;
use crate::node::{Node, Places};
use crate::words::{words_before, words_from};
use std::alloc::{AllocError, Global};
use std::marker::Model;

/// The nodes of a search, as words.
#[derive(Drop)]
pub struct Table<M> {
    /// A state of the flow, with which others are read.
    first: M,
    /// How many callers there are.
    callers: usize,
    words: Vec<u32>,
    /// The index at which the words of each node begin.
    begins: Vec<usize>,
    places: Places,
}

impl<M> Model for Table<M> {
    ghost use Rattle.std.specs.Prelude.{map, drop};
    ghost use Rattle.flow_check.specs.Tables.{Packed};

    ghost Value = { Packed M };

    ghost view = { λ t. record {
      first = t.first;
      callers = t.callers;
      rows = map (λ begin. drop begin t.words.items) t.begins.items;
    } };
}

fn begin_at(begins: &[usize], place: usize) -> Option<usize>
    ensures { result ≡ slice_get begins.now place }
{
    begins.get(place).copied()
}

impl<M> Table<M> {
    /// Makes a table that has no nodes.
    pub fn new(alloc: Global, first: M, callers: usize) -> Table<M> {
        Table {
            first,
            callers,
            words: Vec::new(alloc),
            begins: Vec::new(alloc),
            places: Places::new(alloc),
        }
    }

    /// Returns how many nodes there are.
    pub fn len(&self) -> usize
        ensures { result ≡ length self.now.rows }
    {
        self.begins.len()
    }

    /// Returns the node at this place.
    pub fn at<C>(&self, alloc: Global, place: usize) -> Result<Option<Node<M>>, AllocError>
    where
        M: Machine<C>,
        ensures { IfOk result (λ found. IfSome found (λ node.
            slice_get (nodes_of M.read self.now) place ≡ Some (reached node))) }
    {
        let Some(begin) = begin_at(self.begins.as_slice(), place) else {
            return Ok(None);
        };
        let row = words_from(self.words.as_slice(), begin);
        let placed = Vec::from_slice(alloc, words_before(row, self.callers))?;
        let state = self.first.read(alloc, words_from(row, self.callers))?;
        Ok(Some(Node { state, placed }))
    }

    /// Returns the place where a node with this state and these counts of calls may be.
    pub fn find<C>(&self, state: &M, placed: &Vec<u32>) -> Option<usize>
    where
        M: Machine<C>,
    {
        self.places.find(state, placed)
    }

    /// Adds a node, and returns its place.
    pub fn add<C>(&mut self, node: &Node<M>) -> Result<usize, AllocError>
    where
        M: Machine<C>,
    {
        let place = self.begins.len();
        self.places.add(node, place)?;
        self.begins.push(self.words.len())?;
        self.words.extend_from_slice(node.placed.as_slice())?;
        node.state.write(&mut self.words)?;
        Ok(place)
    }
}
