//! Chains of whole numbers that are built at run time.
ghost use Rattle.std.specs.Prelude.{◌≡◌, ◌≤◌};
ghost use Rattle.flow_cold.specs.ScriptChain.{node_depth};

mod answer;
mod build;
mod drop_while;
mod inner;
mod node;
mod numbers;
mod op;
mod operator;
mod pairing;
mod running_reduce;
mod source;
mod source_number;
mod stage;
mod state;

use crate::script_chain::node::Node;
pub use op::{Arithmetic, Joining, Op, Source, Spread, Test};

/// A chain of whole numbers, at most 64 deep.
///
/// A source is 1 deep. `then` adds an operator: it is one deeper than its upstream, and a zip one deeper than its
/// deeper side.
pub struct ScriptChain {
    pub(crate) depth: u32,
    pub(crate) node: Node,
    ghost exact: { depth ≡ node_depth node },
    ghost bounded: { depth ≤ 64 },
}

// Not derived: otherwise each crate that drops a chain would prove again how its operators are dropped.
impl Drop for ScriptChain {
    fn drop(self) {
        let Self { depth: _, node: _ } = self;
    }
}
