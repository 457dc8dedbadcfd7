//! Building a chain of whole numbers, and asking it.
ghost use Rattle.std.specs.Prelude.{◌≡◌, ◌≤◌, ⊤, ℕ, ℤ, IfOk, IfErr, MatchResult};
ghost use Rattle.flow_law.specs.chain.Chain.{meaning_of};
ghost use Rattle.flow_law.specs.chain.ChainRun.{ChainRun, asks};
ghost use Rattle.flow_cold.specs.Build.{AddsDepth, RefusesOp, RefusesDepth, TakesNone, depth_of, op_depth, op_meaning, op_rest, op_whole};
ghost use Rattle.flow_cold.specs.Part.{part_depth, part_rest, part_whole};
ghost use Rattle.flow_cold.specs.ScriptChain.{IsNodeOver, NodeAsksBehind, node_depth, node_rest, node_whole};
ghost use Rattle.flow_cold.specs.Sources.{source_rest, source_whole};
ghost use Rattle.flow_operators.specs.Bound.{unlimited};

use crate::script_chain::ScriptChain;
use crate::script_chain::drop_while::DroppingWhile;
use crate::script_chain::inner::{Following, Repeating};
use crate::script_chain::node::{Node, Stage, ask_node, rewind_node};
use crate::script_chain::op::{Joining, Op, Source, Spread};
use crate::script_chain::operator::Operator;
use crate::script_chain::pairing::Pairing;
use crate::script_chain::running_reduce::Reducing;
use crate::script_chain::state::{Adding, Comparing, Dropping, Mapping, Scanning, Taking};
use flow_law::ChainFault;
use flow_operators::{Asked, Cold};
use std::alloc::Global;

/// What an operator of a script becomes in the tree.
#[derive(Drop)]
pub enum Part {
    On(Operator),
    With(ScriptChain, Joining),
}

impl Op {
    /// Returns the depth of a chain with this operator on it.
    fn depth_on(&self, depth: u32) -> Result<u32, ChainFault>
        requires { depth ≤ 64 }
        ensures { MatchResult result (AddsDepth self.now depth) (RefusesDepth self.now depth) }
    {
        let deepest = match self {
            Op::Take(count) => {
                if *count == 0 {
                    return Err(ChainFault::NotPositive);
                }
                depth
            }
            Op::Zip { with, .. } => depth.max(with.depth),
            _ => depth,
        };
        if deepest >= 64 {
            return Err(ChainFault::TooDeep);
        }
        Ok(deepest + 1)
    }

    /// Returns the operator in its first state.
    fn begun(self) -> Part
        requires { ¬ TakesNone self }
        ensures whole { (r : ChainRun ℤ) → part_whole result r ≡ op_whole self r }
        ensures rest { (r : ChainRun ℤ) → part_rest result r ≡ op_rest self r }
        ensures depth { (depth : ℕ) → part_depth result depth ≡ op_depth self depth }
    {
        let operator = match self {
            Op::Map { by, k } => Operator::Map(Mapping { by, k }),
            Op::Filter(test) => Operator::Filter(test),
            Op::TakeWhile(test) => Operator::TakeWhile(test),
            Op::Transform(entries) => Operator::Transform(Adding::new(entries)),
            Op::Take(count) => Operator::Take(Taking::new(count)),
            Op::DropFirst(count) => Operator::DropFirst(Dropping { count, left: count }),
            Op::DropWhile(test) => Operator::DropWhile(DroppingWhile {
                test,
                dropping: true,
            }),
            Op::RunningReduce(by) => Operator::RunningReduce(Reducing { by, last: None }),
            Op::Scan { from, by } => Operator::Scan(Scanning {
                initial: from,
                by,
                begun: false,
                last: from,
            }),
            Op::FlatMap { to, count } => match to {
                Spread::Range => Operator::FlatMapRange(Following::new(count)),
                Spread::Repeat => Operator::FlatMapRepeat(Repeating {
                    count,
                    item: 0,
                    left: 0,
                }),
            },
            Op::Zip { with, by } => return Part::With(with, by),
            Op::Distinct => Operator::Distinct(Comparing { last: None }),
        };
        Part::On(operator)
    }
}

impl Part {
    /// Returns the tree with the upstream below this part.
    fn joined(self, alloc: Global, upstream: Box<Node>) -> Result<Node, ChainFault>
        ensures whole { IfOk result (λ node.
            node_whole node ≡ part_whole self (node_whole upstream.value)) }
        ensures rest { IfOk result (λ node.
            node_rest node ≡ part_rest self (node_rest upstream.value)) }
        ensures depth { IfOk result (λ node.
            node_depth node ≡ part_depth self (node_depth upstream.value)) }
        ensures refused { IfErr result (λ fault. fault ≡ ChainFault.OutOfMemory) }
    {
        match self {
            Part::On(operator) => Ok(Node::On(upstream, Stage::new(operator))),
            Part::With(with, by) => {
                match Box::new(alloc, with.into_node()) {
                    Ok(right) => Ok(Node::Zip(upstream, right, Pairing::new(by))),
                    Err(_) => Err(ChainFault::OutOfMemory),
                }
            }
        }
    }
}

impl ScriptChain {
    fn into_node(self) -> Node
        ensures { result ≡ self.node }
    {
        let Self { depth: _, node } = self;
        node
    }

    /// Makes a chain of a source.
    pub fn source(source: Source) -> ScriptChain
        ensures given { ⟦<ScriptChain as Cold>⟧.IsGiven result }
        ensures whole { ⟦<ScriptChain as Cold>⟧.whole result tt ≡ source_whole source }
        ensures rest { ⟦<ScriptChain as Cold>⟧.rest result tt ≡ source_rest source }
        ensures depth { depth_of result ≡ 1 }
    {
        ScriptChain {
            depth: 1,
            node: Node::Source(source),
        }
    }

    /// Adds an operator.
    ///
    /// # Errors
    /// `NotPositive` for a `take` of nothing, else `TooDeep` for a chain over 64 deep, else `OutOfMemory`. The chain
    /// and the operator are dropped.
    #[tactic(auto, using(crate::proofs::OpLemmas::op_means))]
    pub fn then(self, alloc: Global, op: Op) -> Result<ScriptChain, ChainFault>
        ensures given { IfOk result (λ chain. ⟦<ScriptChain as Cold>⟧.IsGiven chain) }
        ensures whole { IfOk result (λ chain. ⟦<ScriptChain as Cold>⟧.whole chain tt
            ≡ op_whole op (⟦<ScriptChain as Cold>⟧.whole self tt)) }
        ensures meaning { IfOk result (λ chain. meaning_of (⟦<ScriptChain as Cold>⟧.whole chain tt)
            ≡ op_meaning op (meaning_of (⟦<ScriptChain as Cold>⟧.whole self tt))) }
        ensures rest { IfOk result (λ chain. ⟦<ScriptChain as Cold>⟧.rest chain tt
            ≡ op_rest op (⟦<ScriptChain as Cold>⟧.rest self tt)) }
        ensures depth { MatchResult result (λ chain. AddsDepth op (depth_of self) (depth_of chain))
            (RefusesOp op self) }
    {
        let depth = op.depth_on(self.depth)?;
        let upstream = match Box::new(alloc, self.into_node()) {
            Ok(upstream) => upstream,
            Err(_) => return Err(ChainFault::OutOfMemory),
        };
        let node = op.begun().joined(alloc, upstream)?;
        Ok(ScriptChain { depth, node })
    }
}

impl Cold for ScriptChain {
    type Item = i64;

    ghost Reading = { ⊤ };

    ghost CanAsk = { λ _. ⊤ };

    ghost Reads = { λ _ _. ⊤ };

    ghost whole = { λ s _. node_whole s.node };

    ghost rest = { λ s _. node_rest s.node };

    ghost bound = { unlimited (λ s. asks (node_rest s.node)) };

    ghost IsOver = { λ s. IsNodeOver s.node };

    // Its items are numbers, and its nodes take no memory while it is asked.
    ghost IsGiven = { λ _. ⊤ };

    ghost AsksBehind = { λ old _ result new. NodeAsksBehind old.node result new.node };

    fn ask(&mut self) -> Asked<i64> {
        ask_node(&mut self.node).asked()
    }

    fn rewind(&mut self) {
        rewind_node(&mut self.node);
    }

    ghost limited = { λ never s. absurd never };
}
