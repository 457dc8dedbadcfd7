//! A chain of whole numbers as a tree, with sources as its leaves and operators above them.
ghost use Rattle.std.specs.Prelude.{◌≡◌, ◌≢◌, ◌≤◌, ℤ, true, false};
ghost use Rattle.flow_law.specs.declared.chain.ChainFault.{ChainFault};
ghost use Rattle.flow_law.specs.chain.ChainRun.{ChainRun, gives};
ghost use Rattle.flow_law.specs.chain.OperatorRuns.{zip_run};
ghost use Rattle.flow_cold.specs.declared.script_chain.node.Node.{size-Node};
ghost use Rattle.flow_operators.specs.declared.cold.Asked.{Asked};
ghost use Rattle.flow_operators.specs.Asking.{AskGives, IsFinal};
ghost use Rattle.flow_operators.specs.Behind.{AsksLeft, AsksOnce, AsksRight, Leaves};
ghost use Rattle.flow_operators.specs.Kept.{with_kept};
ghost use Rattle.flow_cold.specs.Answers.{asked_of};
ghost use Rattle.flow_cold.specs.Numbers.{joined};
ghost use Rattle.flow_cold.specs.OperatorAsks.{after_stage};
ghost use Rattle.flow_cold.specs.Operators.{IsStageOver, operator_whole, stage_rest};
ghost use Rattle.flow_cold.specs.Pairing.{pairing_rest};
ghost use Rattle.flow_cold.specs.ScriptChain.{IsNodeOver, NodeAsksBehind, node_depth, node_rest, node_whole};

use crate::script_chain::answer::Answer;
use crate::script_chain::op::Source;
use crate::script_chain::operator::Operator;
use crate::script_chain::pairing::Pairing;

/// How an ask of an operator begins.
#[derive(Clone, Copy)]
pub enum Phase {
    /// It asks the upstream.
    Ready,
    /// It emits what it holds back.
    Holding,
    /// It answers the end, and does not ask the upstream.
    Over,
}

/// An operator in a chain.
#[derive(Drop)]
pub struct Stage {
    pub operator: Operator,
    pub phase: Phase,
}

/// A source, an operator on an upstream, or a zip of two.
// With three variants the compiler compares, beginning with the last one, instead of jumping by a table.
#[derive(Drop)]
pub enum Node {
    Source(Source),
    Zip(Box<Node>, Box<Node>, Pairing),
    On(Box<Node>, Stage),
}

/// Returns the chain's next answer.
// Not inlined: each node costs one call, which saves one register, since an ask finds all that it needs from the node.
#[cycle(asking)]
#[inline(never)]
pub fn ask_node(node: &mut Node) -> Answer
    ensures whole { node_whole node.new ≡ node_whole node.old }
    ensures gives { AskGives (node_rest node.old) (asked_of result) (node_rest node.new) }
    ensures over { IsFinal (asked_of result) → IsNodeOver node.new }
    ensures behind { (¬ IsNodeOver node.old) → NodeAsksBehind node.old (asked_of result) node.new }
    // So a `take` that has emitted its last item does not change its upstream.
    ensures end { IsNodeOver node.old → (result ≡ Answer.End) × node.new ≡ node.old }
    ensures depth { node_depth node.new ≡ node_depth node.old }
    ensures size { size-Node node.new ≤ size-Node node.old }
    ensures given { asked_of result ≢ Asked.Fault ChainFault.OutOfMemory }
{
    match node {
        Node::Source(source) => source.ask(),
        Node::Zip(left, right, pairing) => ask_pair(left, right, pairing),
        Node::On(upstream, stage) => ask_stage(upstream, stage),
    }
}

/// Returns the next answer of an operator. Asks its upstream until the operator has an answer.
#[cycle(asking)]
#[inline(always)]
fn ask_stage(upstream: &mut Box<Node>, stage: &mut Stage) -> Answer
    ensures whole { node_whole upstream.new.value ≡ node_whole upstream.old.value }
    ensures operator { (r : ChainRun ℤ)
        → operator_whole stage.new.operator r ≡ operator_whole stage.old.operator r }
    ensures gives { AskGives (stage_rest stage.old (node_rest upstream.old.value)) (asked_of result)
        (stage_rest stage.new (node_rest upstream.new.value)) }
    ensures over { IsFinal (asked_of result) → IsStageOver stage.new }
    ensures behind { Leaves (after_stage stage.old (node_rest upstream.old.value)) (asked_of result)
        (node_rest upstream.new.value) }
    ensures depth { node_depth upstream.new.value ≡ node_depth upstream.old.value }
    ensures end { IsStageOver stage.old
        → (result ≡ Answer.End) × upstream.new ≡ upstream.old × stage.new ≡ stage.old }
    ensures size { size-Node upstream.new.value ≤ size-Node upstream.old.value }
    ensures given { asked_of result ≢ Asked.Fault ChainFault.OutOfMemory }
{
    loop {
        if let Some(answer) = stage.next_alone() {
            return answer;
        }
        let asked = ask_node(upstream);
        if let Some(answer) = stage.on_answer(asked) {
            return answer;
        }
    }
}

/// Returns the next answer of a zip: asks its left side, and then its right one.
// Not inlined: otherwise each ask of any node would save more registers, which only zips need.
#[cycle(asking)]
#[inline(never)]
fn ask_pair(left: &mut Node, right: &mut Node, pairing: &mut Pairing) -> Answer
    ensures left { node_whole left.new ≡ node_whole left.old }
    ensures right { node_whole right.new ≡ node_whole right.old }
    ensures by { pairing.new.by ≡ pairing.old.by }
    ensures gives { AskGives (pairing_rest pairing.old (node_rest left.old) (node_rest right.old))
        (asked_of result) (pairing_rest pairing.new (node_rest left.new) (node_rest right.new)) }
    ensures over { IsFinal (asked_of result) → pairing.new.ended ≡ true }
    ensures behind_left { pairing.old.ended ≢ true
        → AsksLeft pairing.old.kept (node_rest left.old) (asked_of result) (node_rest left.new) }
    ensures behind_right { pairing.old.ended ≢ true
        → AsksRight (with_kept pairing.old.kept (node_rest left.old))
        (node_rest right.old) (asked_of result)
        (node_rest right.new) }
    ensures end { pairing.old.ended ≡ true
        → (result ≡ Answer.End) × left.new ≡ left.old ×
        right.new ≡ right.old × pairing.new ≡ pairing.old }
    ensures left_depth { node_depth left.new ≡ node_depth left.old }
    ensures right_depth { node_depth right.new ≡ node_depth right.old }
    ensures left_size { size-Node left.new ≤ size-Node left.old }
    ensures right_size { size-Node right.new ≤ size-Node right.old }
    ensures given { asked_of result ≢ Asked.Fault ChainFault.OutOfMemory }
{
    if pairing.ended {
        return Answer::End;
    }
    match pairing.kept {
        Some(first) => ask_right(right, pairing, first),
        None => match ask_node(left) {
            Answer::Item(first) => ask_right(right, pairing, first),
            answer => pairing.without_item(answer),
        },
    }
}

/// Returns the answer of a zip that has a left item: asks its right side.
#[cycle(asking)]
fn ask_right(right: &mut Node, pairing: &mut Pairing, first: i64) -> Answer
    requires { pairing.old.ended ≡ false }
    ensures whole { node_whole right.new ≡ node_whole right.old }
    ensures by { pairing.new.by ≡ pairing.old.by }
    ensures gives { (left : ChainRun ℤ)
        → AskGives (zip_run (joined pairing.old.by) (gives first left) (node_rest right.old))
        (asked_of result)
        (pairing_rest pairing.new left (node_rest right.new)) }
    ensures over { IsFinal (asked_of result) → pairing.new.ended ≡ true }
    ensures behind { AsksOnce (node_rest right.old) (asked_of result) (node_rest right.new) }
    ensures depth { node_depth right.new ≡ node_depth right.old }
    ensures size { size-Node right.new ≤ size-Node right.old }
    ensures given { asked_of result ≢ Asked.Fault ChainFault.OutOfMemory }
{
    let asked = ask_node(right);
    pairing.on_right(first, asked)
}

/// Starts the chain from the beginning.
pub fn rewind_node(node: &mut Node)
    ensures whole { node_whole node.new ≡ node_whole node.old }
    ensures rest { node_rest node.new ≡ node_whole node.old }
    ensures depth { node_depth node.new ≡ node_depth node.old }
{
    match node {
        Node::Source(source) => source.rewind(),
        Node::On(upstream, stage) => {
            stage.rewind();
            rewind_node(upstream);
        }
        Node::Zip(first, second, pairing) => {
            pairing.ended = false;
            pairing.kept = None;
            rewind_node(first);
            rewind_node(second);
        }
    }
}
