ghost use Rattle.std.specs.Prelude.{◌≡◌, IfOk};
ghost use Rattle.disp_model.specs.declared.settings.Rule.TheVariants.{Free};
ghost use Rattle.disp_model.specs.Node.{Node, with_decision};
ghost use Rattle.disp_model.specs.Nodes.{IsDead};
ghost use Rattle.share_bound.specs.Free.{IsFreeBound};
ghost use Rattle.share_bound.specs.Known.{HoldFor};
ghost use Rattle.node_leaves.specs.Reckoned.{ReckonsFor};
ghost use Rattle.node_leaves.specs.Shown.{IsLeafOf};

use crate::reckoning::Reckoning;
use crate::refused::refused_leaf;
use cost_bound::{bound, longest_walk};
use disp_model::{Decision, Leaf, Memory, Problem, Rule};
use event_graph::Graph;
use share_bound::{FreeBound, KnownShares};
use share_leaves::short_bound;
use std::alloc::Global;

/// What a node shows as a leaf of the tree.
#[derive(Drop)]
pub enum NodeLeaf {
    /// The node is dead, as this leaf shows under any verdict.
    Dead(Leaf),
    /// The node is not dead, and no valid plan that follows its decisions costs less than this, as
    /// the leaf shows.
    Open { leaf: Leaf, bound: u64 },
}

/// The leaf that shows a bound under the free rule. Without trains it is one of costs alone.
fn free_leaf(shown: FreeBound) -> NodeLeaf
    ensures { (node : Node) → (IsDead node → ⊥) → IsFreeBound node shown
        → IsLeafOf Free node result }
{
    let FreeBound {
        cost,
        walks,
        trains,
    } = shown;
    if trains.len() == 0 {
        return NodeLeaf::Open {
            leaf: Leaf::Costs(walks),
            bound: cost,
        };
    }
    NodeLeaf::Open {
        leaf: Leaf::Shares { walks, trains },
        bound: cost,
    }
}

/// The leaf of a node that is not dead.
fn open_leaf(
    alloc: Global,
    problem: &Problem,
    reckoning: &Reckoning,
    graph: &Graph,
    known: &mut KnownShares,
) -> Result<NodeLeaf, Memory>
    requires node { graph.now.problem ≡ problem.now }
    requires reckons { ReckonsFor problem.now reckoning.now }
    requires alive { IsDead graph.now → ⊥ }
    requires known { HoldFor graph.now known.old }
    ensures known { HoldFor graph.now known.new }
    ensures leaf { IfOk result (IsLeafOf reckoning.now.rule graph.now) }
{
    match reckoning.rule {
        Rule::Fixed => {
            let shown = bound(alloc, problem, graph)?;
            Ok(NodeLeaf::Open {
                leaf: Leaf::Costs(shown.walks),
                bound: shown.cost,
            })
        }
        Rule::Free => {
            let shown = short_bound(alloc, problem, &reckoning.components, graph, known)?;
            Ok(free_leaf(shown))
        }
    }
}

/// What the node of a graph shows by a rule: a walk to a late operation, where there is one, and
/// otherwise its bound. Fails for memory alone.
pub fn leaf_of(
    alloc: Global,
    problem: &Problem,
    reckoning: &Reckoning,
    graph: &Graph,
    known: &mut KnownShares,
) -> Result<NodeLeaf, Memory>
    requires node { graph.now.problem ≡ problem.now }
    requires reckons { ReckonsFor problem.now reckoning.now }
    requires known { HoldFor graph.now known.old }
    ensures known { HoldFor graph.now known.new }
    ensures leaf { IfOk result (IsLeafOf reckoning.now.rule graph.now) }
{
    match graph.late() {
        Some(op) => Ok(NodeLeaf::Dead(Leaf::Late(longest_walk(alloc, graph, op)?))),
        None => open_leaf(alloc, problem, reckoning, graph, known),
    }
}

/// What the node shows by a rule to which a decision leads, where what is known holds for that
/// node.
fn leaf_below(
    alloc: Global,
    problem: &Problem,
    reckoning: &Reckoning,
    graph: &mut Graph,
    known: &mut KnownShares,
    decision: Decision,
) -> Result<NodeLeaf, Memory>
    requires node { graph.old.problem ≡ problem.now }
    requires reckons { ReckonsFor problem.now reckoning.now }
    requires known { HoldFor (with_decision graph.old decision) known.old }
    ensures same { graph.new ≡ graph.old }
    ensures known { HoldFor (with_decision graph.old decision) known.new }
    ensures leaf { IfOk result
        (IsLeafOf reckoning.now.rule (with_decision graph.old decision)) }
{
    match graph.extend(decision) {
        Ok(()) => {
            let leaf = leaf_of(alloc, problem, reckoning, graph, known);
            graph.undo();
            leaf
        }
        Err(no) => Ok(NodeLeaf::Dead(refused_leaf(no)?)),
    }
}

/// What the node shows by a rule to which a decision leads from that of the graph. The graph is as
/// before. Fails for memory alone.
pub fn child_leaf(
    alloc: Global,
    problem: &Problem,
    reckoning: &Reckoning,
    graph: &mut Graph,
    known: &mut KnownShares,
    decision: Decision,
) -> Result<NodeLeaf, Memory>
    requires node { graph.old.problem ≡ problem.now }
    requires reckons { ReckonsFor problem.now reckoning.now }
    requires known { HoldFor graph.old known.old }
    ensures same { graph.new ≡ graph.old }
    ensures known { HoldFor graph.old known.new }
    ensures leaf { IfOk result
        (IsLeafOf reckoning.now.rule (with_decision graph.old decision)) }
{
    let aside = known.set_aside(decision);
    let leaf = leaf_below(alloc, problem, reckoning, graph, known, decision);
    known.put_back(decision, aside);
    leaf
}
