ghost use Rattle.std.specs.Prelude.{◌≡◌, ◌↔◌, ℕ, IsTrue, IfOk, [], ◌∷◌, Option, None};
ghost use Rattle.disp_model.specs.declared.tree.TreeNode.TheVariants.{Leaf as LeafNode};
ghost use Rattle.disp_model.specs.declared.settings.Rule.{Rule as RuleOf};
ghost use Rattle.disp_model.specs.Node.{Node, node_at};
ghost use Rattle.event_graph.specs.Joined.{IsOfEdition};
ghost use Rattle.node_leaves.specs.Reckoned.{ReckonsFor};
ghost use Rattle.share_bound.specs.Known.{HoldFor};
ghost use Rattle.tree_dives.specs.Dives.{IsDive};
ghost use Rattle.tree_dives.specs.Guides.{GuidesIn};
ghost use Rattle.search_workers.specs.declared.growth.Growth.TheVariants.{Subtree};
ghost use Rattle.search_workers.specs.Grown.{IsGrownOf};
ghost use Rattle.near_plans.specs.Plans.{IsBeside};

use crate::walk::go_to;
use disp_model::{Leaf, List, Memory, Plan, Problem, TreeNode};
use event_graph::Graph;
use node_leaves::Reckoning;
use open_nodes::Work;
use packed_nodes::PackedNode;
use share_bound::KnownShares;
use std::alloc::Global;
use tree_dives::{Dive, End, Guide, dive};

/// What a searcher makes of a leaf.
#[derive(Drop)]
pub enum Growth {
    /// Packed nodes in preorder, the bounds of the leaves among them, and a plan if one was found.
    Subtree {
        nodes: List<PackedNode>,
        bounds: List<u64>,
        plan: Option<Plan>,
    },
    /// No branch was allowed: the leaf stays as it is, and is examined.
    Examined,
}

/// A leaf with the bound 0. Fails for memory alone.
pub fn leaf_alone(alloc: Global, leaf: Leaf) -> Result<Growth, Memory>
    ensures { IfOk result (λ growth. growth ≡ Subtree (LeafNode leaf ∷ []) (0 ∷ []) None) }
{
    let node = PackedNode::pack(alloc, TreeNode::Leaf(leaf))?;
    Ok(Growth::Subtree {
        nodes: List::from_vec(vec![in alloc; node]?),
        bounds: List::from_vec(vec![in alloc; 0]?),
        plan: None,
    })
}

/// How many nodes came of a work.
pub(crate) fn size_of(growth: &Result<Growth, Memory>) -> u64 {
    match growth {
        Ok(Growth::Subtree { nodes, .. }) => nodes.len() as u64,
        _ => 1,
    }
}

/// Whether no branch was allowed, and a bound is the one there is.
fn is_as_before(allowance: u32, bounds: &[u64], bound: u64) -> bool
    ensures { IsTrue result ↔ ((allowance ≡ 0) × (bounds.now ≡ bound ∷ [])) }
{
    match bounds {
        [only] => allowance == 0 && *only == bound,
        _ => false,
    }
}

/// What a dive makes of a leaf with a kept bound.
fn of_dive(found: Dive, allowance: u32, bound: u64) -> Growth
    ensures { (rule : RuleOf) (node : Node) (best : Option ℕ) → IsOfEdition node
        → IsDive rule node best allowance found
        → IsGrownOf rule node best allowance bound result }
{
    let Dive { nodes, bounds, end } = found;
    match end {
        End::Closed => Growth::Subtree {
            nodes,
            bounds,
            plan: None,
        },
        End::Plan(plan) => Growth::Subtree {
            nodes,
            bounds,
            plan: Some(plan),
        },
        End::Open => {
            if is_as_before(allowance, bounds.as_slice(), bound) {
                return Growth::Examined;
            }
            Growth::Subtree {
                nodes,
                bounds,
                plan: None,
            }
        }
    }
}

/// Grows the leaf of a work, by a dive from its node along a guide, where what branches costs less
/// than this best, as does a plan that is found. Where the node is not reached, a leaf shows that
/// it is dead. What is known of shares holds where the graph is then, and what the guide keeps is
/// of the problem.
///
/// # Errors
///
/// `Memory` where memory runs out.
pub fn grow(
    alloc: Global,
    problem: &Problem,
    reckoning: &Reckoning,
    graph: &mut Graph,
    known: &mut KnownShares,
    work: &Work,
    best: Option<u64>,
    guide: &mut Guide,
) -> Result<Growth, Memory>
    requires problem { graph.old.problem ≡ problem.now }
    requires edition { IsOfEdition graph.old }
    requires reckons { ReckonsFor problem.now reckoning.now }
    requires known { HoldFor graph.old known.old }
    requires guide { GuidesIn problem.now guide.old }
    ensures known { HoldFor graph.new known.new }
    ensures guide { GuidesIn problem.now guide.new }
    ensures beside { IsBeside graph.old graph.new }
    ensures grown { IfOk result (IsGrownOf reckoning.now.rule
        (node_at graph.old.problem graph.old.fixings work.now.decisions) best work.now.allowance
        work.now.bound) }
{
    if let Some(leaf) = go_to(graph, known, work.decisions.as_slice())? {
        return leaf_alone(alloc, leaf);
    }
    let found = dive(
        alloc,
        problem,
        reckoning,
        graph,
        known,
        best,
        work.allowance,
        guide,
    )?;
    Ok(of_dive(found, work.allowance, work.bound))
}
