ghost use Rattle.std.specs.Prelude.{◌≡◌, ◌<◌, ◌∷◌, ◌++◌, [], IfOk, OnOk, drop, length, reverse};
ghost use Rattle.disp_model.specs.Node.{node_at};
ghost use Rattle.open_nodes.specs.Grafts.{FillPlaces};
ghost use Rattle.tree_growth.specs.Left.{IsLeafLeft, AreLeft};
ghost use Rattle.dispatch_core.specs.Pending.{lists_below, IsNextOf, LeavesPending, LeavesLeaf};

use disp_model::{Copied, Decision, Fixing, Leaf, List, Memory, Problem, TreeNode, Verdict};
use packed_nodes::PackedNode;
use std::alloc::Global;
use tree_checker::{check_leaf, decisions_below};

/// Nodes in preorder, and the bounds of the leaves among them.
#[derive(Drop)]
pub(crate) struct Left {
    pub nodes: Vec<PackedNode>,
    pub bounds: Vec<u64>,
}

/// A leaf and its bound; where it does not hold for the bound, the empty list of walks and 0.
fn leaf_left(
    alloc: Global,
    problem: &Problem,
    fixings: &[Fixing],
    decisions: &[Decision],
    leaf: Leaf,
    bound: u64,
) -> Result<(Leaf, u64), Memory>
    ensures { IfOk result (λ left.
        IsLeafLeft (node_at problem.now fixings.now decisions.now) leaf bound left.0 left.1) }
{
    let verdict = Verdict::Optimal(bound);
    if check_leaf(alloc, problem, fixings, decisions, verdict, &leaf)? {
        Ok((leaf, bound))
    } else {
        Ok((Leaf::Costs(List::new(alloc)), 0))
    }
}

/// Puts the lists of decisions that lead to children behind those that are pending, the one to the
/// first child last.
fn push_below(
    pending: &mut Vec<List<Decision>>,
    above: &List<Decision>,
    children: &[Decision],
) -> Result<(), Memory>
    ensures { OnOk result (pending.new.items
        ≡ pending.old.items ++ reverse (lists_below above.now children.now)) }
{
    for left in (0..children.len()).rev() {
        let mut decisions = above.copy()?;
        decisions.push(children[left])?;
        pending.push(decisions)?;
    }
    Ok(())
}

/// Puts what is left of a leaf and of its bound, the first that is not looked at, behind the rest.
fn leave_leaf(
    alloc: Global,
    problem: &Problem,
    fixings: &[Fixing],
    bounds: &[u64],
    above: &List<Decision>,
    leaf: Leaf,
    left: &mut Left,
) -> Result<(), Memory>
    requires { length left.old.bounds.items < length bounds.now }
    ensures { OnOk result (LeavesLeaf problem.now fixings.now bounds.now above.now leaf
        left.old.nodes.items left.new.nodes.items left.old.bounds.items left.new.bounds.items) }
{
    let bound = bounds[left.bounds.len()];
    let (leaf, bound) = leaf_left(alloc, problem, fixings, above.as_slice(), leaf, bound)?;
    left.nodes
        .push(PackedNode::pack(alloc, TreeNode::Leaf(leaf))?)?;
    left.bounds.push(bound)?;
    Ok(())
}

/// Looks at the node of the next place: what is left of it is put behind the rest, and the places
/// of its children become pending.
fn leave(
    alloc: Global,
    problem: &Problem,
    fixings: &[Fixing],
    bounds: &[u64],
    node: TreeNode,
    pending: &mut Vec<List<Decision>>,
    left: &mut Left,
) -> Result<(), Memory>
    requires { IsNextOf problem.now pending.old.items node
        (drop (length left.old.bounds.items) bounds.now) }
    ensures { OnOk result (LeavesPending problem.now fixings.now bounds.now node
        pending.old.items pending.new.items left.old.nodes.items left.new.nodes.items
        left.old.bounds.items left.new.bounds.items) }
{
    let Some(above) = pending.pop() else {
        return Ok(());
    };
    match node {
        TreeNode::Branch { choice, children } => {
            let branch = TreeNode::Branch { choice, children };
            let below = decisions_below(alloc, problem, &branch)?;
            push_below(pending, &above, below.as_slice())?;
            left.nodes.push(PackedNode::pack(alloc, branch)?)?;
            Ok(())
        }
        TreeNode::Leaf(leaf) => {
            leave_leaf(alloc, problem, fixings, bounds, &above, leaf, left)?;
            Ok(())
        }
    }
}

/// What is left of nodes that grow below decisions, where leaves are to hold under fixings.
pub(crate) fn left_of(
    alloc: Global,
    problem: &Problem,
    fixings: &[Fixing],
    decisions: &List<Decision>,
    nodes: &[PackedNode],
    bounds: &[u64],
) -> Result<Left, Memory>
    requires { FillPlaces problem.now 1 nodes.now bounds.now }
    ensures { IfOk result (λ left.
        AreLeft (node_at problem.now fixings.now decisions.now ∷ []) nodes.now bounds.now
        left.nodes.items left.bounds.items) }
{
    let mut left = Left {
        nodes: Vec::new(alloc),
        bounds: Vec::new(alloc),
    };
    let mut pending = Vec::new(alloc);
    pending.push(decisions.copy()?)?;
    for packed in nodes {
        let node = packed.node(alloc)?;
        leave(
            alloc,
            problem,
            fixings,
            bounds,
            node,
            &mut pending,
            &mut left,
        )?;
    }
    Ok(left)
}
