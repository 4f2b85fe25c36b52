ghost use Rattle.std.specs.Prelude.{◌≡◌, ◌++◌, ◌∷◌, [], IfOk, OnOk, reverse};
ghost use Rattle.disp_model.specs.declared.tree.TreeNode.TheVariants.{Branch, Leaf as LeafNode};
ghost use Rattle.tree_dives.specs.Leaves.{leaf_held, bound_in};

use disp_model::{Choice, Memory, TreeNode};
use node_leaves::NodeLeaf;
use packed_nodes::PackedNode;
use std::alloc::Global;

/// Nodes of a tree in preorder, each packed as soon as it is made, and the bounds that are kept for
/// the leaves among them.
#[derive(Drop)]
pub(crate) struct Grown {
    pub nodes: Vec<PackedNode>,
    pub bounds: Vec<u64>,
}

/// No nodes.
pub(crate) fn nothing(alloc: Global) -> Grown
    ensures nodes { result.nodes.items ≡ [] }
    ensures bounds { result.bounds.items ≡ [] }
{
    Grown {
        nodes: Vec::new(alloc),
        bounds: Vec::new(alloc),
    }
}

/// A node as it is kept among others.
fn packed(grown: &Grown, node: TreeNode) -> Result<PackedNode, Memory>
    ensures { IfOk result (λ packed. packed ≡ node) }
{
    PackedNode::pack(*grown.nodes.allocator(), node)
}

/// Adds a branch behind the others.
pub(crate) fn push_branch(grown: &mut Grown, choice: Choice, children: u32) -> Result<(), Memory>
    ensures nodes { OnOk result
        (grown.new.nodes.items ≡ grown.old.nodes.items ++ Branch choice children ∷ []) }
    ensures bounds { OnOk result (grown.new.bounds.items ≡ grown.old.bounds.items) }
{
    let branch = packed(grown, TreeNode::Branch { choice, children })?;
    grown.nodes.push(branch)?;
    Ok(())
}

/// Adds a leaf behind the others, as its node shows it.
pub(crate) fn push_leaf(grown: &mut Grown, shown: NodeLeaf) -> Result<(), Memory>
    ensures nodes { OnOk result
        (grown.new.nodes.items ≡ grown.old.nodes.items ++ LeafNode (leaf_held shown) ∷ []) }
    ensures bounds { OnOk result
        (grown.new.bounds.items ≡ grown.old.bounds.items ++ bound_in shown ∷ []) }
{
    let (leaf, bound) = match shown {
        NodeLeaf::Dead(leaf) => (leaf, 0),
        NodeLeaf::Open { leaf, bound } => (leaf, bound),
    };
    let leaf = packed(grown, TreeNode::Leaf(leaf))?;
    grown.nodes.push(leaf)?;
    grown.bounds.push(bound)?;
    Ok(())
}

/// Adds nodes behind the others.
pub(crate) fn append(grown: &mut Grown, more: Grown) -> Result<(), Memory>
    ensures nodes { OnOk result
        (grown.new.nodes.items ≡ grown.old.nodes.items ++ more.nodes.items) }
    ensures bounds { OnOk result
        (grown.new.bounds.items ≡ grown.old.bounds.items ++ more.bounds.items) }
{
    let Grown {
        mut nodes,
        mut bounds,
    } = more;
    grown.nodes.append(&mut nodes)?;
    grown.bounds.append(&mut bounds)?;
    Ok(())
}

/// Adds nodes behind the others, the last one first.
pub(crate) fn append_back(grown: &mut Grown, more: Grown) -> Result<(), Memory>
    ensures nodes { OnOk result
        (grown.new.nodes.items ≡ grown.old.nodes.items ++ reverse more.nodes.items) }
    ensures bounds { OnOk result
        (grown.new.bounds.items ≡ grown.old.bounds.items ++ reverse more.bounds.items) }
{
    let Grown {
        mut nodes,
        mut bounds,
    } = more;
    nodes.reverse();
    bounds.reverse();
    append(grown, Grown { nodes, bounds })
}
