ghost use Rattle.std.specs.Prelude.{◌≡◌};
ghost use Rattle.disp_model.specs.declared.tree.TreeNode.TheVariants.{Leaf as LeafNode};
ghost use Rattle.packed_nodes.specs.Kept.{dead_leaf, open_leaf};
ghost use Rattle.packed_nodes.specs.Outlines.{outline_of};

use disp_model::{Choice, Leaf, List};
use std::alloc::Global;

/// What a node is, without what it lists.
#[derive(Clone, Copy)]
pub enum Outline {
    /// A branch by this choice.
    Branch(Choice),
    /// A leaf that is known dead.
    Dead,
    /// Another leaf.
    Open,
}

/// What a leaf is.
pub(crate) fn outline_of_leaf(leaf: &Leaf) -> Outline
    ensures { result ≡ outline_of (LeafNode leaf.now) }
{
    match leaf {
        Leaf::NoRoute | Leaf::Cycle(_) | Leaf::Late(_) => Outline::Dead,
        Leaf::Costs(_) | Leaf::Shares { .. } => Outline::Open,
    }
}

/// A leaf that is known dead; in place of another, one that shows nothing.
pub(crate) fn dead(leaf: Leaf) -> Leaf
    ensures { result ≡ dead_leaf leaf }
{
    match leaf {
        Leaf::Cycle(ops) => Leaf::Cycle(ops),
        Leaf::Late(walk) => Leaf::Late(walk),
        _ => Leaf::NoRoute,
    }
}

/// A leaf that is not known dead; in place of one that is, one that shows no walks.
pub(crate) fn open(alloc: Global, leaf: Leaf) -> Leaf
    ensures { result ≡ open_leaf leaf }
{
    match leaf {
        Leaf::Costs(walks) => Leaf::Costs(walks),
        Leaf::Shares { walks, trains } => Leaf::Shares { walks, trains },
        _ => Leaf::Costs(List::new(alloc)),
    }
}
