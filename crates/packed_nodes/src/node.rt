ghost use Rattle.std.specs.Prelude.{ℕ, List, ◌≡◌, Some, IfOk, IfSome};
ghost use Rattle.disp_model.specs.declared.tree.TreeNode.TheVariants.{Leaf as LeafNode};
ghost use Rattle.packed_nodes.specs.Kept.{found_leaf, node_in};
ghost use Rattle.packed_nodes.specs.Outlines.{outline_of};
ghost use Rattle.packed_nodes.specs.Packed.{packed_leaf_at};

use crate::check::behind_leaf;
use crate::outline::{Outline, dead, open, outline_of_leaf};
use crate::read::leaf_at;
use crate::unread::Unread;
use crate::write::written;
use disp_model::{Choice, Copied, Leaf, Memory, TreeNode};
use std::alloc::Global;
use std::marker::Model;

/// How a node is kept: a leaf as it is, or as its bytes, beside which it is told whether it is known
/// dead.
#[derive(Drop)]
enum Stored {
    Branch { choice: Choice, children: u32 },
    Plain(Box<Leaf>),
    Dead(Vec<u8>),
    Open(Vec<u8>),
}

/// A node of a tree that is kept in little memory. Contracts see the node.
#[derive(Drop)]
pub struct PackedNode {
    stored: Stored,
}

impl Model for PackedNode {
    ghost use Rattle.disp_model.specs.declared.tree.TreeNode.{TreeNode};
    ghost use Rattle.packed_nodes.specs.Kept.{node_in};

    ghost Value = { TreeNode };

    ghost view = { λ p. node_in p.stored };
}

/// Bytes that say a leaf, where there are such and memory for them.
fn packed(alloc: Global, leaf: &Leaf) -> Option<Vec<u8>>
    ensures { IfSome result (λ bytes.
        (rest : List ℕ) × (packed_leaf_at bytes.items ≡ Some (leaf.now, rest))) }
{
    let bytes = written(alloc, leaf)?;
    match behind_leaf(&bytes, leaf) {
        Some(_) => Some(bytes),
        None => None,
    }
}

/// How a leaf is kept that these bytes say.
fn stored_as(leaf: &Leaf, bytes: Vec<u8>) -> Stored
    requires { (rest : List ℕ) × (packed_leaf_at bytes.items ≡ Some (leaf.now, rest)) }
    ensures { node_in result ≡ LeafNode leaf.now }
{
    match leaf {
        Leaf::NoRoute | Leaf::Cycle(_) | Leaf::Late(_) => Stored::Dead(bytes),
        Leaf::Costs(_) | Leaf::Shares { .. } => Stored::Open(bytes),
    }
}

/// How a leaf is kept.
fn kept_leaf(alloc: Global, leaf: Leaf) -> Result<Stored, Memory>
    ensures { IfOk result (λ stored. node_in stored ≡ LeafNode leaf) }
{
    match packed(alloc, &leaf) {
        Some(bytes) => Ok(stored_as(&leaf, bytes)),
        None => Ok(Stored::Plain(Box::new(alloc, leaf)?)),
    }
}

/// The leaf that bytes say; where they say none, one that shows nothing.
fn said(alloc: Global, bytes: &[u8]) -> Result<Leaf, Memory>
    ensures { IfOk result (λ leaf. leaf ≡ found_leaf (packed_leaf_at bytes.now)) }
{
    match leaf_at(alloc, bytes) {
        Ok((leaf, _)) => Ok(leaf),
        Err(Unread::Nothing) => Ok(Leaf::NoRoute),
        Err(Unread::Memory) => Err(Memory),
    }
}

impl PackedNode {
    /// Keeps a node. Takes time and memory linear in what it lists, some two bytes an operation
    /// where numbers are small, but for operations that a walk shares with the front of the walk
    /// before it, up to 15, which take none.
    ///
    /// # Errors
    ///
    /// `Memory` where memory runs out.
    pub fn pack(alloc: Global, node: TreeNode) -> Result<PackedNode, Memory>
        ensures { IfOk result (λ packed. packed ≡ node) }
    {
        let stored = match node {
            TreeNode::Leaf(leaf) => kept_leaf(alloc, leaf)?,
            TreeNode::Branch { choice, children } => Stored::Branch { choice, children },
        };
        Ok(PackedNode { stored })
    }

    /// What the node is, without what it lists.
    pub fn outline(&self) -> Outline
        ensures { result ≡ outline_of self.now }
    {
        match &self.stored {
            Stored::Branch { choice, .. } => Outline::Branch(*choice),
            Stored::Plain(leaf) => outline_of_leaf(leaf),
            Stored::Dead(_) => Outline::Dead,
            Stored::Open(_) => Outline::Open,
        }
    }

    /// The node.
    ///
    /// # Errors
    ///
    /// `Memory` where memory runs out.
    pub fn node(&self, alloc: Global) -> Result<TreeNode, Memory>
        ensures { IfOk result (λ node. node ≡ self.now) }
    {
        match &self.stored {
            Stored::Branch { choice, children } => Ok(TreeNode::Branch {
                choice: *choice,
                children: *children,
            }),
            Stored::Plain(leaf) => Ok(TreeNode::Leaf(leaf.copy()?)),
            Stored::Dead(bytes) => Ok(TreeNode::Leaf(dead(said(alloc, bytes)?))),
            Stored::Open(bytes) => Ok(TreeNode::Leaf(open(alloc, said(alloc, bytes)?))),
        }
    }
}
