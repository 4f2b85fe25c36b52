ghost use Rattle.std.specs.Prelude.{◌≡◌, ◌≤◌, ◌<◌, ◌++◌, IfOk, OnOk, MatchOption, None, Some, length, option_to_list};
ghost use Rattle.open_nodes.specs.Preorder.{next_at, preorder};
ghost use Rattle.open_nodes.specs.Shown.{shown_at, all_shown, leaf_in};

use crate::place::Place;
use disp_model::{Leaf, List, Memory, TreeNode};
use packed_nodes::PackedNode;
use std::alloc::Global;

/// The index of a node's number, if it is one of so many.
pub fn index_of(node: u128, count: usize) -> Option<usize>
    ensures { MatchOption result (count ≤ node) (λ n. (n ≡ node) × (n < count)) }
{
    if node < count as u128 {
        Some(node as usize)
    } else {
        None
    }
}

/// The node that the place of a number shows.
fn shown_at<'a>(places: &[Place], kept: &'a [PackedNode], number: usize) -> Option<&'a PackedNode>
    ensures { MatchOption result (shown_at places.now kept.now number ≡ None)
        (λ node. shown_at places.now kept.now number ≡ Some node.now) }
{
    let place = places.get(number)?;
    kept.get(place.shows as usize)
}

/// What is kept for the leaf of a number, none where it is no leaf's.
pub fn leaf_at(
    alloc: Global,
    places: &[Place],
    kept: &[PackedNode],
    number: usize,
) -> Result<Option<Leaf>, Memory>
    ensures { IfOk result (λ leaf. leaf ≡ leaf_in (shown_at places.now kept.now number)) }
{
    let Some(packed) = shown_at(places, kept, number) else {
        return Ok(None);
    };
    match packed.node(alloc)? {
        TreeNode::Leaf(leaf) => Ok(Some(leaf)),
        TreeNode::Branch { .. } => Ok(None),
    }
}

/// The number of the place behind one in preorder.
fn next_at(places: &[Place], number: usize) -> Option<u32>
    ensures { result ≡ next_at places.now number }
{
    places.get(number)?.next
}

/// Adds a copy of the node that the place of a number shows.
fn show(
    alloc: Global,
    tree: &mut List<TreeNode>,
    places: &[Place],
    kept: &[PackedNode],
    number: usize,
) -> Result<(), Memory>
    ensures { OnOk result (tree.new
        ≡ tree.old ++ option_to_list (shown_at places.now kept.now number)) }
{
    match shown_at(places, kept, number) {
        Some(packed) => tree.push(packed.node(alloc)?),
        None => Ok(()),
    }
}

/// The nodes that the places show, in preorder.
pub fn all_shown(
    alloc: Global,
    places: &[Place],
    kept: &[PackedNode],
) -> Result<List<TreeNode>, Memory>
    ensures { IfOk result (λ tree. tree ≡ all_shown places.now kept.now (preorder places.now)) }
{
    let mut tree = List::new(alloc);
    let mut at = Some(0);
    for _ in 0..places.len() {
        let Some(number) = at else {
            return Ok(tree);
        };
        show(alloc, &mut tree, places, kept, number as usize)?;
        at = next_at(places, number as usize);
    }
    Ok(tree)
}
