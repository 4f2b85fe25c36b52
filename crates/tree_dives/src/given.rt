use crate::stage::End;
use disp_model::List;
use packed_nodes::PackedNode;

/// What a leaf of the tree grows into: packed nodes in preorder, the bounds that are kept for the
/// leaves among them in their order, and how the dive ended.
#[derive(Drop)]
pub struct Dive {
    pub nodes: List<PackedNode>,
    pub bounds: List<u64>,
    pub end: End,
}
