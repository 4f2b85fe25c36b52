//! What a node of the search shows as a leaf of the tree.
//!
//! `leaf_of` gives a leaf that shows that the node is dead, or its bound: by walks to components
//! that must be paid under the fixed rule, and also by shares of trains under the free one.
//! `child_leaf` gives that of the node with one decision more, and leaves the graph as it was.
//! `Reckoning` says what a bound is by the rule.
#![tactic(auto)]

mod leaf;
mod reckoning;
mod refused;

pub use leaf::{NodeLeaf, child_leaf, leaf_of};
pub use reckoning::Reckoning;
