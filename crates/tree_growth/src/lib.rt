//! What may grow in the place of a leaf of the tree, and what follows of it.
//!
//! A subtree grows at a node where each branch helps (its node is not dead, its choice is one that
//! is picked there, and its bound is below the best cost) and each leaf keeps its bound (it holds
//! for it, by what the rule counts, and can be written). Here are its laws, each the contract of a
//! function without a body: what grows fills its place, all leaves of the tree keep their bounds
//! whatever is done with it, what is left of it under other fixings keeps its bounds there, and no
//! kept bound is above that of its node.
#![tactic(auto)]

pub mod laws;
