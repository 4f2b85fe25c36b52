//! The tree of a search is the one that its splits grow.
//!
//! A history names the tree by splits alone: each makes a leaf, by its number, a branch, whose
//! children have the next unused numbers. Here are the laws which say that the places of a search
//! show that tree, whatever is taken, given back, grown or falls back; each is the contract of a
//! function without a body.
#![tactic(auto)]

pub mod laws;
