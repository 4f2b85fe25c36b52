//! What the answers to the same words and files have in common.
#![tactic(auto)]

pub mod laws;
