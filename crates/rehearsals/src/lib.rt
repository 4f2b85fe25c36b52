//! Rehearsals of a search, in which it learns which decisions a proof rests on.
//!
//! `rehearse` goes through the tree below the node of a graph in depth, and grows nothing. Where a
//! node is closed, the walks that show it name the decisions that they rest on. Where all children
//! of a node are closed, it is closed for the reasons of all; but where those of one child do not
//! name the decision that leads to it, they close the node without it, and the other children need
//! no look: backjumping, by the conflicts that were met. And where the same decisions come together
//! again, they close the node at once: nogoods. What is left of the tree when the whole is closed
//! is a script, by which a search may branch. Nothing rests on it: each leaf is shown again where
//! the script is followed. A plan that is found on the way is valid.
#![tactic(auto)]

mod frame;
mod lessons;
mod rehearsal;
mod state;

pub use lessons::Lessons;
pub use rehearsal::{Ending, Rehearsed, Trial, rehearse};
