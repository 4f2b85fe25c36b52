//! What a leaf of the tree grows into, from its node down.
//!
//! `dive` branches at the node of a graph, follows one child and branches there, and so on, until
//! its allowance is spent, the child is dead or costs too much, or nothing is picked there, so that
//! the earliest plan is valid. The other children become leaves with their bounds. The graph is as
//! before then. Which child is followed, and under the free rule which open choice is taken, is
//! advice of a guide, and nothing rests on it: it may follow a script of choices that were thought
//! out before. With it the guide has what the fixed rule keeps from
//! pick to pick of when operations ran.
#![tactic(auto)]

mod diving;
mod down;
mod following;
mod given;
mod grown;
mod guide;
mod leaves;
mod prefer;
mod rewinding;
mod script;
mod stage;

pub use diving::dive;
pub use given::Dive;
pub use guide::Guide;
pub use prefer::preferred;
pub use rewinding::{rewind, rewind_knowing};
pub use script::{Below, Script};
pub use stage::{End, Stage, stage_of};
