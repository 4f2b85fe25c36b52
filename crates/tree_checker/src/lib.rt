//! Judges trees by the definitions alone: no paths, no graph, no routes that a search has kept.
#![tactic(auto)]

mod bound;
mod branch;
mod checking;
mod children;
mod costs;
mod descent;
mod distinct;
mod ends;
mod entering;
mod first;
mod judging;
mod known;
mod landings;
mod leaf;
mod lists;
mod names;
mod paying;
mod places;
mod rights;
mod rules;
mod shares;
mod showing;
mod why;

pub use checking::check;
pub use children::decisions_below;
pub use judging::check_leaf;
pub use why::{Checked, Why};
