//! Witnesses that arcs have a cycle, or that a walk is too long.
//!
//! `cycle` gives the nodes of a cycle that a refused arc would close. `late` gives a walk that is
//! longer than a node's upper, exactly where the node's length is.
#![tactic(auto)]

mod cycles;
mod late_walks;

pub use cycles::cycle;
pub use late_walks::late;
