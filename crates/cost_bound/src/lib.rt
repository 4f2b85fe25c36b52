//! What every valid plan that follows the decisions of a node costs at least.
//!
//! `cost` adds up what the components of forced operations cost at the lengths of their longest
//! walks, in one look at each component. `bound` also gives a walk for each component that adds to
//! it, which costs what the walk names and the arcs into what it passes. `longest_walk` is one to
//! one operation.
#![tactic(auto)]

mod arrival;
mod ends;
mod shown;
mod sum;
mod walk;
mod walks;

pub use shown::Bound;
pub use sum::cost;
pub use walk::longest_walk;
pub use walks::bound;
