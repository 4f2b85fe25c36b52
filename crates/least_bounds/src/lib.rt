//! Optional bounds by place, of which the least is known at once, and one below a limit is found
//! along a path.
//!
//! `LeastBounds` is seen as the list of its bounds. They are the leaves of a tournament, in which
//! each inner node is the lesser of the two below it: `set` goes up from the place to the root,
//! `find_below` goes down from the root to a place, and neither takes memory.
#![tactic(auto)]

mod bounds;
mod tournament;

pub use bounds::LeastBounds;
pub use tournament::lesser;
