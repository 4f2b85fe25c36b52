//! On which decisions it rests that a node of the search is closed.
//!
//! `Past` is the way from where a search in depth began to where it is. `Reasons::of_leaf` reads
//! off a leaf which decisions of that way it rests on: the orders along the walks that it needs,
//! and of the decisions about the routes of a train the fewest that give these walks. A set of
//! decisions behind which a node was closed is a nogood: where all of them are taken again,
//! `Nogoods` finds it, and the node is closed without a look. Nothing is claimed of what is found:
//! whoever uses it shows anew what it says.
#![tactic(auto)]

mod fewest;
mod needs;
mod nogoods;
mod past;
mod reasons;
mod spared;
mod tried;

pub use nogoods::{Met, Nogoods};
pub use past::Past;
pub use reasons::{At, Reasons};
pub use tried::TriedRoutes;
