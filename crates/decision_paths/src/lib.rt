//! The decisions that lead to a node, kept so that no question costs how many there are.
//!
//! `DecisionPath` is seen as the list of its decisions. Beside them it keeps in which place each
//! order is decided first, by the order's two operations, and for each train those decisions that
//! speak of its routes. Decisions are put behind, and taken back from behind.
#![tactic(auto)]

mod orders;
mod path;
mod routes;

pub use path::DecisionPath;
