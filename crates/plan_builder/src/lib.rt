//! The plan of earliest starts, where each train has one route left.
//!
//! `earliest` takes a route for each train, and paths over the operations' numbers. Each operation
//! of a route starts at its node's length. Its event comes by time, train and operation, but behind
//! those from which an arc leads to it. That takes a sort of the events, one look at each of their
//! arcs, and one look more where of two events of one time the later overtakes the other.
#![tactic(auto)]

mod arrange;
mod order;
mod plan;
mod stop;
mod stops;

pub use plan::earliest;
