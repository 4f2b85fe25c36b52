//! Longest paths between nodes that may be reached until a time only.
//!
//! `TimedPaths` keeps `Paths` and an upper for each node, and knows at any time a node whose length
//! is above its upper, or that there is none. An arc that is added costs a look at the nodes whose
//! lengths it changes; arcs that are taken away cost nothing more than the paths do.
#![tactic(auto)]

mod above;
mod timed;

pub use timed::TimedPaths;
