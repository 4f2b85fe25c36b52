//! The graph of a node of the search: the arcs between the operations that its trains must run.
//!
//! `Graph::new` is the graph where nothing is decided, in time linear in the problem and the
//! fixings. `Graph::extend` adds a decision and `undo` takes the last one back, each in time of
//! what changes: an order looks at its two operations, a decision about a train's routes at that
//! train and at the orders of operations that are forced from then on. A decision that leaves a
//! train without a route, or closes a cycle, is refused, and nothing changes.
#![tactic(auto)]

mod changes;
mod decide;
mod decide_order;
mod decide_train;
mod faults;
mod graph;
mod join;
mod known;
mod late;
mod opening;
mod orders;
mod parts;
mod paths;
mod root;
mod touched;

pub use faults::ExtendNo;
pub use graph::Graph;
