//! Path lengths over nodes with lowers, under arcs of which the last added goes first. A node's
//! length is the greatest of a walk that ends there (`specs/Walks.antt`), over the arcs kept and
//! the lowers raised; `changed` tells which lengths the last call made greater. An arc is refused
//! exactly where it would close a cycle, and `cycle_with` asks that of several. What takes memory
//! gives a `Result`. Nodes in a kept order, and threaded arcs, let a call cost what it changes.
#![tactic(auto)]

mod arc;
mod back;
mod changes;
mod closing;
mod faults;
mod givers;
mod laws;
mod marks;
mod node_set;
mod order;
mod ordered;
mod ordering;
mod paths;
mod search;
mod shifts;
mod spread;
mod steps;
mod threads;
mod trail;

pub use arc::Arc;
pub use faults::AddNo;
pub use laws::walks_are_bounded;
pub use order::Order;
pub use ordered::OrderedPaths;
pub use paths::Paths;
pub use plain_values::Memory;
pub use steps::Steps;
pub use threads::Threads;
