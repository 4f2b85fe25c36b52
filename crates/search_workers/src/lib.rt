//! A searcher: it takes leaves from the core, grows them, and tells the core what it found.
//!
//! `search_alone` searches the newest edition of a core on one thread until it is settled or
//! stopped.
#![tactic(auto)]

mod amount;
mod effort;
mod explorer;
mod growth;
mod hand_in;
mod lookout;
mod rehearser;
mod scout;
mod search;
mod trials;
mod turn;
mod walk;

pub use effort::{Effort, FOR_BOUND, FOR_PLAN};
pub use explorer::Explorer;
pub use growth::{Growth, grow, leaf_alone};
pub use lookout::Lookout;
pub use search::search_alone;
pub use walk::refused_leaf;
