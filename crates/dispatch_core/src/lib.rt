//! The pure core of a run: one history, and one tree over all its editions.
//!
//! `Core::step` takes one event of a feed or a searcher and gives its reply. Whatever the events
//! are, in whatever order, the history is legal, the tree is the one that its splits grow, each
//! leaf holds for its kept bound at the newest edition, and the budget covers what is spent and
//! what works that are out may still grow.
#![tactic(auto)]

mod ask;
mod event;
mod flags;
mod grow;
pub mod laws;
mod left;
mod machine;
mod settling;
mod standing;
mod step;
mod verdict;
mod work;

pub use event::{CoreEvent, CoreReply, StepNo};
pub use machine::Core;
