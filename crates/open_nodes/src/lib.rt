//! The tree of a search while it grows: which leaves are open, and which are out with a searcher.
//!
//! `Nodes` is seen as its places by number, what they show, and the newest edition. A leaf is known
//! dead where what is kept for it says so, and wanted where it is not and its kept bound is below
//! the best cost, or there is no best. `take` gives a wanted leaf out, where many branches are
//! wanted the last one grown, where few are wanted one of the least bound; `give_back` takes it in
//! again, and `grow` puts a fragment in its place. A leaf keeps its parent and one decision, so
//! decisions are listed only for the work that is taken. Numbers of places and of kept nodes are
//! stored in 32 bits, so a tree has fewer than 2^32 of either: beyond that `grow` answers `Memory`,
//! as it does where memory runs out.
#![tactic(auto)]

mod blocks;
mod child;
mod graft;
pub mod laws;
mod nodes;
mod path;
mod place;
mod ready;
mod search;
mod shown;
mod walk;
mod work;

pub use nodes::Nodes;
pub use place::{Above, Errand, Kind, Place};
pub use work::{Fragment, GiveBack, Growth, Take, Work};
