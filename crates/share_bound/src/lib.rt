//! The share of a train at a node of the search, and the bound of the node under the free rule.
//!
//! `share` is what the components of a train cost at least, whichever of its allowed routes it
//! takes: one pass along them from the entry on gives when each operation is reached, and one from
//! the exit back the least sum. `free_cost` adds up the shares of all trains, `free_bound` gives a
//! leaf that shows the sum.
#![tactic(auto)]

mod bases;
mod free;
mod known;
mod least;
mod prices;
mod shares;
mod shown;
mod times;

pub use bases::{base_of, bases_of};
pub use free::{FreeBound, free_bound};
pub use known::{KnownShare, KnownShares, LeafPart, Listing, ShareOver};
pub use prices::cost_of;
pub use shares::{free_cost, share, share_over, train_of};
pub use shown::{ShownShare, shown_share};
