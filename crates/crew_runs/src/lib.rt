//! A crew at work: its searchers, each in a thread of its own, search edition after edition, until
//! the run is over.
#![tactic(auto)]

mod running;
mod searcher;
mod seats;

pub use running::run_searchers;
pub use searcher::Searcher;
pub use seats::{join_searchers, seats_of};
