//! A run: feeds that change a problem while searchers search it, and a journal that is printed as
//! it comes.
//!
//! `roll` gives each feed and each searcher a thread of its own, and prints in another. What it
//! leaves rests on the board's history alone: the journal is legal, each feed's entries answer its
//! lines in order, and what was written is the journal's text.
#![tactic(auto)]

mod closing;
mod ending;
mod opening;
mod printing;
mod rolling;
mod running;
mod status;

pub use closing::close_feeds;
pub use rolling::{Rolled, roll};
