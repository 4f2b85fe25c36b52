//! Searchers that share a board, each in a thread of its own.
//!
//! `search` works on one edition until it is settled or stopped, or a newer one is there: it takes
//! leaves from the board, grows them outside its lock, and hands in what grew and each plan. A
//! searcher keeps some works where the others can steal them, and all follow the least cost that
//! was published. Where the problem stays as it is several searchers rehearse the search before
//! they grow anything, each in its own way, and all follow the script that the first of them comes
//! to. What the board's history then says does not rest on which searcher did what.
#![tactic(auto)]

mod answered;
mod crew;
mod ground;
mod hand_in;
mod round;
mod scripts;
mod searching;
mod turn;

pub use crew::{Crew, Hand, Pace, crew_of};
pub use searching::search;
