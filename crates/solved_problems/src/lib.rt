//! A problem, with the changes that are asked before the search, solved by searchers side by side.
//!
//! `solve` enters the changes on a board as the lines of one feed, and searches the edition that
//! stands then until it is settled or stopped. The law `marks_say_true` says what the mark of a
//! legal history promises.
#![tactic(auto)]

mod entering;
pub mod laws;
mod solving;

pub use solving::solve;
