//! The least cost of the newest edition, in one atomic word that any number of threads share.
//!
//! The word is the least of its opening value and of all codes that were put, and `close` answers
//! it. What `least` answers is at most each code that its pass has read or put: a pass never reads
//! back up. A pass that no other is left beside knows the word exactly. No call waits, and only
//! `new` takes memory.
#![tactic(auto)]

mod cell;
pub mod laws;
mod packing;
mod pass;

pub use cell::Least;
pub use packing::{NEWEST, SATURATED, answer_of, code_of};
pub use pass::{CellPass, Known, Share};
pub use plain_values::Memory;
