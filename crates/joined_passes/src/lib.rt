//! The end of a run: its passes are joined into the first one again, and the board is closed.
//!
//! `join_next` says what the first pass knows then, and `close_run` that this is all there is. By
//! the laws, the history then has those entries of each caller's lines that its pass had seen, in
//! that order, and no entry of another caller's.
#![tactic(auto)]

mod close;
mod join;
pub mod laws;

pub use close::{Closed, close_run};
pub use join::join_next;
