//! The program's one call: from words, files, feeds and a place to print to, to what is printed,
//! what is put, the journal and the status.
//!
//! `dispatch` solves problems: what it prints as optimal is a valid plan with its cost, and no
//! valid plan costs less; what it prints as infeasible has no valid plan; where it is unfinished
//! the whole budget is spent. It does so once, for `solve` and `make`, or again behind each change
//! that a feed gives, for `roll`, whose journal is one legal history. It judges solutions, and
//! checks trees. Every other status has its cause. It uses the outside through the traits of
//! disp_outside alone.
#![tactic(auto)]

mod feeds;
mod program;
mod roll;
mod roll_no;

pub use answered_tasks::Done;
pub use program::dispatch;
pub use roll_no::RollNo;
