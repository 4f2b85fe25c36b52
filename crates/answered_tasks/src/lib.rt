//! Does what is asked, but for `roll`: from the task that was read of the words, files and a place
//! to print to, to what is printed, what is put, the journal and the status.
//!
//! `answer` solves problems, with searchers side by side: what it prints as optimal is a valid plan
//! with its cost, and no valid plan costs less; what it prints as infeasible has no valid plan;
//! where it is unfinished the whole budget is spent, and no valid plan costs less than the printed
//! bound. It judges solutions, and checks trees. Every other status has its cause. It uses the
//! outside through the traits of disp_outside alone.
#![tactic(auto)]

mod cause;
mod check;
mod done;
mod input;
mod journal;
mod judge;
mod judge_tree;
mod lines;
mod maker;
mod outcome;
mod print;
mod program;
mod run;
mod solve;
mod tree_lines;

pub use cause::{Cause, Input};
pub use done::Done;
pub use input::problem_file;
pub use judge::Telling;
pub use outcome::Answer;
pub use print::{give_up, stop};
pub use program::answer;
