//! Laws on texts that are stored, each the contract of a function without a body: what
//! `problem_text` writes of a problem, and `solution_text` of a plan, is read again as the same.
#![tactic(auto)]

mod laws;

pub use laws::{made_is_read, read_is_in_order, stored_solution_is_read, written_is_read};
