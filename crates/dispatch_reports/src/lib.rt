//! The report of a plan: a table of when each train starts and ends, how late it is, and what that
//! costs, and the cost of the plan.
#![tactic(auto)]

mod numbers;
mod table;

pub use table::{report, report_lines};
