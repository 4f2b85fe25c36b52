//! Which operations all walks of a train have that go along given rows, by an order of its
//! operations from the exit back.
//!
//! A `Row` has the operations to which walks go on from one. `passed_of` gives the least sum of
//! durations up to each operation that some walk from the entry has, and a mark to each that all
//! have: with its place, that sum, and the one operation that comes next on all, if there is one. It
//! takes time linear in the rows, and fails for memory alone.
#![tactic(auto)]

mod marks;
mod row;

pub use marks::{Mark, Passed, passed_of, places_of};
pub use row::Row;
