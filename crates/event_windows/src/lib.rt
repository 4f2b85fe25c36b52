//! The operations of a problem by number, and when each may start.
//!
//! `operations` says which operation has which number, counted over all trains in order; `windows`
//! says from when and until when the operation of each number may start by the fixings. Both take
//! time linear in the operations and the fixings, and fail for memory alone.
#![tactic(auto)]

mod numbers;
mod starts;
mod times;

pub use numbers::operations;
pub use starts::{Window, windows};
