//! Which of some trains are well formed as graphs, and what the components of a problem cost at
//! most.
//!
//! `first_not_entered` and `first_not_left` give the first train that has not one entry or exit,
//! and how many it has. `first_loop` gives the first train with a cycle and the least operation on
//! one, in time that grows with the operations and their successors; `None` says that no train has
//! a cycle. `greatest_sum` gives what the components cost at most, at the horizon of the trains.
#![tactic(auto)]

mod costs;
mod cycle;
mod faults;
mod graph;
mod ranks;

pub use costs::greatest_sum;
pub use faults::{first_loop, first_not_entered, first_not_left};
