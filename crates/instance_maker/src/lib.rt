//! Makes problems: for a number and so many trains exactly the problem that is stated in
//! `specs/Made.antt`.
//!
//! The trains come in pairs. Both trains of a pair want one block at about the same time, and no
//! other pair wants it, so what a plan of least cost costs can be told beforehand.
#![tactic(auto)]

mod draws;
mod parts;
mod problem;

pub use problem::make;
