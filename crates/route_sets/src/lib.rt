//! The routes of a train that fixings and decisions allow, without a list of them.
//!
//! `Routes::of` takes time linear in the train, the fixings and the decisions; of the routes it
//! keeps which operations each has, what follows each of those on all, and the least sum of
//! durations up to each of those. So it answers at once whether none is left, what is forced, what
//! comes next, and the least sum between two.
#![tactic(auto)]

mod asks;
mod routes;
mod sweep;

pub use routes::Routes;
