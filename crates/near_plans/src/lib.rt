//! Looks ahead of a search for good plans.
//!
//! `look_ahead` goes down along a target to a first plan, and looks for better ones near the best:
//! large neighbourhood search, in which some trains are taken out of the plan and the best way to
//! put them in again is looked for, while the others go on in their order. The plan that it gives
//! is valid for the edition; nothing is claimed of how good it is. The graph is as before then.
#![tactic(auto)]

mod ahead;
mod base;
mod neighbours;
mod outlook;
mod passing;
mod region;
mod taking;

pub use ahead::{Ahead, look_ahead};
