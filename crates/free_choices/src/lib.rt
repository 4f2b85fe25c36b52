//! The choice of a branch under the free rule, which takes any open one.
//!
//! `pick_free` asks an `Adviser` which choice shortens the search most, tests in a few looks that
//! the choice is open and that something is to be picked, and falls back on what the fixed rule
//! picks, which is always open. So the advice carries no proof but that it ends.
//! `pick_said` tests a choice that was thought out elsewhere in the same way.
#![tactic(auto)]

mod open_order;
mod open_route;
mod open_run;
mod open_touch;
mod pick;
mod said;

pub use branch_rules::Pick;
pub use choice_advice::{Adviser, Care, Orders, Strategy, seen_open};
pub use pick::pick_free;
pub use said::pick_said;
