//! The choice that a branch of the search makes, and its children.
//!
//! `pick_fixed` answers the choice of the fixed rule: the fork of the first train with two routes,
//! in one look at each operation; else the first pair of operations that clash in the earliest
//! plan, in a look at those events of each resource that start before it is released; else that
//! plan, which is valid. `pick_fixed_by` answers the same, by spans that are kept from pick to
//! pick, and makes no plan where they show the first clash. `children` lists decisions.
#![tactic(auto)]

mod behind;
mod child;
mod end;
mod pair;
mod pick;
mod sweep;

pub use child::children;
pub use pick::{Pick, pick_fixed, pick_fixed_by};
