//! A short leaf that shows the bound of a node under the free rule.
//!
//! `short_bound` lists a train only where its share is more than its forced components cost, and of
//! such a train only the walks that its share needs; for other trains it has walks to their
//! components. Whether the leaf shows as much as the bound is tested; where it does not, the leaf
//! of `share_bound` is given.
#![tactic(auto)]

mod kept;
mod listed;
mod needed;
mod short;
mod trains;
mod walks;

pub use short::short_bound;
