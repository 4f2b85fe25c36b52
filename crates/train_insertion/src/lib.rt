//! A target for a search: for each train a route and a start for each of its operations.
//!
//! `target` puts the trains in one by one, each along its best route into the times at which its
//! resources are free, and then moves trains in that order, and goes on from orders that cost a
//! little more too. A search that follows it finds good plans early. It is advice: the calls are
//! safe, end, and fail for memory alone, and no more is claimed of how good it is.
#![tactic(auto)]

mod advice;
mod climb;
mod draw;
mod holds;
mod labels;
mod line;
mod order;
mod stage;
mod table;
mod windows;

pub use advice::{Start, Target};
pub use climb::{INSERTIONS, target};
pub use draw::Draw;
