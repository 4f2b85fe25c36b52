//! What is known of a node by the definitions alone: no paths, no graph, no routes that a search
//! has kept.
//!
//! `TrainKnowledge` keeps what fixings and decisions leave of a train's routes, `KnownTrains` that
//! of each train, and `FixingIndex` finds what fixings say of an operation or a train.
//! `longest_arc` is the longest arc between two operations; `walk_length`, `is_late`, `is_cycle`
//! and `walks_cost` judge lists of operations. A walk may be long and go round: its length has 128
//! bits.
#![tactic(auto)]

mod arcs;
mod costs;
mod cycles;
mod demands;
mod fixing_index;
mod fixing_lists;
mod fixing_times;
mod holders;
mod late;
mod needed;
mod reading;
mod steps;
mod sums;
mod train;
mod trains;
mod walks;
mod windows;

pub use arcs::{is_same, longest_arc};
pub use costs::{ends_in, walks_cost};
pub use cycles::{has_arc, is_cycle};
pub use fixing_index::FixingIndex;
pub use late::{end_of, is_late};
pub use reading::{min_of, nexts_of, train_of};
pub use train::TrainKnowledge;
pub use trains::KnownTrains;
pub use walks::{is_forced, walk_length};
pub use windows::{lower_of, upper_of};
