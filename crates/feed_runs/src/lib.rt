//! The feeds of a run: each is read in a thread of its own, and its lines are entered on the board.
#![tactic(auto)]

mod reader;
mod readers;
mod running;

pub use reader::Reader;
pub use readers::{join_readers, readers_of};
pub use running::run_readers;
