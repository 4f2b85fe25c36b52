//! The outside world, as the program sees it: a shelf of files, a sink of bytes, a gate for
//! threads.
//!
//! A fault has a cause: each trait counts the faults of its device in a ghost member that never
//! falls, and answers `Failed` exactly where the count rose in that call. Code that is generic over
//! a trait cannot raise a count, so it cannot answer `Failed` by itself. The adapters over files
//! and standard output tell nothing of their bytes.
#![tactic(auto)]

mod feed;
mod feed_state;
mod file_feed;
mod file_shelf;
mod gate;
mod line_buf;
mod read_ahead;
mod reading;
mod shelf;
mod sink;
mod standard_output;
mod turns;
mod writing;

pub use feed::{Feed, FeedLine, FeedNo};
pub use feed_state::FeedState;
pub use file_feed::FileFeed;
pub use file_shelf::FileShelf;
pub use gate::{Gate, OpenGate, Point};
pub use line_buf::{LineBuf, MOST_LINE_BYTES, line_feed_at};
pub use shelf::{FetchNo, PutNo, Shelf};
pub use sink::{Sink, WriteNo};
pub use standard_output::StandardOutput;
