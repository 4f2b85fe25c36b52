//! The outside world in memory, for tests: shelves, feeds and sinks that tell all that they hold.
//!
//! `MemShelf`, `MemFeed` and `MemSink` fail in the calls that they are told to, and in no other;
//! `SteadyShelf`, `SteadyFeed` and `SteadySink` never fail, but for want of memory.
#![tactic(auto)]

mod broken_write;
mod copying;
mod mem_feed;
mod mem_file;
mod mem_lines;
mod mem_shelf;
mod mem_sink;
mod steady_feed;
mod steady_shelf;
mod steady_sink;

pub use broken_write::BrokenWrite;
pub use mem_feed::MemFeed;
pub use mem_shelf::MemShelf;
pub use mem_sink::MemSink;
pub use steady_feed::SteadyFeed;
pub use steady_shelf::SteadyShelf;
pub use steady_sink::SteadySink;
