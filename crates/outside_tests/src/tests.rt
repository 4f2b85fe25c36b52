// What a caller can say through the bounds, and the shelves, feeds and writers at work.
use outside_in_memory::SteadyShelf;
use std::alloc::Global;
use std::panic::Expect;
use std::process::Abort;

mod callers;
mod feeds;
mod file_feeds;
mod file_shelves;
mod shelves;
mod writers;

/// A shelf that never fails, where `a` holds these bytes.
fn steady_shelf(rt: &impl Abort, alloc: Global, bytes: &[u8]) -> SteadyShelf {
    let mut shelf = SteadyShelf::new(alloc);
    shelf.place("a", bytes).expect(rt, "room");
    shelf
}
