// The trees that `roll` puts, and that `check` takes.
use super::rolled::{ONE_BLOCK, WORKERS, ends, has_lines, is_told, rolled, settles, shelf_of};
use outside_in_memory::MemShelf;
use std::panic::Expect;
use std::process::Abort;
use std::sync::Wait;
use std::thread::Threads;

/// The problem and one feed.
const FILES: &[(&str, &str)] = &[("p", ONE_BLOCK), ("a", "started 0 0 0\n")];

/// `roll` with trees and so many searchers on the shelf: the status, and what is written.
fn roll(
    rt: &(impl Threads + Wait + Sync + Abort + AllocGlobal),
    shelf: &mut MemShelf,
    workers: &str,
) -> (u8, String) {
    let words = ["roll", "p", "a", "--trees", "t", "--workers", workers];
    rolled(rt, shelf, &words)
}

/// With so many searchers, the tree of the last edition is there, and accepted.
fn is_accepted(rt: &(impl Threads + Wait + Sync + Abort + AllocGlobal), workers: &str) {
    let mut shelf = shelf_of(rt, FILES);
    let (status, text) = roll(rt, &mut shelf, workers);
    let is_settled = settles(text.as_str(), "settled 1 optimal 24");
    is_told(rt, (status, is_settled), 0, text);
    let words = ["check", "p", "t1", "--fixings", "a"];
    ends(rt, &mut shelf, &words, 0, "accepted optimal 24\n");
}

#[test]
fn the_tree_of_the_last_edition_is_accepted(rt: HostRuntime) {
    for workers in WORKERS {
        is_accepted(&rt, workers);
    }
}

/// One putting of a tree has failed.
fn one_was_not_put(rt: &impl Abort, shelf: &MemShelf) {
    let faults = (shelf.put_faults("t0"), shelf.put_faults("t1"));
    assert!(rt; faults == (1, 0) || faults == (0, 1), "{faults:?}");
}

/// With so many searchers, no verdict is written where the putting of each tree fails, and one
/// putting has failed.
fn ends_the_printing(rt: &(impl Threads + Wait + Sync + Abort + AllocGlobal), workers: &str) {
    let mut shelf = shelf_of(rt, FILES);
    shelf.break_puts(&[1, 2]).expect(rt, "room");
    let (status, text) = roll(rt, &mut shelf, workers);
    let is_unsettled = has_lines(text.as_str(), "settled ", &[]);
    is_told(rt, (status, is_unsettled), 4, text);
    one_was_not_put(rt, &shelf);
}

// The line of an edition whose tree is not put is not written, nor what comes behind it.
#[test]
fn a_tree_that_is_not_put_ends_the_printing(rt: HostRuntime) {
    for workers in WORKERS {
        ends_the_printing(&rt, workers);
    }
}
