// What is entered for each line of a feed, up to its end or its failure.
use super::rolled::{ONE_BLOCK, has_gone_first, has_lines, is_told, rolled, shelf_of};
use outside_in_memory::MemShelf;
use std::panic::Expect;
use std::process::Abort;
use std::sync::Wait;
use std::thread::Threads;

/// A shelf with the problem and a feed of these bytes, whose calls of these numbers fail.
fn shelf_with(rt: &(impl Abort + AllocGlobal), feed: &[u8], broken: &[u64]) -> MemShelf {
    let mut shelf = shelf_of(rt, &[("p", ONE_BLOCK)]);
    shelf.place("a", feed, &[]).expect(rt, "room");
    shelf.break_lines("a", broken).expect(rt, "room");
    shelf
}

/// `roll` on that shelf ends with this status, has answered the feed so, and has said that the
/// train of 10 goes first. Readings of the feed have failed so often. A plan of the edition before
/// may have been found ahead of any line.
fn enters(
    rt: &(impl Threads + Wait + Sync + Abort + AllocGlobal),
    shelf: &mut MemShelf,
    lines: &[&str],
    status: u8,
    faults: u64,
) {
    let (got, text) = rolled(rt, shelf, &["roll", "p", "a"]);
    let told = has_lines(text.as_str(), "feed ", lines) && has_gone_first(text.as_str());
    is_told(rt, (got, told && shelf.faults("a") == faults), status, text);
}

/// Feeds of three lines, and what is written for these.
const THREE_LINES: &[(&[u8], &[&str])] = &[
    (
        b"started 0 0 0\nshow\nbogus\n",
        &[
            "feed 0 line 1 started 0 0 0 accepted 1",
            "feed 0 line 2 show edition 1 ",
            "feed 0 line 3 unreadable",
        ],
    ),
    (
        b"started 0 0 0\r\nstarted 0 0 0\nstarted 0 0 7",
        &[
            "feed 0 line 1 started 0 0 0 accepted 1",
            "feed 0 line 2 started 0 0 0 known 1",
            "feed 0 line 3 started 0 0 7 refused StartedAt 0",
        ],
    ),
];

/// This is written for a feed of these lines, none of which fails.
fn is_entered(
    rt: &(impl Threads + Wait + Sync + Abort + AllocGlobal),
    feed: &[u8],
    lines: &[&str],
) {
    let mut shelf = shelf_with(rt, feed, &[]);
    enters(rt, &mut shelf, lines, 0, 0);
}

/// So it is for each row.
fn are_entered(rt: &(impl Threads + Wait + Sync + Abort + AllocGlobal), rows: &[(&[u8], &[&str])]) {
    for (feed, lines) in rows {
        is_entered(rt, feed, lines);
    }
}

#[test]
fn each_line_is_entered_in_its_turn(rt: HostRuntime) {
    are_entered(&rt, THREE_LINES);
}

/// What is written for a line of 256 bytes, one of 257 and a short one.
const LONG: &[&str] = &[
    "feed 0 line 1 unreadable",
    "feed 0 line 2 long",
    "feed 0 line 3 started 0 0 0 accepted 1",
];

// A line of 256 bytes is read, and one of 257 is not.
#[test]
fn a_line_that_is_too_long_is_left_out(rt: HostRuntime) {
    let mut lines = [b'x'; 529];
    lines[256] = b'\n';
    lines[514] = b'\n';
    lines[515..529].copy_from_slice(b"started 0 0 0\n");
    is_entered(&rt, &lines, LONG);
}

/// What is written for the first line.
const STARTED: &[&str] = &["feed 0 line 1 started 0 0 0 accepted 1"];

// What the feed had asked before it failed is searched.
#[test]
fn a_feed_that_fails_has_ended(rt: HostRuntime) {
    let mut shelf = shelf_with(&rt, b"started 0 0 0\nshow\nshow\n", &[2]);
    enters(&rt, &mut shelf, STARTED, 4, 1);
}
