// What is told where a feed is not opened or fails, and where there are too many.
use super::rolled::{ONE_BLOCK, WORKERS, answers, ends, shelf_of};
use outside_in_memory::MemShelf;
use std::panic::Expect;
use std::process::Abort;
use std::sync::Wait;
use std::thread::Threads;

/// So often did readings of the two names fail.
fn failed(rt: &impl Abort, shelf: &MemShelf, first: &str, second: &str, faults: (u64, u64)) {
    assert_eq!(rt; (shelf.faults(first), shelf.faults(second)), faults);
}

#[test]
fn more_than_64_feeds_are_refused(rt: HostRuntime) {
    let mut words = ["a"; 67];
    words[0] = "roll";
    words[1] = "p";
    let mut shelf = MemShelf::new(rt.alloc());
    ends(&rt, &mut shelf, &words, 2, "TooMany feeds 65\n");
    assert!(rt; shelf.faults("p") == 0);
}

const STARTED: &str = "started 0 0 0\n";

/// What is run one behind another on one shelf, and the line for the feed that is not there.
const UNOPENED: &[(&[&str], &str)] = &[
    (&["roll", "p", "b", "a"], "feed 0: Failed\n"),
    (&["roll", "p", "a", "b"], "feed 1: Failed\n"),
];

/// On one shelf the words of each row end with the status 4 and the line behind them.
fn all_fail(
    rt: &(impl Threads + Wait + Sync + Abort + AllocGlobal),
    shelf: &mut MemShelf,
    rows: &[(&[&str], &str)],
) {
    for (words, line) in rows {
        ends(rt, shelf, words, 4, line);
    }
}

#[test]
fn a_feed_that_is_not_opened_is_told(rt: HostRuntime) {
    let mut shelf = shelf_of(&rt, &[("p", ONE_BLOCK), ("a", STARTED)]);
    all_fail(&rt, &mut shelf, UNOPENED);
    failed(&rt, &shelf, "a", "b", (0, 2));
}

/// `roll p a`.
const ROLL: &[&str] = &["roll", "p", "a"];

#[test]
fn a_problem_that_is_not_read_is_told(rt: HostRuntime) {
    let mut shelf = shelf_of(&rt, &[("a", STARTED)]);
    ends(&rt, &mut shelf, ROLL, 4, "problem: Failed\n");
    shelf.place("p", b"{", &[]).expect(&rt, "room");
    ends(&rt, &mut shelf, ROLL, 2, "problem: NotJson\n");
    failed(&rt, &shelf, "p", "a", (1, 0));
}

/// The problem, and two feeds.
const FILES: &[(&str, &str)] = &[("p", ONE_BLOCK), ("a", "started 1 0 0\n"), ("b", STARTED)];

/// With so many searchers: where the first feed fails, the second is answered so.
fn is_answered(
    rt: &(impl Threads + Wait + Sync + Abort + AllocGlobal),
    workers: &str,
    lines: &[&str],
) {
    let mut shelf = shelf_of(rt, FILES);
    shelf.break_lines("a", &[1]).expect(rt, "room");
    let words = ["roll", "p", "a", "b", "--workers", workers];
    answers(rt, &mut shelf, &words, 4, lines, "settled 1 optimal 24");
    failed(rt, &shelf, "a", "b", (1, 0));
}

/// The answer to the second feed.
const ANSWERS: &[&str] = &["feed 1 line 1 started 0 0 0 accepted 1"];

// The other feed is read to its end, and what it asks for is searched.
#[test]
fn a_feed_that_fails_stops_no_other(rt: HostRuntime) {
    for workers in WORKERS {
        is_answered(&rt, workers, ANSWERS);
    }
}
