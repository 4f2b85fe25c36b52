// What the lines of a feed are answered, and what is settled behind them.
use super::rolled::{ONE_BLOCK, WORKERS, answers, shelf_of};
use std::process::Abort;
use std::sync::Wait;
use std::thread::Threads;

/// With so many searchers: a feed of these lines is answered so, and this is settled last.
fn is_answered(
    rt: &(impl Threads + Wait + Sync + Abort + AllocGlobal),
    workers: &str,
    feed: &str,
    lines: &[&str],
    settled: &str,
) {
    let mut shelf = shelf_of(rt, &[("p", ONE_BLOCK), ("a", feed)]);
    let words = ["roll", "p", "a", "--workers", workers];
    answers(rt, &mut shelf, &words, 0, lines, settled);
}

/// So it is with one searcher and with several.
fn row(
    rt: &(impl Threads + Wait + Sync + Abort + AllocGlobal),
    feed: &str,
    lines: &[&str],
    settled: &str,
) {
    for workers in WORKERS {
        is_answered(rt, workers, feed, lines, settled);
    }
}

const STARTS: &[&str] = &[
    "feed 0 line 1 started 0 0 0 accepted 1",
    "feed 0 line 2 started 0 0 0 known 1",
    "feed 0 line 3 started 0 0 7 refused StartedAt 0",
];

#[test]
fn a_start_is_fixed_once(rt: HostRuntime) {
    let feed = "started 0 0 0\nstarted 0 0 0\nstarted 0 0 7\n";
    row(&rt, feed, STARTS, "settled 1 optimal 24");
}

const NO_CHANGES: &[&str] = &[
    "feed 0 line 1 started 0 0 0 accepted 1",
    "feed 0 line 2 show edition 1 ",
    "feed 0 line 3 unreadable",
];

#[test]
fn what_is_no_change_changes_nothing(rt: HostRuntime) {
    let feed = "started 0 0 0\nshow\nbogus\n";
    row(&rt, feed, NO_CHANGES, "settled 1 optimal 24");
}

const WITHDRAWN: &[&str] = &[
    "feed 0 line 1 started 0 0 0 accepted 1",
    "feed 0 line 2 withdraw 1 accepted 2",
    "feed 0 line 3 withdraw 1 refused Withdrawn 2",
    "feed 0 line 4 withdraw 2 refused NoSuchChange",
];

#[test]
fn a_change_is_withdrawn_once(rt: HostRuntime) {
    let feed = "started 0 0 0\nwithdraw 1\nwithdraw 1\nwithdraw 2\n";
    row(&rt, feed, WITHDRAWN, "settled 2 optimal 18");
}

const TOO_EARLY: &[&str] = &[
    "feed 0 line 1 notbefore 1 0 20 accepted 1",
    "feed 0 line 2 started 1 0 5 refused EarliestIs 20",
];

#[test]
fn nothing_starts_before_it_may(rt: HostRuntime) {
    let feed = "notbefore 1 0 20\nstarted 1 0 5\n";
    row(&rt, feed, TOO_EARLY, "settled 1 optimal 34");
}
