// What `make` prints and puts.
use super::doubles::{begins, ends};
use outside_in_memory::{MemShelf, SteadyShelf};
use std::panic::Expect;
use std::process::Abort;
use std::sync::Wait;
use std::thread::Threads;

// The problem of 1 for one train, which holds the block for 28.
const ALONE: &str =
    "{\"objective\":[{\"coeff\":1,\"increment\":0,\"operation\":2,\"threshold\":33,\"train\":0,\"type\":\"op_delay\"}],\"trains\":[[{\"min_duration\":5,\"resources\":[],\"start_lb\":0,\"successors\":[1]},{\"min_duration\":28,\"resources\":[{\"release_time\":0,\"resource\":\"p0\"}],\"start_lb\":0,\"successors\":[2]},{\"min_duration\":0,\"resources\":[],\"start_lb\":0,\"successors\":[]}]]}\n";

/// The words behind `make`, and what is printed.
const MADE: &[(&str, &str, &str)] = &[
    ("0", "4", "trains 4\noperations 12\noptimal 21\n"),
    ("0", "40", "trains 40\noperations 120\noptimal 39\n"),
    ("1", "2", "trains 2\noperations 6\noptimal 21\n"),
    ("1", "1", "trains 1\noperations 3\noptimal 0\n"),
];

/// `make` of these words, with nothing on the shelf, prints this first.
fn prints(
    rt: &(impl Threads + Wait + Sync + Abort + AllocGlobal),
    number: &str,
    trains: &str,
    status: u8,
    want: &str,
) {
    let mut shelf = SteadyShelf::new(rt.alloc());
    begins(rt, &mut shelf, &["make", number, trains], status, want);
}

/// `make` of the words of each row prints its lines.
fn are_made(rt: &(impl Threads + Wait + Sync + Abort + AllocGlobal), rows: &[(&str, &str, &str)]) {
    for (number, trains, want) in rows {
        prints(rt, number, trains, 0, want);
    }
}

#[test]
fn what_is_made_is_told_and_solved(rt: HostRuntime) {
    are_made(&rt, MADE);
}

#[test]
fn what_is_put_is_the_problem(rt: HostRuntime) {
    let mut shelf = SteadyShelf::new(rt.alloc());
    let words = ["make", "1", "1", "--out", "p"];
    let want = "trains 1\noperations 3\noptimal 0\n";
    begins(&rt, &mut shelf, &words, 0, want);
    assert!(rt; shelf.file("p") == ALONE.as_bytes());
}

/// What is run one behind another on one shelf, and what is printed.
const AGAIN: &[(&[&str], &str)] = &[
    (
        &["make", "0", "4", "--out", "p"],
        "trains 4\noperations 12\noptimal 21\n",
    ),
    (
        &["solve", "p", "--plan", "s"],
        "edition 0\noptimal 21\n{\"events\":",
    ),
    (&["verify", "p", "s"], "valid 21\n"),
];

/// On one shelf the words of each row print what stands behind them.
fn follow(
    rt: &(impl Threads + Wait + Sync + Abort + AllocGlobal),
    shelf: &mut SteadyShelf,
    rows: &[(&[&str], &str)],
) {
    for (words, want) in rows {
        begins(rt, shelf, words, 0, want);
    }
}

#[test]
fn what_is_put_is_solved_again(rt: HostRuntime) {
    let mut shelf = SteadyShelf::new(rt.alloc());
    follow(&rt, &mut shelf, AGAIN);
}

#[test]
fn other_counts_of_trains_are_refused(rt: HostRuntime) {
    prints(&rt, "0", "0", 2, "error: ");
    prints(&rt, "0", "2001", 2, "error: ");
}

// Where the problem cannot be put, nothing is written.
#[test]
fn a_problem_that_cannot_be_put_ends_the_run(rt: HostRuntime) {
    let mut shelf = MemShelf::new(rt.alloc());
    shelf.break_puts(&[1]).expect(&rt, "room");
    ends(&rt, &mut shelf, &["make", "1", "1", "--out", "p"], 4, "");
    assert!(rt; shelf.put_faults("p") == 1);
}
