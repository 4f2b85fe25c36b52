// Each call of the outside fails in turn, for `solve` and `make`: the status is 4, what was written
// is a front of the answer, or the line for what was not read, names under which nothing was put
// hold what they held, and no feed is left open.
use super::doubles::{breaks, has_front, shelf_of};
use super::searches::ONE_BLOCK;
use outside_in_memory::{BrokenWrite, MemShelf};
use std::panic::Expect;
use std::process::Abort;
use std::sync::Wait;
use std::thread::Threads;

const FIXINGS: &str = "started 0 0 0\nstarted 0 0 0\n";

const PLAN: &str =
    "{\"events\":[{\"operation\":0,\"time\":0,\"train\":0},{\"operation\":1,\"time\":10,\"train\":0},{\"operation\":0,\"time\":10,\"train\":1},{\"operation\":1,\"time\":14,\"train\":1}],\"objective_value\":24}\n";

const TREE: &str = "displib-tree 2\nedition 1\nverdict optimal 24\n";

const OLD: &str = "old";

/// The call that fails.
#[derive(Clone, Copy, Debug)]
enum Failing {
    /// The reading of this name, or the opening of its feed.
    Reading(&'static str),
    /// This call of the feed of fixings.
    Line(u64),
    /// This putting.
    Putting(u64),
    /// This write, behind so many bytes.
    Writing(u64, usize),
}

/// The call of the shelf fails, if it is one of it.
fn break_shelf(rt: &impl Abort, shelf: &mut MemShelf, failing: Failing) {
    match failing {
        Failing::Reading(name) => {
            let text = if name == "p" { ONE_BLOCK } else { FIXINGS };
            shelf.place(name, text.as_bytes(), &[1]).expect(rt, "room");
        }
        Failing::Line(call) => shelf.break_lines("f", &[call]).expect(rt, "room"),
        Failing::Putting(call) => shelf.break_puts(&[call]).expect(rt, "room"),
        Failing::Writing(_, _) => {}
    }
}

/// The writes that fail.
fn broken_writes(failing: Failing) -> BrokenWrite {
    match failing {
        Failing::Writing(call, sent) => BrokenWrite { call, sent },
        _ => BrokenWrite { call: 0, sent: 0 },
    }
}

/// The problem, its fixings, and something under the names of the plan and the tree.
const FILES: &[(&str, &str)] = &[("p", ONE_BLOCK), ("f", FIXINGS), ("s", OLD), ("t", OLD)];

/// Where the call fails, the words write this, and the names of the plan and the tree hold texts
/// that begin so.
fn fails(
    rt: &(impl Threads + Wait + Sync + Abort + AllocGlobal),
    words: &[&str],
    failing: Failing,
    written: &str,
    plan: &str,
    tree: &str,
) {
    let mut shelf = shelf_of(rt, FILES);
    break_shelf(rt, &mut shelf, failing);
    breaks(rt, &mut shelf, &[broken_writes(failing)], words, 4, written);
    let held = (has_front(&shelf, "s", plan), has_front(&shelf, "t", tree));
    assert_eq!(rt;
        (held, shelf.open_feeds()),
        ((true, true), 0),
        "{failing:?}"
    );
}

/// The words fail at each call so: what is written then, and how what the names of the plan and the
/// tree hold begins, stand behind it.
fn all_fail(
    rt: &(impl Threads + Wait + Sync + Abort + AllocGlobal),
    words: &[&str],
    rows: &[(Failing, &str, &str, &str)],
) {
    for (failing, written, plan, tree) in rows {
        fails(rt, words, *failing, written, plan, tree);
    }
}

const LINES: &str = "edition 1\noptimal 24\n";

const OF_A_SEARCH: &[(Failing, &str, &str, &str)] = &[
    (Failing::Reading("p"), "problem: Failed\n", OLD, OLD),
    (Failing::Reading("f"), "fixings: Failed\n", OLD, OLD),
    (Failing::Line(1), "fixings: Failed\n", OLD, OLD),
    (Failing::Line(2), "fixings: Failed\n", OLD, OLD),
    (Failing::Line(3), "fixings: Failed\n", OLD, OLD),
    (Failing::Putting(1), "", OLD, OLD),
    (Failing::Putting(2), "", PLAN, OLD),
    (Failing::Writing(1, 3), "edi", PLAN, TREE),
    (Failing::Writing(2, 0), "edition 1\n", PLAN, TREE),
    (Failing::Writing(3, 0), LINES, PLAN, TREE),
];

#[test]
fn each_call_of_a_search_fails_in_turn(rt: HostRuntime) {
    let words = ["solve", "p", "--fixings", "f", "--plan", "s", "--tree", "t"];
    all_fail(&rt, &words, OF_A_SEARCH);
}

const PROBLEM: &str = "{\"objective\":[{";

const OF_A_MAKING: &[(Failing, &str, &str, &str)] = &[
    (Failing::Putting(1), "", OLD, OLD),
    (Failing::Writing(1, 0), "", PROBLEM, OLD),
    (Failing::Writing(2, 4), "trains 1\noper", PROBLEM, OLD),
    (
        Failing::Writing(3, 0),
        "trains 1\noperations 3\n",
        PROBLEM,
        OLD,
    ),
];

#[test]
fn each_call_of_a_making_fails_in_turn(rt: HostRuntime) {
    all_fail(&rt, &["make", "1", "1", "--out", "s"], OF_A_MAKING);
}

// What is refused of a feed closes it too.
#[test]
fn a_refused_line_leaves_no_feed_open(rt: HostRuntime) {
    let mut shelf = shelf_of(&rt, &[("p", ONE_BLOCK), ("f", "show\n")]);
    let words = ["solve", "p", "--fixings", "f"];
    breaks(
        &rt,
        &mut shelf,
        &[],
        &words,
        2,
        "fixings line 1: unreadable\n",
    );
    assert!(rt; shelf.open_feeds() == 0);
}
