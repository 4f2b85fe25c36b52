// The tree that `solve` puts, and that `check` takes again.
use super::doubles::{begins, ends, has_front, shelf_of, steady, steady_beside};
use super::searches::{FORK, ONE_BLOCK};
use std::panic::Expect;
use std::process::Abort;
use std::sync::Wait;
use std::thread::Threads;

const NEVER: &str = r#"{"trains":[[{"start_lb":5,"start_ub":4}]],"objective":[]}"#;

const SOLVE: &[&str] = &["solve", "p", "--fixings", "f", "--plan", "s", "--tree", "t"];

const WITH_PLAN: &[&str] = &["check", "p", "t", "--fixings", "f", "--plan", "s"];

const ALONE: &[&str] = &["check", "p", "t", "--fixings", "f"];

/// A problem, its fixings, the status, how the tree begins, words that check it, and what is said
/// of it.
const SHOWN: &[(&str, &str, u8, &str, &[&str], &str)] = &[
    (
        ONE_BLOCK,
        "",
        0,
        "displib-tree 2\nedition 0\nverdict optimal 18\norder 0 0 1 0\ncosts ",
        WITH_PLAN,
        "accepted optimal 18\n",
    ),
    (
        ONE_BLOCK,
        "started 0 0 0\n",
        0,
        "displib-tree 2\nedition 1\nverdict optimal 24\n",
        WITH_PLAN,
        "accepted optimal 24\n",
    ),
    (
        NEVER,
        "",
        1,
        "displib-tree 2\nedition 0\nverdict infeasible\nlate 0 0\nend\n",
        ALONE,
        "accepted infeasible\n",
    ),
];

/// `solve` puts a tree, which begins so, and `check` says this of it and the plan.
fn is_shown(
    rt: &(impl Threads + Wait + Sync + Abort + AllocGlobal),
    problem: &str,
    fixings: &str,
    status: u8,
    front: &str,
    words: &[&str],
    line: &str,
) {
    let mut shelf = steady_beside(rt, problem, "f", fixings);
    begins(rt, &mut shelf, SOLVE, status, "edition ");
    assert!(rt; shelf.file("t").starts_with(front.as_bytes()), "{front}");
    begins(rt, &mut shelf, words, 0, line);
}

/// So it is for each row.
fn are_shown(
    rt: &(impl Threads + Wait + Sync + Abort + AllocGlobal),
    rows: &[(&str, &str, u8, &str, &[&str], &str)],
) {
    for (problem, fixings, status, front, words, line) in rows {
        is_shown(rt, problem, fixings, *status, front, words, line);
    }
}

#[test]
fn the_tree_that_is_put_is_accepted(rt: HostRuntime) {
    are_shown(&rt, SHOWN);
}

#[test]
fn no_tree_is_put_where_nothing_is_settled(rt: HostRuntime) {
    let mut shelf = steady_beside(&rt, FORK, "t", "old");
    let words = ["solve", "p", "--budget", "0", "--tree", "t"];
    begins(
        &rt,
        &mut shelf,
        &words,
        3,
        "edition 0\nunfinished best none ",
    );
    assert!(rt; shelf.file("t") == b"old".as_slice());
}

#[test]
fn of_one_name_the_tree_stays(rt: HostRuntime) {
    let mut shelf = steady(&rt, ONE_BLOCK.as_bytes());
    let words = ["solve", "p", "--tree", "t", "--plan", "t"];
    begins(&rt, &mut shelf, &words, 0, "edition 0\noptimal 18\n");
    assert!(rt; shelf.file("t").starts_with(b"displib-tree 2\n"));
}

/// Which putting fails, how often then the plan's and the tree's failed, and how what their names
/// hold begins.
const PUTTINGS: &[(u64, u64, u64, &str, &str)] = &[
    (1, 1, 0, "", "old"),
    (2, 0, 1, "{\"events\":[", ""),
];

/// Where this putting fails, nothing is written, so often did those of the plan and of the tree
/// fail, and what their names hold begins so.
fn is_the_last(
    rt: &(impl Threads + Wait + Sync + Abort + AllocGlobal),
    call: u64,
    faults: (u64, u64),
    plan: &str,
    tree: &str,
) {
    let mut shelf = shelf_of(rt, &[("p", ONE_BLOCK), ("t", "old")]);
    shelf.break_puts(&[call]).expect(rt, "room");
    let words = ["solve", "p", "--plan", "s", "--tree", "t"];
    ends(rt, &mut shelf, &words, 4, "");
    assert_eq!(rt; (shelf.put_faults("s"), shelf.put_faults("t")), faults);
    let held = (plan.is_empty() || has_front(&shelf, "s", plan))
        && (tree.is_empty() || has_front(&shelf, "t", tree));
    assert!(rt; held, "{plan} {tree}");
}

/// So it is for each row.
fn are_the_last(
    rt: &(impl Threads + Wait + Sync + Abort + AllocGlobal),
    rows: &[(u64, u64, u64, &str, &str)],
) {
    for (call, plan_faults, tree_faults, plan, tree) in rows {
        is_the_last(rt, *call, (*plan_faults, *tree_faults), plan, tree);
    }
}

// What comes behind a putting that failed is not put, and nothing is written.
#[test]
fn a_putting_that_fails_is_the_last(rt: HostRuntime) {
    are_the_last(&rt, PUTTINGS);
}
