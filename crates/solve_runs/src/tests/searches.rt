// What is printed for problems that want a search, with fixings and budgets.
use super::doubles::{ends, steady, steady_beside};
use std::process::Abort;
use std::sync::Wait;
use std::thread::Threads;

/// Two trains on one block, for 10 and for 4.
pub(crate) const ONE_BLOCK: &str =
    r#"{"trains":[[{"min_duration":10,"resources":[{"resource":"r"}],"successors":[1]},{}],[{"min_duration":4,"resources":[{"resource":"r"}],"successors":[1]},{}]],"objective":[{"type":"op_delay","train":0,"operation":1,"coeff":1},{"type":"op_delay","train":1,"operation":1,"coeff":1}]}"#;

/// The same with a release time of 3.
const RELEASED: &str =
    r#"{"trains":[[{"min_duration":10,"resources":[{"resource":"r","release_time":3}],"successors":[1]},{}],[{"min_duration":4,"resources":[{"resource":"r","release_time":3}],"successors":[1]},{}]],"objective":[{"type":"op_delay","train":0,"operation":1,"coeff":1},{"type":"op_delay","train":1,"operation":1,"coeff":1}]}"#;

/// Two trains that swap two resources.
const SWAP: &str =
    r#"{"trains":[[{"min_duration":10,"resources":[{"resource":"r1"}],"successors":[1]},{"resources":[{"resource":"r2"}],"successors":[2]},{}],[{"min_duration":10,"resources":[{"resource":"r2"}],"successors":[1]},{"resources":[{"resource":"r1"}],"successors":[2]},{}]],"objective":[]}"#;

/// One train with two ways: 5 long, or 3 long at a price of 10.
pub(crate) const FORK: &str =
    r#"{"trains":[[{"successors":[1,2]},{"min_duration":5,"successors":[3]},{"min_duration":3,"successors":[3]},{}]],"objective":[{"type":"op_delay","train":0,"operation":3,"coeff":1},{"type":"op_delay","train":0,"operation":2,"increment":10}]}"#;

const EIGHTEEN: &str =
    "edition 0\noptimal 18\n{\"events\":[{\"operation\":0,\"time\":0,\"train\":1},{\"operation\":1,\"time\":4,\"train\":1},{\"operation\":0,\"time\":4,\"train\":0},{\"operation\":1,\"time\":14,\"train\":0}],\"objective_value\":18}\n";

/// `solve p --fixings f --rule RULE --budget B` of these files ends with this status and these
/// lines.
fn is_solved_by(
    rt: &(impl Threads + Wait + Sync + Abort + AllocGlobal),
    rule: &str,
    problem: &str,
    fixings: &str,
    budget: &str,
    status: u8,
    want: &str,
) {
    let mut shelf = steady_beside(rt, problem, "f", fixings);
    let words = [
        "solve",
        "p",
        "--fixings",
        "f",
        "--rule",
        rule,
        "--budget",
        budget,
    ];
    ends(rt, &mut shelf, &words, status, want);
}

/// So ends each row, of a problem, its fixings, the budget, the status and the lines, by both rules.
fn are_solved(
    rt: &(impl Threads + Wait + Sync + Abort + AllocGlobal),
    rows: &[(&str, &str, &str, u8, &str)],
) {
    for (problem, fixings, budget, status, want) in rows {
        is_solved_by(rt, "fixed", problem, fixings, budget, *status, want);
        is_solved_by(rt, "free", problem, fixings, budget, *status, want);
    }
}

const CHOICES: &[(&str, &str, &str, u8, &str)] = &[
    (ONE_BLOCK, "", "100", 0, EIGHTEEN),
    (ONE_BLOCK, "", "1", 0, EIGHTEEN),
    (
        RELEASED,
        "",
        "100",
        0,
        "edition 0\noptimal 21\n{\"events\":[{\"operation\":0,\"time\":0,\"train\":1},{\"operation\":1,\"time\":4,\"train\":1},{\"operation\":0,\"time\":7,\"train\":0},{\"operation\":1,\"time\":17,\"train\":0}],\"objective_value\":21}\n",
    ),
    (
        FORK,
        "",
        "1",
        0,
        "edition 0\noptimal 5\n{\"events\":[{\"operation\":0,\"time\":0,\"train\":0},{\"operation\":1,\"time\":0,\"train\":0},{\"operation\":3,\"time\":5,\"train\":0}],\"objective_value\":5}\n",
    ),
];

#[test]
fn problems_with_choices_are_solved(rt: HostRuntime) {
    are_solved(&rt, CHOICES);
}

const SPENT: &[(&str, &str, &str, u8, &str)] = &[
    (
        ONE_BLOCK,
        "",
        "0",
        3,
        "edition 0\nunfinished best none bound 14 spent 0\n",
    ),
    (
        FORK,
        "",
        "0",
        3,
        "edition 0\nunfinished best none bound 3 spent 0\n",
    ),
];

#[test]
fn a_spent_budget_is_told(rt: HostRuntime) {
    are_solved(&rt, SPENT);
}

const FIXED: &[(&str, &str, &str, u8, &str)] = &[
    (
        ONE_BLOCK,
        "started 0 0 0\nstarted 0 0 0\n",
        "100",
        0,
        "edition 1\noptimal 24\n{\"events\":[{\"operation\":0,\"time\":0,\"train\":0},{\"operation\":1,\"time\":10,\"train\":0},{\"operation\":0,\"time\":10,\"train\":1},{\"operation\":1,\"time\":14,\"train\":1}],\"objective_value\":24}\n",
    ),
    (
        FORK,
        "chosen 0 0 2\n",
        "100",
        0,
        "edition 1\noptimal 13\n{\"events\":[{\"operation\":0,\"time\":0,\"train\":0},{\"operation\":2,\"time\":0,\"train\":0},{\"operation\":3,\"time\":3,\"train\":0}],\"objective_value\":13}\n",
    ),
    (
        SWAP,
        "started 0 0 0\nstarted 1 0 0\n",
        "100",
        1,
        "edition 2\ninfeasible\n",
    ),
    (
        ONE_BLOCK,
        "started 0 0 0\nstarted 0 0 7\n",
        "100",
        2,
        "fixings line 2: refused StartedAt 0\n",
    ),
];

#[test]
fn fixings_change_what_is_least(rt: HostRuntime) {
    are_solved(&rt, FIXED);
}

/// `solve p --workers W` of two trains on one block finds the same plan.
fn is_found_by(rt: &(impl Threads + Wait + Sync + Abort + AllocGlobal), workers: &str) {
    let mut shelf = steady(rt, ONE_BLOCK.as_bytes());
    ends(
        rt,
        &mut shelf,
        &["solve", "p", "--workers", workers],
        0,
        EIGHTEEN,
    );
}

#[test]
fn searchers_side_by_side_find_the_same(rt: HostRuntime) {
    for workers in ["1", "2", "4"] {
        is_found_by(&rt, workers);
    }
}
