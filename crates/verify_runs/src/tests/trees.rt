// What `check` prints of trees.
use super::runs::{TREE, TWO, row};
use std::process::Abort;
use std::sync::Wait;
use std::thread::Threads;

// A tree, the status, and the line.
type Row = (&'static str, u8, &'static str);

// Each tree is checked so for the two trains.
fn trees(rt: &(impl Threads + Wait + Sync + Abort + AllocGlobal), rows: &[Row]) {
    for (tree, status, line) in rows {
        row(rt, &["check", "p", "t"], TWO, tree, "", "", *status, line);
    }
}

const VERDICTS: &[Row] = &[
    (TREE, 0, "accepted optimal 18\n"),
    (
        "displib-tree 1\nverdict optimal 24\norder 0 0 1 0\ncosts 2\nwalk 0 0 0 0 1\nwalk 1 0 0 0 1 1 0 1 1\ncosts 2\nwalk 0 1 0 1 1 0 0 0 1\nwalk 1 1 0 1 1\nend\n",
        1,
        "refused 2 BelowCost 18 24\n",
    ),
    (
        "displib-tree 1\nverdict infeasible\norder 0 0 1 0\ncosts 2\nwalk 0 0 0 0 1\nwalk 1 0 0 0 1 1 0 1 1\ncosts 2\nwalk 0 1 0 1 1 0 0 0 1\nwalk 1 1 0 1 1\nend\n",
        1,
        "refused 1 NoVerdict\n",
    ),
];

#[test]
fn a_tree_is_accepted_or_refused(rt: HostRuntime) {
    trees(&rt, VERDICTS);
}

const NO_TREES: &[Row] = &[
    (
        "displib-tree 1\nverdict optimal 18\norder 0 0 1 0\ncosts 2\nwalk 0 0 0 0 1\nwalk 1 0 0 0 1 1 0 1 1\n",
        2,
        "tree: Truncated\n",
    ),
    (
        "displib-tree 1\nverdict optimal 18\norder 0 0 1 0\ncosts 2\nwalk 0 0 0 0 1\nwalk 1 0 0 0 1 1 0 1 1\ncosts 2\nwalk 0 1 0 1 1 0 0 0 1\nwalk 1 1 0 1 1\nend\n\n",
        2,
        "tree: Trailing 11\n",
    ),
    ("displib-tree 4\n", 2, "tree: BadLine 1\n"),
    ("displib-tree 2\nedition 65536\n", 2, "tree: TooLarge 2\n"),
];

#[test]
fn a_text_that_is_no_tree_is_told(rt: HostRuntime) {
    trees(&rt, NO_TREES);
}

// The tree of the first edition.
const FIRST: &str =
    "displib-tree 2\nedition 1\nverdict optimal 18\norder 0 0 1 0\ncosts 2\nwalk 0 0 0 0 1\nwalk 1 0 0 0 1 1 0 1 1\ncosts 2\nwalk 0 1 0 1 1 0 0 0 1\nwalk 1 1 0 1 1\nend\n";

const WITHOUT_FIXINGS: &[Row] = &[(FIRST, 2, "tree: WrongEdition 1 0\n")];

// A tree, fixings, the status, and the line.
const FIXED: &[(&str, &str, u8, &str)] = &[
    (FIRST, "started 1 0 0\n", 0, "accepted optimal 18\n"),
    (TREE, "started 1 0 0\n", 0, "accepted optimal 18\n"),
    (
        FIRST,
        "started 1 0 0\nwithdraw 1\n",
        2,
        "tree: WrongEdition 1 2\n",
    ),
    (
        FIRST,
        "started 1 0 0\nstarted 1 0 0\n",
        0,
        "accepted optimal 18\n",
    ),
];

const WITH_FIXINGS: [&str; 5] = ["check", "p", "t", "--fixings", "f"];

#[test]
fn a_tree_is_of_the_edition_of_its_fixings(rt: HostRuntime) {
    trees(&rt, WITHOUT_FIXINGS);
    for (tree, fixings, status, line) in FIXED {
        row(&rt, &WITH_FIXINGS, TWO, tree, fixings, "", *status, line);
    }
}
