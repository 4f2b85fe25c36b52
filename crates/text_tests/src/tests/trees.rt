// Texts with what they are read as, from outside; and what is written of what was read.
use disp_model::{List, Tree, Verdict};
use std::alloc::Global;
use std::panic::Expect;
use std::process::Abort;
use tree_certificate::{PackedTree, TreeNo, read_tree, write_tree};

/// The nodes of a tree that was read.
fn unpacked(rt: &impl Abort, alloc: Global, tree: &PackedTree) -> Tree {
    let mut nodes = List::new(alloc);
    for packed in tree.as_slice() {
        let node = packed.node(alloc).expect(rt, "a node");
        nodes.push(node).expect(rt, "room");
    }
    nodes
}

/// A tree that was read is written again so.
fn check(
    rt: &impl Abort,
    alloc: Global,
    edition: u32,
    verdict: &Verdict,
    packed: &PackedTree,
    wanted: &str,
) {
    let tree = unpacked(rt, alloc, packed);
    let text = write_tree(alloc, edition, verdict, &tree).expect(rt, "a text");
    assert_eq!(rt; text.as_str(), wanted);
}

/// A text is read, and written again as this.
fn expect(rt: &impl Abort, alloc: Global, text: &str, wanted: &str) {
    let read = read_tree(alloc, text.as_bytes()).expect(rt, "a tree");
    let (edition, verdict, packed) = read;
    check(rt, alloc, edition.unwrap_or(7), &verdict, &packed, wanted);
}

/// A text is refused so.
fn expect_refused(rt: &impl Abort, alloc: Global, text: &str, wanted: TreeNo) {
    let why = read_tree(alloc, text.as_bytes()).err();
    assert_eq!(rt; why, Some(wanted));
}

#[test]
fn a_text_of_the_first_version_is_read(rt: HostRuntime) {
    expect(
        &rt,
        rt.alloc(),
        "displib-tree 1\nverdict optimal 18\norder 0 0 1 0\ncosts 2\nwalk 0 0 0 0 1\nwalk 1 0 0 0 1 1 0 1 1\ncosts 2\nwalk 0 1 0 1 1 0 0 0 1\nwalk 1 1 0 1 1\nend\n",
        "displib-tree 2\nedition 7\nverdict optimal 18\norder 0 0 1 0\ncosts 2\nwalk 0 0 0 0 1\nwalk 1 0 0 0 1 1 0 1 1\ncosts 2\nwalk 0 1 0 1 1 0 0 0 1\nwalk 1 1 0 1 1\nend\n",
    );
}

#[test]
fn each_kind_of_node_is_read_again(rt: HostRuntime) {
    let text =
        "displib-tree 3\nedition 3\nverdict infeasible\nroute 0 1 2\nrun 0 1\nnoroute\ncycle 0 1 2 3\norder 0 0 1 0\nlate 4 5\nroute 2147483647 2147483647 1\nshares 1 1\nwalk 0 1 2\ntrain 1 2\nto 1 2\nto\nend\n";
    expect(&rt, rt.alloc(), text, text);
}

const REFUSED: &[(&str, TreeNo)] = &[
    (
        "displib-tree 1\nverdict optimal 18\norder 0 0 1 0\ncosts 1\nwalk 0 0 0\n",
        TreeNo::Truncated,
    ),
    (
        "displib-tree 1\nverdict optimal 18\ncosts 1048575\nend\n",
        TreeNo::BadLine(4),
    ),
    (
        "displib-tree 1\nverdict optimal 18\ncosts 1048576\n",
        TreeNo::TooLarge(3),
    ),
    (
        "displib-tree 1\nverdict optimal 18\nroute 0 0 0\n",
        TreeNo::BadLine(3),
    ),
    (
        "displib-tree 1\nverdict optimal 18\nroute 2147483648 0\n",
        TreeNo::TooLarge(3),
    ),
    ("displib-tree 4\n", TreeNo::BadLine(1)),
    ("displib-tree 2\nedition 65536\n", TreeNo::TooLarge(2)),
    (
        "displib-tree 1\nverdict infeasible\nnoroute\nend\n\n",
        TreeNo::Trailing(5),
    ),
];

#[test]
fn the_first_line_that_breaks_a_rule_is_named(rt: HostRuntime) {
    for (text, wanted) in REFUSED {
        expect_refused(&rt, rt.alloc(), text, *wanted);
    }
}

#[test]
fn new_lines_stand_in_the_third_version_alone(rt: HostRuntime) {
    let text =
        "displib-tree 3\nedition 0\nverdict optimal 0\nrun 0 1\nshares 0 1\ntrain 0 1\nto 0 0\nshares 0 1\ntrain 0 1\nto 0 0\nend\n";
    expect(&rt, rt.alloc(), text, text);
    let old = "displib-tree 2\nedition 0\nverdict optimal 0\nrun 0 1\n";
    expect_refused(&rt, rt.alloc(), old, TreeNo::BadLine(4));
}
