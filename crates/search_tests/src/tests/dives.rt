// Dives from the root of a fork.
ghost use Rattle.std.specs.Prelude.{◌≡◌};

use super::parts::{Worked, means_of, problem_of, root};
use disp_model::{Leaf, List, Problem, Rule, TreeNode};
use event_graph::Graph;
use packed_nodes::PackedNode;
use std::alloc::Global;
use std::panic::Expect;
use std::process::Abort;
use tree_dives::{Dive, End, dive};

/// How a dive ended.
fn shown_end(end: &End) -> &'static str {
    match end {
        End::Closed => "closed",
        End::Plan(_) => "plan",
        End::Open => "open",
    }
}

/// The kind of a node.
fn shown_node(node: &TreeNode) -> &'static str {
    match node {
        TreeNode::Branch { .. } => "branch",
        TreeNode::Leaf(Leaf::Costs(_)) => "costs",
        TreeNode::Leaf(_) => "other",
    }
}

/// A packed node is of this kind.
fn check_node(rt: &impl Abort, alloc: Global, packed: &PackedNode, wanted: &str) {
    let node = packed.node(alloc).expect(rt, "a node");
    assert_eq!(rt; shown_node(&node), wanted);
    drop(node);
}

/// The nodes are of these kinds, one by one.
fn check_nodes(rt: &impl Abort, alloc: Global, nodes: &List<PackedNode>, wanted: &[&str]) {
    for (packed, kind) in nodes.as_slice().iter().zip(wanted) {
        check_node(rt, alloc, packed, kind);
    }
}

/// A rule, the best cost and how many branches; how a dive ends, the kinds of its nodes, and the
/// bounds of its leaves.
type Row = (
    Rule,
    Option<u64>,
    u32,
    &'static str,
    &'static [&'static str],
    &'static [u64],
);

/// What a dive gives, with what it works with made for it alone.
fn dived(
    rt: &impl Abort,
    alloc: Global,
    problem: &Problem,
    graph: &mut Graph,
    rule: Rule,
    best: Option<u64>,
    allowance: u32,
) -> Dive
    requires { graph.old.problem ≡ problem.now }
{
    let mut means = means_of(rt, alloc, problem, rule);
    let found = dive(
        alloc,
        problem,
        &means.reckoning,
        graph,
        &mut means.known,
        best,
        allowance,
        &mut means.guide,
    );
    drop(means);
    found.expect(rt, "a dive")
}

/// A dive from the root of a graph gives what its row says, and leaves the graph there.
fn check_dive(rt: &impl Abort, alloc: Global, problem: &Problem, graph: &mut Graph, row: &Row)
    requires { graph.old.problem ≡ problem.now }
{
    let (rule, best, allowance, end, nodes, bounds) = *row;
    let found = dived(rt, alloc, problem, graph, rule, best, allowance);
    let seen = (
        shown_end(&found.end),
        found.bounds.as_slice(),
        found.nodes.len(),
        graph.decisions().len(),
    );
    assert_eq!(rt; seen, (end, bounds, nodes.len(), 0));
    check_nodes(rt, alloc, &found.nodes, nodes);
    drop(found);
}

/// The same at a graph of its own.
fn check_row(rt: &impl Abort, alloc: Global, problem: &Problem, row: &Row) {
    let mut graph = root(rt, alloc, problem);
    check_dive(rt, alloc, problem, &mut graph, row);
    drop(graph);
}

/// So it is for each row.
fn check_rows(rt: &impl Abort, alloc: Global, problem: &Problem, rows: &[Row]) {
    for row in rows {
        check_row(rt, alloc, problem, row);
    }
}

const DIVES: &[Row] = &[
    (Rule::Fixed, None, 0, "open", &["costs"], &[3]),
    (Rule::Fixed, Some(3), 9, "closed", &["costs"], &[3]),
    (Rule::Free, Some(3), 9, "closed", &["costs"], &[3]),
    (
        Rule::Fixed,
        Some(5),
        9,
        "closed",
        &["branch", "costs", "costs"],
        &[5, 13],
    ),
    (
        Rule::Fixed,
        None,
        1,
        "plan",
        &["branch", "costs", "costs"],
        &[5, 13],
    ),
];

#[test]
fn the_way_that_costs_less_is_followed(rt: HostRuntime) {
    let problem = problem_of(&rt, rt.alloc(), Worked::Fork);
    check_rows(&rt, rt.alloc(), &problem, DIVES);
    drop(problem);
}
