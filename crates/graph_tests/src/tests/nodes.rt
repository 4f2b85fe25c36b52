// A train of one operation, which may start from 5 on, but until 4 only; and no train at all.
ghost use Rattle.std.specs.Prelude.{◌≡◌};
ghost use Rattle.node_leaves.specs.Reckoned.{ReckonsFor};
ghost use Rattle.share_bound.specs.Known.{HoldFor};

use super::graphs::ENTRY;
use super::rows::{Of, Row, Shown, are_shown};
use disp_model::{Decision, Leaf, Problem, Rule};
use event_graph::Graph;
use node_leaves::{NodeLeaf, Reckoning, child_leaf, leaf_of};
use share_bound::KnownShares;
use std::alloc::Global;
use std::panic::Expect;
use std::process::Abort;

/// The kind of a leaf, and its bound.
type Kind = (&'static str, u64);

fn kind(leaf: &NodeLeaf) -> Kind {
    match leaf {
        NodeLeaf::Open { bound, .. } => ("open", *bound),
        NodeLeaf::Dead(Leaf::NoRoute) => ("no route", 0),
        NodeLeaf::Dead(Leaf::Cycle(_)) => ("cycle", 0),
        NodeLeaf::Dead(Leaf::Late(_)) => ("late", 0),
        NodeLeaf::Dead(_) => ("other", 0),
    }
}

/// What the node shows.
fn here(
    rt: &impl Abort,
    alloc: Global,
    problem: &Problem,
    reckoning: &Reckoning,
    graph: &Graph,
    known: &mut KnownShares,
) -> Kind
    requires node { graph.now.problem ≡ problem.now }
    requires reckons { ReckonsFor problem.now reckoning.now }
    requires known { HoldFor graph.now known.old }
    ensures { HoldFor graph.now known.new }
{
    let leaf = leaf_of(alloc, problem, reckoning, graph, known).expect(rt, "a leaf");
    kind(&leaf)
}

/// What the node shows where its first operation is skipped.
fn behind(
    rt: &impl Abort,
    alloc: Global,
    problem: &Problem,
    reckoning: &Reckoning,
    graph: &mut Graph,
    known: &mut KnownShares,
) -> Kind
    requires node { graph.old.problem ≡ problem.now }
    requires reckons { ReckonsFor problem.now reckoning.now }
    requires known { HoldFor graph.old known.old }
{
    let skip = Decision::Skip(ENTRY);
    let leaf = child_leaf(alloc, problem, reckoning, graph, known, skip).expect(rt, "a leaf");
    kind(&leaf)
}

/// What the node shows, and then where its first operation is skipped.
fn kinds(
    rt: &impl Abort,
    alloc: Global,
    problem: &Problem,
    graph: &mut Graph,
    rule: Rule,
) -> (Kind, Kind)
    requires { graph.old.problem ≡ problem.now }
{
    let reckoning = Reckoning::new(alloc, problem, rule).expect(rt, "a reckoning");
    let mut known = KnownShares::new(alloc, problem).expect(rt, "shares");
    let shown = here(rt, alloc, problem, &reckoning, graph, &mut known);
    let skipped = behind(rt, alloc, problem, &reckoning, graph, &mut known);
    (shown, skipped)
}

fn are_kinds(rt: &impl Abort, found: (Kind, Kind), wanted: &str, skipped: &str) {
    let ((shown, bound), (behind, least)) = found;
    assert_eq!(rt; (shown, behind), (wanted, skipped));
    assert!(rt; bound == 0 && least == 0);
}

/// The node shows this, and that where its first operation is skipped, and nothing is decided then.
pub(super) fn check_leaves(
    rt: &impl Abort,
    alloc: Global,
    problem: &Problem,
    graph: &mut Graph,
    rule: Rule,
    wanted: &str,
    skipped: &str,
)
    requires { graph.old.problem ≡ problem.now }
{
    are_kinds(rt, kinds(rt, alloc, problem, graph, rule), wanted, skipped);
    assert!(rt; graph.decisions().len() == 0);
}

const LEAVES: &[Row] = &[
    (
        Of::Closed,
        None,
        Shown::Leaves(Rule::Fixed, "late", "no route"),
    ),
    (
        Of::Closed,
        None,
        Shown::Leaves(Rule::Free, "late", "no route"),
    ),
    (
        Of::NoTrains,
        None,
        Shown::Leaves(Rule::Fixed, "open", "open"),
    ),
    (
        Of::NoTrains,
        None,
        Shown::Leaves(Rule::Free, "open", "open"),
    ),
];

#[test]
fn nodes_are_dead_or_have_bounds(rt: HostRuntime) {
    are_shown(&rt, LEAVES);
}
