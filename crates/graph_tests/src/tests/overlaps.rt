// Two trains on one block, a swap and a fork: when operations run, and which two hold a resource at
// a time.
ghost use Rattle.std.specs.Prelude.{◌≡◌};
ghost use Rattle.first_overlaps.specs.Known.{AreSpansFor};

use super::graphs::{ENTRY, ENTRY_FIRST, OTHER, OTHER_FIRST, extend, undo};
use super::rows::{Of, Row, Shown, are_shown};
use disp_model::{Choice, Decision, Op, Problem};
use event_graph::Graph;
use first_overlaps::{KnownSpans, span_of};
use std::alloc::Global;
use std::panic::Expect;
use std::process::Abort;

/// Two operations, if any.
type Pair = Option<(Op, Op)>;

/// The first two that surely hold a resource at a time at the node of a graph.
fn found(spans: &mut KnownSpans, problem: &Problem, graph: &Graph) -> Pair
    requires problem { graph.now.problem ≡ problem.now }
    requires spans { AreSpansFor problem.now spans.old }
    ensures { AreSpansFor problem.now spans.new }
{
    match spans.first_overlap(problem, graph) {
        Some(overlap) => Some((overlap.a, overlap.b)),
        None => None,
    }
}

/// The same where nothing is known yet of when operations run.
fn found_anew(rt: &impl Abort, alloc: Global, problem: &Problem, graph: &Graph) -> Pair
    requires { graph.now.problem ≡ problem.now }
{
    let mut spans = KnownSpans::new(alloc, problem).expect(rt, "spans");
    found(&mut spans, problem, graph)
}

fn check_pair(rt: &impl Abort, found: Pair, wanted: Pair) {
    assert_eq!(rt; found, wanted);
}

/// These two are found.
pub(super) fn check_overlap(
    rt: &impl Abort,
    alloc: Global,
    problem: &Problem,
    graph: &Graph,
    wanted: Pair,
)
    requires { graph.now.problem ≡ problem.now }
{
    check_pair(rt, found_anew(rt, alloc, problem, graph), wanted);
}

/// These two are found by spans that are kept, and anew.
fn check_both(
    rt: &impl Abort,
    alloc: Global,
    problem: &Problem,
    graph: &Graph,
    spans: &mut KnownSpans,
    wanted: Pair,
)
    requires problem { graph.now.problem ≡ problem.now }
    requires spans { AreSpansFor problem.now spans.old }
    ensures { AreSpansFor problem.now spans.new }
{
    check_pair(rt, found(spans, problem, graph), wanted);
    check_pair(rt, found_anew(rt, alloc, problem, graph), wanted);
}

/// The same spans show what is found anew, behind a decision too, and where it is taken back.
pub(super) fn check_kept(
    rt: &impl Abort,
    alloc: Global,
    problem: &Problem,
    graph: &mut Graph,
    decision: Decision,
    wanted: Pair,
    behind: Pair,
)
    requires { graph.old.problem ≡ problem.now }
{
    let mut spans = KnownSpans::new(alloc, problem).expect(rt, "spans");
    check_both(rt, alloc, problem, graph, &mut spans, wanted);
    extend(rt, graph, decision);
    check_both(rt, alloc, problem, graph, &mut spans, behind);
    undo(rt, graph);
    check_both(rt, alloc, problem, graph, &mut spans, wanted);
}

/// When an operation starts and ends.
fn span(problem: &Problem, graph: &Graph, op: Op) -> Option<(u64, u64)>
    requires { graph.now.problem ≡ problem.now }
{
    match span_of(problem, graph, op) {
        Some(span) => Some((span.start, span.end)),
        None => None,
    }
}

/// The operation starts and ends so.
pub(super) fn check_span(
    rt: &impl Abort,
    problem: &Problem,
    graph: &Graph,
    op: Op,
    wanted: Option<(u64, u64)>,
)
    requires { graph.now.problem ≡ problem.now }
{
    assert_eq!(rt; span(problem, graph, op), wanted);
}

const SPANS: &[Row] = &[
    (Of::Forked, None, Shown::Span(ENTRY, Some((0, 0)))),
    (Of::Forked, None, Shown::Span(Op { train: 0, op: 1 }, None)),
    (
        Of::Forked,
        None,
        Shown::Span(Op { train: 0, op: 3 }, Some((3, 3))),
    ),
    (Of::Forked, None, Shown::Span(OTHER, None)),
];

#[test]
fn an_operation_runs_until_its_next_or_for_its_duration(rt: HostRuntime) {
    are_shown(&rt, SPANS);
}

const OVERLAPS: &[Row] = &[
    (Of::TwoTrains, None, Shown::Overlap(Some((ENTRY, OTHER)))),
    // The one ends when the other starts, and their order is decided.
    (Of::TwoTrains, Some(ENTRY_FIRST), Shown::Overlap(None)),
    (Of::TwoTrains, Some(OTHER_FIRST), Shown::Overlap(None)),
];

#[test]
fn two_on_a_block_overlap_until_one_goes_first(rt: HostRuntime) {
    are_shown(&rt, OVERLAPS);
}

const KEPT: &[Row] = &[(
    Of::TwoTrains,
    None,
    Shown::Kept(ENTRY_FIRST, Some((ENTRY, OTHER)), None),
)];

#[test]
fn spans_are_kept_where_the_graph_is_moved(rt: HostRuntime) {
    are_shown(&rt, KEPT);
}

const TOUCHING: &[Row] = &[
    (Of::Swap, None, Shown::Overlap(None)),
    // Both go on at 10, the first train first: then the other has not left its block yet.
    (
        Of::Swap,
        None,
        Shown::Picked(Some(Choice::Order(Op { train: 0, op: 1 }, OTHER))),
    ),
];

#[test]
fn where_two_touch_their_places_tell(rt: HostRuntime) {
    are_shown(&rt, TOUCHING);
}
