// Two trains on one block, and a fork: what decisions make of their costs.
ghost use Rattle.std.specs.Prelude.{◌≡◌};

use super::graphs::{ENTRY, ENTRY_FIRST, GO_1, GO_2, OTHER_FIRST, RUN_1, SKIP_1, check_bound};
use super::rows::{Of, Row, Shown, are_shown};
use cost_bound::{bound, cost};
use disp_model::{ComponentWalk, Op, Problem};
use event_graph::Graph;
use std::alloc::Global;
use std::panic::Expect;
use std::process::Abort;

/// The bound, by both calls.
fn costs(rt: &impl Abort, alloc: Global, problem: &Problem, graph: &Graph) -> (u64, u64)
    requires { graph.now.problem ≡ problem.now }
{
    let shown = bound(alloc, problem, graph).expect(rt, "a bound");
    (cost(problem, graph), shown.cost)
}

/// The bound is this one, by both calls.
pub(super) fn check_cost(
    rt: &impl Abort,
    alloc: Global,
    problem: &Problem,
    graph: &Graph,
    wanted: u64,
)
    requires { graph.now.problem ≡ problem.now }
{
    check_bound(rt, costs(rt, alloc, problem, graph), wanted);
}

/// There is one walk, to this component, over these operations.
fn is_walk(rt: &impl Abort, walks: &[ComponentWalk], component: u32, ops: &[Op]) {
    assert!(rt; walks.len() == 1);
    let walk = &walks[0];
    assert!(rt; walk.component == component);
    assert_eq!(rt; walk.walk.as_slice(), ops);
}

/// One walk shows the bound: this one.
pub(super) fn check_walk(
    rt: &impl Abort,
    alloc: Global,
    problem: &Problem,
    graph: &Graph,
    component: u32,
    ops: &[Op],
)
    requires { graph.now.problem ≡ problem.now }
{
    let bound = bound(alloc, problem, graph).expect(rt, "a bound");
    is_walk(rt, bound.walks.as_slice(), component, ops);
}

/// What the two trains cost, in no order and in either.
const ORDERS: &[Row] = &[
    (Of::TwoTrainsUntil3, None, Shown::Cost(14)),
    (Of::TwoTrainsUntil3, Some(ENTRY_FIRST), Shown::Cost(24)),
    (Of::TwoTrainsUntil3, Some(OTHER_FIRST), Shown::Cost(18)),
];

#[test]
fn orders_cost(rt: HostRuntime) {
    are_shown(&rt, ORDERS);
}

/// What the fork costs, by what is decided of its routes.
const ROUTES: &[Row] = &[
    (Of::Forked, None, Shown::Cost(3)),
    (Of::Forked, Some(GO_1), Shown::Cost(5)),
    (Of::Forked, Some(GO_2), Shown::Cost(13)),
    (Of::Forked, Some(RUN_1), Shown::Cost(5)),
    (Of::Forked, Some(SKIP_1), Shown::Cost(13)),
];

#[test]
fn routes_cost(rt: HostRuntime) {
    are_shown(&rt, ROUTES);
}

/// What the fork costs where it begins later, and by which walk.
const LATER: &[Row] = &[
    (Of::ForkedLater, Some(GO_1), Shown::Cost(12)),
    (
        Of::ForkedLater,
        Some(GO_1),
        Shown::Walk(1, &[ENTRY, Op { train: 0, op: 3 }]),
    ),
];

#[test]
fn a_fixing_raises_a_lower(rt: HostRuntime) {
    are_shown(&rt, LATER);
}
