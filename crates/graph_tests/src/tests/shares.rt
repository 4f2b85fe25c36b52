// Two trains on one block, and a fork: what decisions make of their shares.
ghost use Rattle.std.specs.Prelude.{◌≡◌};
ghost use Rattle.problem_facts.specs.Components.{AreOwnOf};

use super::graphs::{ENTRY_FIRST, GO_1, GO_2, OTHER_FIRST, RUN_1, SKIP_1, check_bound};
use super::rows::{Of, Row, Shown, are_shown};
use disp_model::Problem;
use event_graph::Graph;
use problem_facts::OwnComponents;
use share_bound::{free_bound, free_cost};
use std::alloc::Global;
use std::panic::Expect;
use std::process::Abort;

/// What the shares of the trains add up to, by both calls.
fn shares(
    rt: &impl Abort,
    alloc: Global,
    problem: &Problem,
    components: &OwnComponents,
    graph: &Graph,
) -> (u64, u64)
    requires node { graph.now.problem ≡ problem.now }
    requires own { AreOwnOf problem.now components.now }
{
    let shown = free_bound(alloc, problem, components, graph).expect(rt, "a bound");
    let cost = free_cost(alloc, problem, components, graph).expect(rt, "a cost");
    (cost, shown.cost)
}

/// The shares of the trains add up to this one.
pub(super) fn check_share(
    rt: &impl Abort,
    alloc: Global,
    problem: &Problem,
    graph: &Graph,
    wanted: u64,
)
    requires { graph.now.problem ≡ problem.now }
{
    let components = OwnComponents::of(alloc, problem).expect(rt, "components");
    check_bound(rt, shares(rt, alloc, problem, &components, graph), wanted);
}

/// What the two trains cost, in no order and in either.
const ORDERS: &[Row] = &[
    (Of::TwoTrainsUntil3, None, Shown::Share(14)),
    (Of::TwoTrainsUntil3, Some(ENTRY_FIRST), Shown::Share(24)),
    (Of::TwoTrainsUntil3, Some(OTHER_FIRST), Shown::Share(18)),
];

#[test]
fn orders_cost(rt: HostRuntime) {
    are_shown(&rt, ORDERS);
}

/// What the fork costs, by what is decided of its routes.
const ROUTES: &[Row] = &[
    (Of::DearFork, None, Shown::Share(7)),
    (Of::DearFork, Some(GO_1), Shown::Share(9)),
    (Of::DearFork, Some(GO_2), Shown::Share(13)),
    (Of::DearFork, Some(RUN_1), Shown::Share(9)),
    (Of::DearFork, Some(SKIP_1), Shown::Share(13)),
];

#[test]
fn routes_cost(rt: HostRuntime) {
    are_shown(&rt, ROUTES);
}

// What the fork costs where it begins at 7.
#[test]
fn a_fixing_raises_a_base(rt: HostRuntime) {
    are_shown(&rt, &[(Of::DearForkLater, None, Shown::Share(14))]);
}
