// A fork, and two trains on one block: what is picked, and what the choices leave.
ghost use Rattle.std.specs.Prelude.{◌≡◌};

use super::graphs::{ENTRY, GO_1, GO_2, OTHER, OTHER_FIRST};
use super::rows::{Of, Row, Shown, are_shown};
use branch_rules::{Pick, children, pick_fixed};
use disp_model::{Choice, Decision, Problem};
use event_graph::Graph;
use std::alloc::Global;
use std::panic::Expect;
use std::process::Abort;

/// The choice that is picked at a node that is not late, and `None` where there is a plan.
fn picked(rt: &impl Abort, alloc: Global, problem: &Problem, graph: &Graph) -> Option<Choice>
    requires { graph.now.problem ≡ problem.now }
{
    let None = graph.late() else {
        panic!(rt; "an operation is late");
    };
    match pick_fixed(alloc, problem, graph).expect(rt, "a pick") {
        Pick::Choice(choice) => Some(choice),
        Pick::Plan(_) => None,
    }
}

/// This is picked.
pub(super) fn check_picked(
    rt: &impl Abort,
    alloc: Global,
    problem: &Problem,
    graph: &Graph,
    wanted: Option<Choice>,
)
    requires { graph.now.problem ≡ problem.now }
{
    let choice = picked(rt, alloc, problem, graph);
    assert_eq!(rt; choice, wanted);
}

/// The choice leaves these decisions.
pub(super) fn check_children(
    rt: &impl Abort,
    alloc: Global,
    problem: &Problem,
    choice: Choice,
    wanted: &[Decision],
) {
    let ways = children(alloc, problem, choice).expect(rt, "ways");
    assert_eq!(rt; ways.as_slice(), wanted);
}

const FORK: &[Row] = &[(Of::Forked, None, Shown::Picked(Some(Choice::Route(ENTRY))))];

#[test]
fn the_fork_of_a_train_is_picked(rt: HostRuntime) {
    are_shown(&rt, FORK);
}

const PAIR: &[Row] = &[
    (
        Of::TwoTrains,
        None,
        Shown::Picked(Some(Choice::Order(ENTRY, OTHER))),
    ),
    // The fast train goes first: nothing is left to choose.
    (Of::TwoTrains, Some(OTHER_FIRST), Shown::Picked(None)),
];

#[test]
fn the_first_pair_that_clashes_is_picked(rt: HostRuntime) {
    are_shown(&rt, PAIR);
}

const LEFT: &[Row] = &[
    (
        Of::Forked,
        None,
        Shown::Children(Choice::Route(ENTRY), &[GO_1, GO_2]),
    ),
    (Of::Forked, None, Shown::Children(Choice::Route(OTHER), &[])),
];

#[test]
fn a_choice_leaves_its_children(rt: HostRuntime) {
    are_shown(&rt, LEFT);
}
