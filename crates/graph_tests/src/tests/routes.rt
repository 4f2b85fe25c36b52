// A fork of a train, and what fixings and decisions leave of its two routes.
ghost use Rattle.std.specs.Prelude.{◌<◌, length};

use super::graphs::{ENTRY, GO_1, GO_2, RUN_1, SKIP_1};
use disp_model::{Decision, Fixing, List, Op, Problem};
use route_sets::Routes;
use std::alloc::Global;
use std::panic::Expect;
use std::process::Abort;
use worked_problems::forked;

/// What is left.
#[derive(Clone, Copy)]
enum Left {
    /// Whether no route is, whether 1 is forced, what follows 0, and the least sum from 0 to 3.
    Answers(bool, bool, Option<u32>, Option<u64>),
    /// Whether an operation is forced.
    Forced(u32, bool),
    /// The least sum between two operations.
    Between(u32, u32, Option<u64>),
    /// The one route, and no operation where there is no such one.
    Only(&'static [u32]),
}

/// What is fixed, what is decided, and what they leave.
type Row = (&'static [Fixing], &'static [Decision], Left);

/// The one route, and no operation where there is no such one.
fn only_route(rt: &impl Abort, alloc: Global, routes: &Routes) -> List<u32> {
    match routes.only_route().expect(rt, "a route") {
        Some(route) => route,
        None => List::new(alloc),
    }
}

/// The one route is this.
fn check_only(rt: &impl Abort, alloc: Global, routes: &Routes, wanted: &[u32]) {
    let route = only_route(rt, alloc, routes);
    assert_eq!(rt; route.as_slice(), wanted);
}

fn answers(routes: &Routes) -> (bool, bool, Option<u32>, Option<u64>) {
    (
        routes.none_left(),
        routes.forced(1),
        routes.only_next(0),
        routes.least_between(0, 3),
    )
}

fn check_answers(rt: &impl Abort, routes: &Routes, wanted: (bool, bool, Option<u32>, Option<u64>)) {
    assert_eq!(rt; answers(routes), wanted);
}

fn check_left(rt: &impl Abort, alloc: Global, routes: &Routes, left: Left) {
    match left {
        Left::Answers(none, forced, next, sum) => {
            check_answers(rt, routes, (none, forced, next, sum))
        }
        Left::Forced(op, wanted) => assert!(rt; routes.forced(op) == wanted),
        Left::Between(a, b, wanted) => assert!(rt; routes.least_between(a, b) == wanted),
        Left::Only(wanted) => check_only(rt, alloc, routes, wanted),
    }
}

/// So much is left of the routes of the first train.
fn check(
    rt: &impl Abort,
    alloc: Global,
    problem: &Problem,
    fixings: &[Fixing],
    decisions: &[Decision],
    left: Left,
)
    requires { 0 < length problem.now.trains }
{
    let routes = Routes::of(alloc, problem, 0, fixings, decisions).expect(rt, "routes");
    check_left(rt, alloc, &routes, left);
}

/// So it is of the fork for each row.
fn are_left(rt: &(impl Abort + AllocGlobal), rows: &[Row]) {
    let problem = forked(rt.alloc()).expect(rt, "a fork");
    for (fixings, decisions, left) in rows {
        check(rt, rt.alloc(), &problem, fixings, decisions, *left);
    }
}

const BOTH: &[Row] = &[
    (&[], &[], Left::Forced(0, true)),
    (&[], &[], Left::Forced(3, true)),
    (&[], &[], Left::Forced(2, false)),
    (&[], &[], Left::Forced(4, false)),
    (&[], &[], Left::Between(3, 0, None)),
    (&[], &[], Left::Answers(false, false, None, Some(3))),
];

#[test]
fn a_fork_leaves_two_routes(rt: HostRuntime) {
    are_left(&rt, BOTH);
}

/// An operation that the train does not have.
const NONE: Op = Op { train: 0, op: 4 };

const DECIDED: &[Row] = &[
    (&[], &[GO_1], Left::Answers(false, true, Some(1), Some(5))),
    (&[], &[GO_2], Left::Answers(false, false, Some(2), Some(3))),
    (&[], &[RUN_1], Left::Answers(false, true, Some(1), Some(5))),
    (
        &[],
        &[SKIP_1],
        Left::Answers(false, false, Some(2), Some(3)),
    ),
    (
        &[],
        &[Decision::Skip(ENTRY)],
        Left::Answers(true, false, None, None),
    ),
    (
        &[],
        &[Decision::Run(NONE)],
        Left::Answers(true, false, None, None),
    ),
    (
        &[],
        &[Decision::Skip(NONE)],
        Left::Answers(false, false, None, Some(3)),
    ),
];

#[test]
fn a_decision_leaves_one(rt: HostRuntime) {
    are_left(&rt, DECIDED);
}

const CHOSEN: Fixing = Fixing::Chosen {
    at_train: 0,
    at_op: 0,
    next: 2,
};

const STARTED: Fixing = Fixing::Started {
    at_train: 0,
    at_op: 1,
    time: 4,
};

const FIXED: &[Row] = &[
    (
        &[CHOSEN, CHOSEN],
        &[],
        Left::Answers(false, false, Some(2), Some(3)),
    ),
    (
        &[STARTED, STARTED],
        &[],
        Left::Answers(false, true, Some(1), Some(5)),
    ),
    (
        &[CHOSEN, STARTED],
        &[],
        Left::Answers(true, false, None, None),
    ),
];

#[test]
fn fixings_may_leave_none(rt: HostRuntime) {
    are_left(&rt, FIXED);
}

const ONLY: &[Row] = &[
    (&[], &[GO_1], Left::Only(&[0, 1, 3])),
    (
        &[],
        &[Decision::Run(Op { train: 0, op: 2 })],
        Left::Only(&[0, 2, 3]),
    ),
    (
        &[],
        &[Decision::Skip(Op { train: 0, op: 2 })],
        Left::Only(&[0, 1, 3]),
    ),
    (&[], &[Decision::Skip(NONE)], Left::Only(&[])),
    (&[], &[Decision::Skip(ENTRY)], Left::Only(&[])),
];

#[test]
fn the_only_route_is_given_whole(rt: HostRuntime) {
    are_left(&rt, ONLY);
}
