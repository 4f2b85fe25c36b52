// Two trains on one block, and a fork.
use super::graphs::{ENTRY, ENTRY_FIRST, GO_1, OTHER, Step, check_arcs};
use super::rows::{Of, problem_of};
use disp_model::{Decision, Problem};
use event_arcs::{NodeArcs, arcs};
use std::alloc::Global;
use std::panic::Expect;
use std::process::Abort;

/// What is decided, and the arcs then, or which train has no route.
type Row = (&'static [Decision], Result<&'static [Step], u32>);

/// The arcs are these, or this train has no route.
fn check_listed(rt: &impl Abort, arcs: &NodeArcs, wanted: Result<&[Step], u32>) {
    match (arcs, wanted) {
        (NodeArcs::Listed(arcs), Ok(wanted)) => check_arcs(rt, arcs, wanted),
        (NodeArcs::NoRoute(train), Err(wanted)) => assert!(rt; *train == wanted),
        _ => panic!(rt; "the one in place of the other"),
    }
}

fn check(
    rt: &impl Abort,
    alloc: Global,
    problem: &Problem,
    decisions: &[Decision],
    wanted: Result<&[Step], u32>,
) {
    let arcs = arcs(alloc, problem, &[], decisions).expect(rt, "arcs");
    check_listed(rt, &arcs, wanted);
}

/// So it is of a problem for each row.
fn are_listed(rt: &(impl Abort + AllocGlobal), of: Of, rows: &[Row]) {
    let problem = problem_of(rt.alloc(), of).expect(rt, "a problem");
    for (decisions, wanted) in rows {
        check(rt, rt.alloc(), &problem, decisions, *wanted);
    }
}

const ORDERED: &[Row] = &[
    (&[Decision::Run(ENTRY)], Ok(&[(0, 1, 10), (2, 3, 4)])),
    (
        &[ENTRY_FIRST],
        Ok(&[(0, 1, 10), (2, 3, 4), (0, 2, 10), (1, 2, 0)]),
    ),
    (&[Decision::Skip(OTHER)], Err(1)),
];

#[test]
fn an_order_adds_two_arcs(rt: HostRuntime) {
    are_listed(&rt, Of::TwoTrains, ORDERED);
}

const SPANNED: &[Row] = &[
    (&[], Ok(&[(0, 3, 3)])),
    (&[GO_1], Ok(&[(0, 1, 0), (1, 3, 5)])),
];

#[test]
fn a_fork_is_spanned(rt: HostRuntime) {
    are_listed(&rt, Of::Forked, SPANNED);
}
