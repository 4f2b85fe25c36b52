// Looks ahead from the root of an edition without fixings.
ghost use Rattle.std.specs.Prelude.{◌≡◌, []};
ghost use Rattle.event_graph.specs.Joined.{IsOfEdition};

use super::parts::{Worked, problem_of, root};
use disp_model::{Plan, Problem};
use event_graph::Graph;
use near_plans::{Ahead, look_ahead};
use solution_verifier::verify;
use std::alloc::Global;
use std::panic::Expect;
use std::process::Abort;
use train_insertion::{Target, target};

/// What a look ahead came to: what its plan costs, or whether all was seen dead.
type Came = (Option<u128>, bool);

/// What a plan costs, as the verifier says.
pub(crate) fn cost_of(rt: &impl Abort, problem: &Problem, plan: &Plan) -> u128 {
    match verify(problem, &[], plan, None) {
        Ok(cost) => cost,
        Err(_) => panic!(rt; "the plan is not valid"),
    }
}

/// What a look ahead came to.
fn came_to(rt: &impl Abort, problem: &Problem, ahead: &Ahead) -> Came {
    match &ahead.plan {
        Some(plan) => (Some(cost_of(rt, problem, plan)), false),
        None => (None, ahead.dead_by_time),
    }
}

/// What a look ahead along a target in so many nodes comes to.
fn looked(
    rt: &impl Abort,
    alloc: Global,
    problem: &Problem,
    graph: &mut Graph,
    target: &Target,
    nodes: u32,
) -> Came
    requires problem { graph.old.problem ≡ problem.now }
    requires edition { IsOfEdition graph.old }
    requires root { graph.old.decisions ≡ [] }
{
    let ahead = look_ahead(alloc, problem, graph, target, 0, nodes).expect(rt, "a look");
    let came = came_to(rt, problem, &ahead);
    drop(ahead);
    came
}

/// A look ahead along a target in so many nodes comes to this, and leaves the graph at the root.
fn check(
    rt: &impl Abort,
    alloc: Global,
    problem: &Problem,
    target: &Target,
    nodes: u32,
    wanted: Came,
) {
    let mut graph = root(rt, alloc, problem);
    let came = looked(rt, alloc, problem, &mut graph, target, nodes);
    assert_eq!(rt; (came, graph.decisions().len()), (wanted, 0));
    drop(graph);
}

/// The target that the insertion of trains gives, or none.
fn target_of(rt: &impl Abort, alloc: Global, problem: &Problem, inserted: bool) -> Target {
    if inserted {
        target(alloc, problem, &[], 100, &mut Vec::new(alloc)).expect(rt, "a target")
    } else {
        Target::none(alloc)
    }
}

/// A problem, whether there is a target, how many nodes, and what a look ahead comes to.
type Row = (Worked, bool, u32, Came);

/// So it is for a row.
fn check_row(rt: &impl Abort, alloc: Global, row: &Row) {
    let (worked, inserted, nodes, wanted) = *row;
    let problem = problem_of(rt, alloc, worked);
    let target = target_of(rt, alloc, &problem, inserted);
    check(rt, alloc, &problem, &target, nodes, wanted);
    drop(target);
    drop(problem);
}

/// So it is for each row.
fn check_rows(rt: &impl Abort, alloc: Global, rows: &[Row]) {
    for row in rows {
        check_row(rt, alloc, row);
    }
}

const BEST: &[Row] = &[
    (Worked::Trains, true, 100, (Some(18), false)),
    (Worked::Trains, false, 100, (Some(18), false)),
    (Worked::Fork, false, 100, (Some(5), false)),
];

#[test]
fn the_best_plan_is_found_ahead(rt: HostRuntime) {
    check_rows(&rt, rt.alloc(), BEST);
}

#[test]
fn no_plan_is_looked_for_in_no_nodes(rt: HostRuntime) {
    check_row(&rt, rt.alloc(), &(Worked::Trains, true, 0, (None, false)));
}

// Until 3 the block can be entered by one train alone.
#[test]
fn where_there_is_no_plan_all_is_seen_dead(rt: HostRuntime) {
    check_row(&rt, rt.alloc(), &(Worked::Until3, true, 100, (None, true)));
}
