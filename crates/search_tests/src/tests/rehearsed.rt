// Rehearsals from the root of an edition without fixings.
ghost use Rattle.std.specs.Prelude.{◌≡◌};
ghost use Rattle.event_graph.specs.Joined.{IsOfEdition};
ghost use Rattle.near_plans.specs.Plans.{IsBeside};

use super::ahead::cost_of;
use super::parts::{Worked, means_of, problem_of, root};
use disp_model::{Decision, Problem, Rule};
use event_graph::Graph;
use rehearsals::{Ending, Lessons, Rehearsed, Trial, rehearse};
use std::alloc::Global;
use std::panic::Expect;
use std::process::Abort;
use train_insertion::Target;
use tree_dives::rewind;

/// What a rehearsal came to: what its plan costs, what the best plan is known to cost, and whether
/// there is a script.
type Came = (Option<u128>, Option<u64>, bool);

/// What a rehearsal came to.
fn came_to(rt: &impl Abort, problem: &Problem, rehearsed: &Rehearsed) -> Came {
    let cost = match &rehearsed.plan {
        Some(plan) => Some(cost_of(rt, problem, plan)),
        None => None,
    };
    let closed = match rehearsed.ending {
        Ending::Closed(_) => true,
        Ending::Open(_) => false,
    };
    (cost, rehearsed.best, closed)
}

/// Rehearses at so many nodes, for plans that cost less than this, with what was learned before.
fn rehearsed(
    rt: &impl Abort,
    alloc: Global,
    problem: &Problem,
    graph: &mut Graph,
    lessons: Lessons,
    best: Option<u64>,
    nodes: u32,
) -> Rehearsed
    requires problem { graph.old.problem ≡ problem.now }
    requires edition { IsOfEdition graph.old }
    ensures beside { IsBeside graph.old graph.new }
{
    let mut means = means_of(rt, alloc, problem, Rule::Free);
    let target = Target::none(alloc);
    let trial = Trial {
        fixings: &[],
        target: &target,
        best,
        nodes,
    };
    let rehearsed = rehearse(
        alloc,
        problem,
        &means.reckoning,
        graph,
        &mut means.known,
        &mut means.guide,
        lessons,
        trial,
    );
    drop(target);
    drop(means);
    rehearsed.expect(rt, "a rehearsal")
}

/// What a rehearsal at so many nodes comes to, for plans that cost less than this.
fn tried(
    rt: &impl Abort,
    alloc: Global,
    problem: &Problem,
    graph: &mut Graph,
    best: Option<u64>,
    nodes: u32,
) -> Came
    requires problem { graph.old.problem ≡ problem.now }
    requires edition { IsOfEdition graph.old }
{
    let lessons = Lessons::new(alloc, &[]).expect(rt, "lessons");
    let rehearsed = rehearsed(rt, alloc, problem, graph, lessons, best, nodes);
    let came = came_to(rt, problem, &rehearsed);
    drop(rehearsed);
    came
}

/// A problem, what is known of the best cost, at how many nodes, and what a rehearsal comes to.
type Row = (Worked, Option<u64>, u32, Came);

/// So it is for a row.
fn check_row(rt: &impl Abort, alloc: Global, row: &Row) {
    let (worked, best, nodes, wanted) = *row;
    let problem = problem_of(rt, alloc, worked);
    let mut graph = root(rt, alloc, &problem);
    assert_eq!(rt; tried(rt, alloc, &problem, &mut graph, best, nodes), wanted);
    drop(graph);
    drop(problem);
}

/// So it is for each row.
fn check_rows(rt: &impl Abort, alloc: Global, rows: &[Row]) {
    for row in rows {
        check_row(rt, alloc, row);
    }
}

// Until 3 the block can be entered by one train alone.
const TO_THE_END: &[Row] = &[
    (Worked::Trains, None, 100, (Some(18), Some(18), true)),
    (Worked::Trains, Some(19), 100, (Some(18), Some(18), true)),
    (Worked::Trains, Some(18), 100, (None, Some(18), true)),
    (Worked::Fork, None, 100, (Some(5), Some(5), true)),
    (Worked::Until3, None, 100, (None, None, true)),
];

#[test]
fn a_rehearsal_finds_the_best_plan_and_a_script(rt: HostRuntime) {
    check_rows(&rt, rt.alloc(), TO_THE_END);
}

#[test]
fn a_rehearsal_that_is_cut_has_no_script(rt: HostRuntime) {
    check_row(
        &rt,
        rt.alloc(),
        &(Worked::Trains, None, 1, (None, None, false)),
    );
}

/// Moves a graph from the root to the node of these decisions.
fn move_to(rt: &impl Abort, graph: &mut Graph, decisions: &[Decision])
    ensures { IsBeside graph.old graph.new }
{
    rewind(graph, 0);
    for decision in decisions {
        assert!(rt; graph.extend(*decision).is_ok());
    }
}

/// How a rehearsal at so many nodes goes on.
#[derive(Clone, Copy)]
enum Then {
    /// Where it came to,
    On(u32),
    /// or from the root again.
    Anew(u32),
}

/// Has the next rehearsal go on so, and gives at how many nodes.
fn turn(lessons: &mut Lessons, then: Then) -> u32 {
    match then {
        Then::On(nodes) => nodes,
        Then::Anew(nodes) => {
            lessons.begin_anew();
            nodes
        }
    }
}

/// What a rehearsal comes to that goes on with what one at so many nodes has learned.
fn gone_on(
    rt: &impl Abort,
    alloc: Global,
    problem: &Problem,
    graph: &mut Graph,
    nodes: u32,
    then: Then,
) -> Came
    requires problem { graph.old.problem ≡ problem.now }
    requires edition { IsOfEdition graph.old }
{
    let lessons = Lessons::new(alloc, &[]).expect(rt, "lessons");
    let first = rehearsed(rt, alloc, problem, graph, lessons, None, nodes);
    let Rehearsed { best, ending, .. } = first;
    let Ending::Open(mut lessons) = ending else {
        panic!(rt; "it came to an end");
    };
    let nodes = turn(&mut lessons, then);
    move_to(rt, graph, lessons.way());
    let second = rehearsed(rt, alloc, problem, graph, lessons, best, nodes);
    let came = came_to(rt, problem, &second);
    drop(second);
    came
}

/// Of two trains on one block, what a rehearsal comes to that goes on so behind one at two nodes.
fn goes_on(rt: &impl Abort, alloc: Global, then: Then, wanted: Came) {
    let problem = problem_of(rt, alloc, Worked::Trains);
    let mut graph = root(rt, alloc, &problem);
    assert_eq!(rt; gone_on(rt, alloc, &problem, &mut graph, 2, then), wanted);
    drop(graph);
    drop(problem);
}

// The root, and a child that ends in a plan; then the other child.
#[test]
fn a_rehearsal_goes_on_where_it_came_to(rt: HostRuntime) {
    let alloc = rt.alloc();
    goes_on(&rt, alloc, Then::On(1), (None, Some(18), true));
    goes_on(&rt, alloc, Then::Anew(1), (None, Some(18), false));
    goes_on(&rt, alloc, Then::Anew(3), (None, Some(18), true));
}
