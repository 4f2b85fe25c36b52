ghost use Rattle.std.specs.Prelude.{◌≡◌};
ghost use Rattle.near_plans.specs.Plans.{IsBeside};

use crate::region::{is_among, op_of};
use disp_model::{Decision, Event, Memory, Op, Problem};
use event_graph::{ExtendNo, Graph};
use problem_facts::listings_of;
use std::alloc::Global;
use train_insertion::Target;

/// How many decisions that are only taken over count as one node.
const TAKEN_FOR_ONE: usize = 16;

/// How trains go on: their events in order, and the target that is the same.
#[derive(Clone, Copy)]
pub(crate) struct Course<'a> {
    pub events: &'a [Event],
    pub target: &'a Target,
}

/// Which trains are to go on as in a course.
#[derive(Clone, Copy)]
pub(crate) struct Going<'a> {
    /// These are out, all others go on.
    pub out: &'a [u32],
    /// Of which all but these do so already, where these are named.
    pub new: Option<&'a [u32]>,
}

impl Going<'_> {
    /// Whether a train is to go on.
    fn has(&self, train: u32) -> bool {
        !is_among(self.out, train)
    }

    /// Whether a train does not go on yet, unless it is out.
    fn is_new(&self, train: u32) -> bool {
        self.new.is_none_or(|new| is_among(new, train))
    }
}

/// Adds a decision, where it is not refused.
fn add(graph: &mut Graph, decision: Decision) -> Result<(), Memory>
    ensures { IsBeside graph.old graph.new }
{
    match graph.extend(decision) {
        Err(ExtendNo::Memory) => Err(Memory),
        _ => Ok(()),
    }
}

/// Whether the routes of a train part at an operation that it must run.
fn parts_at(problem: &Problem, graph: &Graph, op: Op) -> bool
    requires { graph.now.problem ≡ problem.now }
{
    if op.train as usize >= problem.trains.len() {
        return false;
    }
    let routes = graph.routes(op.train);
    routes.forced(op.op) && routes.only_next(op.op).is_none()
}

/// Has a train go on from an operation as a target does.
fn take_route(problem: &Problem, graph: &mut Graph, target: &Target, op: Op) -> Result<(), Memory>
    requires { graph.old.problem ≡ problem.now }
    ensures { IsBeside graph.old graph.new }
{
    if !parts_at(problem, graph, op) {
        return Ok(());
    }
    match target.next_of(op) {
        Some(next) => add(graph, Decision::Go { op, next }),
        None => Ok(()),
    }
}

/// Has trains take the routes of a course.
fn take_routes(
    problem: &Problem,
    graph: &mut Graph,
    course: Course,
    going: Going,
) -> Result<(), Memory>
    requires { graph.old.problem ≡ problem.now }
    ensures { IsBeside graph.old graph.new }
{
    for event in course.events {
        if going.has(event.train) && going.is_new(event.train) {
            take_route(problem, graph, course.target, op_of(event))?;
        }
    }
    Ok(())
}

/// Has an operation come after the one that held a resource last, and hold it.
fn take_order(graph: &mut Graph, going: Going, last: &mut Option<Op>, op: Op) -> Result<(), Memory>
    ensures { IsBeside graph.old graph.new }
{
    let before = *last;
    *last = Some(op);
    match before {
        Some(before)
            if before.train != op.train && (going.is_new(before.train) || going.is_new(op.train)) =>
            { add(graph, Decision::First { a: before, b: op }) }
        _ => Ok(()),
    }
}

/// Has an operation come after those that held its resources last.
fn take_orders_of(
    problem: &Problem,
    graph: &mut Graph,
    going: Going,
    last: &mut Vec<Option<Op>>,
    op: Op,
) -> Result<(), Memory>
    ensures { IsBeside graph.old graph.new }
{
    for listing in listings_of(problem, op) {
        if let Some(last) = last.get_mut(listing.resource as usize) {
            take_order(graph, going, last, op)?;
        }
    }
    Ok(())
}

/// Has trains hold each resource in the order of these events.
fn take_orders(
    alloc: Global,
    problem: &Problem,
    graph: &mut Graph,
    events: &[Event],
    going: Going,
) -> Result<(), Memory>
    ensures { IsBeside graph.old graph.new }
{
    let mut last = vec![in alloc; None; problem.names.len()]?;
    for event in events {
        if going.has(event.train) {
            take_orders_of(problem, graph, going, &mut last, op_of(event))?;
        }
    }
    Ok(())
}

/// Has trains go on as in a course. Gives for how many nodes that counts.
pub(crate) fn take_over(
    alloc: Global,
    problem: &Problem,
    graph: &mut Graph,
    course: Course,
    going: Going,
) -> Result<u32, Memory>
    requires { graph.old.problem ≡ problem.now }
    ensures { IsBeside graph.old graph.new }
{
    let depth = graph.decisions().len();
    take_routes(problem, graph, course, going)?;
    take_orders(alloc, problem, graph, course.events, going)?;
    let taken = graph.decisions().len().saturating_sub(depth);
    Ok(u32::try_from(taken / TAKEN_FOR_ONE).unwrap_or(u32::MAX))
}
