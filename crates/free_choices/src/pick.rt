ghost use Rattle.std.specs.Prelude.{◌≡◌, IfOk, IfSome, Some};
ghost use Rattle.disp_model.specs.declared.settings.Rule.TheVariants.{Free};
ghost use Rattle.disp_model.specs.Nodes.{IsDead};
ghost use Rattle.disp_model.specs.Earliest.{IsPicked};
ghost use Rattle.free_choices.specs.Picks.{IsPickBy};

use crate::open_order::is_open_order;
use crate::open_route::is_open_route;
use crate::open_run::is_open_run;
use crate::open_touch::is_open_touch;
use branch_rules::{Pick, pick_fixed};
use choice_advice::{Advice, Adviser, Strategy};
use disp_model::{Choice, Memory, Op, Problem};
use event_graph::Graph;
use std::alloc::Global;

/// The route of an operation, where it is open.
pub(crate) fn tested_route(problem: &Problem, graph: &Graph, op: Op) -> Option<Choice>
    requires { graph.now.problem ≡ problem.now }
    ensures { IfSome result (λ choice. IsPicked graph.now Free (Some choice)) }
{
    if is_open_route(problem, graph, op) {
        Some(Choice::Route(op))
    } else {
        None
    }
}

/// The order of two operations, where it is open since both hold the resource at a time.
pub(crate) fn tested_order(
    problem: &Problem,
    graph: &Graph,
    a: Op,
    b: Op,
    resource: u32,
) -> Option<Choice>
    requires { graph.now.problem ≡ problem.now }
    ensures { IfSome result (λ choice. IsPicked graph.now Free (Some choice)) }
{
    if is_open_order(problem, graph, a, b, resource) {
        Some(Choice::Order(a, b))
    } else {
        None
    }
}

/// The order of two operations, where it is open since one ends as the other starts, and something
/// is to be picked since the routes part at another operation.
pub(crate) fn tested_touch(
    problem: &Problem,
    graph: &Graph,
    a: Op,
    b: Op,
    resource: u32,
    fork: Op,
) -> Option<Choice>
    requires { graph.now.problem ≡ problem.now }
    ensures { IfSome result (λ choice. IsPicked graph.now Free (Some choice)) }
{
    if !is_open_route(problem, graph, fork) {
        return None;
    }
    if !is_open_touch(problem, graph, a, b, resource) {
        return None;
    }
    Some(Choice::Order(a, b))
}

/// Whether an operation is run, where that is open.
pub(crate) fn tested_run(problem: &Problem, graph: &Graph, op: Op) -> Option<Choice>
    requires { graph.now.problem ≡ problem.now }
    ensures { IfSome result (λ choice. IsPicked graph.now Free (Some choice)) }
{
    if is_open_run(problem, graph, op) {
        Some(Choice::Run(op))
    } else {
        None
    }
}

/// The choice that is advised, where it is open and something is to be picked.
fn tested(problem: &Problem, graph: &Graph, advice: Advice) -> Option<Choice>
    requires { graph.now.problem ≡ problem.now }
    ensures { IfSome result (λ choice. IsPicked graph.now Free (Some choice)) }
{
    match advice {
        Advice::Route(op) => tested_route(problem, graph, op),
        Advice::Order { a, b, resource } => tested_order(problem, graph, a, b, resource),
        Advice::Touch {
            a,
            b,
            resource,
            fork,
        } => tested_touch(problem, graph, a, b, resource, fork),
        Advice::Run(op) => tested_run(problem, graph, op),
    }
}

/// The first operation of the first train whose routes part, at which they do.
pub(crate) fn first_fork(problem: &Problem, graph: &Graph) -> Option<Op>
    requires { graph.now.problem ≡ problem.now }
{
    for train in 0..problem.trains.len() as u32 {
        if let Some(op) = graph.routes(train).fork() {
            return Some(Op { train, op });
        }
    }
    None
}

/// The route at which those of the first train part that has more than one.
fn first_route(problem: &Problem, graph: &Graph) -> Option<Choice>
    requires { graph.now.problem ≡ problem.now }
    ensures { IfSome result (λ choice. IsPicked graph.now Free (Some choice)) }
{
    tested_route(problem, graph, first_fork(problem, graph)?)
}

/// The choice that an adviser names by a look at all choices, where there is one, it is open and
/// something is to be picked.
fn thought_out(
    problem: &Problem,
    graph: &Graph,
    adviser: &mut Adviser,
    strategy: Strategy,
    room: u64,
) -> Result<Option<Choice>, Memory>
    requires { graph.now.problem ≡ problem.now }
    ensures { IfOk result
        (λ found. IfSome found (λ choice. IsPicked graph.now Free (Some choice))) }
{
    let Some(advice) = adviser.advise(problem, graph, strategy, room)? else {
        return Ok(None);
    };
    Ok(tested(problem, graph, advice))
}

/// The choice that an adviser names, where there is one, it is open and something is to be picked.
fn advised(
    problem: &Problem,
    graph: &Graph,
    adviser: &mut Adviser,
    strategy: Strategy,
    room: u64,
) -> Result<Option<Choice>, Memory>
    requires { graph.now.problem ≡ problem.now }
    ensures { IfOk result
        (λ found. IfSome found (λ choice. IsPicked graph.now Free (Some choice))) }
{
    if strategy == Strategy::Any {
        if let Some(choice) = first_route(problem, graph) {
            return Ok(Some(choice));
        }
    }
    thought_out(problem, graph, adviser, strategy, room)
}

/// What the fixed rule finds: that serves the free rule too.
fn fallen_back(alloc: Global, problem: &Problem, graph: &Graph) -> Result<Pick, Memory>
    requires problem { graph.now.problem ≡ problem.now }
    requires alive { IsDead graph.now → ⊥ }
    ensures { IfOk result (IsPickBy Free graph.now) }
{
    pick_fixed(alloc, problem, graph)
}

/// What the free rule finds at the node of a graph, which is not dead: an open choice, or the plan
/// of earliest starts where that is valid. Which open choice it is follows the strategy of an
/// adviser for this problem, as far as that knows one, to which an order counts as one that leaves
/// no plan where it raises the cost by `room` or more.
///
/// # Errors
///
/// `Memory` where memory runs out.
pub fn pick_free(
    alloc: Global,
    problem: &Problem,
    graph: &Graph,
    adviser: &mut Adviser,
    strategy: Strategy,
    room: u64,
) -> Result<Pick, Memory>
    requires problem { graph.now.problem ≡ problem.now }
    requires alive { IsDead graph.now → ⊥ }
    ensures { IfOk result (IsPickBy Free graph.now) }
{
    match advised(problem, graph, adviser, strategy, room)? {
        Some(choice) => Ok(Pick::Choice(choice)),
        None => fallen_back(alloc, problem, graph),
    }
}
