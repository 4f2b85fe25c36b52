ghost use Rattle.std.specs.Prelude.{◌≡◌, MatchOption, IfOk, IfSome, length};
ghost use Rattle.disp_model.specs.declared.decision.Choice.TheVariants.{Order};
ghost use Rattle.disp_model.specs.Nodes.{IsDead};
ghost use Rattle.disp_model.specs.Earliest.{IsEarliest, IsFirstFork, IsFixedPick};
ghost use Rattle.first_overlaps.specs.Known.{AreSpansFor};
ghost use Rattle.branch_rules.specs.Picks.{AreAlone, AreTheOnly, IsSomeNotAlone, IsPickAt};

use crate::pair::Pair;
use crate::sweep::first_clash;
use disp_model::{Choice, List, Memory, Op, Plan, Problem};
use event_graph::Graph;
use first_overlaps::KnownSpans;
use plan_builder::earliest;
use std::alloc::Global;

/// What a rule finds at a node of the search that is not dead.
#[derive(Drop)]
pub enum Pick {
    /// The choice that is picked there.
    Choice(Choice),
    /// None is picked, since the plan of earliest starts is valid: this plan.
    Plan(Plan),
}

/// The fork of the first train whose allowed routes part.
fn first_fork(problem: &Problem, graph: &Graph) -> Option<Op>
    requires { graph.now.problem ≡ problem.now }
    ensures { MatchOption result (AreAlone graph.now (length problem.now.trains))
        (IsFirstFork graph.now) }
{
    for train in 0..problem.trains.len() as u32 {
        if let Some(op) = graph.routes(train).fork() {
            return Some(Op { train, op });
        }
    }
    None
}

/// The routes of the trains, where each has one route and no other.
fn only_routes(
    alloc: Global,
    problem: &Problem,
    graph: &Graph,
) -> Result<Option<Vec<List<u32>>>, Memory>
    requires { graph.now.problem ≡ problem.now }
    ensures count { IfOk result
        (λ found. IfSome found (λ singles. length singles.items ≡ length problem.now.trains)) }
    ensures only { IfOk result (λ found.
        MatchOption found (IsSomeNotAlone graph.now (length problem.now.trains))
        (λ singles. AreTheOnly graph.now (length problem.now.trains) singles.items)) }
{
    let mut singles = Vec::with_capacity(alloc, problem.trains.len())?;
    for train in 0..problem.trains.len() as u32 {
        let Some(route) = graph.routes(train).only_route()? else {
            return Ok(None);
        };
        singles.push(route)?;
    }
    Ok(Some(singles))
}

/// The choice of the order of a pair, where there is one.
fn order_of(pair: Option<Pair>) -> Option<Choice>
    ensures { MatchOption pair (result ≡ None) (λ p. result ≡ Some (Order p.a p.b)) }
{
    match pair {
        Some(pair) => Some(Choice::Order(pair.a, pair.b)),
        None => None,
    }
}

/// What the plan of earliest starts shows at the node of a graph, which is not dead: the order of
/// the first two that clash, or that the plan is valid.
fn pick_by_plan(alloc: Global, problem: &Problem, graph: &Graph, plan: Plan) -> Result<Pick, Memory>
    requires problem { graph.now.problem ≡ problem.now }
    requires alive { IsDead graph.now → ⊥ }
    requires earliest { IsEarliest graph.now plan }
    ensures { IfOk result (IsPickAt graph.now) }
{
    let _paths = graph.paths();
    match order_of(first_clash(alloc, problem, plan.as_slice())?) {
        Some(choice) => Ok(Pick::Choice(choice)),
        None => Ok(Pick::Plan(plan)),
    }
}

/// The order of the first two operations that hold a resource at a time, where that is sure and each
/// train has one route.
fn first_order(problem: &Problem, graph: &Graph, spans: &mut KnownSpans) -> Option<Choice>
    requires problem { graph.now.problem ≡ problem.now }
    requires alive { IsDead graph.now → ⊥ }
    requires alone { AreAlone graph.now (length problem.now.trains) }
    requires spans { AreSpansFor problem.now spans.old }
    ensures spans { AreSpansFor problem.now spans.new }
    ensures order { IfSome result (λ choice. IsFixedPick graph.now (Some choice)) }
{
    match spans.first_overlap(problem, graph) {
        Some(overlap) => Some(Choice::Order(overlap.a, overlap.b)),
        None => None,
    }
}

/// What the plan of earliest starts shows at the node of a graph, which is not dead and at which
/// each train has one route.
fn pick_by_routes(alloc: Global, problem: &Problem, graph: &Graph) -> Result<Pick, Memory>
    requires problem { graph.now.problem ≡ problem.now }
    requires alive { IsDead graph.now → ⊥ }
    requires alone { AreAlone graph.now (length problem.now.trains) }
    ensures { IfOk result (IsPickAt graph.now) }
{
    let Some(singles) = only_routes(alloc, problem, graph)? else {
        unreachable!();
    };
    let plan = earliest(alloc, problem, &singles, graph.paths())?;
    pick_by_plan(alloc, problem, graph, plan)
}

/// What the fixed rule finds at the node of a graph, which is not dead.
///
/// It is the route choice at the fork of the first train with two allowed routes. Where each train
/// has one, it is the order choice of the first two operations, by train and number of the first
/// and then of the second, whose events do not keep apart in the plan of earliest starts, the lower
/// train's first; and that plan where it is valid.
///
/// # Errors
///
/// `Memory` where memory runs out.
pub fn pick_fixed(alloc: Global, problem: &Problem, graph: &Graph) -> Result<Pick, Memory>
    requires problem { graph.now.problem ≡ problem.now }
    requires alive { IsDead graph.now → ⊥ }
    ensures { IfOk result (IsPickAt graph.now) }
{
    if let Some(op) = first_fork(problem, graph) {
        return Ok(Pick::Choice(Choice::Route(op)));
    }
    pick_by_routes(alloc, problem, graph)
}

/// What `pick_fixed` finds, where it is known when operations ran at the last pick: no plan is made
/// where the spans show the first clash.
///
/// # Errors
///
/// `Memory` where memory runs out.
pub fn pick_fixed_by(
    alloc: Global,
    problem: &Problem,
    graph: &Graph,
    spans: &mut KnownSpans,
) -> Result<Pick, Memory>
    requires problem { graph.now.problem ≡ problem.now }
    requires alive { IsDead graph.now → ⊥ }
    requires spans { AreSpansFor problem.now spans.old }
    ensures picked { IfOk result (IsPickAt graph.now) }
    ensures spans { AreSpansFor problem.now spans.new }
{
    if let Some(op) = first_fork(problem, graph) {
        return Ok(Pick::Choice(Choice::Route(op)));
    }
    match first_order(problem, graph, spans) {
        Some(choice) => Ok(Pick::Choice(choice)),
        None => pick_by_routes(alloc, problem, graph),
    }
}
