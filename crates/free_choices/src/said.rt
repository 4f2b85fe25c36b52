ghost use Rattle.std.specs.Prelude.{◌≡◌, IfSome, Some};
ghost use Rattle.disp_model.specs.declared.settings.Rule.TheVariants.{Free};
ghost use Rattle.disp_model.specs.Earliest.{IsPicked};

use crate::pick::{first_fork, tested_order, tested_route, tested_run, tested_touch};
use disp_model::{Choice, Op, Problem};
use event_graph::Graph;
use problem_facts::listings_of;

/// The order of two operations, where it is open since both hold some resource at a time.
fn said_clash(problem: &Problem, graph: &Graph, a: Op, b: Op) -> Option<Choice>
    requires { graph.now.problem ≡ problem.now }
    ensures { IfSome result (λ choice. IsPicked graph.now Free (Some choice)) }
{
    for listing in listings_of(problem, a) {
        if let Some(choice) = tested_order(problem, graph, a, b, listing.resource) {
            return Some(choice);
        }
    }
    None
}

/// The order of two operations, where it is open since one ends on some resource as the other
/// starts, and the routes of some train part.
fn said_touch(problem: &Problem, graph: &Graph, a: Op, b: Op) -> Option<Choice>
    requires { graph.now.problem ≡ problem.now }
    ensures { IfSome result (λ choice. IsPicked graph.now Free (Some choice)) }
{
    let fork = first_fork(problem, graph)?;
    for listing in listings_of(problem, a) {
        if let Some(choice) = tested_touch(problem, graph, a, b, listing.resource, fork) {
            return Some(choice);
        }
    }
    None
}

/// A choice that is said to be good at the node of a graph, where it is open and something is to be
/// picked.
pub fn pick_said(problem: &Problem, graph: &Graph, choice: Choice) -> Option<Choice>
    requires { graph.now.problem ≡ problem.now }
    ensures { IfSome result (λ choice. IsPicked graph.now Free (Some choice)) }
{
    match choice {
        Choice::Route(op) => tested_route(problem, graph, op),
        Choice::Run(op) => tested_run(problem, graph, op),
        Choice::Order(a, b) => match said_clash(problem, graph, a, b) {
            Some(choice) => Some(choice),
            None => said_touch(problem, graph, a, b),
        },
    }
}
