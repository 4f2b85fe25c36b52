ghost use Rattle.std.specs.Prelude.{◌≡◌, ◌≤◌, All, sum_by};
ghost use Rattle.disp_model.specs.declared.limits.TheConstants.{GREATEST_COST};
ghost use Rattle.disp_model.specs.WellFormed.{IsComponent, horizon, most_of};
ghost use Rattle.disp_model.specs.Nodes.{AddsForced, ForcedAddUp, IsForcedBound};

use crate::arrival::arrival_of;
use disp_model::{Component, Problem};
use event_graph::Graph;

/// What a component adds.
fn added(graph: &Graph, component: &Component) -> u64
    requires named { IsComponent graph.now.problem.trains component.now }
    requires fits { most_of (horizon graph.now.problem.trains) component.now ≤ GREATEST_COST }
    ensures adds { AddsForced graph.now component.now result }
    ensures most { result ≤ most_of (horizon graph.now.problem.trains) component.now }
{
    match arrival_of(graph, component) {
        Some(arrival) => arrival.cost,
        None => 0,
    }
}

/// What components add up to.
fn sum_of(graph: &Graph, components: &[Component]) -> u64
    requires named { All (IsComponent graph.now.problem.trains) components.now }
    requires fits { sum_by (most_of (horizon graph.now.problem.trains)) components.now
        ≤ GREATEST_COST }
    ensures { ForcedAddUp graph.now components.now result }
{
    let mut sum = 0;
    for component in components {
        sum += added(graph, component);
    }
    sum
}

/// What the forced components of a node of the problem add up to: no valid plan that follows the
/// node's decisions costs less. Takes one look at each component, and no memory.
pub fn cost(problem: &Problem, graph: &Graph) -> u64
    requires { graph.now.problem ≡ problem.now }
    ensures { IsForcedBound graph.now result }
{
    sum_of(graph, problem.components.as_slice())
}
