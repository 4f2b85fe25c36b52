ghost use Rattle.std.specs.Prelude.{◌↔◌, IsTrue};
ghost use Rattle.disp_model.specs.Node.{node_at};
ghost use Rattle.disp_model.specs.Nodes.{component_op};
ghost use Rattle.disp_model.specs.Walks.{EndsIn};
ghost use Rattle.node_facts.specs.Orders.{AreKnown};
ghost use Rattle.node_facts.specs.Costs.{IsWalkCost, IsCostOfAll};

use crate::arcs::is_same;
use crate::fixing_index::FixingIndex;
use crate::late::end_of;
use crate::trains::KnownTrains;
use crate::walks::walk_length;
use decision_paths::DecisionPath;
use disp_model::{Component, ComponentWalk, Op, Problem};
use problem_facts::cost_of;

/// Whether a walk ends in the operation of a component.
pub fn ends_in(walk: &[Op], component: &Component) -> bool
    ensures { IsTrue result ↔ EndsIn walk.now (component_op component.now) }
{
    match end_of(walk) {
        Some(end) => {
            let op = Op {
                train: component.train,
                op: component.operation,
            };
            is_same(end, op)
        }
        None => false,
    }
}

/// What the component of a walk costs at the walk's length; none where the list is no walk to the
/// operation of its component.
fn walk_cost(
    problem: &Problem,
    fixings: &FixingIndex,
    decisions: &DecisionPath,
    trains: &KnownTrains,
    listed: &ComponentWalk,
) -> Option<u128>
    requires { AreKnown (node_at problem.now fixings.now decisions.now) trains.now }
    ensures { IsWalkCost (node_at problem.now fixings.now decisions.now) listed.now result }
{
    let walk = listed.walk.as_slice();
    let Some(component) = problem.components.as_slice().get(listed.component as usize) else {
        return None;
    };
    if !ends_in(walk, component) {
        return None;
    }
    match walk_length(problem, fixings, decisions, trains, walk) {
        Some(total) => Some(cost_of(component, total)),
        None => None,
    }
}

/// What the components of walks cost together; none where one of the lists is no walk to the
/// operation of its component.
pub fn walks_cost(
    problem: &Problem,
    fixings: &FixingIndex,
    decisions: &DecisionPath,
    trains: &KnownTrains,
    walks: &[ComponentWalk],
) -> Option<u128>
    requires { AreKnown (node_at problem.now fixings.now decisions.now) trains.now }
    ensures { IsCostOfAll (node_at problem.now fixings.now decisions.now) walks.now result }
{
    let mut total: u128 = 0;
    for listed in walks {
        match walk_cost(problem, fixings, decisions, trains, listed) {
            Some(cost) => total = total.saturating_add(cost),
            None => return None,
        }
    }
    Some(total)
}
