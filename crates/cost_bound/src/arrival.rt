ghost use Rattle.std.specs.Prelude.{◌≡◌, ◌≤◌, ◌^◌, ◌<◌, MatchOption};
ghost use Rattle.disp_model.specs.declared.limits.TheConstants.{GREATEST_COST};
ghost use Rattle.disp_model.specs.WellFormed.{IsComponent, horizon, most_of};
ghost use Rattle.disp_model.specs.Cost.{cost_at};
ghost use Rattle.disp_model.specs.Routes.{IsForced};
ghost use Rattle.disp_model.specs.Nodes.{component_op};
ghost use Rattle.cost_bound.specs.Arrivals.{IsArrival};

use disp_model::{Component, Op};
use event_graph::Graph;

/// The number of a component's operation, and what the component costs at its longest walk.
#[derive(Clone, Copy)]
pub(crate) struct Arrival {
    pub number: u32,
    pub cost: u64,
}

/// The operation of a component.
fn op_of(component: &Component) -> Op
    ensures { result ≡ component_op component.now }
{
    Op {
        train: component.train,
        op: component.operation,
    }
}

/// What a component costs where its operation starts at this time.
fn cost_at(component: &Component, start: u64) -> u64
    requires { cost_at component.now start < 2 ^ 64 }
    ensures { result ≡ cost_at component.now start }
{
    let threshold = u64::from(component.threshold);
    let coeff = u64::from(component.coeff);
    if start < threshold {
        0
    } else {
        coeff * (start - threshold) + u64::from(component.increment)
    }
}

/// Where a component's operation is, if it is forced, and what the component costs there.
pub(crate) fn arrival_of(graph: &Graph, component: &Component) -> Option<Arrival>
    requires named { IsComponent graph.now.problem.trains component.now }
    requires fits { most_of (horizon graph.now.problem.trains) component.now ≤ GREATEST_COST }
    ensures { MatchOption result (IsForced graph.now (component_op component.now) → ⊥)
        (IsArrival graph.now component.now) }
{
    if !graph.routes(component.train).forced(component.operation) {
        return None;
    }
    let number = graph.number(op_of(component));
    let length = graph.paths().length(number);
    let cost = cost_at(component, length);
    Some(Arrival { number, cost })
}
