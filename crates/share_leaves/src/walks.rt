ghost use Rattle.std.specs.Prelude.{◌≡◌, ◌≢◌, ◌+◌, All, IfOk, IsTrue, OnOk, Some, length, slice_get};
ghost use Rattle.disp_model.specs.Nodes.{component_op};
ghost use Rattle.share_leaves.specs.Beside.{AreWalksBeside};

use cost_bound::longest_walk;
use disp_model::{Component, ComponentWalk, List, Memory, Op, Problem, TrainWalks};
use event_graph::Graph;
use share_bound::{base_of, cost_of};
use std::alloc::Global;

/// Walks to components, and what these cost at least.
#[derive(Drop)]
pub(crate) struct Walks {
    pub walks: List<ComponentWalk>,
    pub cost: u64,
}

/// The operation of a component.
fn op_of(component: &Component) -> Op
    ensures { result ≡ component_op component.now }
{
    Op {
        train: component.train,
        op: component.operation,
    }
}

/// Whether a train is not listed.
fn is_other(trains: &[TrainWalks], train: u32) -> bool
    ensures { IsTrue result → All (λ listed. listed.train ≢ train) trains.now }
{
    trains.iter().all(|listed| listed.train != train)
}

/// Adds a walk to a component that costs something, where its train is not listed.
fn add(
    alloc: Global,
    graph: &Graph,
    trains: &[TrainWalks],
    place: u32,
    component: &Component,
    walks: &mut Walks,
) -> Result<(), Memory>
    requires there { slice_get graph.now.problem.components place ≡ Some component.now }
    requires before { AreWalksBeside graph.now trains.now place walks.old }
    ensures { OnOk result (AreWalksBeside graph.now trains.now (place + 1) walks.new) }
{
    if !is_other(trains, component.train) {
        return Ok(());
    }
    if !graph.routes(component.train).forced(component.operation) {
        return Ok(());
    }
    let op = op_of(component);
    let cost = cost_of(component, base_of(graph, op));
    if cost == 0 {
        return Ok(());
    }
    let walk = longest_walk(alloc, graph, op)?;
    let component = place;
    walks.walks.push(ComponentWalk { component, walk })?;
    walks.cost = walks.cost.saturating_add(cost);
    Ok(())
}

/// Walks to the forced components that cost something, of trains that are not listed. There is room
/// for so many.
pub(crate) fn walks_beside(
    alloc: Global,
    problem: &Problem,
    graph: &Graph,
    trains: &[TrainWalks],
    room: usize,
) -> Result<Walks, Memory>
    requires { graph.now.problem ≡ problem.now }
    ensures { IfOk result
        (AreWalksBeside graph.now trains.now (length problem.now.components)) }
{
    let mut walks = Walks {
        walks: List::from_vec(Vec::with_capacity(alloc, room)?),
        cost: 0,
    };
    for (place, component) in problem.components.as_slice().iter().enumerate() {
        add(alloc, graph, trains, place as u32, component, &mut walks)?;
    }
    Ok(walks)
}
