ghost use Rattle.std.specs.Prelude.{◌≡◌, ◌+◌, ◌<◌, ◌≤◌, ℕ, All, IfOk, OnOk, Some, slice_get};
ghost use Rattle.disp_model.specs.declared.tree.Leaf.TheVariants.{Costs};
ghost use Rattle.disp_model.specs.declared.tree.Verdict.TheVariants.{Optimal};
ghost use Rattle.disp_model.specs.Nodes.{IsForcedBound};
ghost use Rattle.disp_model.specs.Trees.{WalksCost, HaveDistinct, LeafHolds, FitsLeaf};
ghost use Rattle.cost_bound.specs.Bounds.{AddsCost, AreInOrder, IsBoundTo};

use crate::arrival::arrival_of;
use crate::shown::Bound;
use crate::walk::walk_to;
use disp_model::{Component, ComponentWalk, List, Memory, Problem};
use event_graph::Graph;
use std::alloc::Global;

/// Adds what a component costs, with a walk where that is something.
fn add(
    alloc: Global,
    graph: &Graph,
    place: u32,
    component: &Component,
    bound: &mut Bound,
) -> Result<(), Memory>
    requires there { slice_get graph.now.problem.components place ≡ Some component.now }
    requires before { IsBoundTo graph.now place bound.old }
    ensures { OnOk result (IsBoundTo graph.now (place + 1) bound.new) }
{
    let Some(arrival) = arrival_of(graph, component) else {
        return Ok(());
    };
    if arrival.cost == 0 {
        return Ok(());
    }
    let walk = walk_to(alloc, graph, arrival.number)?;
    let component = place;
    bound.walks.push(ComponentWalk { component, walk })?;
    bound.cost += arrival.cost;
    Ok(())
}

/// What the forced components of a node of the problem add up to, as `cost` says it, with a walk
/// for each component that adds to it and for no other, in their order. A walk names only where it
/// enters trains and where it leaves them; it takes time linear in the operations that it passes
/// and the arcs into them. Fails for memory alone.
pub fn bound(alloc: Global, problem: &Problem, graph: &Graph) -> Result<Bound, Memory>
    requires { graph.now.problem ≡ problem.now }
    ensures cost { IfOk result (λ bound. IsForcedBound graph.now bound.cost) }
    ensures costs { IfOk result (λ bound. WalksCost graph.now bound.walks bound.cost) }
    ensures order { IfOk result (λ bound. AreInOrder bound.walks) }
    ensures distinct { IfOk result (λ bound. HaveDistinct bound.walks) }
    ensures each { IfOk result (λ bound. All (AddsCost graph.now) bound.walks) }
    ensures leaf { IfOk result (λ bound. (least : ℕ) → least ≤ bound.cost
        → LeafHolds graph.now (Optimal least) (Costs bound.walks)) }
    ensures fits { IfOk result (λ bound. FitsLeaf (Costs bound.walks)) }
{
    let mut bound = Bound {
        cost: 0,
        walks: List::new(alloc),
    };
    for (place, component) in problem.components.as_slice().iter().enumerate() {
        add(alloc, graph, place as u32, component, &mut bound)?;
    }
    Ok(bound)
}
