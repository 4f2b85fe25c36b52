ghost use Rattle.std.specs.Prelude.{◌≡◌, IfOk};
ghost use Rattle.problem_facts.specs.Components.{AreOwnOf};
ghost use Rattle.share_bound.specs.Free.{IsFreeBound};
ghost use Rattle.share_bound.specs.Known.{HoldFor};

use crate::trains::{Listed, Shares, list_trains};
use crate::walks::{Walks, walks_beside};
use disp_model::{Memory, Problem};
use event_graph::Graph;
use problem_facts::OwnComponents;
use share_bound::{FreeBound, KnownShares, free_bound};
use std::alloc::Global;

/// The bound of a node of the problem under the free rule, with a leaf that shows it: trains whose
/// share is more than their forced components cost, each with the walks that its share needs, and
/// walks to the components of the others. Fails for memory alone.
pub fn short_bound(
    alloc: Global,
    problem: &Problem,
    components: &OwnComponents,
    graph: &Graph,
    known: &mut KnownShares,
) -> Result<FreeBound, Memory>
    requires node { graph.now.problem ≡ problem.now }
    requires own { AreOwnOf problem.now components.now }
    requires known { HoldFor graph.now known.old }
    ensures known { HoldFor graph.now known.new }
    ensures bound { IfOk result (IsFreeBound graph.now) }
{
    let Shares { listed, total } = list_trains(alloc, problem, components, graph, known)?;
    let beside = walks_beside(
        alloc,
        problem,
        graph,
        listed.trains.as_slice(),
        listed.beside,
    )?;
    if listed.cost.saturating_add(beside.cost) < total {
        return free_bound(alloc, problem, components, graph);
    }
    let Walks { walks, .. } = beside;
    let Listed { trains, .. } = listed;
    Ok(FreeBound {
        cost: total,
        walks,
        trains,
    })
}
