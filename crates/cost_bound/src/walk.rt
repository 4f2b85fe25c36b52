ghost use Rattle.std.specs.Prelude.{◌≡◌, IfOk};
ghost use Rattle.disp_model.specs.Numbers.{number_of};
ghost use Rattle.disp_model.specs.Routes.{IsForced};
ghost use Rattle.disp_model.specs.declared.train.Op.{Op as OpOf};
ghost use Rattle.cost_bound.specs.Shortened.{NamesEnds};
ghost use Rattle.cost_bound.specs.Bounds.{IsLongWalk};

use crate::ends::ends_over;
use disp_model::{List, Memory, Op};
use event_graph::Graph;
use std::alloc::Global;

/// A walk to the operation of a number, which is forced, as long as its longest. It names only
/// where it enters trains and where it leaves them.
pub(crate) fn walk_to(alloc: Global, graph: &Graph, number: u32) -> Result<List<Op>, Memory>
    requires { (o : OpOf) × IsForced graph.now o × (number ≡ number_of graph.now.problem o) }
    ensures walk { (o : OpOf) → IsForced graph.now o → number ≡ number_of graph.now.problem o
        → IfOk result (IsLongWalk graph.now o) }
    ensures short { IfOk result NamesEnds }
{
    let numbers = graph.paths().walk(number)?;
    let ends = ends_over(alloc, graph, &numbers)?;
    Ok(ends)
}

/// A walk to an operation that its train must run, as long as the longest. It names only where it
/// enters trains and where it leaves them. Fails for memory alone.
pub fn longest_walk(alloc: Global, graph: &Graph, op: Op) -> Result<List<Op>, Memory>
    requires { IsForced graph.now op }
    ensures walk { IfOk result (IsLongWalk graph.now op) }
    ensures short { IfOk result NamesEnds }
{
    walk_to(alloc, graph, graph.number(op))
}
